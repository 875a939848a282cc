//! The commands of a stream: an integer profile of OpenGL 1.x, with barriers, semaphores and swaps in the stream.
ghost use Rattle.std.specs.Prelude.{◌≡◌, IfOk};

use crate::items::Items;
use crate::out_of_memory::OutOfMemory;
use std::alloc::Global;

/// Bytes of a file or a text.
pub type Bytes = Items<u8>;

/// Texels as r, g, b, a bytes, row by row; row 0 is at t = 0.
pub type Texels = Items<u8>;

/// The commands of one client, in their order.
pub type Commands = Items<Command>;

/// A 4 by 4 matrix of 16.16 fixed point, by columns: row r, column c stands at 4 * c + r.
#[derive(Clone, Copy, Debug, PartialEq, Eq)]
pub struct Mat4 {
    pub m: [i32; 16],
}

/// A colour, each channel from 0 to 255.
#[derive(Clone, Copy, Debug, PartialEq, Eq)]
pub struct Rgba {
    pub r: u8,
    pub g: u8,
    pub b: u8,
    pub a: u8,
}

/// A rectangle of texels for a texture: its lower left texel, its sides, and 4 * w * h bytes.
#[derive(Clone, Debug, PartialEq, Drop)]
pub struct Part {
    pub name: u8,
    pub x: u16,
    pub y: u16,
    pub w: u16,
    pub h: u16,
    pub texels: Texels,
}

/// A command as it stands in the stream: its fields are raw, and whether they are in range is judged when it is issued.
///
/// Positions, matrices, texture coordinates, the depth range and the clear depth are 16.16 fixed point, so 65536 is one.
#[derive(Clone, Debug, PartialEq, Drop)]
pub enum Command {
    /// Opens a block of triangles (0), a triangle strip (1) or a triangle fan (2).
    Begin {
        mode: u8,
    },
    /// Closes the open block and draws it.
    End,
    /// Adds a vertex with the current colour and texture coordinate.
    Vertex {
        pos: [i32; 4],
    },
    /// Sets the current colour.
    Color(Rgba),
    /// Sets the current texture coordinate.
    TexCoord {
        s: i32,
        t: i32,
    },
    Enable {
        capability: u8,
    },
    Disable {
        capability: u8,
    },
    MatrixMode {
        mode: u8,
    },
    LoadIdentity,
    LoadMatrix(Mat4),
    MultMatrix(Mat4),
    PushMatrix,
    PopMatrix,
    /// Sets the viewport x, y, w, h in pixels.
    Viewport {
        area: [i32; 4],
    },
    DepthRange {
        near: i32,
        far: i32,
    },
    /// Sets the scissor box x, y, w, h in pixels.
    Scissor {
        area: [i32; 4],
    },
    AlphaFunc {
        function: u8,
        reference: u8,
    },
    DepthFunc {
        function: u8,
    },
    DepthMask {
        flag: u8,
    },
    BlendFunc {
        source: u8,
        destination: u8,
    },
    /// Sets which of r, g, b, a are written.
    ColorMask {
        flags: [u8; 4],
    },
    ClearColor(Rgba),
    ClearDepth {
        depth: i32,
    },
    /// Clears colour (bit 0 of the mask) and depth (bit 1).
    Clear {
        mask: u8,
    },
    CullFace {
        face: u8,
    },
    FrontFace {
        direction: u8,
    },
    BindTexture {
        kind: u8,
        name: u8,
    },
    TexEnv {
        environment: u8,
    },
    TexWrap {
        s: u8,
        t: u8,
    },
    /// Gives a private texture a new image.
    TexImage {
        name: u8,
        w: u16,
        h: u16,
        texels: Texels,
    },
    /// Writes a part of a private texture's image.
    TexPart(Part),
    /// Writes a part of a texture that all clients share.
    SharedImage(Part),
    /// Waits for the other clients of a barrier.
    Barrier {
        name: u8,
    },
    /// Takes a unit of a semaphore, and waits for one.
    SemP {
        name: u8,
    },
    /// Gives a unit to a semaphore.
    SemV {
        name: u8,
    },
    /// Ends a frame.
    Swap,
}

/// The kind of a command. As a number it is the byte that stands for it in a packet.
#[derive(Clone, Copy, Debug, PartialEq, Eq)]
pub enum Opcode {
    Begin = 1,
    End = 2,
    Vertex = 3,
    Color = 4,
    TexCoord = 5,
    Enable = 6,
    Disable = 7,
    MatrixMode = 8,
    LoadIdentity = 9,
    LoadMatrix = 10,
    MultMatrix = 11,
    PushMatrix = 12,
    PopMatrix = 13,
    Viewport = 14,
    DepthRange = 15,
    Scissor = 16,
    AlphaFunc = 17,
    DepthFunc = 18,
    DepthMask = 19,
    BlendFunc = 20,
    ColorMask = 21,
    ClearColor = 22,
    ClearDepth = 23,
    Clear = 24,
    CullFace = 25,
    FrontFace = 26,
    BindTexture = 27,
    TexEnv = 28,
    TexWrap = 29,
    TexImage = 30,
    TexPart = 31,
    SharedImage = 32,
    Barrier = 33,
    SemP = 34,
    SemV = 35,
    Swap = 36,
}

/// The range of a number of a command.
#[derive(Clone, Copy, Debug, PartialEq, Eq)]
pub enum NumberRange {
    /// 8 bits.
    Byte,
    /// 16 bits.
    Half,
    /// 32 bits with a sign.
    Word,
}

/// An exact copy of a part, with its texels.
pub fn copy_of_part(alloc: Global, part: &Part) -> Result<Part, OutOfMemory>
    ensures { IfOk result (λ p. p ≡ part.now) }
{
    Ok(Part {
        name: part.name,
        x: part.x,
        y: part.y,
        w: part.w,
        h: part.h,
        texels: Texels::from_slice(alloc, part.texels.as_slice())?,
    })
}
