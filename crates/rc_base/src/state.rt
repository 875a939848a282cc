//! What a client's commands set, and what one command does.
use crate::command::{Mat4, Part, Rgba, Texels};
use crate::items::Items;
use crate::sync::SyncOp;

/// A vertex as it is issued: its position, and the colour and texture coordinate that were current. 16.16 fixed point.
#[derive(Clone, Copy, Debug, PartialEq, Eq)]
pub struct Vertex {
    pub pos: [i32; 4],
    pub color: Rgba,
    pub s: i32,
    pub t: i32,
}

/// The vertices of a block, in the order of issue.
pub type Vertices = Items<Vertex>;

/// The first mode of the blocks of scenes of version 2, whose triangles are cut at the near plane.
pub const CUT_MODES: u8 = 16;

/// How many blend factors there are: their codes run from 0.
pub const BLEND_FACTORS: u8 = 10;

/// A block of triangles (0), a strip (1) or a fan (2). In a scene of version 2 its mode is `CUT_MODES` more.
#[derive(Clone, Debug, PartialEq, Drop)]
pub struct Block {
    pub mode: u8,
    pub vertices: Vertices,
}

/// The scalar elements of a context, by their numbers from 0 to 21.
///
/// The viewport and the scissor box are x, y, w, h in pixels. The depth range and the clear depth are 16.16 fixed point from 0 to 65536.
#[derive(Clone, Copy, Debug, PartialEq, Eq)]
pub struct State {
    pub modelview: Mat4,
    pub projection: Mat4,
    pub viewport: [i32; 4],
    pub depth_range: [i32; 2],
    pub scissor_on: bool,
    pub scissor: [i32; 4],
    pub cull_on: bool,
    pub cull_face: u8,
    pub front_face: u8,
    pub alpha_on: bool,
    pub alpha: [u8; 2],
    pub depth_on: bool,
    pub depth_func: u8,
    pub depth_mask: bool,
    pub blend_on: bool,
    pub blend: [u8; 2],
    pub color_mask: [bool; 4],
    pub clear_color: Rgba,
    pub clear_depth: i32,
    pub texture_on: bool,
    pub binding: [u8; 2],
    pub tex_mode: [u8; 3],
}

/// Why a command is refused, by OpenGL's names.
#[derive(Clone, Copy, Debug, PartialEq, Eq)]
pub enum Fault {
    InvalidEnum,
    InvalidValue,
    InvalidOperation,
    StackOverflow,
    StackUnderflow,
}

/// What an issued command does beyond its own context.
#[derive(Clone, Debug, PartialEq, Drop)]
pub enum Effect {
    Quiet,
    Refused(Fault),
    Block(Block),
    Clear(u8),
    Shared(Part),
    Sync(SyncOp),
}

/// The value of an element of a context.
#[derive(Clone, Debug, PartialEq, Drop)]
pub enum ElementValue {
    Matrix(Mat4),
    Area([i32; 4]),
    Range([i32; 2]),
    Flag(bool),
    Code(u8),
    Pair([u8; 2]),
    Mask([bool; 4]),
    Color(Rgba),
    Depth(i32),
    Mode([u8; 3]),
    Image {
        edit: u32,
        w: u16,
        h: u16,
        texels: Texels,
    },
}

/// An element and the value that it is set to.
#[derive(Clone, Debug, PartialEq, Drop)]
pub struct ElementSet {
    pub element: u8,
    pub value: ElementValue,
}

/// Sets in rising order of their elements.
pub type Sets = Items<ElementSet>;

/// What a parcel asks of its tile.
#[derive(Clone, Debug, PartialEq, Drop)]
pub enum Act {
    Draw(Block),
    Clear(u8),
    Shared(Part),
    Sync(SyncOp),
    End,
}

/// What one client sends to one tile at a time: the place of its command, the sets that come first, and the act.
#[derive(Clone, Debug, PartialEq, Drop)]
pub struct Parcel {
    pub place: u32,
    pub sets: Sets,
    pub act: Act,
}
