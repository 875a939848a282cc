//! The form in which a command is kept.
use rc_base::command::Rgba;

/// A command of a block, or the number of another one among those that are kept whole. It takes 20 bytes, where a command takes 72.
#[derive(Clone, Copy, Debug)]
pub(crate) enum StoredCommand {
    Begin { mode: u8 },
    End,
    Vertex { pos: [i32; 4] },
    Color(Rgba),
    TexCoord { s: i32, t: i32 },
    Other(u32),
}
