//! The form of a command where it is kept.
use rc_base::command::{Command, Rgba};

/// A command where it is kept: the fields of one of a block, or another one whole. Only what is looked at is read.
#[derive(Clone, Copy)]
pub enum CommandForm<'a> {
    Begin(&'a u8),
    End,
    Vertex(&'a [i32; 4]),
    Color(&'a Rgba),
    TexCoord { s: &'a i32, t: &'a i32 },
    Other(&'a Command),
}
