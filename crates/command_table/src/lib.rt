//! The commands, each with its byte, its name and its fields in order: the one place where code says what a command has.
//!
//! A command is an opcode, some numbers, each in the range at its place, and the texels of a picture, which only some opcodes have.
//! `command_of` makes a command of these parts and `parts_of` gives the parts of a command; both formats of a scene are read and written over
//! them. The table itself is a definition, `rc_base::specs::Formats::Commands`. The crate stands on rc_base.
#![tactic(auto)]

pub mod laws;
pub mod making;
pub mod opcode;
pub mod parts;
pub mod ranges;

pub use making::command_of;
pub use opcode::{name_of, opcode_byte, opcode_from, opcode_named, opcode_of};
pub use parts::parts_of;
pub use ranges::{has_picture, picture_area, ranges_of};
