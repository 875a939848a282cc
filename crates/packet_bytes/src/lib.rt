//! Streams of commands as packets of bytes: a reader, which names the first fault from the left, and a writer.
//!
//! What the bytes of a stream spell is defined in `rc_base::specs::Formats::Spelling` over the one table of commands, and `specs/Faults` says what is
//! wrong with other bytes. Streams of either command set, with call lists or without, are read by one reader, `packets::decode_of`. This crate stands
//! on `command_table` for the commands and on `byte_codec` for their fields.
#![tactic(auto)]

pub mod fault;
pub mod laws;
pub mod lists;
pub mod packets;
mod payload;
pub mod reading;
mod short_payload;
mod writing;

pub use fault::PackFault;
pub use lists::{decode_lists, decode_lists_within};
pub use reading::{decode, decode_within};
pub use writing::encode;
