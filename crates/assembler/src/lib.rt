//! Whole images from the parts of the tiles, of one frame or frame after frame, in an image of its own or over bytes that are given.
//!
//! The tiles are those of `rc_base::specs::Cluster::Tiles`, and the bytes of an image those of `rc_base::specs::Drawing::Images`. This crate
//! stands on rc_base.
#![tactic(auto)]

mod assembly;
mod found;
mod frame_parts;
mod images;
mod lanes;
mod laws;
mod places;
mod rows;

pub use assembly::assemble;
pub use frame_parts::FrameParts;
pub use laws::{calls_show_frames_in_turn, parts_show_their_pixels};
pub use places::Assembler;
