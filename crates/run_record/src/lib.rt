//! What a cluster leaves in which all have ended, whichever way its actors took their steps.
//!
//! The cores of a scene's clients, manager and tiles meet their clauses, each over its own lanes alone (`client_issue`, `sync_manager`, `tile_server`). Where
//! all have ended and what was taken of each lane is a front of what was sent to it, the record that is collected of them is lawful, and their parts,
//! tallies, faults and waiting clients are those of the definitions. The parts of a run show each tile's pixels in the order that its log records, so that
//! the texts of their images, by whichever way of `frame_out` they are written, are the image text of the record. This crate stands on the three cores'
//! crates and on frame_out.
#![tactic(auto)]

mod frames;
mod gather;
mod kept;
pub mod laws;

pub use frames::parts_in_frames;
pub use gather::{Collected, collect};
