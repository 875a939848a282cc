//! Vertices as the bytes that spell them, 28 each, without a list of them.
//!
//! Which vertices bytes spell is said in `specs/Spelt`. A packed parcel's block is so (`parcel_bytes`), and a tile draws it as it stands (`geometry`,
//! `draw_device`). This crate stands on `rc_base` alone. No call takes memory.
#![tactic(auto)]

mod block;
mod vertices;

pub use block::SpeltBlock;
pub use vertices::SpeltVertices;
