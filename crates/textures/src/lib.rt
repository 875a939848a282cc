//! Images of textures: those of one client, and those that all clients share.
//!
//! A texture has a picture (`rc_base::specs::Pictures`) or no image yet, and a part is written into it row by row, without memory. Sets of
//! textures are named from 1. The nearest texel at a texture coordinate is found without a division where the texture repeats. This crate
//! stands on rc_base.
#![tactic(auto)]

mod axis;
pub mod laws;
mod nearest;
mod parts;
mod sampler;
mod sets;
mod shared;
mod texture;

pub use sampler::Sampler;
pub use sets::PrivateSet;
pub use shared::SharedSet;
pub use texture::Texture;
