//! Lazy state: what each tile was last told of a client's elements, and the sets that a tile gets before a parcel draws on it.
//!
//! The sets are those of `rc_base::specs::Cluster::Parcels`, and the looks at dirty bits those of `rc_base::specs::Cluster::Looks`. Of an image a
//! tracker keeps its edit number alone. (The lazy state tracking of Buck, Humphreys and Hanrahan, for many servers at once.) This crate stands on
//! rc_base, element_table, dirty_bits, gl_context and textures.
#![tactic(auto)]

mod examination;
mod images;
pub mod laws;
mod scalars;
mod told;
mod tracker;

pub use tracker::Tracker;
