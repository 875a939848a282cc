//! Whether synchronisation orders all conflicts of a scene: a race detector by vector clocks.
//!
//! `check_races` goes along an order by the boxes of its commands first (`apart`), which settles most scenes without a race at the cost of a few rows and
//! columns a block. Where boxes don't settle it, it goes along the order pixel by pixel (`walk`): it keeps, for each pixel and client, the last place that
//! touched the pixel, and for each shared texture and client the last that wrote it and the last that sampled it, and looks at what a command
//! finds there beyond its clock. Stands on happens_before, stream_replay, geometry, raster and bounds_bucket.
#![tactic(auto)]

mod apart;
mod carry;
mod cells;
mod check;
mod clock;
mod found;
pub mod laws;
mod marks;
mod outlines;
mod range;
mod reach;
mod run;
mod touch;
mod verdict;
mod visit;
mod walk;

pub use check::{check_races, check_scene_races};
pub use verdict::{Spot, Verdict};
