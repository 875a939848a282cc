//! The fragment stages after rasterization, one pixel at a time: texture environment, alpha test, depth test, blending, masks; and Clear.
//!
//! What a loop over a row takes of them is apart: how a state writes a colour, a colour made of two, by products of two channels at a time,
//! and both tests and the two factors of blending, prepared once for a draw. No call takes memory.
#![tactic(auto)]

mod alpha;
mod alpha_tests;
mod blend;
mod clear;
mod clearing;
mod colors;
mod compare;
mod depth;
mod factor;
mod factors;
mod pairs;
mod shade;
mod shortcuts;

pub use alpha::AlphaTest;
pub use alpha_tests::alpha_test_of;
pub use clear::Clearing;
pub use clearing::clearing_of;
pub use colors::{blend_over, blend_sum, modulate};
pub use depth::{DepthTest, depth_test_of};
pub use factor::Factor;
pub use factors::{blend_by, factor_named, mask_color};
pub use shade::{clear_pixel, shade_pixel, texture_color};
pub use shortcuts::{blends_over, blends_sum, stores_alone, writes_channels, writes_plainly};
