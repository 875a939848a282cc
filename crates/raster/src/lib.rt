//! Which pixels a triangle covers, and what it brings to them: the definitions of `rc_base::specs::Drawing`, row by row and pixel by pixel.
//!
//! Coverage: `coverage`, and behind it `rows` with its three ways, `lanes`, `slopes` and divisions (`columns`), and the one `column`; of few
//! pixels one by one, `edge_ramp`. Triangle setup: `setup`. Planes and ramps: `byte_plane`, `word_plane` and `color`, which a row steps through by
//! one addition each.
//!
//! Stands on `rc_base`'s types and `fixed_math`'s edge functions. No call takes memory.
#![tactic(auto)]

mod bounds;
mod byte_plane;
mod clip;
mod color;
mod column;
mod columns;
mod coverage;
mod edge_ramp;
mod edges;
mod fragment;
mod lanes;
mod law;
mod mean;
mod quotients;
mod rise;
mod rows;
mod setup;
mod slopes;
mod triangle_setup;
mod turns;
mod ways;
mod weights;
mod word_plane;

pub use bounds::covered_part;
pub use clip::{drawn_part, scissored};
pub use color::{ColorPlane, ColorRamp, color_plane, flat_color, has_depths};
pub use column::Column;
pub use coverage::{covers, spans};
pub use edge_ramp::{EdgeRamp, edges_from};
pub use fragment::{depth_at, fragment_at, weighed_fragment};
pub use law::{cover_lies_in_bounds, no_double_edge, pieces_share_edges};
pub use mean::weights_at;
pub use rows::SpanIter;
pub use setup::setup_at;
pub use triangle_setup::TriangleSetup;
pub use weights::Weights;
pub use word_plane::{WordPlane, WordRamp, coordinate_planes, depth_plane};
