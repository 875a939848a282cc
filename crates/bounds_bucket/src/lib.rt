//! Tiles of a window, and boxes: the rectangle outside which a block or a Clear touches no pixel, and the tiles that have a pixel of it.
//!
//! The definitions are those of `rc_base::specs::Cluster::Tiles` and of the table of limits. Stands on `rc_base`'s types, on `geometry`'s
//! triangles and on `raster`'s law on covers. No call takes memory.
#![tactic(auto)]

mod bits;
mod block;
mod boxes;
mod extent;
mod hull;
mod law;
mod limits;
mod object;
mod range;
mod reach;
mod short;
mod shown;
mod standing;
mod still;
mod tiles;

pub use boxes::{block_box, clear_box};
pub use law::{each_pixel_has_one_tile, touched_pixels_lie_in_the_box};
pub use limits::layout;
pub use tiles::{meets, tile_rect};
