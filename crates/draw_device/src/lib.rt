//! The device: the pixels of one rectangle of the window, and what each draw and Clear makes of them.
//!
//! Each pixel of the rectangle takes exactly the step of `rc_base::specs::Drawing::PixelStep`, and nothing else is touched. The rectangle is
//! the whole window for a serial renderer and a tile's part of it for a tile. A tile has a `LazyDevice`: memory at once, and blank pixels written in it when
//! its first command touches them, by the thread that carries the command out.
//!
//! How a block writes its colours is settled once, and the way of a triangle before its first row; no row asks the state. A row goes through a few
//! short loops. Its fragments' colours are laid out first: one colour, stepped ones, or texels by a sampler and then, where the environment is
//! MODULATE, their products with the triangle's. Where there is an alpha test they are flagged by it. Then they become what is to be written: left as
//! they are, or blended with the stored colours by any two factors, and written by the colour mask. Then they are put into the pixels, where the
//! tests pass. Each loop does one thing to all columns, so that most take several at once. What the depth test hides at a row's beginning is skipped
//! before. Colours that are stored alone skip the layout. A triangle is drawn fragment by fragment only where it is so small that its planes cost more
//! than its pixels, and in a row beyond the reach of the planes' steps, which no window has: a depth is made first, and a colour where it passes.
//!
//! A triangle that covers no pixel of the rectangle is dropped before anything is prepared of it. Where few pixels lie between its corners each of them
//! is tried (`few`). One that stands in one column of the rectangle, and whose colours alone are stored, is drawn up that column.
//!
//! What a command does beyond its context (`carry`) is one way for the serial renderer and for each tile: a block and a Clear change the pixels of a device,
//! and a part is written into a shared texture (`specs/Stored`). A tile is sent acts, and does to its rectangle with the state that it was told what the
//! serial renderer does to the whole window with the context's.
#![tactic(auto)]

mod active;
mod alpha;
mod blank;
mod blending;
mod blends;
mod block_setup;
mod carry;
mod clear_setup;
mod clears;
mod colors;
mod column_run;
mod columns;
mod device;
mod drawing;
mod extent;
mod few;
mod fragments;
mod grid;
mod hidden;
mod lazy;
mod nearer;
mod paint;
mod pixel_run;
mod pixels;
mod plan;
mod prepare;
mod prepared;
mod put;
mod room;
mod rows;
mod run;
mod setup;
mod shade;
mod shades;
mod shading;
mod short_rows;
mod source;
mod stages;
mod stepped;
mod tests;
mod visible;
mod write;
mod writes;

pub use active::ActivePixels;
pub use carry::{carry_out, effect_of};
pub use device::Device;
pub use lazy::LazyDevice;
pub use nearer::nearer_of;
pub use pixel_run::PixelRun;
pub use prepared::Prepared;
