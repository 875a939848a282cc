//! The frames of a run, put together of its tiles' parts and written.
//!
//! `frames_of` makes the image of each frame from the parts that its tiles have shown, by `assembler`. `write_frames` writes the Netpbm P6 text of each
//! image, one `write_all` a frame, in the memory of its pixels; `write_text` writes one text. `FrameWriter` does both for parts that still come: it takes them from
//! lanes, puts them together right behind a header, and writes each frame once it is complete. What the parts of a run show, and that the texts of their images are the image text of its record, is said in
//! `run_record`, which stands on this crate; this one stands on order_model, assembler and ppm_out.
#![tactic(auto)]

mod assembling;
pub mod laws;
mod on_the_way;
mod writer;
mod writing;

pub use assembling::frames_of;
pub use on_the_way::FrameWriter;
pub use writing::{Written, write_frames, write_text};
