//! Images as Netpbm P6: their texts, and the images that texts begin with.
//!
//! `image_text` writes an image; `image_header` is what stands in front of the pixels; `read_ppm` reads the image at the front of some bytes. They meet
//! the definitions of `rc_base`'s formats. What is written is read again.
#![tactic(auto)]

mod header;
mod reading;
mod writing;

pub use reading::{PpmFault, read_ppm};
pub use writing::{image_header, image_text};
