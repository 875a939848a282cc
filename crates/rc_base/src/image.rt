//! Images that are written.
use crate::command::Bytes;
use crate::items::Items;

/// An image: r, g, b bytes of each pixel, rows from the top.
#[derive(Clone, Debug, PartialEq, Drop)]
pub struct Image {
    pub width: u16,
    pub height: u16,
    pub rgb: Bytes,
}

/// One image for each frame, in the order of the frames.
pub type Frames = Items<Image>;
