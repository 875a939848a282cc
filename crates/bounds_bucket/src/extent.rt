//! What the corners of triangles span in window coordinates, in sixteenths of a pixel.

/// The least and the greatest of some coordinates.
#[derive(Clone, Copy)]
pub(crate) struct Ends {
    pub least: i32,
    pub greatest: i32,
}

/// What corners span across the window and up it.
#[derive(Clone, Copy)]
pub(crate) struct Extent {
    pub across: Ends,
    pub up: Ends,
}
