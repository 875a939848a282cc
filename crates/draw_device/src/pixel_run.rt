//! Pixels of a device that stand one behind the other.

/// Pixels of a rectangle, row by row from the lowest, each row from the left: those from one place to below another.
#[derive(Clone, Copy)]
pub struct PixelRun {
    pub from: usize,
    pub to: usize,
}
