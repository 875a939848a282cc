//! Cells that stand one behind the other.

/// The cells from `from` to below `to`.
#[derive(Clone, Copy)]
pub struct Range {
    pub from: usize,
    pub to: usize,
}
