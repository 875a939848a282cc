//! Pixels of a row of the window.

/// Columns `from` to below `to` of a row, which is counted from the bottom.
#[derive(Clone, Copy)]
pub struct Run {
    pub row: u16,
    pub from: u16,
    pub to: u16,
}
