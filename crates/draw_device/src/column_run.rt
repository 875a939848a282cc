//! The rows of one column that a triangle covers.

/// Rows `from` to below `to` of the column `across` of a grid whose rows have `width` pixels. The grid's first pixel is (`left`, `bottom`) of
/// the window.
#[derive(Clone, Copy)]
pub struct ColumnRun {
    pub left: u16,
    pub bottom: u16,
    pub width: u16,
    pub across: u16,
    pub from: u16,
    pub to: u16,
}
