//! The columns of one row that a triangle covers.
ghost use Rattle.std.specs.Prelude.{◌≡◌, ◌+◌, ◌^◌, ◌<◌, ◌≤◌};

/// Columns `from` to below `to` of a grid's row. The row's first pixel is (`left`, `row`) of the window, and it lies `up` rows above the
/// grid's first, which is row `bottom` of the window. They are so few that no step of a plane is one too many.
#[derive(Clone, Copy)]
pub struct Run {
    pub left: u16,
    pub bottom: u16,
    pub row: u16,
    pub up: u16,
    pub from: u16,
    pub to: u16,
    pub ghost order: { from ≤ to },
    pub ghost above: { row ≡ bottom + up },
    pub ghost few: { to + up < 2 ^ 12 },
}
