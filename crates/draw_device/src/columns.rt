//! Triangles that stand in one column of pixels, as most of a fine mesh do: their colours go up the column by one addition a channel and pixel.
ghost use Rattle.std.specs.Prelude.{◌≡◌, ℕ, ◌+◌, ◌*◌, ◌^◌, ◌<◌, ◌≤◌, nat_lt, length, List, pos, true};
ghost use Rattle.rc_base.specs.declared.window.WindowVertex.{WindowVertex};
ghost use Rattle.raster.specs.Colors.{IsColorPlane};
ghost use Rattle.draw_device.specs.Columns.{place_in, column_color, is_column_inside, IsColumnRun, IsColumnColored, IsRiseAt};

use crate::column_run::ColumnRun;
use raster::{ColorPlane, ColorRamp};
use rc_base::command::Rgba;
use rc_base::triangle::WindowTriangle;

// The index of the column's pixel in a row.
fn place(run: ColumnRun, y: u16) -> usize
    ensures { result ≡ place_in run y }
{
    y as usize * run.width as usize + run.across as usize
}

// The colour that a ramp has at a row of the column.
fn color_up(ramp: &ColorRamp, tri: &WindowTriangle, run: ColumnRun, y: u16) -> Rgba
    requires inside { is_column_inside tri.now.v run y ≡ true }
    requires few { 1 + run.across + y < 2 ^ 12 }
    requires ramp { IsRiseAt tri.now.v run y ramp.now }
    ensures { result ≡ column_color tri.now.v run y }
{
    let _tri = tri;
    let _place = (run, y);
    ramp.color()
}

/// The colours of a plane from the column's first row on.
pub(crate) fn color_rise(plane: &ColorPlane, run: ColumnRun) -> ColorRamp
    ensures { (v : List WindowVertex) → IsColorPlane v (pos run.left) (pos run.bottom) plane.now
        → IsRiseAt v run run.from result }
{
    plane.rise(u64::from(run.across), u64::from(run.from))
}

/// One colour is stored.
#[inline(never)]
pub(crate) fn fill_column(colors: &mut [Rgba], run: ColumnRun, color: Rgba)
    requires run { IsColumnRun run }
    requires room { run.to * run.width ≤ length colors.old }
    ensures { IsColumnColored (λ k. color) run run.to colors.old colors.new }
{
    for y in run.from..run.to {
        let at = place(run, y);
        colors[at] = color;
    }
}

/// The triangle's colours are stored.
#[inline(never)]
pub(crate) fn step_column(
    colors: &mut [Rgba],
    tri: &WindowTriangle,
    run: ColumnRun,
    first: ColorRamp,
)
    requires run { IsColumnRun run }
    requires room { run.to * run.width ≤ length colors.old }
    requires covered { (k : ℕ) → run.from ≤ k → k < run.to
        → is_column_inside tri.now.v run k ≡ true }
    requires ramp { IsRiseAt tri.now.v run run.from first }
    ensures { IsColumnColored (column_color tri.now.v run) run run.to colors.old colors.new }
{
    let mut ramp = first;
    for y in run.from..run.to {
        let at = place(run, y);
        colors[at] = color_up(&ramp, tri, run, y);
        ramp.advance();
    }
}

/// Whether no step of a plane that goes `across` one way and below `to` the other is one too many.
pub(crate) fn is_few(across: u16, to: u16) -> bool
    ensures { result ≡ nat_lt (across + to) (2 ^ 12) }
{
    u32::from(across) + u32::from(to) < 4096
}
