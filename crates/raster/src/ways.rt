//! How the covered columns of a part's rows are found: by lanes where the part is narrow, by slopes where it is wider.
ghost use Rattle.std.specs.Prelude.{◌≡◌, ◌^◌, pos, ◌+ℤ◌, ◌-ℤ◌, ◌≤ℤ◌, ◌<ℤ◌};
ghost use Rattle.raster.specs.Spans.{IsEmptyRow, IsSpanIfAny};
ghost use Rattle.raster.specs.Ways.{IsWay};

use crate::column::Cut;
use crate::columns::{Places, kept_columns};
use crate::lanes::{Lanes, lanes_at, narrow_places};
use crate::slopes::{Slopes, sloped_places, slopes_at};
use rc_base::triangle::WindowTriangle;
use rc_base::window::Rect;

/// Prepared once for a triangle's part of a rectangle: the lanes or the slopes of its lowest row. A division an edge and row needs nothing.
#[derive(Clone, Copy)]
pub(crate) enum Way {
    Lanes(Lanes),
    Slopes(Slopes),
    Divided,
}

// The columns from `x0` to below `x1` of a row that the triangle covers. A function of its own: where it is part of the loop over rows, the compiler
// prepares all of the triangle's edges before each row. It gives two numbers and no span, since these go back in a register.
#[inline(never)]
fn row_places(tri: &WindowTriangle, y: i32, x0: i32, x1: i32) -> Places
    requires { x0 ≤ℤ x1 }
    ensures none { result.x1 ≤ℤ result.x0 → IsEmptyRow tri.now.v y x0 x1 }
    ensures some { IsSpanIfAny tri.now.v y x0 x1 result }
{
    let first = kept_columns(&tri.v[0], &tri.v[1], y, Places { x0, x1 });
    let second = kept_columns(&tri.v[1], &tri.v[2], y, first);
    kept_columns(&tri.v[2], &tri.v[0], y, second)
}

/// The columns of a row of a part that the triangle covers.
#[inline(always)]
pub(crate) fn places_in(tri: &WindowTriangle, part: Rect, way: &Way, y: i32) -> Places
    requires way { IsWay tri.now.v part way.now }
    requires order { part.x0 ≤ℤ part.x1 }
    ensures none { result.x1 ≤ℤ result.x0 → IsEmptyRow tri.now.v y part.x0 part.x1 }
    ensures some { IsSpanIfAny tri.now.v y part.x0 part.x1 result }
{
    match way {
        Way::Lanes(lanes) => narrow_places(tri, lanes, part.y0, y, part.x0, part.x1),
        Way::Slopes(slopes) => sloped_places(tri, slopes, part.y0, y, part.x0, part.x1),
        Way::Divided => row_places(tri, y, part.x0, part.x1),
    }
}

// Whether there are too few pixels for anything to be prepared: what one or two rows cost is less than that.
fn is_low(cut: Cut) -> bool {
    let part = cut.part;
    cut.is_full || part.x1 <= part.x0 || i64::from(part.y1) - i64::from(part.y0) < 3
}

/// The way of a part.
pub(crate) fn way_of(tri: &WindowTriangle, cut: Cut) -> Way
    ensures { IsWay tri.now.v cut.part result }
{
    if is_low(cut) {
        return Way::Divided;
    }
    let part = cut.part;
    let width = i64::from(part.x1) - i64::from(part.x0);
    if width <= 8 {
        return Way::Lanes(lanes_at(tri, part.x0, part.y0));
    }
    if width <= 4096 {
        return Way::Slopes(slopes_at(tri, part.x0, part.y0));
    }
    Way::Divided
}
