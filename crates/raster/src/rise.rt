//! What an edge's value gains from a row to another.
ghost use Rattle.std.specs.Prelude.{◌≡◌, ◌^◌, pos, ◌-ℤ◌, ◌*ℤ◌};
ghost use Rattle.rc_base.specs.Numbers.{Within};
ghost use Rattle.raster.specs.Edges.{IsEdgeInBounds};

use fixed_math::delta;
use rc_base::window::WindowVertex;

pub(crate) fn product(a: i64, b: i64) -> i64
    requires left { Within (2 ^ 21) a }
    requires right { Within (2 ^ 37) b }
    ensures value { result ≡ a *ℤ b }
    ensures small { Within (2 ^ 58) result }
{
    a * b
}

fn rows_between(y0: i32, y: i32) -> i64
    ensures value { result ≡ y -ℤ y0 }
    ensures small { Within (2 ^ 33) result }
{
    i64::from(y) - i64::from(y0)
}

fn sixteenths(rows: i64) -> i64
    requires { Within (2 ^ 33) rows }
    ensures value { result ≡ pos 16 *ℤ rows }
    ensures small { Within (2 ^ 37) result }
{
    16 * rows
}

/// From row `y0` to row `y`, in sixteenths of a pixel.
pub(crate) fn climb(y0: i32, y: i32) -> i64
    ensures value { result ≡ pos 16 *ℤ (y -ℤ y0) }
    ensures small { Within (2 ^ 37) result }
{
    sixteenths(rows_between(y0, y))
}

/// What an edge's value gains by a climb.
pub(crate) fn rise(a: &WindowVertex, b: &WindowVertex, climb: i64) -> i64
    requires edge { IsEdgeInBounds a.now b.now }
    requires climb { Within (2 ^ 37) climb }
    ensures value { result ≡ (b.now.x -ℤ a.now.x) *ℤ climb }
    ensures small { Within (2 ^ 58) result }
{
    product(delta(b.x, a.x), climb)
}
