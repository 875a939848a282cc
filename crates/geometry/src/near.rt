//! Which triangles lie beside a rectangle's pixels.
ghost use Rattle.std.specs.Prelude.{◌≡◌, true, pos, ◌-ℤ◌};
ghost use Rattle.rc_base.specs.Drawing.Cover.{centre};
ghost use Rattle.rc_base.specs.Drawing.Kept.{three};
ghost use Rattle.geometry.specs.Beside.{AreSurrounds, AreLess, AreGreater, AreOutside, AreBeside};

use fixed_math::centre_of;
use rc_base::window::{Rect, WindowVertex};

/// The centres of a rectangle's first and last columns and rows of pixels, in sixteenths of a pixel.
#[derive(Clone, Copy)]
pub struct Surrounds {
    pub left: i64,
    pub right: i64,
    pub bottom: i64,
    pub top: i64,
}

// The centre of the column or row before.
fn centre_before(at: i32) -> i64
    ensures { result ≡ centre (at -ℤ pos 1) }
{
    16 * i64::from(at) - 8
}

/// The centres that bound a rectangle's pixels. A rectangle without pixels will do.
pub fn surrounds_of(rect: Rect) -> Surrounds
    ensures { AreSurrounds rect result }
{
    Surrounds {
        left: centre_of(rect.x0),
        right: centre_before(rect.x1),
        bottom: centre_of(rect.y0),
        top: centre_before(rect.y1),
    }
}

fn are_less(a: i32, b: i32, c: i32, bound: i64) -> bool
    ensures { result ≡ true → AreLess a b c bound }
{
    i64::from(a.max(b).max(c)) < bound
}

fn are_greater(a: i32, b: i32, c: i32, bound: i64) -> bool
    ensures { result ≡ true → AreGreater a b c bound }
{
    i64::from(a.min(b).min(c)) > bound
}

fn are_outside(a: i32, b: i32, c: i32, low: i64, high: i64) -> bool
    ensures { result ≡ true → AreOutside a b c low high }
{
    are_less(a, b, c, low) || are_greater(a, b, c, high)
}

// All three corners lie on one side.
#[inline(always)]
pub(crate) fn are_beside(
    near: &Surrounds,
    a: &WindowVertex,
    b: &WindowVertex,
    c: &WindowVertex,
) -> bool
    ensures { result ≡ true → AreBeside near.now (three a.now b.now c.now) }
{
    are_outside(a.x, b.x, c.x, near.left, near.right)
        || are_outside(a.y, b.y, c.y, near.bottom, near.top)
}
