//! The setup of a triangle at a pixel.
ghost use Rattle.std.specs.Prelude.{◌≡◌, ◌^◌, pos, ◌+ℤ◌, ◌<ℤ◌};
ghost use Rattle.rc_base.specs.Numbers.{Within};
ghost use Rattle.rc_base.specs.Drawing.Cover.{centre};
ghost use Rattle.raster.specs.Reciprocal.{IsReciprocal};
ghost use Rattle.raster.specs.Planes.{IsTriangleSetup};

use crate::edges::edges_at;
use crate::triangle_setup::TriangleSetup;
use fixed_math::centre_of;
use rc_base::triangle::WindowTriangle;

// The centre of the column or row after that of a centre.
fn next_centre(p: i64, x: i32) -> i64
    requires { p ≡ centre x }
    ensures value { result ≡ centre (x +ℤ pos 1) }
    ensures small { Within (2 ^ 36) result }
{
    let _x = x;
    p + 16
}

// 1 / area in parts of 2^96, rounded up.
fn reciprocal(area: i64) -> u128
    requires { pos 0 <ℤ area }
    ensures { IsReciprocal 96 area result }
{
    79_228_162_514_264_337_593_543_950_336 / (area as u128) + 1
}

/// What the planes of a triangle's attributes share, from pixel (`x`, `y`) on.
pub fn setup_at(tri: &WindowTriangle, x: i32, y: i32) -> TriangleSetup
    ensures { IsTriangleSetup tri.now.v x y result }
{
    let px = centre_of(x);
    let py = centre_of(y);
    let here = edges_at(tri, px, py);
    let right = edges_at(tri, next_centre(px, x), py);
    let above = edges_at(tri, px, next_centre(py, y));
    TriangleSetup {
        here,
        right,
        above,
        area: tri.area,
        reciprocal: reciprocal(tri.area),
    }
}
