//! The weights of the corners at a pixel, and means by them.
ghost use Rattle.std.specs.Prelude.{◌≡◌, ◌^◌, pos, true, ◌+ℤ◌, ◌*ℤ◌, ◌≤ℤ◌, ◌<ℤ◌};
ghost use Rattle.rc_base.specs.Numbers.{Within, floor_quotient};
ghost use Rattle.rc_base.specs.Drawing.Cover.{is_inside, centre};
ghost use Rattle.rc_base.specs.Drawing.Fragment.{weight, weighted_sum};
ghost use Rattle.raster.specs.Blend.{weighted_mean};
ghost use Rattle.raster.specs.Weighed.{IsWeighed};
ghost use Rattle.raster.specs.Weights.{narrow_area};

use crate::weights::Weights;
use fixed_math::{centre_of, edge, floor_div};
use rc_base::triangle::WindowTriangle;

// Up to this area 64 bits hold the sum of a mean.
const NARROW_AREA: i64 = 536_870_912;

// The weights, where the pixel is known to be covered.
#[inline(always)]
pub(crate) fn weights_of(
    tri: &WindowTriangle,
    px: i64,
    py: i64,
    x: i32,
    y: i32,
    weights: (i64, i64, i64),
) -> Weights
    requires across { px ≡ centre x }
    requires up { py ≡ centre y }
    requires inside { is_inside tri.now.v x y ≡ true }
    requires first { weights.0 ≡ weight tri.now.v 0 px py }
    requires second { weights.1 ≡ weight tri.now.v 1 px py }
    requires third { weights.2 ≡ weight tri.now.v 2 px py }
    ensures { IsWeighed tri.now.v x y result }
{
    let _place = (px, py, x, y);
    Weights {
        first: weights.0,
        second: weights.1,
        third: weights.2,
        area: tri.area,
    }
}

/// The weights of a triangle's corners at a pixel that it covers.
#[inline(always)]
pub fn weights_at(tri: &WindowTriangle, x: i32, y: i32) -> Weights
    requires { is_inside tri.now.v x y ≡ true }
    ensures { IsWeighed tri.now.v x y result }
{
    let px = centre_of(x);
    let py = centre_of(y);
    let first = edge(&tri.v[1], &tri.v[2], px, py);
    let second = edge(&tri.v[2], &tri.v[0], px, py);
    let third = edge(&tri.v[0], &tri.v[1], px, py);
    weights_of(tri, px, py, x, y, (first, second, third))
}

fn part(e: i64, a: i32) -> i128
    requires { Within (2 ^ 44) e }
    ensures value { result ≡ e *ℤ a }
    ensures small { Within (2 ^ 75) result }
{
    i128::from(e) * i128::from(a)
}

fn add3(a: i128, b: i128, c: i128) -> i128
    requires a { Within (2 ^ 75) a }
    requires b { Within (2 ^ 75) b }
    requires c { Within (2 ^ 75) c }
    ensures { result ≡ a +ℤ b +ℤ c }
{
    a + b + c
}

// The mean of any three values.
fn wide_mean(w: &Weights, a: i32, b: i32, c: i32) -> i32
    ensures { result ≡ weighted_mean w.now.first w.now.second w.now.third w.now.area a b c }
{
    let sum = add3(part(w.first, a), part(w.second, b), part(w.third, c));
    let quotient = floor_div(sum, i128::from(w.area));
    quotient as i32
}

fn short_part(e: i64, a: i32) -> i64
    requires { Within narrow_area e }
    ensures value { result ≡ e *ℤ a }
    ensures small { Within (2 ^ 60) result }
{
    e * i64::from(a)
}

fn byte_part(e: i64, a: u8) -> i64
    requires { Within (2 ^ 44) e }
    ensures value { result ≡ e *ℤ pos a }
    ensures small { Within (2 ^ 60) result }
{
    e * i64::from(a)
}

fn short_add3(a: i64, b: i64, c: i64) -> i64
    requires a { Within (2 ^ 60) a }
    requires b { Within (2 ^ 60) b }
    requires c { Within (2 ^ 60) c }
    ensures { result ≡ a +ℤ b +ℤ c }
{
    a + b + c
}

pub(crate) fn short_floor(n: i64, d: i64) -> i64
    requires { pos 0 <ℤ d }
    ensures { result ≡ floor_quotient n d }
{
    n.div_euclid(d)
}

// The mean where the area is small: 64 bits hold the sum.
fn short_mean(w: &Weights, a: i32, b: i32, c: i32) -> i32
    requires { w.now.area ≤ℤ pos narrow_area }
    ensures { result ≡ weighted_mean w.now.first w.now.second w.now.third w.now.area a b c }
{
    let sum = short_add3(
        short_part(w.first, a),
        short_part(w.second, b),
        short_part(w.third, c),
    );
    let quotient = short_floor(sum, w.area);
    quotient as i32
}

/// The mean of the corners' values by weight, rounded down: it lies between the least and the greatest.
pub(crate) fn mean(w: &Weights, a: i32, b: i32, c: i32) -> i32
    ensures { result ≡ weighted_mean w.now.first w.now.second w.now.third w.now.area a b c }
{
    if w.area <= NARROW_AREA {
        short_mean(w, a, b, c)
    } else {
        wide_mean(w, a, b, c)
    }
}

// A number of a byte.
fn byte_of(q: i64) -> u8
    requires low { pos 0 ≤ℤ q }
    requires high { q ≤ℤ pos 255 }
    ensures { pos result ≡ q }
{
    q as u8
}

/// The mean of the corners' channels by weight, rounded down.
pub(crate) fn channel_mean(w: &Weights, a: u8, b: u8, c: u8) -> u8
    ensures { pos result ≡ weighted_mean w.now.first w.now.second w.now.third w.now.area (pos a) (pos b) (pos c) }
{
    let sum = short_add3(
        byte_part(w.first, a),
        byte_part(w.second, b),
        byte_part(w.third, c),
    );
    byte_of(short_floor(sum, w.area))
}
