//! Where a vertex stands in the window that the matrices don't move: its coordinates have 32 bits, and numbers of 64 bits do.
ghost use Rattle.std.specs.Prelude.{◌≡◌, ℕ, ◌^◌, ◌<◌, pos, true, ◌+ℤ◌, ◌*ℤ◌, ◌<ℤ◌};
ghost use Rattle.rc_base.specs.Numbers.{Within, entry, floor_quotient};
ghost use Rattle.rc_base.specs.Drawing.Window.{clip_of, axis_of, depth_of};
ghost use Rattle.fixed_math.specs.Bounds.{four};
ghost use Rattle.geometry.specs.Placed.{IsUsual, IsPlace, are_still};

use crate::identities::Identities;
use crate::vertex::narrow;
use fixed_math::floor_div_64;
use rc_base::state::{State, Vertex};
use rc_base::window::WindowVertex;

// Two to that power.
#[inline(always)]
fn is_power(w: i32, places: u32) -> bool
    ensures few { result ≡ true → places < 31 }
    ensures power { result ≡ true → w ≡ pos (2 ^ places) }
{
    places < 31 && 1_i32 << places == w
}

// The clip coordinate w, which is above 0. It is mostly two to a power, which is found once for all three quotients by it: they are shifts then, and a
// division takes ten times as long.
#[derive(Clone, Copy)]
struct Divisor {
    w: i32,
    places: u32,
    power: bool,
    ghost positive: { pos 0 <ℤ w },
    ghost few: { power ≡ true → places < 31 },
    ghost powered: { power ≡ true → w ≡ pos (2 ^ places) },
}

#[inline(always)]
fn divisor_of(w: i32) -> Divisor
    requires { pos 0 <ℤ w }
    ensures { result.w ≡ w }
{
    let places = w.trailing_zeros();
    Divisor {
        w,
        places,
        power: is_power(w, places),
    }
}

// A shift copies the sign.
#[inline(always)]
fn shifted(n: i64, places: u32) -> i64
    requires { places < 31 }
    ensures { result ≡ floor_quotient n (pos (2 ^ places)) }
{
    n >> places
}

#[inline(always)]
fn floor_by(n: i64, d: Divisor) -> i64
    ensures { result ≡ floor_quotient n d.w }
{
    if d.power {
        shifted(n, d.places)
    } else {
        floor_div_64(n, i64::from(d.w))
    }
}

#[inline(always)]
fn quotient(n: i64, d: Divisor) -> i64
    ensures value { result ≡ floor_quotient n d.w }
    ensures small { (b : ℕ) → Within b n → Within b result }
{
    floor_by(n, d)
}

fn sum(x: i32, w: i32) -> i64
    ensures value { result ≡ x +ℤ w }
    ensures small { Within (2 ^ 32) result }
{
    i64::from(x) + i64::from(w)
}

fn scaled(sum: i64, size: i32) -> i64
    requires sum { Within (2 ^ 32) sum }
    requires size { Within (2 ^ 16) size }
    ensures value { result ≡ sum *ℤ size }
    ensures small { Within (2 ^ 48) result }
{
    sum * i64::from(size)
}

fn eightfold(n: i64) -> i64
    requires { Within (2 ^ 48) n }
    ensures value { result ≡ n *ℤ pos 8 }
    ensures small { Within (2 ^ 51) result }
{
    n * 8
}

fn moved(origin: i32, q: i64) -> i64
    requires { Within (2 ^ 51) q }
    ensures { result ≡ pos 16 *ℤ origin +ℤ q }
{
    16 * i64::from(origin) + q
}

// A window coordinate in sixteenths of a pixel.
#[inline(always)]
fn axis(origin: i32, size: i32, x: i32, d: Divisor) -> i64
    requires { Within (2 ^ 16) size }
    ensures { result ≡ axis_of origin size x d.w }
{
    let whole = quotient(eightfold(scaled(sum(x, d.w), size)), d);
    moved(origin, whole)
}

// A depth where the depth range is from 0 to one, twice over.
fn twofold_depth(z: i32, w: i32) -> i64
    ensures { result ≡ (z +ℤ w) *ℤ pos 16777215 }
{
    sum(z, w) * 16_777_215
}

// A depth where the depth range is from 0 to one. Its divisor is 2 w, and half of what it divides is divided by w.
#[inline(always)]
fn depth(z: i32, d: Divisor) -> i64
    ensures { result ≡ depth_of (pos 0) (pos 65536) z d.w }
{
    quotient(shifted(twofold_depth(z, d.w), 1), d)
}

/// The vertex in window coordinates where the matrices move nothing, and the viewport and the depth range are usual ones.
#[inline(always)]
pub(crate) fn still_vertex(state: &State, v: &Vertex) -> Option<WindowVertex>
    requires clip { clip_of state.now v.now ≡ four v.now.pos }
    requires usual { IsUsual state.now }
    requires w { pos 0 <ℤ entry v.now.pos 3 }
    ensures { IsPlace state.now v.now result }
{
    let d = divisor_of(v.pos[3]);
    let x = axis(state.viewport[0], state.viewport[2], v.pos[0], d);
    let y = axis(state.viewport[1], state.viewport[3], v.pos[1], d);
    let z = depth(v.pos[2], d);
    narrow(v, i128::from(x), i128::from(y), i128::from(z))
}

/// Whether a state is known to move no vertex, and to have a usual viewport and depth range.
pub(crate) fn are_still(identities: Identities) -> bool
    ensures { result ≡ are_still identities }
{
    identities.modelview && (identities.projection && identities.usual)
}

/// Whether a vertex is known to be one that such a state brings before the eye.
pub(crate) fn is_still(identities: Identities, v: &Vertex) -> bool
    ensures still { result ≡ true → are_still identities ≡ true }
    ensures w { result ≡ true → pos 0 <ℤ entry v.now.pos 3 }
{
    are_still(identities) && v.pos[3] > 0
}
