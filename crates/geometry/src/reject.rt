//! Trivial rejection: triangles whose clip coordinates tell that they lie beside a rectangle's pixels, before a vertex of them is brought to the window.
ghost use Rattle.std.specs.Prelude.{◌≡◌, ◌^◌, ◌<◌, ◌≤◌, pos, true, ◌*ℤ◌, ◌+ℤ◌, ◌-ℤ◌, ◌<ℤ◌, ◌≤ℤ◌, IfSome};
ghost use Rattle.rc_base.specs.Numbers.{Within, entry};
ghost use Rattle.geometry.specs.Placed.{AreIdentities};
ghost use Rattle.geometry.specs.Rejected.{AreAxisBounds, AreClipBoundsIfAny, AreAside, AreRejected, IsBefore, IsBehind};

use crate::identities::Identities;
use crate::near::Surrounds;
use crate::sides::{AxisBounds, ClipBounds};
use crate::still::are_still;
use rc_base::state::{State, Vertex};

// Whether a number is so small that sums and products of it are.
fn is_small(n: i64) -> bool
    ensures { result ≡ true → Within (2 ^ 25) n }
{
    -33_554_432 <= n && n <= 33_554_432
}

// Eight times a side of the viewport.
fn scale_of(size: i32) -> i64
    requires { Within (2 ^ 16) size }
    ensures value { result ≡ pos 8 *ℤ size }
    ensures small { Within (2 ^ 20) result }
{
    8 * i64::from(size)
}

// Where an axis of the viewport starts, in sixteenths of a pixel.
fn start_of(origin: i32) -> i64
    ensures { result ≡ pos 16 *ℤ origin }
{
    16 * i64::from(origin)
}

// The next sixteenth of a pixel.
fn behind(last: i64) -> i64
    requires { Within (2 ^ 25) last }
    ensures value { result ≡ last +ℤ pos 1 }
    ensures small { Within (2 ^ 26) result }
{
    last + 1
}

// What stands beside w where a window coordinate is told from a bound.
fn bound_by(bound: i64, start: i64, scale: i64) -> i64
    requires bound { Within (2 ^ 26) bound }
    requires start { Within (2 ^ 25) start }
    requires scale { Within (2 ^ 20) scale }
    ensures value { result ≡ bound -ℤ start -ℤ scale }
    ensures small { Within (2 ^ 31) result }
{
    bound - start - scale
}

// The bounds along an axis, whose first and last centres of pixels are these.
fn axis_bounds(origin: i32, size: i32, first: i64, last: i64) -> Option<AxisBounds>
    requires { Within (2 ^ 16) size }
    ensures { IfSome result (AreAxisBounds origin size first last) }
{
    let start = start_of(origin);
    if !is_small(start) {
        return None;
    }
    if !is_small(first) {
        return None;
    }
    if !is_small(last) {
        return None;
    }
    let scale = scale_of(size);
    let low = bound_by(first, start, scale);
    let high = bound_by(behind(last), start, scale);
    Some(AxisBounds { scale, low, high })
}

/// What bounds a rectangle's pixels by clip coordinates, if that is known of the state.
pub fn clip_bounds(state: &State, identities: Identities, near: &Surrounds) -> Option<ClipBounds>
    requires { AreIdentities state.now identities }
    ensures { AreClipBoundsIfAny state.now near.now result }
{
    if !are_still(identities) {
        return None;
    }
    let across = axis_bounds(state.viewport[0], state.viewport[2], near.left, near.right)?;
    let up = axis_bounds(state.viewport[1], state.viewport[3], near.bottom, near.top)?;
    Some(ClipBounds { across, up })
}

// A clip coordinate times the scale.
#[inline(always)]
fn scaled(bounds: &AxisBounds, x: i32) -> i64
    ensures { result ≡ x *ℤ bounds.now.scale }
{
    i64::from(x) * bounds.scale
}

#[inline(always)]
fn times(bound: i64, w: i32) -> i64
    requires { Within (2 ^ 31) bound }
    ensures { result ≡ bound *ℤ w }
{
    bound * i64::from(w)
}

#[inline(always)]
fn is_before(bounds: &AxisBounds, axis: usize, v: &Vertex) -> bool
    requires { axis < 4 }
    ensures { result ≡ true → IsBefore bounds.now axis v.now }
{
    scaled(bounds, v.pos[axis]) < times(bounds.low, v.pos[3])
}

#[inline(always)]
fn is_behind(bounds: &AxisBounds, axis: usize, v: &Vertex) -> bool
    requires { axis < 4 }
    ensures { result ≡ true → IsBehind bounds.now axis v.now }
{
    times(bounds.high, v.pos[3]) <= scaled(bounds, v.pos[axis])
}

// Whether all three vertices lie before the pixels, or all of them behind.
#[inline(always)]
fn are_aside(bounds: &AxisBounds, axis: usize, a: &Vertex, b: &Vertex, c: &Vertex) -> bool
    requires { axis < 4 }
    ensures { result ≡ true → AreAside bounds.now axis a.now b.now c.now }
{
    if is_before(bounds, axis, a) {
        return is_before(bounds, axis, b) && is_before(bounds, axis, c);
    }
    is_behind(bounds, axis, a) && (is_behind(bounds, axis, b) && is_behind(bounds, axis, c))
}

/// Whether three vertices that stand before the eye are seen to lie on one side of the pixels.
#[inline(always)]
pub(crate) fn are_rejected(bounds: &ClipBounds, a: &Vertex, b: &Vertex, c: &Vertex) -> bool
    ensures { result ≡ true → AreRejected bounds.now a.now b.now c.now }
{
    if a.pos[3] <= 0 || b.pos[3] <= 0 || c.pos[3] <= 0 {
        return false;
    }
    are_aside(&bounds.across, 0, a, b, c) || are_aside(&bounds.up, 1, a, b, c)
}
