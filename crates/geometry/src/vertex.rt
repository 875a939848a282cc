//! Where a vertex stands in the window.
ghost use Rattle.std.specs.Prelude.{◌≡◌, ◌^◌, ◌+◌, ◌*◌, ◌<◌, ◌-◌, ℕ, pos, true, false, ◌+ℤ◌, ◌-ℤ◌, ◌*ℤ◌, ◌<ℤ◌, MatchOption};
ghost use Rattle.rc_base.specs.Numbers.{Within, entry, is_within, floor_quotient, transformed};
ghost use Rattle.rc_base.specs.Drawing.Cover.{IsInBounds};
ghost use Rattle.rc_base.specs.Drawing.Pieces.{clip_bound};
ghost use Rattle.rc_base.specs.Drawing.Window.{clip_of, axis_of, depth_of, window_of, is_in_bounds, is_placed, depth_most};
ghost use Rattle.fixed_math.specs.Bounds.{AllWithin, four};
ghost use Rattle.geometry.specs.Placed.{FixesVectors, AreIdentities, IsClipRatio, IsPlace, are_still, are_small, are_in_front, stands_in_front};
ghost use Rattle.geometry.specs.Vertices.{vertex_with};

use crate::identities::Identities;
use crate::still::{is_still, still_vertex};
use fixed_math::{apply, floor_div, widen};
use rc_base::command::Mat4;
use rc_base::state::{State, Vertex};
use rc_base::window::WindowVertex;

// The bounds of window coordinates: of places in sixteenths of a pixel, and of depths.
const PLACE_BOUND: u32 = 1_048_576;

const DEPTH_BOUND: u32 = 1_073_741_824;

// The greatest depth that a buffer holds.
const DEPTH_MOST: i128 = 16_777_215;

// One in 16.16 fixed point.
const ONE: i32 = 65_536;

/// Where the near plane stands: w is a 256th in 16.16 fixed point.
pub const NEAR_W: i64 = 256;

// The bound of the clip coordinates that are cut, so that products of them fit.
const CLIP_BOUND: i128 = 70_368_744_177_664;

/// A clip coordinate is small enough to be cut.
pub(crate) fn is_small(z: i128) -> bool
    ensures { result ≡ is_within clip_bound z }
{
    -CLIP_BOUND <= z && z <= CLIP_BOUND
}

// The product, or the vector itself where the matrix is known to be the identity.
fn product(is_identity: bool, m: &Mat4, v: [i128; 4]) -> [i128; 4]
    requires identity { is_identity ≡ true → FixesVectors m.now.m }
    requires bounded { AllWithin (2 ^ 64) v }
    ensures value { result ≡ transformed m.now.m v }
    ensures small { (n : ℕ) → AllWithin n v → AllWithin (2 ^ 17 * n) result }
{
    if is_identity { v } else { apply(m, v) }
}

#[tactic(auto, unfolding(rc_base::specs::Drawing::Window::clip_of))]
pub(crate) fn clip(state: &State, identities: Identities, v: &Vertex) -> [i128; 4]
    requires { AreIdentities state.now identities }
    ensures value { result ≡ clip_of state.now v.now }
    ensures small { AllWithin (2 ^ 65) result }
{
    let eye = product(identities.modelview, &state.modelview, widen(&v.pos));
    product(identities.projection, &state.projection, eye)
}

fn plus(x: i128, w: i128) -> i128
    requires x { Within (2 ^ 65) x }
    requires w { Within (2 ^ 65) w }
    ensures value { result ≡ x +ℤ w }
    ensures small { Within (2 ^ 66) result }
{
    x + w
}

fn scaled(sum: i128, size: i32) -> i128
    requires { Within (2 ^ 66) sum }
    ensures value { result ≡ sum *ℤ size *ℤ pos 16 }
    ensures small { Within (2 ^ 101) result }
{
    sum * i128::from(size) * 16
}

fn double(w: i128) -> i128
    requires small { Within (2 ^ 65) w }
    ensures value { result ≡ pos 2 *ℤ w }
{
    2 * w
}

fn moved(origin: i32, q: i128) -> i128
    requires { Within (2 ^ 101) q }
    ensures value { result ≡ pos 16 *ℤ origin +ℤ q }
{
    16 * i128::from(origin) + q
}

#[tactic(auto, unfolding(rc_base::specs::Drawing::Window::axis_of))]
pub(crate) fn axis(origin: i32, size: i32, x: i128, w: i128) -> i128
    requires { IsClipRatio x w }
    ensures { result ≡ axis_of origin size x w }
{
    let whole = floor_div(scaled(plus(x, w), size), double(w));
    moved(origin, whole)
}

// A sum or difference of the ends of the depth range, times a clip coordinate.
fn weighed(ends: i64, z: i128) -> i128
    requires ends { Within (2 ^ 32) ends }
    requires z { Within (2 ^ 65) z }
    ensures value { result ≡ ends *ℤ z }
    ensures small { Within (2 ^ 97) result }
{
    i128::from(ends) * z
}

fn between(near: i32, far: i32) -> i64
    ensures value { result ≡ far -ℤ near }
    ensures small { Within (2 ^ 32) result }
{
    i64::from(far) - i64::from(near)
}

fn together(near: i32, far: i32) -> i64
    ensures value { result ≡ near +ℤ far }
    ensures small { Within (2 ^ 32) result }
{
    i64::from(near) + i64::from(far)
}

fn deepened(a: i128, b: i128) -> i128
    requires a { Within (2 ^ 97) a }
    requires b { Within (2 ^ 97) b }
    ensures { result ≡ (a +ℤ b) *ℤ pos depth_most }
{
    (a + b) * DEPTH_MOST
}

fn scale_of(w: i128) -> i128
    requires small { Within (2 ^ 65) w }
    requires positive { pos 0 <ℤ w }
    ensures value { result ≡ pos 131072 *ℤ w }
    ensures positive { pos 0 <ℤ result }
{
    131072 * w
}

// A depth where the depth range is from 0 to one.
fn whole_depth(z: i128, w: i128) -> i128
    requires { IsClipRatio z w }
    ensures { result ≡ depth_of (pos 0) (pos 65536) z w }
{
    floor_div(deepened(z, w), double(w))
}

#[tactic(auto, unfolding(rc_base::specs::Drawing::Window::depth_of))]
fn any_depth(near: i32, far: i32, z: i128, w: i128) -> i128
    requires { IsClipRatio z w }
    ensures { result ≡ depth_of near far z w }
{
    let sum = deepened(
        weighed(between(near, far), z),
        weighed(together(near, far), w),
    );
    floor_div(sum, scale_of(w))
}

// The usual depth range needs smaller numbers.
pub(crate) fn depth(near: i32, far: i32, z: i128, w: i128) -> i128
    requires { IsClipRatio z w }
    ensures { result ≡ depth_of near far z w }
{
    if near == 0 && far == ONE {
        return whole_depth(z, w);
    }
    any_depth(near, far, z, w)
}

fn is_in(z: i128, bound: u32) -> bool
    requires { bound < 2 ^ 31 }
    ensures { result ≡ is_within bound z }
{
    let high = i128::from(bound);
    -high <= z && z <= high
}

// The vertex with these coordinates, where they are in bounds; the rest of it is `v`'s.
#[inline(always)]
pub(crate) fn narrow(v: &Vertex, x: i128, y: i128, z: i128) -> Option<WindowVertex>
    ensures { MatchOption result
        (is_in_bounds (vertex_with v.now x y z) ≡ false)
        (λ p. (is_in_bounds (vertex_with v.now x y z) ≡ true) × (p ≡ vertex_with v.now x y z) × IsInBounds p) }
{
    if !is_in(x, PLACE_BOUND) {
        return None;
    }
    if !is_in(y, PLACE_BOUND) {
        return None;
    }
    if !is_in(z, DEPTH_BOUND) {
        return None;
    }
    Some(WindowVertex {
        x: x as i32,
        y: y as i32,
        z: z as i32,
        color: v.color,
        s: v.s,
        t: v.t,
    })
}

// x + w where w is one, times the viewport's size.
fn unit_scaled(size: i32, x: i32) -> i64
    ensures value { result ≡ (x +ℤ pos 65536) *ℤ size }
    ensures small { Within (2 ^ 62 + 2 ^ 47) result }
{
    (i64::from(x) + i64::from(ONE)) * i64::from(size)
}

// Where w is one the divisor of a place is 16 times 8192.
fn unit_moved(origin: i32, scaled: i64) -> i64
    requires { Within (2 ^ 62 + 2 ^ 47) scaled }
    ensures { result ≡ pos 16 *ℤ origin +ℤ floor_quotient scaled (pos 8192) }
{
    16 * i64::from(origin) + scaled.div_euclid(8_192)
}

/// A window coordinate in sixteenths of a pixel, from a clip coordinate, where w is one.
#[tactic(auto, unfolding(rc_base::specs::Drawing::Window::axis_of))]
pub fn unit_axis(origin: i32, size: i32, x: i32) -> i64
    ensures { result ≡ axis_of origin size x (pos 65536) }
{
    unit_moved(origin, unit_scaled(size, x))
}

// A depth where w is one and the depth range is from 0 to one.
fn unit_depth(z: i32) -> i64
    ensures { result ≡ depth_of (pos 0) (pos 65536) z (pos 65536) }
{
    ((i64::from(z) + i64::from(ONE)) * 16_777_215).div_euclid(131_072)
}

// A depth where w is one.
fn depth_in(near: i32, far: i32, z: i32) -> i128
    ensures { result ≡ depth_of near far z (pos 65536) }
{
    if near == 0 && far == ONE {
        return i128::from(unit_depth(z));
    }
    depth(near, far, i128::from(z), i128::from(ONE))
}

// The vertex in window coordinates where the matrices move nothing and w is one.
#[inline(always)]
fn unit_vertex(state: &State, v: &Vertex) -> Option<WindowVertex>
    requires clip { clip_of state.now v.now ≡ four v.now.pos }
    requires w { entry v.now.pos 3 ≡ pos 65536 }
    ensures { IsPlace state.now v.now result }
{
    let x = unit_axis(state.viewport[0], state.viewport[2], v.pos[0]);
    let y = unit_axis(state.viewport[1], state.viewport[3], v.pos[1]);
    let z = depth_in(state.depth_range[0], state.depth_range[1], v.pos[2]);
    narrow(v, i128::from(x), i128::from(y), z)
}

fn is_unit(identities: Identities, v: &Vertex) -> bool
    ensures modelview { result ≡ true → identities.modelview ≡ true }
    ensures projection { result ≡ true → identities.projection ≡ true }
    ensures w { result ≡ true → entry v.now.pos 3 ≡ pos 65536 }
{
    identities.modelview && identities.projection && v.pos[3] == ONE
}

// Whether no clip coordinate is too large to be cut.
#[tactic(auto, unfolding(crate::specs::Placed::are_small))]
fn are_small(c: &[i128; 4]) -> bool
    ensures { result ≡ are_small c.now }
{
    if !is_small(c[0]) {
        return false;
    }
    if !is_small(c[1]) {
        return false;
    }
    if !is_small(c[2]) {
        return false;
    }
    is_small(c[3])
}

// Whether a vertex is in front of the near plane, by its clip coordinates, and none of them is too large to be cut.
#[tactic(auto, unfolding(crate::specs::Placed::are_in_front))]
fn are_in_front(c: &[i128; 4]) -> bool
    ensures { result ≡ are_in_front c.now }
{
    are_small(c) && c[3] >= i128::from(NEAR_W)
}

// The window coordinates of a vertex, and whether it stands in front of the near plane.
#[derive(Clone, Copy)]
struct Place {
    x: i128,
    y: i128,
    z: i128,
    front: bool,
}

// Where a vertex stands in the window by any matrices, if it stands before the eye. It gives numbers, and the vertex is made of them where it is
// kept, so that it isn't copied.
#[inline(never)]
#[tactic(auto, unfolding(rc_base::specs::Drawing::Window::is_placed, rc_base::specs::Drawing::Window::is_placed_at, rc_base::specs::Drawing::Window::window_of, rc_base::specs::Drawing::Window::window_at))]
fn any_place(state: &State, identities: Identities, v: &Vertex) -> Option<Place>
    requires { AreIdentities state.now identities }
    ensures { MatchOption result
        ((is_placed state.now v.now ≡ false) × (stands_in_front state.now v.now ≡ false))
        (λ p. (pos 0 <ℤ entry (clip_of state.now v.now) 3) × (vertex_with v.now p.x p.y p.z ≡ window_of state.now v.now)
        × (p.front ≡ stands_in_front state.now v.now)) }
{
    let c = clip(state, identities, v);
    if c[3] <= 0 {
        return None;
    }
    let x = axis(state.viewport[0], state.viewport[2], c[0], c[3]);
    let y = axis(state.viewport[1], state.viewport[3], c[1], c[3]);
    let z = depth(state.depth_range[0], state.depth_range[1], c[2], c[3]);
    let front = are_in_front(&c);
    Some(Place { x, y, z, front })
}

/// Where a vertex stands: in the window, if it stands before the eye and within the bounds of window coordinates; and whether it stands in front of
/// the near plane, with no clip coordinate too large to be cut.
#[derive(Clone, Copy)]
pub(crate) struct Stand {
    pub at: Option<WindowVertex>,
    pub front: bool,
}

/// Whether a vertex that the matrices don't move stands in front of the near plane.
#[inline(always)]
pub(crate) fn still_front(state: &State, v: &Vertex) -> bool
    requires { clip_of state.now v.now ≡ four v.now.pos }
    ensures { result ≡ stands_in_front state.now v.now }
{
    let _state = state;
    are_in_front(&widen(&v.pos))
}

/// Where a vertex stands.
pub(crate) fn stand_of(state: &State, identities: Identities, v: &Vertex) -> Stand
    requires { AreIdentities state.now identities }
    ensures at { IsPlace state.now v.now result.at }
    ensures front { result.front ≡ stands_in_front state.now v.now }
{
    if is_still(identities, v) {
        return Stand {
            at: still_vertex(state, v),
            front: still_front(state, v),
        };
    }
    if is_unit(identities, v) {
        return Stand {
            at: unit_vertex(state, v),
            front: still_front(state, v),
        };
    }
    let Some(place) = any_place(state, identities, v) else {
        return Stand {
            at: None,
            front: false,
        };
    };
    Stand {
        at: narrow(v, place.x, place.y, place.z),
        front: place.front,
    }
}
