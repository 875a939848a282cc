//! What the kept triangles of a block of version 1 span that the matrices don't move: its coordinates have 32 bits, and numbers of 64 bits do.
ghost use Rattle.std.specs.Prelude.{◌≡◌, ◌^◌, ◌<◌, ◌%◌, ◌==◌, ◌&&◌, [], pos, neg_ℤ, true, false, ◌+ℤ◌, ◌*ℤ◌, ◌<ℤ◌, ◌≤ℤ◌, IfSome};
ghost use Rattle.std.specs.Int.{int_min, int_max};
ghost use Rattle.rc_base.specs.Numbers.{Within};
ghost use Rattle.rc_base.specs.Cluster.Tiles.{kept_corners};
ghost use Rattle.rc_base.specs.Drawing.Cover.{IsInBounds, triangle_area};
ghost use Rattle.rc_base.specs.Drawing.Kept.{is_shown, three};
ghost use Rattle.rc_base.specs.Drawing.Triangles.{cut_modes};
ghost use Rattle.rc_base.specs.Drawing.Window.{axis_of, place_bound};
ghost use Rattle.bounds_bucket.specs.Still.{AreApart, AreCornersInBounds, AreShown, AreWithThree, IsStill, IsWithThree, SpansIfAny, StandsAt};

use crate::extent::{Ends, Extent};
use crate::shown::{Shown, is_shown, shown_by};
use fixed_math::{edge, floor_div_64};
use geometry::identities_of;
use rc_base::state::{Block, State, Vertex};
use rc_base::window::WindowVertex;

// The bound of places in sixteenths of a pixel.
const PLACE_BOUND: i64 = 1_048_576;

pub(crate) fn sum(x: i32, w: i32) -> i64
    ensures value { result ≡ x +ℤ w }
    ensures small { Within (2 ^ 32) result }
{
    i64::from(x) + i64::from(w)
}

pub(crate) fn scaled(sum: i64, size: i32) -> i64
    requires sum { Within (2 ^ 32) sum }
    requires size { Within (2 ^ 16) size }
    ensures value { result ≡ sum *ℤ size }
    ensures small { Within (2 ^ 48) result }
{
    sum * i64::from(size)
}

pub(crate) fn eightfold(n: i64) -> i64
    requires { Within (2 ^ 48) n }
    ensures value { result ≡ n *ℤ pos 8 }
    ensures small { Within (2 ^ 51) result }
{
    n * 8
}

pub(crate) fn moved(origin: i32, q: i64) -> i64
    requires { Within (2 ^ 51) q }
    ensures value { result ≡ pos 16 *ℤ origin +ℤ q }
    ensures small { Within (2 ^ 52) result }
{
    16 * i64::from(origin) + q
}

// A window coordinate in sixteenths of a pixel.
fn axis(origin: i32, size: i32, x: i32, w: i32) -> i64
    requires positive { pos 0 <ℤ w }
    requires size { Within (2 ^ 16) size }
    ensures { result ≡ axis_of origin size x w }
{
    let whole = floor_div_64(eightfold(scaled(sum(x, w), size)), i64::from(w));
    moved(origin, whole)
}

fn is_near(place: i64) -> bool
    ensures { result ≡ true → Within place_bound place }
{
    -PLACE_BOUND <= place && place <= PLACE_BOUND
}

// A vertex is neither before the near end of the depth range nor behind its far end.
fn is_inside(z: i32, w: i32) -> bool
    requires { pos 0 <ℤ w }
    ensures low { result ≡ true → neg_ℤ w ≤ℤ z }
    ensures high { result ≡ true → z ≤ℤ w }
{
    -w <= z && z <= w
}

// A vertex at a place of the window; nothing else of it matters here.
fn vertex_at(v: &Vertex, x: i64, y: i64) -> WindowVertex
    requires across { Within place_bound x }
    requires up { Within place_bound y }
    ensures x { result.x ≡ x }
    ensures y { result.y ≡ y }
    ensures bounds { IsInBounds result }
{
    WindowVertex {
        x: x as i32,
        y: y as i32,
        z: 0,
        color: v.color,
        s: 0,
        t: 0,
    }
}

// Where a vertex stands. None also where it isn't seen so simply.
#[inline(always)]
fn place_of(state: &State, v: &Vertex) -> Option<WindowVertex>
    requires { IsStill state.now }
    ensures { IfSome result (λ p. StandsAt state.now v.now p) }
{
    let w = v.pos[3];
    if w <= 0 {
        return None;
    }
    if !is_inside(v.pos[2], w) {
        return None;
    }
    let x = axis(state.viewport[0], state.viewport[2], v.pos[0], w);
    if !is_near(x) {
        return None;
    }
    let y = axis(state.viewport[1], state.viewport[3], v.pos[1], w);
    if !is_near(y) {
        return None;
    }
    Some(vertex_at(v, x, y))
}

fn least_of(a: i32, b: i32, c: i32, d: i32) -> i32
    ensures { result ≡ int_min d (int_min (int_min a b) c) }
{
    d.min(a.min(b).min(c))
}

fn greatest_of(a: i32, b: i32, c: i32, d: i32) -> i32
    ensures { result ≡ int_max d (int_max (int_max a b) c) }
{
    d.max(a.max(b).max(c))
}

fn with_three(ends: Ends, a: i32, b: i32, c: i32) -> Ends
    ensures { AreWithThree ends a b c result }
{
    Ends {
        least: least_of(a, b, c, ends.least),
        greatest: greatest_of(a, b, c, ends.greatest),
    }
}

fn nothing() -> Ends
    ensures { AreApart result }
{
    Ends {
        least: i32::MAX,
        greatest: i32::MIN,
    }
}

// No corner.
fn empty() -> Extent
    ensures { SpansIfAny [] result }
{
    Extent {
        across: nothing(),
        up: nothing(),
    }
}

fn area_of(a: &WindowVertex, b: &WindowVertex, c: &WindowVertex) -> i64
    requires { AreCornersInBounds a.now b.now c.now }
    ensures { result ≡ triangle_area (three a.now b.now c.now) }
{
    edge(a, b, i64::from(c.x), i64::from(c.y))
}

// Adds the corners of a triangle, where the state shows it.
#[inline(always)]
fn grown(
    state: &State,
    shown: Shown,
    extent: Extent,
    a: &WindowVertex,
    b: &WindowVertex,
    c: &WindowVertex,
) -> Extent
    requires shown { AreShown state.now shown }
    requires corners { AreCornersInBounds a.now b.now c.now }
    ensures grown { is_shown state.now (triangle_area (three a.now b.now c.now)) ≡ true → IsWithThree extent a.now b.now c.now result }
    ensures same { is_shown state.now (triangle_area (three a.now b.now c.now)) ≡ false → result ≡ extent }
{
    if !is_shown(state, shown, area_of(a, b, c)) {
        return extent;
    }
    Extent {
        across: with_three(extent.across, a.x, b.x, c.x),
        up: with_three(extent.up, a.y, b.y, c.y),
    }
}

// Of triangles: three vertices one after the other.
fn separate_extent(state: &State, block: &Block) -> Option<Extent>
    requires still { IsStill state.now }
    requires mode { block.now.mode ≡ 0 }
    ensures { IfSome result (λ e. SpansIfAny (kept_corners state.now block.now) e) }
{
    let vertices = block.vertices.as_slice();
    let shown = shown_by(state);
    let mut extent = empty();
    for i in 0..vertices.len() / 3 {
        let a = place_of(state, &vertices[3 * i])?;
        let b = place_of(state, &vertices[3 * i + 1])?;
        let c = place_of(state, &vertices[3 * i + 2])?;
        extent = grown(state, shown, extent, &a, &b, &c);
    }
    Some(extent)
}

// The next triangle has the new vertex in place of the first corner, and else in place of the second.
fn is_turn(is_strip: bool, i: usize) -> bool
    ensures { result ≡ (is_strip && i % 2 == 0) }
{
    is_strip && i % 2 == 0
}

// Of a strip or a fan: each triangle has two corners of the one before it.
fn joined_extent(state: &State, block: &Block) -> Option<Extent>
    requires still { IsStill state.now }
    requires some { 0 < block.now.mode }
    requires few { block.now.mode < 3 }
    ensures { IfSome result (λ e. SpansIfAny (kept_corners state.now block.now) e) }
{
    let vertices = block.vertices.as_slice();
    let mut extent = empty();
    if vertices.len() < 3 {
        return Some(extent);
    }
    let shown = shown_by(state);
    let is_strip = block.mode == 1;
    let mut a = place_of(state, &vertices[0])?;
    let mut b = place_of(state, &vertices[1])?;
    for i in 0..vertices.len() - 2 {
        let c = place_of(state, &vertices[i + 2])?;
        extent = grown(state, shown, extent, &a, &b, &c);
        if is_turn(is_strip, i) {
            a = c;
        } else {
            b = c;
        }
    }
    Some(extent)
}

fn is_still(state: &State) -> bool
    ensures { result ≡ true → IsStill state.now }
{
    let identities = identities_of(state);
    if !identities.modelview {
        return false;
    }
    if !identities.projection {
        return false;
    }
    identities.usual
}

/// What the kept triangles of a block span, in a mode whose triangles aren't cut. None also where it isn't told so simply.
pub(crate) fn still_extent(state: &State, block: &Block) -> Option<Extent>
    requires { block.now.mode < cut_modes }
    ensures { IfSome result (λ e. SpansIfAny (kept_corners state.now block.now) e) }
{
    if !is_still(state) {
        return None;
    }
    if block.mode == 0 {
        separate_extent(state, block)
    } else if block.mode < 3 {
        joined_extent(state, block)
    } else {
        None
    }
}
