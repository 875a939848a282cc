//! The pieces of a triangle of a block: itself, or what of it is in front of the near plane.
ghost use Rattle.std.specs.Prelude.{◌≡◌, ℕ, ◌^◌, ◌<◌, ◌∷◌, [], pos, true, false, None, Some, MatchOption};
ghost use Rattle.rc_base.specs.Numbers.{Within};
ghost use Rattle.rc_base.specs.Drawing.Kept.{three, oriented, is_kept_at, vertex_at};
ghost use Rattle.rc_base.specs.Drawing.Window.{clip_vertex, window_at};
ghost use Rattle.rc_base.specs.Drawing.Pieces.{is_cuttable, fan_of, polygon_of, front_pieces, kept_pieces};
ghost use Rattle.geometry.specs.Pieces.{IsPlaceAt, IsPoint, ArePoints, IsPiece, ArePieces, found_in, corner_pieces};

use crate::clipping::{crossing_point, cuttable_vertex, is_in_front};
use crate::cut_triangle::Pieces;
use crate::identities::identities_of;
use crate::vertex::{axis, depth, narrow};
use crate::window::{assemble, to_window};
use rc_base::state::{CUT_MODES, State, Vertex};
use rc_base::triangle::WindowTriangle;
use rc_base::window::{ClipVertex, WindowVertex};

// A point of a polygon, and where it stands in the window, if it does.
#[derive(Clone, Copy)]
struct Point {
    vertex: ClipVertex,
    place: Option<WindowVertex>,
}

fn wide(z: i64) -> i128
    ensures value { result ≡ z }
    ensures small { Within (2 ^ 65) result }
{
    i128::from(z)
}

// Where a vertex stands in the window, if it does.
fn place(state: &State, c: &ClipVertex) -> Option<WindowVertex>
    ensures { IsPlaceAt state.now c.now result }
{
    if c.w <= 0 {
        return None;
    }
    let w = wide(c.w);
    let x = axis(state.viewport[0], state.viewport[2], wide(c.x), w);
    let y = axis(state.viewport[1], state.viewport[3], wide(c.y), w);
    let z = depth(state.depth_range[0], state.depth_range[1], wide(c.z), w);
    let carried = Vertex {
        pos: [0, 0, 0, 0],
        color: c.color,
        s: c.s,
        t: c.t,
    };
    narrow(&carried, x, y, z)
}

fn point_at(state: &State, vertex: ClipVertex) -> Point
    ensures vertex { result.vertex ≡ vertex }
    ensures place { IsPoint state.now result }
{
    Point {
        vertex,
        place: place(state, &vertex),
    }
}

// The oriented triangle, where it has an area and isn't culled.
#[tactic(auto, unfolding(rc_base::specs::Drawing::Kept::is_kept_at))]
fn shown(state: &State, a: &Point, b: &Point, c: &Point) -> Option<WindowTriangle>
    requires { ArePoints state.now a.now b.now c.now }
    ensures { MatchOption result
        (is_kept_at state.now (a.now.vertex ∷ b.now.vertex ∷ c.now.vertex ∷ []) ≡ false)
        (λ t. (is_kept_at state.now (a.now.vertex ∷ b.now.vertex ∷ c.now.vertex ∷ []) ≡ true)
        × (t.v ≡ oriented (window_at state.now a.now.vertex) (window_at state.now b.now.vertex) (window_at state.now c.now.vertex))) }
{
    let first = a.place?;
    let second = b.place?;
    let third = c.place?;
    assemble(state, first, second, third)
}

// The triangle of three points, where it is kept.
fn piece(state: &State, a: &Point, b: &Point, c: &Point) -> Option<WindowTriangle>
    requires { ArePoints state.now a.now b.now c.now }
    ensures { IsPiece state.now ((a.now.vertex ∷ b.now.vertex ∷ c.now.vertex ∷ []) ∷ []) 0 result }
{
    shown(state, a, b, c)
}

// A polygon of three points.
fn one(state: &State, a: ClipVertex, b: ClipVertex, c: ClipVertex) -> Pieces
    ensures { ArePieces state.now ((a ∷ b ∷ c ∷ []) ∷ []) result }
{
    Pieces {
        first: piece(
            state,
            &point_at(state, a),
            &point_at(state, b),
            &point_at(state, c),
        ),
        second: None,
    }
}

// A polygon of four points.
fn two(state: &State, a: ClipVertex, b: ClipVertex, c: ClipVertex, d: ClipVertex) -> Pieces
    ensures { ArePieces state.now ((a ∷ b ∷ c ∷ []) ∷ (a ∷ c ∷ d ∷ []) ∷ []) result }
{
    let first = point_at(state, a);
    let third = point_at(state, c);
    Pieces {
        first: piece(state, &first, &point_at(state, b), &third),
        second: piece(state, &first, &third, &point_at(state, d)),
    }
}

const NONE: Pieces = Pieces {
    first: None,
    second: None,
};

// The pieces of the polygon of three vertices.
fn pieces_in_front(state: &State, a: &ClipVertex, b: &ClipVertex, c: &ClipVertex) -> Pieces
    requires a { is_cuttable a.now ≡ true }
    requires b { is_cuttable b.now ≡ true }
    requires c { is_cuttable c.now ≡ true }
    ensures { ArePieces state.now (fan_of (polygon_of a.now b.now c.now)) result }
{
    match (is_in_front(a), is_in_front(b), is_in_front(c)) {
        (true, true, true) => one(state, *a, *b, *c),
        (true, true, false) => two(state, *a, *b, crossing_point(b, c), crossing_point(a, c)),
        (true, false, true) => two(state, *a, crossing_point(a, b), crossing_point(c, b), *c),
        (true, false, false) => one(state, *a, crossing_point(a, b), crossing_point(a, c)),
        (false, true, true) => two(state, crossing_point(b, a), *b, *c, crossing_point(c, a)),
        (false, true, false) => one(state, crossing_point(b, a), *b, crossing_point(b, c)),
        (false, false, true) => one(state, crossing_point(c, b), *c, crossing_point(c, a)),
        (false, false, false) => NONE,
    }
}

// The pieces of a triangle of three vertices.
#[tactic(auto, unfolding(rc_base::specs::Drawing::Pieces::front_pieces))]
fn cut(state: &State, corners: &[Vertex; 3]) -> Pieces
    ensures { let at = λ (i : ℕ). clip_vertex state.now (vertex_at corners.now i) in
        ArePieces state.now (front_pieces (at 0) (at 1) (at 2)) result }
{
    let identities = identities_of(state);
    let Some(a) = cuttable_vertex(state, identities, &corners[0]) else {
        return NONE;
    };
    let Some(b) = cuttable_vertex(state, identities, &corners[1]) else {
        return NONE;
    };
    let Some(c) = cuttable_vertex(state, identities, &corners[2]) else {
        return NONE;
    };
    pieces_in_front(state, &a, &b, &c)
}

/// The pieces of a triangle of three vertices in a block of that mode, in window coordinates, their corners counterclockwise. In a
/// mode below 16 it is the triangle itself, as `to_window` gives it. In a mode from 16 it is cut at the near plane, where w is 256, and
/// what is in front of it gives no piece, one, or two. A piece that lies outside the bounds of window coordinates, has no area or is culled
/// is dropped by itself, and so is a triangle with a clip coordinate above 2^46 in size.
pub fn pieces(state: &State, mode: u8, corners: &[Vertex; 3]) -> Pieces
    ensures first { IsPiece state.now (corner_pieces state.now mode corners.now) 0 result.first }
    ensures second { IsPiece state.now (corner_pieces state.now mode corners.now) 1 result.second }
    ensures all { kept_pieces state.now mode (vertex_at corners.now 0) (vertex_at corners.now 1)
        (vertex_at corners.now 2) ≡ found_in result }
{
    if mode < CUT_MODES {
        return Pieces {
            first: to_window(state, corners),
            second: None,
        };
    }
    cut(state, corners)
}
