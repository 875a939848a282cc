//! Which pixels a triangle covers: one pixel, and a rectangle row by row.
ghost use Rattle.std.specs.Prelude.{◌≡◌, ◌^◌};
ghost use Rattle.rc_base.specs.Numbers.{Within};
ghost use Rattle.rc_base.specs.Drawing.Cover.{keeps_line, passes, is_within_edge, is_inside};
ghost use Rattle.raster.specs.Edges.{IsEdgeInBounds};
ghost use Rattle.raster.specs.Runs.{GivesSpansOf};

use crate::rows::{SpanIter, span_iter};
use fixed_math::{centre_of, delta, edge};
use rc_base::triangle::WindowTriangle;
use rc_base::window::{Rect, WindowVertex};

pub(crate) fn keeps(a: &WindowVertex, b: &WindowVertex) -> bool
    requires { IsEdgeInBounds a.now b.now }
    ensures { result ≡ keeps_line a.now b.now }
{
    let dx = delta(b.x, a.x);
    let dy = delta(b.y, a.y);
    dy < 0 || (dy == 0 && dx < 0)
}

pub(crate) fn passes_edge(e: i64, keeps: bool) -> bool
    ensures { result ≡ passes e keeps }
{
    e > 0 || (e == 0 && keeps)
}

// The point is within the edge.
#[tactic(auto, unfolding(rc_base::specs::Drawing::Cover::is_within_edge))]
fn is_within(a: &WindowVertex, b: &WindowVertex, px: i64, py: i64) -> bool
    requires edge { IsEdgeInBounds a.now b.now }
    requires across { Within (2 ^ 36) px }
    requires up { Within (2 ^ 36) py }
    ensures { result ≡ is_within_edge a.now b.now px py }
{
    let e = edge(a, b, px, py);
    e > 0 || (e == 0 && keeps(a, b))
}

/// Whether the centre of pixel (`x`, `y`) is inside the triangle, by one rule for points on an edge: the left edges and the top one keep
/// theirs. (OpenGL leaves the rule open: it asks that of two triangles beside an edge one has such a point.)
#[tactic(auto, unfolding(rc_base::specs::Drawing::Cover::is_inside))]
pub fn covers(tri: &WindowTriangle, x: i32, y: i32) -> bool
    ensures { result ≡ is_inside tri.now.v x y }
{
    let px = centre_of(x);
    let py = centre_of(y);
    let first = is_within(&tri.v[0], &tri.v[1], px, py);
    let second = is_within(&tri.v[1], &tri.v[2], px, py);
    let third = is_within(&tri.v[2], &tri.v[0], px, py);
    first && (second && third)
}

/// For each row of the rectangle, rising, the span of exactly the pixels that the triangle covers in it; empty rows are left out. It looks
/// only at rows and columns between the triangle's corners.
#[inline(always)]
pub fn spans(tri: &WindowTriangle, rect: Rect) -> SpanIter<'_>
    ensures triangle { result.tri.now ≡ tri.now }
    ensures rect { result.rect ≡ rect }
    ensures row { result.y ≡ rect.y0 }
    ensures all { GivesSpansOf tri.now.v rect result }
{
    span_iter(tri, rect)
}
