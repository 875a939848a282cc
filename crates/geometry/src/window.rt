//! From three vertices to a triangle of the window.
ghost use Rattle.std.specs.Prelude.{◌≡◌, ◌==◌, ◌||◌, ◌^◌, pos, true, false, not, neg_ℤ, ◌<ℤ◌, int_lt, if◌then◌else◌, Option, Some, None, MatchOption};
ghost use Rattle.rc_base.specs.Numbers.{Within};
ghost use Rattle.rc_base.specs.Drawing.Cover.{triangle_area, IsInBounds};
ghost use Rattle.rc_base.specs.Drawing.Kept.{three, is_front, is_culled, is_shown, oriented, is_kept_at, clip_corners, kept_of, vertex_at};
ghost use Rattle.rc_base.specs.Drawing.Window.{window_of};
ghost use Rattle.geometry.specs.Placed.{AreCornersInBounds};

use crate::identities::identities_of;
use crate::vertex::stand_of;
use fixed_math::edge;
use rc_base::state::{State, Vertex};
use rc_base::triangle::WindowTriangle;
use rc_base::window::WindowVertex;

#[inline(always)]
fn faces_away(state: &State, area: i64) -> bool
    ensures { result ≡ (state.now.cull_face == 2 || (if state.now.cull_face == 0 then is_front state.now area else not (is_front state.now area))) }
{
    let front = if state.front_face == 0 {
        area > 0
    } else {
        area < 0
    };
    state.cull_face == 2 || (if state.cull_face == 0 { front } else { !front })
}

#[inline(always)]
fn culled(state: &State, area: i64) -> bool
    ensures { result ≡ is_culled state.now area }
{
    state.cull_on && faces_away(state, area)
}

#[inline(always)]
fn make(a: &WindowVertex, b: &WindowVertex, c: &WindowVertex, area: i64) -> WindowTriangle
    requires corners { AreCornersInBounds a.now b.now c.now }
    requires area { area ≡ triangle_area (three a.now b.now c.now) }
    requires positive { pos 0 <ℤ area }
    ensures { result.v ≡ three a.now b.now c.now }
{
    WindowTriangle {
        v: [*a, *b, *c],
        area,
    }
}

#[inline(always)]
fn signed_area(a: &WindowVertex, b: &WindowVertex, c: &WindowVertex) -> i64
    requires { AreCornersInBounds a.now b.now c.now }
    ensures value { result ≡ triangle_area (three a.now b.now c.now) }
    ensures small { Within (2 ^ 44) result }
{
    edge(a, b, i64::from(c.x), i64::from(c.y))
}

fn magnitude(area: i64) -> i64
    requires { Within (2 ^ 44) area }
    ensures { result ≡ (if int_lt area (pos 0) then neg_ℤ area else area) }
{
    if area < 0 { -area } else { area }
}

/// Whether the triangle of three corners is dropped: it has no area, or is culled.
#[inline(always)]
#[tactic(auto, unfolding(rc_base::specs::Drawing::Kept::is_shown))]
pub(crate) fn is_dropped(
    state: &State,
    a: &WindowVertex,
    b: &WindowVertex,
    c: &WindowVertex,
) -> bool
    requires { AreCornersInBounds a.now b.now c.now }
    ensures { result ≡ not (is_shown state.now (triangle_area (three a.now b.now c.now))) }
{
    let area = signed_area(a, b, c);
    area == 0 || culled(state, area)
}

#[inline(always)]
fn chosen<'a>(first: bool, a: &'a WindowVertex, b: &'a WindowVertex) -> &'a WindowVertex
    requires a { IsInBounds a.now }
    requires b { IsInBounds b.now }
    ensures value { result.now ≡ (if first then a.now else b.now) }
    ensures bounds { IsInBounds result.now }
{
    if first { a } else { b }
}

/// The triangle of three corners that has an area, counterclockwise.
#[inline(always)]
pub(crate) fn turned(a: &WindowVertex, b: &WindowVertex, c: &WindowVertex) -> WindowTriangle
    requires corners { AreCornersInBounds a.now b.now c.now }
    requires apart { triangle_area (three a.now b.now c.now) ≡ pos 0 → ⊥ }
    ensures { result.v ≡ oriented a.now b.now c.now }
{
    let area = signed_area(a, b, c);
    let clockwise = area < 0;
    make(
        a,
        chosen(clockwise, c, b),
        chosen(clockwise, b, c),
        magnitude(area),
    )
}

/// The triangle of three corners, where it isn't dropped.
#[inline(always)]
pub(crate) fn assemble(
    state: &State,
    a: WindowVertex,
    b: WindowVertex,
    c: WindowVertex,
) -> Option<WindowTriangle>
    requires { AreCornersInBounds a b c }
    ensures { MatchOption result
        (is_shown state.now (triangle_area (three a b c)) ≡ false)
        (λ t. (is_shown state.now (triangle_area (three a b c)) ≡ true) × (t.v ≡ oriented a b c)) }
{
    if is_dropped(state, &a, &b, &c) {
        return None;
    }
    Some(turned(&a, &b, &c))
}

// The oriented triangle, where it has an area and isn't culled.
#[tactic(auto, unfolding(rc_base::specs::Drawing::Kept::is_kept_at, rc_base::specs::Drawing::Window::is_placed, rc_base::specs::Drawing::Window::window_of))]
fn kept(state: &State, corners: &[Vertex; 3]) -> Option<WindowTriangle>
    ensures { MatchOption result
        (is_kept_at state.now (clip_corners state.now (vertex_at corners.now 0) (vertex_at corners.now 1) (vertex_at corners.now 2)) ≡ false)
        (λ t. (is_kept_at state.now (clip_corners state.now (vertex_at corners.now 0) (vertex_at corners.now 1) (vertex_at corners.now 2)) ≡ true)
        × (t.v ≡ oriented (window_of state.now (vertex_at corners.now 0)) (window_of state.now (vertex_at corners.now 1)) (window_of state.now (vertex_at corners.now 2)))) }
{
    let identities = identities_of(state);
    let a = stand_of(state, identities, &corners[0]).at?;
    let b = stand_of(state, identities, &corners[1]).at?;
    let c = stand_of(state, identities, &corners[2]).at?;
    assemble(state, a, b, c)
}

/// The triangle of three vertices in window coordinates, its corners counterclockwise: `None` where a corner does not stand before the eye
/// or lies outside the bounds of window coordinates (2^20 sixteenths of a pixel, and 2^30 in depth), where it has no area, and where it is
/// culled. Any state will do.
pub fn to_window(state: &State, corners: &[Vertex; 3]) -> Option<WindowTriangle>
    ensures { MatchOption result
        (kept_of state.now (vertex_at corners.now 0) (vertex_at corners.now 1) (vertex_at corners.now 2) ≡ None)
        (λ t. kept_of state.now (vertex_at corners.now 0) (vertex_at corners.now 1) (vertex_at corners.now 2) ≡ Some t.v) }
{
    kept(state, corners)
}
