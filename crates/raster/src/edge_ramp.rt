//! The values of a triangle's edges along a row of pixels, by one addition each, as Pineda describes it.
ghost use Rattle.std.specs.Prelude.{◌≡◌, true, pos, ◌+ℤ◌};
ghost use Rattle.rc_base.specs.Drawing.Cover.{is_inside, is_within_edge, edge_value, centre};
ghost use Rattle.raster.specs.Edges.{IsEdgeInBounds};
ghost use Rattle.raster.specs.EdgeRamps.{IsEdgeRamp, edge_at, edge_gain};
ghost use Rattle.raster.specs.Weighed.{IsWeighed};

use crate::coverage::keeps;
use crate::lanes::{kept, step_of};
use crate::mean::weights_of;
use crate::weights::Weights;
use fixed_math::{centre_of, edge};
use rc_base::triangle::WindowTriangle;
use rc_base::window::WindowVertex;

/// The values of a triangle's edges at a pixel, not below 0 where the edge keeps the pixel's centre, and what each gains to the next pixel
/// of the row.
#[derive(Clone, Copy)]
pub struct EdgeRamp {
    first: i64,
    second: i64,
    third: i64,
    first_gain: i64,
    second_gain: i64,
    third_gain: i64,
}

#[inline(always)]
fn value_at(a: &WindowVertex, b: &WindowVertex, x: i32, y: i32) -> i64
    requires { IsEdgeInBounds a.now b.now }
    ensures { result ≡ edge_at a.now b.now x y }
{
    let e = edge(a, b, centre_of(x), centre_of(y));
    kept(e, keeps(a, b))
}

// The edge keeps the pixel's centre.
#[inline(always)]
fn keeps_centre(at: i64, a: &WindowVertex, b: &WindowVertex, x: i32, y: i32) -> bool
    requires { at ≡ edge_at a.now b.now x y }
    ensures { result ≡ is_within_edge a.now b.now (centre x) (centre y) }
{
    let _from = a;
    let _to = b;
    let _place = (x, y);
    at >= 0
}

// The edge function itself.
#[inline(always)]
fn edge_of(at: i64, a: &WindowVertex, b: &WindowVertex, x: i32, y: i32) -> i64
    requires edge { IsEdgeInBounds a.now b.now }
    requires value { at ≡ edge_at a.now b.now x y }
    ensures { result ≡ edge_value a.now b.now (centre x) (centre y) }
{
    let _place = (x, y);
    if keeps(a, b) { at } else { at + 1 }
}

// The value at the next pixel of the row.
#[inline(always)]
fn value_after(at: i64, gain: i64, a: &WindowVertex, b: &WindowVertex, x: i32, y: i32) -> i64
    requires edge { IsEdgeInBounds a.now b.now }
    requires value { at ≡ edge_at a.now b.now x y }
    requires gain { gain ≡ edge_gain a.now b.now }
    ensures { result ≡ edge_at a.now b.now (x +ℤ pos 1) y }
{
    let _from = a;
    let _to = b;
    let _place = (x, y);
    at + gain
}

/// The values of a triangle's edges from a pixel on.
#[inline(always)]
pub fn edges_from(tri: &WindowTriangle, x: i32, y: i32) -> EdgeRamp
    ensures { IsEdgeRamp tri.now.v x y result }
{
    let [a, b, c] = &tri.v;
    EdgeRamp {
        first: value_at(a, b, x, y),
        second: value_at(b, c, x, y),
        third: value_at(c, a, x, y),
        first_gain: step_of(a, b),
        second_gain: step_of(b, c),
        third_gain: step_of(c, a),
    }
}

impl EdgeRamp {
    /// Whether the triangle covers the pixel.
    #[inline(always)]
    #[tactic(auto, unfolding(rc_base::specs::Drawing::Cover::is_inside))]
    pub fn covers(&self, tri: &WindowTriangle, x: i32, y: i32) -> bool
        requires { IsEdgeRamp tri.now.v x y self.now }
        ensures { result ≡ is_inside tri.now.v x y }
    {
        let [a, b, c] = &tri.v;
        let first = keeps_centre(self.first, a, b, x, y);
        let second = keeps_centre(self.second, b, c, x, y);
        let third = keeps_centre(self.third, c, a, x, y);
        first & (second & third)
    }

    /// The weights of the triangle's corners at the pixel, which it covers.
    #[inline(always)]
    pub fn weights(&self, tri: &WindowTriangle, x: i32, y: i32) -> Weights
        requires edges { IsEdgeRamp tri.now.v x y self.now }
        requires inside { is_inside tri.now.v x y ≡ true }
        ensures { IsWeighed tri.now.v x y result }
    {
        let [a, b, c] = &tri.v;
        let first = edge_of(self.second, b, c, x, y);
        let second = edge_of(self.third, c, a, x, y);
        let third = edge_of(self.first, a, b, x, y);
        weights_of(
            tri,
            centre_of(x),
            centre_of(y),
            x,
            y,
            (first, second, third),
        )
    }

    /// Goes to the next pixel of the row.
    #[inline(always)]
    pub fn advance(&mut self, tri: &WindowTriangle, x: i32, y: i32)
        requires { IsEdgeRamp tri.now.v x y self.old }
        ensures { IsEdgeRamp tri.now.v (x +ℤ pos 1) y self.new }
    {
        let [a, b, c] = &tri.v;
        self.first = value_after(self.first, self.first_gain, a, b, x, y);
        self.second = value_after(self.second, self.second_gain, b, c, x, y);
        self.third = value_after(self.third, self.third_gain, c, a, x, y);
    }
}
