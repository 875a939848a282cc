//! What the positions of vertices span in object space: their bounding box.
ghost use Rattle.std.specs.Prelude.{◌≡◌, ◌<◌, ◌^◌, length};
ghost use Rattle.std.specs.Int.{int_min, int_max};
ghost use Rattle.rc_base.specs.Numbers.{Within};
ghost use Rattle.rc_base.specs.Intervals.{AreEndsWithin, IsOrdered, OfEach};
ghost use Rattle.rc_base.specs.Cluster.ObjectBox.{bounding_box};
ghost use Rattle.bounds_bucket.specs.Hulls.{intervals_of};

use crate::extent::Ends;
use rc_base::interval::Interval;
use rc_base::state::Vertex;

fn at(z: i32) -> Ends
    ensures least { result.least ≡ z }
    ensures greatest { result.greatest ≡ z }
{
    Ends {
        least: z,
        greatest: z,
    }
}

fn grown(ends: Ends, z: i32) -> Ends
    ensures least { result.least ≡ int_min ends.least z }
    ensures greatest { result.greatest ≡ int_max ends.greatest z }
{
    Ends {
        least: ends.least.min(z),
        greatest: ends.greatest.max(z),
    }
}

fn interval(ends: Ends) -> Interval
    ensures lo { result.lo ≡ ends.least }
    ensures hi { result.hi ≡ ends.greatest }
    ensures small { AreEndsWithin (2 ^ 31) result }
{
    Interval {
        lo: i128::from(ends.least),
        hi: i128::from(ends.greatest),
    }
}

/// From the least to the greatest x, y, z and w of some positions, in 16.16 fixed point.
#[derive(Clone, Copy)]
pub(crate) struct Hull {
    pub x: Ends,
    pub y: Ends,
    pub z: Ends,
    pub w: Ends,
}

/// The same in numbers that can be multiplied.
pub(crate) fn intervals(hull: &Hull) -> [Interval; 4]
    ensures value { result ≡ intervals_of hull.now }
    ensures small { OfEach (AreEndsWithin (2 ^ 31)) result }
{
    [
        interval(hull.x),
        interval(hull.y),
        interval(hull.z),
        interval(hull.w),
    ]
}

/// What some positions span.
pub(crate) fn hull_of(vertices: &[Vertex]) -> Hull
    requires { 0 < length vertices.now }
    ensures value { intervals_of result ≡ bounding_box vertices.now }
    ensures ordered { OfEach IsOrdered (intervals_of result) }
{
    let first = &vertices[0].pos;
    let mut x = at(first[0]);
    let mut y = at(first[1]);
    let mut z = at(first[2]);
    let mut w = at(first[3]);
    'corners: for v in vertices {
        x = grown(x, v.pos[0]);
        y = grown(y, v.pos[1]);
        z = grown(z, v.pos[2]);
        w = grown(w, v.pos[3]);
    }
    Hull { x, y, z, w }
}
