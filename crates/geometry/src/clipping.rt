//! Where the edges of a triangle meet the near plane.
ghost use Rattle.std.specs.Prelude.{◌≡◌, ◌^◌, ◌≤◌, pos, true, false, ◌+ℤ◌, ◌-ℤ◌, ◌*ℤ◌, ◌≤ℤ◌, ◌<ℤ◌, ℤ, MatchOption};
ghost use Rattle.rc_base.specs.Numbers.{Within, is_within, floor_quotient, natural};
ghost use Rattle.geometry.specs.Placed.{AreIdentities};
ghost use Rattle.rc_base.specs.Drawing.Window.{clip_vertex};
ghost use Rattle.rc_base.specs.Drawing.Pieces.{clip_bound, near_w, is_cuttable, is_in_front, crossing_point};
ghost use Rattle.geometry.specs.Fractions.{CrossesNear, IsBetweenEnds};

use crate::fraction::Fraction;
use crate::identities::Identities;
use crate::vertex::{NEAR_W, clip, is_small};
use fixed_math::floor_div;
use rc_base::command::Rgba;
use rc_base::state::{State, Vertex};
use rc_base::window::ClipVertex;

fn small(z: i128) -> i64
    requires { is_within clip_bound z ≡ true }
    ensures { result ≡ z }
{
    z as i64
}

/// The vertex in clip coordinates, where none of them is too large to be cut.
#[tactic(auto, unfolding(rc_base::specs::Drawing::Pieces::is_cuttable))]
pub(crate) fn cuttable_vertex(
    state: &State,
    identities: Identities,
    v: &Vertex,
) -> Option<ClipVertex>
    requires { AreIdentities state.now identities }
    ensures { MatchOption result
        (is_cuttable (clip_vertex state.now v.now) ≡ false)
        (λ c. (is_cuttable (clip_vertex state.now v.now) ≡ true) × (c ≡ clip_vertex state.now v.now)) }
{
    let at = clip(state, identities, v);
    if !is_small(at[0]) {
        return None;
    }
    if !is_small(at[1]) {
        return None;
    }
    if !is_small(at[2]) {
        return None;
    }
    if !is_small(at[3]) {
        return None;
    }
    Some(ClipVertex {
        x: small(at[0]),
        y: small(at[1]),
        z: small(at[2]),
        w: small(at[3]),
        color: v.color,
        s: v.s,
        t: v.t,
    })
}

/// The vertex is in front of the near plane, or on it.
#[tactic(auto, unfolding(rc_base::specs::Drawing::Pieces::is_in_front))]
pub(crate) fn is_in_front(c: &ClipVertex) -> bool
    ensures { result ≡ is_in_front c.now }
{
    c.w >= NEAR_W
}

// A difference of two coordinates.
fn apart(to: i64, from: i64) -> i64
    requires to { Within (2 ^ 46) to }
    requires from { Within (2 ^ 46) from }
    ensures value { result ≡ to -ℤ from }
    ensures small { Within (2 ^ 47) result }
{
    to - from
}

fn product(a: i64, b: i64) -> i128
    requires left { Within (2 ^ 47) a }
    requires right { Within (2 ^ 47) b }
    ensures value { result ≡ a *ℤ b }
    ensures small { Within (2 ^ 94) result }
{
    i128::from(a) * i128::from(b)
}

// That share of a difference, rounded down.
fn share(difference: i64, fraction: Fraction) -> i64
    requires { Within (2 ^ 47) difference }
    ensures value { result ≡ floor_quotient (difference *ℤ fraction.part) fraction.whole }
    ensures between { IsBetweenEnds (pos 0) difference result }
{
    floor_div(
        product(difference, fraction.part),
        i128::from(fraction.whole),
    ) as i64
}

fn moved(from: i64, by: i64) -> i64
    requires from { Within (2 ^ 46) from }
    requires by { Within (2 ^ 47) by }
    ensures { result ≡ from +ℤ by }
{
    from + by
}

// A number on the way from one end to the other.
fn crossing_value(from: i64, to: i64, fraction: Fraction) -> i64
    requires from { Within (2 ^ 46) from }
    requires to { Within (2 ^ 46) to }
    ensures value { result ≡ from +ℤ floor_quotient ((to -ℤ from) *ℤ fraction.part) fraction.whole }
    ensures between { IsBetweenEnds from to result }
{
    moved(from, share(apart(to, from), fraction))
}

fn crossing_word(from: i32, to: i32, fraction: Fraction) -> i32
    ensures { result ≡ from +ℤ floor_quotient ((to -ℤ from) *ℤ fraction.part) fraction.whole }
{
    crossing_value(i64::from(from), i64::from(to), fraction) as i32
}

fn crossing_channel(from: u8, to: u8, fraction: Fraction) -> u8
    ensures { result ≡ natural (pos from +ℤ floor_quotient ((pos to -ℤ pos from) *ℤ fraction.part) fraction.whole) }
{
    crossing_value(i64::from(from), i64::from(to), fraction) as u8
}

// How much of the edge from a vertex in front to one behind is in front.
fn fraction_of(a: &ClipVertex, b: &ClipVertex) -> Fraction
    requires { CrossesNear a.now b.now }
    ensures part { result.part ≡ a.now.w -ℤ pos near_w }
    ensures whole { result.whole ≡ a.now.w -ℤ b.now.w }
{
    Fraction {
        part: apart(a.w, NEAR_W),
        whole: apart(a.w, b.w),
    }
}

/// Where the edge from a vertex in front to one behind meets the near plane.
#[tactic(auto, unfolding(rc_base::specs::Drawing::Pieces::crossing_point))]
pub(crate) fn crossing_point(a: &ClipVertex, b: &ClipVertex) -> ClipVertex
    requires { CrossesNear a.now b.now }
    ensures { result ≡ crossing_point a.now b.now }
{
    let fraction = fraction_of(a, b);
    ClipVertex {
        x: crossing_value(a.x, b.x, fraction),
        y: crossing_value(a.y, b.y, fraction),
        z: crossing_value(a.z, b.z, fraction),
        w: NEAR_W,
        color: Rgba {
            r: crossing_channel(a.color.r, b.color.r, fraction),
            g: crossing_channel(a.color.g, b.color.g, fraction),
            b: crossing_channel(a.color.b, b.color.b, fraction),
            a: crossing_channel(a.color.a, b.color.a, fraction),
        },
        s: crossing_word(a.s, b.s, fraction),
        t: crossing_word(a.t, b.t, fraction),
    }
}
