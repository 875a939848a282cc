//! The columns of a row that a triangle covers, by the inverses of its edges' slopes: a product an edge and row in place of a division.
ghost use Rattle.std.specs.Prelude.{◌≡◌, ◌^◌, ℤ, pos, ◌+ℤ◌, ◌-ℤ◌, ◌*ℤ◌, ◌≤ℤ◌, ◌<ℤ◌};
ghost use Rattle.std.specs.Int.{int_min, int_max};
ghost use Rattle.rc_base.specs.Numbers.{Within};
ghost use Rattle.raster.specs.Columns.{IsTurn, AreKept};
ghost use Rattle.raster.specs.Edges.{IsEdgeInBounds};
ghost use Rattle.raster.specs.Reciprocal.{IsReciprocal};
ghost use Rattle.raster.specs.Slopes.{IsRowInReach, IsSlope, AreSlopes};
ghost use Rattle.raster.specs.Spans.{IsEmptyRow, IsSpanIfAny};

use crate::column::strict;
use crate::columns::{Places, minus_1, negated, times_16, width_of};
use crate::coverage::keeps;
use crate::rise::{climb, product};
use crate::turns::{Level, Turns};
use fixed_math::{centre_of, delta, edge};
use rc_base::triangle::WindowTriangle;
use rc_base::window::WindowVertex;

/// On which side of its columns an edge is, and where it turns; a level edge keeps all columns of a row or none.
#[derive(Clone, Copy)]
pub(crate) enum Slope {
    Left(Turns),
    Right(Turns),
    Level(Level),
}

/// The slopes of a triangle's edges.
#[derive(Clone, Copy)]
pub(crate) struct Slopes {
    pub(crate) first: Slope,
    pub(crate) second: Slope,
    pub(crate) third: Slope,
}

// 1 / step in parts of 2^64, rounded up.
fn inverse(step: i64) -> u64
    requires { pos 1 <ℤ step }
    ensures { IsReciprocal 64 step result }
{
    18_446_744_073_709_551_615 / (step as u64) + 1
}

// Of an edge that goes up, or that goes down and is taken the other way.
fn turns(e: i64, dx: i64, dy: i64) -> Turns
    requires e { Within (2 ^ 60) e }
    requires dx { Within (2 ^ 21) dx }
    requires dy { Within (2 ^ 21) dy }
    requires up { pos 0 <ℤ dy }
    ensures first { result.first ≡ e -ℤ pos 1 }
    ensures gain { result.gain ≡ dx }
    ensures step { result.step ≡ pos 16 *ℤ dy }
{
    let step = times_16(dy);
    Turns {
        first: minus_1(e),
        gain: dx,
        step,
        inverse: inverse(step),
    }
}

fn level(first: i64, gain: i64) -> Level
    requires bounded { Within (2 ^ 61) first }
    requires slow { Within (2 ^ 21) gain }
    ensures first { result.first ≡ first }
    ensures gain { result.gain ≡ gain }
{
    Level { first, gain }
}

// Of the rows from `y0` on, by their values in column `x0`.
fn slope_at(a: &WindowVertex, b: &WindowVertex, x0: i32, y0: i32) -> Slope
    requires { IsEdgeInBounds a.now b.now }
    ensures { IsSlope a.now b.now x0 y0 result }
{
    let dx = delta(b.x, a.x);
    let dy = delta(b.y, a.y);
    let e = edge(a, b, centre_of(x0), centre_of(y0));
    if dy < 0 {
        return Slope::Left(turns(negated(e), negated(dx), negated(dy)));
    }
    if dy > 0 {
        return Slope::Right(turns(e, dx, dy));
    }
    Slope::Level(level(strict(e, keeps(a, b)), dx))
}

/// The slopes of a triangle's edges in the rows from `y0` on, from column `x0` on.
pub(crate) fn slopes_at(tri: &WindowTriangle, x0: i32, y0: i32) -> Slopes
    ensures { AreSlopes tri.now.v x0 y0 result }
{
    Slopes {
        first: slope_at(&tri.v[0], &tri.v[1], x0, y0),
        second: slope_at(&tri.v[1], &tri.v[2], x0, y0),
        third: slope_at(&tri.v[2], &tri.v[0], x0, y0),
    }
}

fn lifted(first: i64, gain: i64) -> i64
    requires first { Within (2 ^ 61) first }
    requires gain { Within (2 ^ 58) gain }
    ensures value { result ≡ first +ℤ gain }
    ensures small { Within (2 ^ 62) result }
{
    first + gain
}

// One step more than `most`, held from 0 to `reach`.
fn held(most: i64, step: i64, reach: i64) -> i64
    requires most { Within (2 ^ 62) most }
    requires step { Within (2 ^ 25) step }
    requires reach { pos 0 ≤ℤ reach }
    ensures low { pos 0 ≤ℤ result }
    ensures high { result ≤ℤ reach }
    ensures under { pos 0 <ℤ result → (result -ℤ step) ≤ℤ most }
    ensures over { result <ℤ reach → most ≤ℤ (result -ℤ step) }
{
    (most + step).max(0).min(reach)
}

// So many columns, each a step wide.
fn reach(step: i64, width: i64) -> i64
    requires some { pos 0 <ℤ step }
    requires small { step ≤ℤ pos (2 ^ 25) }
    requires low { pos 0 ≤ℤ width }
    requires high { width ≤ℤ pos (2 ^ 12) }
    ensures value { result ≡ step *ℤ width }
    ensures low { pos 0 ≤ℤ result }
    ensures high { result ≤ℤ pos (2 ^ 37) }
{
    step * width
}

// How many whole steps there are in a distance, by the inverse of the step.
fn share(distance: i64, inverse: u64) -> u64
    requires { pos 0 ≤ℤ distance }
    ensures low { (pos (2 ^ 64) *ℤ pos result) ≤ℤ (distance *ℤ pos inverse) }
    ensures high { (distance *ℤ pos inverse) <ℤ (pos (2 ^ 64) *ℤ pos result +ℤ pos (2 ^ 64)) }
{
    ((u128::from(distance as u64) * u128::from(inverse)) >> 64) as u64
}

// So many columns after the first.
fn column_after(count: u64, c: Places) -> i32
    requires room { (c.x0 +ℤ pos count) ≤ℤ c.x1 }
    requires few { (c.x1 -ℤ c.x0) ≤ℤ pos (2 ^ 12) }
    ensures { result ≡ c.x0 +ℤ pos count }
{
    let _end = c.x1;
    c.x0 + count as i32
}

// How many columns come before the turn in the row that is a climb above the lowest.
#[inline(always)]
fn columns_before(t: &Turns, climb: i64, c: Places) -> u64
    requires { IsRowInReach climb c }
    ensures { IsTurn (t.now.first +ℤ t.now.gain *ℤ climb) t.now.step c.x0 c.x1 (c.x0 +ℤ pos result) }
{
    let most = lifted(t.first, product(t.gain, climb));
    share(held(most, t.step, reach(t.step, width_of(c))), t.inverse)
}

// The turn in that row.
#[inline(always)]
fn turn_at(t: &Turns, climb: i64, c: Places) -> i32
    requires { IsRowInReach climb c }
    ensures { IsTurn (t.now.first +ℤ t.now.gain *ℤ climb) t.now.step c.x0 c.x1 result }
{
    column_after(columns_before(t, climb, c), c)
}

// All columns or none of the row that is a climb above the lowest.
#[inline(always)]
fn level_columns(l: &Level, climb: i64, c: Places) -> Places
    requires climb { Within (2 ^ 37) climb }
    ensures all { pos 0 <ℤ (l.now.first +ℤ l.now.gain *ℤ climb) → result ≡ c }
    ensures none { (l.now.first +ℤ l.now.gain *ℤ climb) ≤ℤ pos 0 → result ≡ record { x0 = c.x0; x1 = c.x0 } }
{
    if lifted(l.first, product(l.gain, climb)) > 0 {
        return c;
    }
    Places { x0: c.x0, x1: c.x0 }
}

// Of the columns, those whose centre in row `y` the edge keeps.
#[inline(always)]
fn kept_by(slope: &Slope, a: &WindowVertex, b: &WindowVertex, y0: i32, y: i32, c: Places) -> Places
    requires slope { IsSlope a.now b.now c.x0 y0 slope.now }
    requires order { c.x0 ≤ℤ c.x1 }
    requires few { (c.x1 -ℤ c.x0) ≤ℤ pos (2 ^ 12) }
    ensures { AreKept a.now b.now y c result }
{
    match slope {
        Slope::Left(t) => Places {
            x0: turn_at(t, climb(y0, y), c),
            x1: c.x1,
        },
        Slope::Right(t) => Places {
            x0: c.x0,
            x1: turn_at(t, climb(y0, y), c),
        },
        Slope::Level(l) => level_columns(l, climb(y0, y), c),
    }
}

fn common(a: Places, b: Places) -> Places
    ensures low { result.x0 ≡ int_max a.x0 b.x0 }
    ensures high { result.x1 ≡ int_min a.x1 b.x1 }
{
    Places {
        x0: a.x0.max(b.x0),
        x1: a.x1.min(b.x1),
    }
}

/// The columns from `x0` to below `x1`, at most 2^12, of row `y` that the triangle covers, by its slopes from row `y0` on.
#[inline(always)]
pub(crate) fn sloped_places(
    tri: &WindowTriangle,
    slopes: &Slopes,
    y0: i32,
    y: i32,
    x0: i32,
    x1: i32,
) -> Places
    requires slopes { AreSlopes tri.now.v x0 y0 slopes.now }
    requires order { x0 ≤ℤ x1 }
    requires few { (x1 -ℤ x0) ≤ℤ pos (2 ^ 12) }
    ensures none { result.x1 ≤ℤ result.x0 → IsEmptyRow tri.now.v y x0 x1 }
    ensures some { IsSpanIfAny tri.now.v y x0 x1 result }
{
    let all = Places { x0, x1 };
    let first = kept_by(&slopes.first, &tri.v[0], &tri.v[1], y0, y, all);
    let second = kept_by(&slopes.second, &tri.v[1], &tri.v[2], y0, y, all);
    let third = kept_by(&slopes.third, &tri.v[2], &tri.v[0], y0, y, all);
    common(common(first, second), third)
}
