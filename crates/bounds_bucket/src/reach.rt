//! Which pixels are in reach of clip coordinates that lie in intervals.
ghost use Rattle.std.specs.Prelude.{◌≡◌, ◌^◌, ◌*◌, true, ℕ, ℤ, pos, ◌&&◌, ◌+ℤ◌, ◌*ℤ◌, ◌<ℤ◌, ◌≤ℤ◌, int_le, int_lt};
ghost use Rattle.rc_base.specs.Numbers.{Within, fits_i32};
ghost use Rattle.rc_base.specs.Drawing.Window.{axis_of};
ghost use Rattle.rc_base.specs.Drawing.Cover.{centre};
ghost use Rattle.rc_base.specs.Intervals.{AreEndsWithin, IsOrdered, OfEach, interval_at, transformed_over};
ghost use Rattle.bounds_bucket.specs.Hulls.{AreAllWithin, CanBeReached};
ghost use Rattle.bounds_bucket.specs.Ranges.{is_among, IsPartWhere};
ghost use Rattle.rc_base.specs.Cluster.ObjectBox.{axis_over, clip_over, dividends, divisors, moved_by, is_enclosed, may_be_near, is_amid_places, is_in_reach};

use crate::boxes::rect_of;
use crate::range::{Range, columns_of, rows_of};
use fixed_math::{quotient, row_over};
use geometry::{NEAR_W, is_identity, unit_axis};
use rc_base::command::Mat4;
use rc_base::interval::Interval;
use rc_base::state::State;
use rc_base::window::Rect;

// One in 16.16 fixed point.
const ONE: i128 = 65_536;

// The product of a matrix and a vector of which each entry lies in an interval. The identity is not worth a product: most blocks are small.
#[tactic(auto, unfolding(rc_base::specs::Intervals::transformed_over))]
fn transform_over(m: &Mat4, b: &[Interval; 4]) -> [Interval; 4]
    requires { AreAllWithin (2 ^ 64) b.now }
    ensures value { result ≡ transformed_over m.now.m b.now }
    ensures ordered { OfEach IsOrdered result }
    ensures small { (n : ℕ) → OfEach (AreEndsWithin n) b.now → OfEach (AreEndsWithin (2 ^ 17 * n)) result }
{
    if is_identity(m) {
        return [b[0], b[1], b[2], b[3]];
    }
    [
        row_over(m, 0, b),
        row_over(m, 1, b),
        row_over(m, 2, b),
        row_over(m, 3, b),
    ]
}

/// The clip coordinates of all positions that lie in these intervals.
#[tactic(auto, unfolding(rc_base::specs::Cluster::ObjectBox::clip_over))]
pub(crate) fn clip_over(state: &State, b: &[Interval; 4]) -> [Interval; 4]
    requires { AreAllWithin (2 ^ 31) b.now }
    ensures value { result ≡ clip_over state.now b.now }
    ensures range { AreAllWithin (2 ^ 65) result }
{
    let eye = transform_over(&state.modelview, b);
    transform_over(&state.projection, &eye)
}

fn plus(x: i128, w: i128) -> i128
    requires x { Within (2 ^ 65) x }
    requires w { Within (2 ^ 65) w }
    ensures value { result ≡ x +ℤ w }
    ensures small { Within (2 ^ 66) result }
{
    x + w
}

fn scaled(sum: i128, size: i32) -> i128
    requires { Within (2 ^ 66) sum }
    ensures value { result ≡ sum *ℤ size *ℤ pos 16 }
    ensures small { Within (2 ^ 101) result }
{
    sum * i128::from(size) * 16
}

fn double(w: i128) -> i128
    requires { Within (2 ^ 65) w }
    ensures { result ≡ pos 2 *ℤ w }
{
    2 * w
}

fn moved(origin: i32, q: i128) -> i128
    requires { Within (2 ^ 101) q }
    ensures value { result ≡ pos 16 *ℤ origin +ℤ q }
    ensures small { Within (2 ^ 102) result }
{
    16 * i128::from(origin) + q
}

fn dividends(size: i32, x: Interval, w: Interval) -> Interval
    requires x_small { AreEndsWithin (2 ^ 65) x }
    requires w_small { AreEndsWithin (2 ^ 65) w }
    ensures value { result ≡ dividends size x w }
    ensures small { AreEndsWithin (2 ^ 101) result }
{
    Interval {
        lo: scaled(plus(x.lo, w.lo), size),
        hi: scaled(plus(x.hi, w.hi), size),
    }
}

fn divisors(w: Interval) -> Interval
    requires { AreEndsWithin (2 ^ 65) w }
    ensures { result ≡ divisors w }
{
    Interval {
        lo: double(w.lo),
        hi: double(w.hi),
    }
}

fn moved_by(origin: i32, q: Interval) -> Interval
    requires { AreEndsWithin (2 ^ 101) q }
    ensures value { result ≡ moved_by (pos 16 *ℤ origin) q }
    ensures small { AreEndsWithin (2 ^ 102) result }
{
    Interval {
        lo: moved(origin, q.lo),
        hi: moved(origin, q.hi),
    }
}

// A number of 32 bits.
fn is_narrow(z: i128) -> bool
    ensures { result ≡ fits_i32 z }
{
    -2_147_483_648 <= z && z <= 2_147_483_647
}

// All places have w one, and their clip coordinate is a number of 32 bits: in most blocks that no matrix moves.
fn is_unit(x: Interval, w: Interval) -> bool
    ensures one { result ≡ true → (w.lo ≡ pos 65536) × (w.hi ≡ pos 65536) }
    ensures low { result ≡ true → fits_i32 x.lo ≡ true }
    ensures high { result ≡ true → fits_i32 x.hi ≡ true }
{
    w.lo == ONE && w.hi == ONE && is_narrow(x.lo) && is_narrow(x.hi)
}

fn unit_place(origin: i32, size: i32, x: i128) -> i128
    requires { fits_i32 x ≡ true }
    ensures value { result ≡ axis_of origin size x (pos 65536) }
    ensures small { Within (2 ^ 102) result }
{
    i128::from(unit_axis(origin, size, x as i32))
}

// The window coordinates where w is one, by the end points alone.
fn unit_axis_over(origin: i32, size: i32, x: Interval) -> Interval
    requires low { fits_i32 x.lo ≡ true }
    requires high { fits_i32 x.hi ≡ true }
    ensures value { result ≡ record {
      lo = axis_of origin size x.lo (pos 65536);
      hi = axis_of origin size x.hi (pos 65536);
    } }
    ensures small { AreEndsWithin (2 ^ 102) result }
{
    Interval {
        lo: unit_place(origin, size, x.lo),
        hi: unit_place(origin, size, x.hi),
    }
}

// The window coordinates of all places with a clip coordinate in `x` and w in `w`.
#[tactic(auto, unfolding(rc_base::specs::Cluster::ObjectBox::axis_over))]
fn axis_over(origin: i32, size: i32, x: Interval, w: Interval) -> Interval
    requires size { pos 0 ≤ℤ size }
    requires above { pos 0 <ℤ w.lo }
    requires x_ordered { IsOrdered x }
    requires w_ordered { IsOrdered w }
    requires x_small { AreEndsWithin (2 ^ 65) x }
    requires w_small { AreEndsWithin (2 ^ 65) w }
    ensures value { result ≡ axis_over origin size x w }
    ensures small { AreEndsWithin (2 ^ 102) result }
{
    if is_unit(x, w) {
        return unit_axis_over(origin, size, x);
    }
    moved_by(origin, quotient(dividends(size, x, w), divisors(w)))
}

// The first row or column whose centre is not below `least`.
fn first_from(least: i128) -> i128
    requires { Within (2 ^ 102) least }
    ensures above { (p : ℤ) → least ≤ℤ centre p → result ≤ℤ p }
    ensures below { (p : ℤ) → result ≤ℤ p → least ≤ℤ centre p }
{
    (least + 7).div_euclid(16)
}

// One past the last row or column whose centre is not above `greatest`.
fn end_after(greatest: i128) -> i128
    requires { Within (2 ^ 102) greatest }
    ensures below { (p : ℤ) → centre p ≤ℤ greatest → p <ℤ result }
    ensures above { (p : ℤ) → p <ℤ result → centre p ≤ℤ greatest }
{
    (greatest + 8).div_euclid(16)
}

// The numbers of a range from `from` on.
fn cut_start(range: Range, from: i128) -> Range
    ensures { (p : ℤ) → is_among result p ≡ (is_among range p && int_le from p) }
{
    if from <= i128::from(range.from) {
        return range;
    }
    if from >= i128::from(range.end) {
        return Range {
            from: range.end,
            end: range.end,
        };
    }
    Range {
        from: from as i32,
        end: range.end,
    }
}

// The numbers of a range below `end`.
fn cut_end(range: Range, end: i128) -> Range
    ensures { (p : ℤ) → is_among result p ≡ (is_among range p && int_lt p end) }
{
    if end >= i128::from(range.end) {
        return range;
    }
    if end <= i128::from(range.from) {
        return Range {
            from: range.from,
            end: range.from,
        };
    }
    Range {
        from: range.from,
        end: end as i32,
    }
}

// The rows or columns of a range whose centres lie in the interval.
fn centred(range: Range, i: Interval) -> Range
    requires { AreEndsWithin (2 ^ 102) i }
    ensures { (p : ℤ) → is_among result p ≡ (is_among range p && is_enclosed i (centre p)) }
{
    cut_end(cut_start(range, first_from(i.lo)), end_after(i.hi))
}

// A point of these clip coordinates may not be in front of the near plane.
fn may_be_near(clip: &[Interval; 4]) -> bool
    ensures { result ≡ may_be_near clip.now }
{
    clip[3].lo < i128::from(NEAR_W)
}

// The pixels of a rectangle whose centres lie between the window coordinates.
#[tactic(auto, unfolding(rc_base::specs::Cluster::ObjectBox::is_amid_places))]
fn amid_places(rect: Rect, state: &State, clip: &[Interval; 4]) -> Rect
    requires reach { CanBeReached state.now clip.now }
    requires above { pos 0 <ℤ (interval_at clip.now 3).lo }
    ensures { IsPartWhere rect (is_amid_places state.now clip.now) result }
{
    let [left, bottom, width, height] = state.viewport;
    rect_of(
        centred(columns_of(rect), axis_over(left, width, clip[0], clip[3])),
        centred(rows_of(rect), axis_over(bottom, height, clip[1], clip[3])),
    )
}

/// The pixels of a rectangle that are in reach.
pub(crate) fn reached(rect: Rect, state: &State, clip: &[Interval; 4]) -> Rect
    requires { CanBeReached state.now clip.now }
    ensures { IsPartWhere rect (is_in_reach state.now clip.now) result }
{
    if may_be_near(clip) {
        return rect;
    }
    amid_places(rect, state, clip)
}
