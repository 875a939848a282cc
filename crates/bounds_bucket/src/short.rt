//! Which pixels are in reach of positions that no matrix moves: their coordinates have 32 bits, and numbers of 64 bits do.
ghost use Rattle.std.specs.Prelude.{◌≡◌, ◌^◌, ℤ, pos, true, ◌&&◌, ◌+ℤ◌, ◌*ℤ◌, ◌<ℤ◌, ◌≤ℤ◌, int_le, int_lt, if◌then◌else◌};
ghost use Rattle.rc_base.specs.Numbers.{Within, floor_quotient};
ghost use Rattle.rc_base.specs.Drawing.Cover.{centre};
ghost use Rattle.rc_base.specs.Intervals.{IsOrdered, OfEach};
ghost use Rattle.rc_base.specs.Cluster.ObjectBox.{axis_over, clip_over, is_enclosed, is_in_reach, may_be_near};
ghost use Rattle.bounds_bucket.specs.Hulls.{CanBePlaced, IsShort, interval_of, intervals_of};
ghost use Rattle.bounds_bucket.specs.Ranges.{is_among, IsPartWhere};

use crate::boxes::rect_of;
use crate::extent::Ends;
use crate::hull::Hull;
use crate::range::{Range, columns_of, rows_of, sixteenth};
use crate::still::{eightfold, moved, scaled, sum};
use fixed_math::floor_div_64;
use geometry::{NEAR_W, is_identity};
use rc_base::state::State;
use rc_base::window::Rect;

fn is_side(side: i32) -> bool
    ensures { result ≡ true → Within (2 ^ 16) side }
{
    0 <= side && side <= 65_536
}

/// Whether numbers of 64 bits do.
pub(crate) fn is_short(state: &State) -> bool
    ensures { result ≡ true → IsShort state.now }
{
    if !is_side(state.viewport[2]) {
        return false;
    }
    if !is_side(state.viewport[3]) {
        return false;
    }
    if !is_identity(&state.modelview) {
        return false;
    }
    is_identity(&state.projection)
}

// What is divided by w for a window coordinate.
fn dividend(size: i32, x: i32, w: i32) -> i64
    requires { Within (2 ^ 16) size }
    ensures value { result ≡ (x +ℤ w) *ℤ size *ℤ pos 8 }
    ensures small { Within (2 ^ 51) result }
{
    eightfold(scaled(sum(x, w), size))
}

// The quotient by the one divisor where `n` is at least 0, else by the other.
fn by_sign(n: i64, below: i32, above: i32) -> i64
    requires small { Within (2 ^ 51) n }
    requires below { pos 0 <ℤ below }
    requires above { pos 0 <ℤ above }
    ensures value { result ≡ (if int_le (pos 0) n then floor_quotient n above else floor_quotient n below) }
    ensures small { Within (2 ^ 51) result }
{
    if n >= 0 {
        floor_div_64(n, i64::from(above))
    } else {
        floor_div_64(n, i64::from(below))
    }
}

// The least window coordinate of all places with a clip coordinate in `x` and w in `w`.
fn least_place(origin: i32, size: i32, x: Ends, w: Ends) -> i64
    requires { CanBePlaced size w }
    ensures value { result ≡ (axis_over origin size (interval_of x) (interval_of w)).lo }
    ensures small { Within (2 ^ 52) result }
{
    let n = dividend(size, x.least, w.least);
    moved(origin, by_sign(n, w.least, w.greatest))
}

// And the greatest one.
fn greatest_place(origin: i32, size: i32, x: Ends, w: Ends) -> i64
    requires { CanBePlaced size w }
    ensures value { result ≡ (axis_over origin size (interval_of x) (interval_of w)).hi }
    ensures small { Within (2 ^ 52) result }
{
    let n = dividend(size, x.greatest, w.greatest);
    moved(origin, by_sign(n, w.greatest, w.least))
}

// The first row or column whose centre is not below `least`.
fn first_from(least: i64) -> i64
    requires { Within (2 ^ 52) least }
    ensures above { (p : ℤ) → least ≤ℤ centre p → result ≤ℤ p }
    ensures below { (p : ℤ) → result ≤ℤ p → least ≤ℤ centre p }
{
    sixteenth(least + 7)
}

// One past the last row or column whose centre is not above `greatest`.
fn end_after(greatest: i64) -> i64
    requires { Within (2 ^ 52) greatest }
    ensures below { (p : ℤ) → centre p ≤ℤ greatest → p <ℤ result }
    ensures above { (p : ℤ) → p <ℤ result → centre p ≤ℤ greatest }
{
    sixteenth(greatest + 8)
}

// The numbers of a range from `from` on.
fn cut_start(range: Range, from: i64) -> Range
    ensures { (p : ℤ) → is_among result p ≡ (is_among range p && int_le from p) }
{
    if from <= i64::from(range.from) {
        return range;
    }
    if from >= i64::from(range.end) {
        return Range {
            from: range.end,
            end: range.end,
        };
    }
    Range {
        from: from as i32,
        end: range.end,
    }
}

// The numbers of a range below `end`.
fn cut_end(range: Range, end: i64) -> Range
    ensures { (p : ℤ) → is_among result p ≡ (is_among range p && int_lt p end) }
{
    if end >= i64::from(range.end) {
        return range;
    }
    if end <= i64::from(range.from) {
        return Range {
            from: range.from,
            end: range.from,
        };
    }
    Range {
        from: range.from,
        end: end as i32,
    }
}

// The rows or columns of a range whose centres lie between two numbers.
fn centred(range: Range, least: i64, greatest: i64) -> Range
    requires least { Within (2 ^ 52) least }
    requires greatest { Within (2 ^ 52) greatest }
    ensures { (p : ℤ) → is_among result p ≡ (is_among range p && (int_le least (centre p) && int_le (centre p) greatest)) }
{
    cut_end(cut_start(range, first_from(least)), end_after(greatest))
}

// The rows or columns of a range whose centres lie between the window coordinates.
fn amid_places(range: Range, origin: i32, size: i32, x: Ends, w: Ends) -> Range
    requires { CanBePlaced size w }
    ensures { (p : ℤ) → is_among result p ≡ (is_among range p && is_enclosed (axis_over origin size (interval_of x) (interval_of w)) (centre p)) }
{
    centred(
        range,
        least_place(origin, size, x, w),
        greatest_place(origin, size, x, w),
    )
}

// A position may not be in front of the near plane.
fn may_be_near(hull: &Hull) -> bool
    ensures { result ≡ may_be_near (intervals_of hull.now) }
{
    i64::from(hull.w.least) < NEAR_W
}

/// The pixels of a rectangle that are in reach of positions of that hull.
pub(crate) fn short_reached(rect: Rect, state: &State, hull: &Hull) -> Rect
    requires short { IsShort state.now }
    requires ordered { OfEach IsOrdered (intervals_of hull.now) }
    ensures { IsPartWhere rect (is_in_reach state.now (clip_over state.now (intervals_of hull.now))) result }
{
    if may_be_near(hull) {
        return rect;
    }
    let [left, bottom, width, height] = state.viewport;
    rect_of(
        amid_places(columns_of(rect), left, width, hull.x, hull.w),
        amid_places(rows_of(rect), bottom, height, hull.y, hull.w),
    )
}
