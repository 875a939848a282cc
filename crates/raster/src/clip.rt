//! The part of a rectangle in which a state lets draws and Clears touch pixels.
ghost use Rattle.std.specs.Prelude.{◌≡◌, ℤ, pos, ◌&&◌, ◌+ℤ◌, ◌≤ℤ◌, ◌<ℤ◌, int_lt};
ghost use Rattle.rc_base.specs.Drawing.Cover.{is_in_area, is_in_scissor};
ghost use Rattle.raster.specs.Clips.{IsCut, IsPartWhere, is_let_through};

use rc_base::state::State;
use rc_base::window::Rect;

// The end of a range of numbers that is cut off at `end`.
fn cut_end(from: i32, to: i32, end: i64) -> i32
    ensures below { result ≤ℤ to }
    ensures exact { (p : ℤ) → from ≤ℤ p → p <ℤ to → int_lt p end ≡ int_lt p result }
{
    if end >= i64::from(to) {
        return to;
    }
    if end <= i64::from(from) {
        return from.min(to);
    }
    end as i32
}

fn sum(low: i32, size: i32) -> i64
    ensures { result ≡ low +ℤ size }
{
    i64::from(low) + i64::from(size)
}

// The numbers of a range that lie from `low` to below `low + size`.
fn cut(from: i32, to: i32, low: i32, size: i32) -> (i32, i32)
    ensures { IsCut from to low size result.0 result.1 }
{
    (from.max(low), cut_end(from, to, sum(low, size)))
}

// The part of a rectangle that lies in the area x, y, w, h.
fn part_in(rect: Rect, area: [i32; 4]) -> Rect
    ensures { IsPartWhere rect result (is_in_area area) }
{
    let (x0, x1) = cut(rect.x0, rect.x1, area[0], area[2]);
    let (y0, y1) = cut(rect.y0, rect.y1, area[1], area[3]);
    Rect { x0, y0, x1, y1 }
}

/// The part of a rectangle that the scissor box lets through, where it is on.
pub fn scissored(state: &State, rect: Rect) -> Rect
    ensures { IsPartWhere rect result (is_in_scissor state.now) }
{
    if !state.scissor_on {
        return rect;
    }
    part_in(rect, state.scissor)
}

/// The part of a rectangle that a draw may touch: it lies in the viewport, and in the scissor box where this is on.
pub fn drawn_part(state: &State, rect: Rect) -> Rect
    ensures { IsPartWhere rect result (is_let_through state.now) }
{
    scissored(state, part_in(rect, state.viewport))
}
