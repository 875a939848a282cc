//! The box of a block and of a Clear.
ghost use Rattle.std.specs.Prelude.{◌≡◌, ℕ, ℤ, pos, ◌&&◌, ◌+ℤ◌, ◌<◌, ◌<ℤ◌, ◌≤ℤ◌, ◌≤◌, int_le, int_lt, MatchOption, true, false};
ghost use Rattle.rc_base.specs.Cluster.Tiles.{is_in_rect};
ghost use Rattle.rc_base.specs.Drawing.Triangles.{cut_modes};
ghost use Rattle.rc_base.specs.Drawing.Cover.{centre, is_in_area, is_in_scissor};
ghost use Rattle.rc_base.specs.declared.state.Effect.TheVariants as eff;
ghost use Rattle.bounds_bucket.specs.Ranges.{is_among, HasPixels, IsCut, IsPartWhere};
ghost use Rattle.bounds_bucket.specs.Extents.{is_between, is_within};
ghost use Rattle.bounds_bucket.specs.Boxes.{IsBoxIfAny, HoldsTouched, MeetsSameTiles};

use crate::block::block_extent;
use crate::extent::{Ends, Extent};
use crate::law::touched_pixels_lie_in_the_box;
use crate::object::object_box;
use crate::range::{Range, columns_of, larger, rows_of, sixteenth, smaller};
use rc_base::state::{Block, CUT_MODES, State};
use rc_base::window::Rect;

// The first row or column whose centre is not below `least`.
fn first_from(least: i32) -> i32
    ensures above { (p : ℤ) → least ≤ℤ centre p → result ≤ℤ p }
    ensures below { (p : ℤ) → result ≤ℤ p → least ≤ℤ centre p }
{
    sixteenth(i64::from(least) + 7) as i32
}

// One past the last row or column whose centre is not above `greatest`.
fn end_after(greatest: i32) -> i32
    ensures below { (p : ℤ) → centre p ≤ℤ greatest → p <ℤ result }
    ensures above { (p : ℤ) → p <ℤ result → centre p ≤ℤ greatest }
{
    sixteenth(i64::from(greatest) + 8) as i32
}

// The rows or columns of a range whose centres lie between the ends.
fn between(range: Range, ends: Ends) -> Range
    ensures { (p : ℤ) → is_among result p ≡ (is_among range p && is_between ends p) }
{
    Range {
        from: larger(range.from, first_from(ends.least)),
        end: smaller(range.end, end_after(ends.greatest)),
    }
}

// Where a range ends that is cut off at `end`.
fn cut_end(range: Range, end: i64) -> i32
    ensures { (p : ℤ) → (int_le range.from p && int_lt p result) ≡ (is_among range p && int_lt p end) }
{
    if end >= i64::from(range.end) {
        return range.end;
    }
    if end <= i64::from(range.from) {
        return range.from;
    }
    end as i32
}

fn sum(low: i32, size: i32) -> i64
    ensures { result ≡ low +ℤ size }
{
    i64::from(low) + i64::from(size)
}

// The numbers of a range that lie from `low` to below `low + size`.
fn cut(range: Range, low: i32, size: i32) -> Range
    ensures { IsCut range low size result }
{
    Range {
        from: larger(range.from, low),
        end: cut_end(range, sum(low, size)),
    }
}

/// A rectangle by its columns and rows.
pub(crate) fn rect_of(columns: Range, rows: Range) -> Rect
    ensures { result
        ≡ record { x0 = columns.from; y0 = rows.from; x1 = columns.end; y1 = rows.end } }
{
    Rect {
        x0: columns.from,
        y0: rows.from,
        x1: columns.end,
        y1: rows.end,
    }
}

// The pixels of a rectangle whose centres lie in an extent.
fn centred(rect: Rect, extent: Extent) -> Rect
    ensures { IsPartWhere rect (is_within extent) result }
{
    rect_of(
        between(columns_of(rect), extent.across),
        between(rows_of(rect), extent.up),
    )
}

/// The part of a rectangle that lies in the area x, y, w, h.
pub(crate) fn part_in(rect: Rect, area: [i32; 4]) -> Rect
    ensures { IsPartWhere rect (is_in_area area) result }
{
    rect_of(
        cut(columns_of(rect), area[0], area[2]),
        cut(rows_of(rect), area[1], area[3]),
    )
}

/// The part of a rectangle that the scissor box lets through, where it is on.
pub(crate) fn scissored(state: &State, rect: Rect) -> Rect
    ensures { IsPartWhere rect (is_in_scissor state.now) result }
{
    if !state.scissor_on {
        return rect;
    }
    part_in(rect, state.scissor)
}

/// The rectangle, where it has a pixel.
pub(crate) fn some_rect(rect: Rect) -> Option<Rect>
    ensures { MatchOption result ((x y : ℤ) → is_in_rect rect x y ≡ false)
        (λ r. (r ≡ rect) × HasPixels rect) }
{
    if rect.x0 < rect.x1 && rect.y0 < rect.y1 {
        Some(rect)
    } else {
        None
    }
}

// The block is one of version 2, whose triangles are cut at the near plane.
fn is_cut(block: &Block) -> bool
    ensures late { result ≡ true → cut_modes ≤ block.now.mode }
    ensures early { result ≡ false → block.now.mode < cut_modes }
{
    block.mode >= CUT_MODES
}

// The box of a block of version 1: in window space.
fn window_box(state: &State, block: &Block, window: Rect) -> Option<Rect>
    requires { block.now.mode < cut_modes }
    ensures { IsBoxIfAny state.now (eff.Block block.now) window result }
{
    let Some(extent) = block_extent(state, block) else {
        return None;
    };
    some_rect(scissored(state, part_in(centred(window, extent), state.viewport)))
}

/// The box of a block. Of version 1 it is the pixels of the window whose centres lie between the least and the greatest corner of the block's
/// kept triangles, ends included, and which lie in the viewport and, where it is on, in the scissor box. Of version 2 the corners are those that
/// interval arithmetic makes of the bounding box of the vertices' positions in object space; where that comes nearer than the near plane, the
/// whole viewport is taken. `None` exactly where there is no such pixel. Each pixel of the window that the block touches lies in its box.
pub fn block_box(state: &State, block: &Block, window: Rect) -> Option<Rect>
    ensures exact { IsBoxIfAny state.now (eff.Block block.now) window result }
    ensures touched { HoldsTouched state.now (eff.Block block.now) window result }
    ensures tiles { MeetsSameTiles state.now (eff.Block block.now) window result }
{
    touched_pixels_lie_in_the_box();
    if is_cut(block) {
        return object_box(state, block, window);
    }
    window_box(state, block, window)
}

/// The box of a Clear: the pixels of the window, in the scissor box where it is on. `None` exactly where there is none. Each pixel of the
/// window that the Clear touches lies in its box.
pub fn clear_box(state: &State, window: Rect) -> Option<Rect>
    ensures exact { (mask : ℕ) → IsBoxIfAny state.now (eff.Clear mask) window result }
    ensures touched { (mask : ℕ) → HoldsTouched state.now (eff.Clear mask) window result }
    ensures tiles { (mask : ℕ) → MeetsSameTiles state.now (eff.Clear mask) window result }
{
    some_rect(scissored(state, window))
}
