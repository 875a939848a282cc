//! The rows of one column whose centres a triangle covers: they stand together, and each edge says by at most one division where they begin
//! or end.
ghost use Rattle.std.specs.Prelude.{◌≡◌, ◌+◌, ◌^◌, true, pos, ◌+ℤ◌, ◌≤ℤ◌, ◌<ℤ◌, IfSome};
ghost use Rattle.rc_base.specs.Numbers.{Within};
ghost use Rattle.raster.specs.Edges.{IsEdgeInBounds};
ghost use Rattle.raster.specs.Columns.{AreKeptRows, strict_value};
ghost use Rattle.raster.specs.Clamped.{HoldsCover, IsFull};
ghost use Rattle.raster.specs.Spans.{IsColumnIn};

use crate::bounds::covering_part;
use crate::columns::{Places, falling, minus_1, rising};
use crate::coverage::{keeps, passes_edge};
use fixed_math::{centre_of, delta, edge};
use rc_base::triangle::WindowTriangle;
use rc_base::window::{Rect, WindowVertex};

/// Rows `y0` to below `y1` of column `x`.
#[derive(Clone, Copy)]
pub struct Column {
    pub x: i32,
    pub y0: i32,
    pub y1: i32,
}

// A part of a rectangle, and whether it is known that the triangle covers each of its pixels.
#[derive(Clone, Copy)]
pub(crate) struct Cut {
    pub(crate) part: Rect,
    pub(crate) is_full: bool,
}

// The edge's value, one more where it keeps its line.
pub(crate) fn strict(e: i64, keeps: bool) -> i64
    requires { Within (2 ^ 60) e }
    ensures value { result ≡ strict_value e keeps }
    ensures small { Within (2 ^ 60 + 1) result }
{
    if keeps {
        return e + 1;
    }
    e
}

// Of the rows, those whose centre in column x the edge keeps.
fn kept_rows(a: &WindowVertex, b: &WindowVertex, x: i32, c: Places) -> Places
    requires edge { IsEdgeInBounds a.now b.now }
    requires order { c.x0 ≤ℤ c.x1 }
    ensures { AreKeptRows a.now b.now x c result }
{
    let left = delta(a.x, b.x);
    let line = keeps(a, b);
    let e = edge(a, b, centre_of(x), centre_of(c.x0));
    if left < 0 {
        return rising(minus_1(strict(e, line)), left, c);
    }
    if left > 0 {
        return falling(strict(e, line), left, c);
    }
    if passes_edge(e, line) {
        return c;
    }
    Places { x0: c.x0, x1: c.x0 }
}

// A part of one column without its rows that aren't covered.
fn column_of(tri: &WindowTriangle, rect: Rect, part: Rect) -> Cut
    requires part { HoldsCover tri.now.v rect part }
    requires one { part.x1 ≡ part.x0 +ℤ pos 1 }
    requires order { part.y0 ≤ℤ part.y1 }
    ensures part { HoldsCover tri.now.v rect result.part }
    ensures full { IsFull tri.now.v result.part }
{
    let all = Places {
        x0: part.y0,
        x1: part.y1,
    };
    let first = kept_rows(&tri.v[0], &tri.v[1], part.x0, all);
    let second = kept_rows(&tri.v[1], &tri.v[2], part.x0, first);
    let third = kept_rows(&tri.v[2], &tri.v[0], part.x0, second);
    Cut {
        part: Rect {
            x0: part.x0,
            y0: third.x0,
            x1: part.x1,
            y1: third.x1,
        },
        is_full: true,
    }
}

// Whether a part has one column, and rows.
fn is_column(part: Rect) -> bool
    ensures one { result ≡ true → part.x1 ≡ part.x0 +ℤ pos 1 }
    ensures some { result ≡ true → part.y0 <ℤ part.y1 }
{
    part.y0 < part.y1 && i64::from(part.x1) - i64::from(part.x0) == 1
}

// The rows of a part of one column that stand in the rectangle.
pub(crate) fn column_in(rect: Rect, part: Rect) -> Option<Column>
    ensures { IfSome result (λ c. IsColumnIn rect part c) }
{
    let y0 = part.y0.max(rect.y0);
    if part.y1 <= y0 || !is_column(part) {
        return None;
    }
    Some(Column {
        x: part.x0,
        y0,
        y1: part.y1,
    })
}

/// The part of the rectangle that the triangle may cover. Of a triangle that stands in one column it is what the triangle covers.
pub(crate) fn cut_of(tri: &WindowTriangle, rect: Rect) -> Cut
    ensures part { HoldsCover tri.now.v rect result.part }
    ensures full { result.is_full ≡ true → IsFull tri.now.v result.part }
{
    let part = covering_part(tri, rect);
    if rect.y0 < part.y1 && is_column(part) {
        return column_of(tri, rect, part);
    }
    Cut {
        part,
        is_full: false,
    }
}
