//! The covered pixels of a rectangle, a span a row.
ghost use Rattle.std.specs.Prelude.{◌≡◌, true, ◌≤ℤ◌, ◌<ℤ◌, MatchOption, IfSome};
ghost use Rattle.raster.specs.Spans.{IsEmptyRow, IsRowSpan, AreEmptyRows, IsNextSpan, GivesSpan, IsOnlyColumn};
ghost use Rattle.raster.specs.Clamped.{HoldsCover, IsFull};
ghost use Rattle.raster.specs.Ways.{IsPrepared, IsWay};
ghost use Rattle.std.specs.Iterator.{at_most};
ghost use Rattle.std.specs.Int.{int_gap};

use crate::column::{Column, Cut, column_in, cut_of};
use crate::ways::{Way, places_in, way_of};
use rc_base::triangle::WindowTriangle;
use rc_base::window::{Rect, Span};

// The covered pixels of a row of a part.
fn row_span(tri: &WindowTriangle, part: Rect, way: &Way, y: i32) -> Option<Span>
    requires way { IsWay tri.now.v part way.now }
    requires order { part.x0 ≤ℤ part.x1 }
    ensures { MatchOption result
        (IsEmptyRow tri.now.v y part.x0 part.x1)
        (λ s. IsRowSpan tri.now.v y part.x0 part.x1 s) }
{
    let places = places_in(tri, part, way, y);
    if places.x1 <= places.x0 {
        return None;
    }
    Some(Span {
        y,
        x0: places.x0,
        x1: places.x1,
    })
}

// The whole row of a part that is covered.
fn full_span(tri: &WindowTriangle, part: Rect, y: i32) -> Option<Span>
    requires full { IsFull tri.now.v part }
    requires some { part.x0 <ℤ part.x1 }
    requires low { part.y0 ≤ℤ y }
    requires high { y <ℤ part.y1 }
    ensures { MatchOption result
        (IsEmptyRow tri.now.v y part.x0 part.x1)
        (λ s. IsRowSpan tri.now.v y part.x0 part.x1 s) }
{
    Some(Span {
        y,
        x0: part.x0,
        x1: part.x1,
    })
}

// The covered pixels of a row of the rectangle, which all stand in its part.
fn span_in(tri: &WindowTriangle, rect: Rect, cut: Cut, way: &Way, y: i32) -> Option<Span>
    requires cut { IsPrepared tri.now.v rect cut way.now }
    requires some { cut.part.x0 <ℤ cut.part.x1 }
    requires low { cut.part.y0 ≤ℤ y }
    requires high { y <ℤ cut.part.y1 }
    ensures { MatchOption result
        (IsEmptyRow tri.now.v y rect.x0 rect.x1)
        (λ s. IsRowSpan tri.now.v y rect.x0 rect.x1 s) }
{
    let _rect = rect;
    if cut.is_full {
        return full_span(tri, cut.part, y);
    }
    row_span(tri, cut.part, way, y)
}

// The span of the first row from `from` on that has a covered pixel.
fn next_span(tri: &WindowTriangle, rect: Rect, cut: Cut, way: &Way, from: i32) -> Option<Span>
    requires { IsPrepared tri.now.v rect cut way.now }
    ensures { MatchOption result
        (AreEmptyRows tri.now.v rect from rect.y1)
        (λ s. IsNextSpan tri.now.v rect from s) }
{
    if cut.part.x1 <= cut.part.x0 {
        return None;
    }
    let mut y = from.max(cut.part.y0);
    'rows: while y < cut.part.y1 {
        match span_in(tri, rect, cut, way, y) {
            Some(span) => return Some(span),
            None => y += 1,
        }
    }
    None
}

/// The spans of a triangle inside a rectangle, row by row upward, from row `y` on.
#[derive(Drop)]
pub struct SpanIter<'a> {
    pub tri: &'a WindowTriangle,
    pub rect: Rect,
    pub y: i32,
    cut: Cut,
    way: Way,
    ghost cover: { HoldsCover tri.now.v rect cut.part },
    ghost full: { cut.is_full ≡ true → IsFull tri.now.v cut.part },
    ghost prepared: { IsWay tri.now.v cut.part way },
}

impl SpanIter<'_> {
    /// Whether it is known that no covered pixel is left: the part of the rectangle between the triangle's corners has no pixel from row
    /// `y` on.
    pub fn is_empty(&self) -> bool
        ensures { result ≡ true → AreEmptyRows self.now.tri.now.v self.now.rect self.now.y self.now.rect.y1 }
    {
        let part = self.cut.part;
        part.x1 <= part.x0 || part.y1 <= part.y0.max(self.y)
    }

    /// The covered pixels of the rectangle, where it is known that they stand in one column and that there are some.
    pub fn column(&self) -> Option<Column>
        ensures { IfSome result (λ c. IsOnlyColumn self.now.tri.now.v self.now.rect c) }
    {
        if !self.cut.is_full {
            return None;
        }
        column_in(self.rect, self.cut.part)
    }
}

impl Iterator for SpanIter<'_> {
    type Item = Span;

    ghost next_gives = { λ s r t. GivesSpan s.tri.now.v s.rect s.y r t.y × (t.tri ≡ s.tri) × (t.rect ≡ s.rect) };

    ghost remaining = { λ s. at_most (int_gap s.y s.rect.y1) };

    fn next(&mut self) -> Option<Span> {
        let _last = self.rect.y1;
        let span = next_span(self.tri, self.rect, self.cut, &self.way, self.y)?;
        self.y = span.y + 1;
        Some(span)
    }
}

/// The iterator over the spans of a rectangle, before its first call.
pub(crate) fn span_iter(tri: &WindowTriangle, rect: Rect) -> SpanIter<'_>
    ensures triangle { result.tri.now ≡ tri.now }
    ensures rect { result.rect ≡ rect }
    ensures row { result.y ≡ rect.y0 }
{
    let cut = cut_of(tri, rect);
    SpanIter {
        tri,
        rect,
        y: rect.y0,
        cut,
        way: way_of(tri, cut),
    }
}
