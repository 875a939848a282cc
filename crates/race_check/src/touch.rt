//! The pixels that a block or a Clear touches.
ghost use Rattle.std.specs.Prelude.{◌≡◌, ℤ, pos, ◌≤ℤ◌, ◌<ℤ◌, length};
ghost use Rattle.rc_base.specs.Drawing.Pieces.{kept_corners_of};
ghost use Rattle.geometry.specs.Beside.{AreSurrounds};
ghost use Rattle.geometry.specs.Items.{AreBelow};
ghost use Rattle.geometry.specs.Listed.{listed};
ghost use Rattle.geometry.specs.Pieces.{found};
ghost use Rattle.race_check.specs.Touches.{IsPartVisited, IsVisitOf, Touches, block_has, clear_has, part_has, triangle_has, triangles_have};

use crate::cells::Cells;
use crate::marks::touch_run;
use crate::run::Run;
use crate::visit::{Seen, Visit};
use geometry::{Surrounds, Uncut, VertexCache, pieces, surrounds_of, triangles, vertices_at};
use raster::{cover_lies_in_bounds, drawn_part, scissored, spans};
use rc_base::state::{Block, State};
use rc_base::triangle::WindowTriangle;
use rc_base::window::{Rect, Span, window_rect};

// A span of the window.
fn run_of(span: Span) -> Run
    requires row { pos 0 ≤ℤ span.y }
    requires rows { span.y <ℤ pos 65536 }
    requires left { pos 0 ≤ℤ span.x0 }
    requires order { span.x0 ≤ℤ span.x1 }
    requires right { span.x1 <ℤ pos 65536 }
    ensures row { span.y ≡ pos result.row }
    ensures from { span.x0 ≡ pos result.from }
    ensures to { span.x1 ≡ pos result.to }
{
    Run {
        row: span.y as u16,
        from: span.x0 as u16,
        to: span.x1 as u16,
    }
}

// A name touches the pixels of a part of the window that a triangle covers.
fn touch_triangle(
    pixels: &mut Cells,
    visit: &Visit,
    tri: &WindowTriangle,
    part: Rect,
    seen: Seen,
) -> Seen
    requires { IsPartVisited visit.now pixels.old part }
    ensures { Touches (triangle_has tri.now.v part) visit.now pixels.old pixels.new seen result }
{
    let _width = visit.width;
    let _height = visit.height;
    let mut seen = seen;
    'rows: for span in spans(tri, part) {
        seen = touch_run(pixels, visit, run_of(span), seen);
    }
    seen
}

// The same of a triangle, if there is one.
fn touch_found(
    pixels: &mut Cells,
    visit: &Visit,
    tri: &Option<WindowTriangle>,
    part: Rect,
    seen: Seen,
) -> Seen
    requires { IsPartVisited visit.now pixels.old part }
    ensures { Touches (triangles_have (found tri.now) part) visit.now pixels.old pixels.new seen
        result }
{
    match tri {
        Some(t) => touch_triangle(pixels, visit, t, part, seen),
        None => seen,
    }
}

// A name touches what the triangle of three vertices of a block covers of a part of the window, or its pieces where it may be cut.
fn touch_corners(
    pixels: &mut Cells,
    visit: &Visit,
    part: Rect,
    near: &Surrounds,
    block: &Block,
    cache: &mut VertexCache<'_>,
    corners: [usize; 3],
    seen: Seen,
) -> Seen
    requires part { IsPartVisited visit.now pixels.old part }
    requires near { AreSurrounds part near.now }
    requires vertices { listed cache.old.vertices ≡ block.now.vertices }
    requires corners { AreBelow (length block.now.vertices) corners }
    ensures state { cache.new.state.now ≡ cache.old.state.now }
    ensures vertices { listed cache.new.vertices ≡ block.now.vertices }
    ensures touches { Touches (triangles_have (kept_corners_of cache.old.state.now block.now
        corners) part) visit.now pixels.old pixels.new seen result }
{
    cover_lies_in_bounds();
    match cache.uncut_near(corners, near, &None) {
        Uncut::Whole(tri) => touch_found(pixels, visit, &tri, part, seen),
        Uncut::No => {
            let vertices = vertices_at(block.vertices.as_slice(), corners);
            let given = pieces(cache.state, block.mode, &vertices);
            let first = touch_found(pixels, visit, &given.first, part, seen);
            touch_found(pixels, visit, &given.second, part, first)
        }
    }
}

/// A name touches the pixels of the window that its block covers.
pub fn touch_block(
    pixels: &mut Cells,
    visit: &Visit,
    state: &State,
    block: &Block,
    seen: Seen,
) -> Seen
    requires { IsVisitOf visit.now pixels.old }
    ensures { Touches (block_has state.now block.now) visit.now pixels.old pixels.new seen result }
{
    let part = drawn_part(state, window_rect(visit.width, visit.height));
    let near = surrounds_of(part);
    let mut cache = VertexCache::new(state, block.vertices.as_slice());
    let mut seen = seen;
    'cuts: for corners in triangles(block) {
        seen = touch_corners(pixels, visit, part, &near, block, &mut cache, corners, seen);
    }
    seen
}

// A row or the end of rows of the window.
fn row_of(y: i32) -> u16
    requires low { pos 0 ≤ℤ y }
    requires high { y <ℤ pos 65536 }
    ensures { y ≡ pos result }
{
    y as u16
}

// A name touches all pixels of a part of the window.
fn touch_part(pixels: &mut Cells, visit: &Visit, part: Rect, seen: Seen) -> Seen
    requires { IsPartVisited visit.now pixels.old part }
    ensures { Touches (part_has part) visit.now pixels.old pixels.new seen result }
{
    let _visit = *visit;
    if part.x1 <= part.x0 {
        return seen;
    }
    if part.y1 <= part.y0 {
        return seen;
    }
    let run = run_of(Span {
        y: part.y0,
        x0: part.x0,
        x1: part.x1,
    });
    let end = row_of(part.y1);
    let mut seen = seen;
    for row in run.row..end {
        let here = Run {
            row,
            from: run.from,
            to: run.to,
        };
        seen = touch_run(pixels, visit, here, seen);
    }
    seen
}

/// A name touches the pixels of the window that the scissor box lets a Clear through to.
pub fn touch_clear(pixels: &mut Cells, visit: &Visit, state: &State, seen: Seen) -> Seen
    requires { IsVisitOf visit.now pixels.old }
    ensures { Touches (clear_has state.now) visit.now pixels.old pixels.new seen result }
{
    touch_part(
        pixels,
        visit,
        scissored(state, window_rect(visit.width, visit.height)),
        seen,
    )
}
