//! Triangles whose cover, columns and fragments are known by hand.
ghost use Rattle.std.specs.Prelude.{◌≡◌, IfSome};
ghost use Rattle.rc_base.specs.Drawing.Cover.{IsInBounds, triangle_area};
ghost use Rattle.rc_base.specs.Drawing.Kept.{three};

use fixed_math::edge;
use raster::{
    color_plane, cover_lies_in_bounds, covers, flat_color, fragment_at, has_depths, no_double_edge,
    setup_at, spans,
};
use rc_base::command::Rgba;
use rc_base::triangle::WindowTriangle;
use rc_base::window::{Rect, WindowVertex};

fn bounded(v: WindowVertex) -> Option<WindowVertex>
    ensures { IfSome result (λ w. IsInBounds w) }
{
    if v.x < -1048576 || v.x > 1048576 {
        return None;
    }
    if v.y < -1048576 || v.y > 1048576 {
        return None;
    }
    if v.z < -1073741824 || v.z > 1073741824 {
        return None;
    }
    Some(v)
}

fn signed_area(a: &WindowVertex, b: &WindowVertex, c: &WindowVertex) -> i64
    requires a { IsInBounds a.now }
    requires b { IsInBounds b.now }
    requires c { IsInBounds c.now }
    ensures { result ≡ triangle_area (three a.now b.now c.now) }
{
    edge(a, b, i64::from(c.x), i64::from(c.y))
}

fn made(a: WindowVertex, b: WindowVertex, c: WindowVertex, area: i64) -> Option<WindowTriangle>
    requires a { IsInBounds a }
    requires b { IsInBounds b }
    requires c { IsInBounds c }
    requires area { area ≡ triangle_area (three a b c) }
{
    if area <= 0 {
        return None;
    }
    Some(WindowTriangle { v: [a, b, c], area })
}

// The triangle of three corners that run counterclockwise.
fn triangle(a: WindowVertex, b: WindowVertex, c: WindowVertex) -> Option<WindowTriangle> {
    let a = bounded(a)?;
    let b = bounded(b)?;
    let c = bounded(c)?;
    made(a, b, c, signed_area(&a, &b, &c))
}

fn vertex(x: i32, y: i32, z: i32, g: u8, s: i32, t: i32) -> WindowVertex {
    WindowVertex {
        x,
        y,
        z,
        color: Rgba {
            r: 255,
            g,
            b: 0,
            a: 0,
        },
        s,
        t,
    }
}

fn at(x: i32, y: i32) -> WindowVertex {
    vertex(x, y, 0, 0, 0, 0)
}

fn square(side: i32) -> Rect {
    Rect {
        x0: 0,
        y0: 0,
        x1: side,
        y1: side,
    }
}

// Row, first column and the column behind the last, of the first two spans of a triangle in a rectangle.
fn two_spans(
    tri: &WindowTriangle,
    rect: Rect,
) -> (Option<(i32, i32, i32)>, Option<(i32, i32, i32)>) {
    let mut rows = spans(tri, rect);
    let first = rows.next().map(|span| (span.y, span.x0, span.x1));
    let second = rows.next().map(|span| (span.y, span.x0, span.x1));
    (first, second)
}

// Column, first row and the row behind the last, where the triangle stands in one column of the rectangle.
fn column(tri: &WindowTriangle, rect: Rect) -> Option<(i32, i32, i32)> {
    spans(tri, rect).column().map(|c| (c.x, c.y0, c.y1))
}

#[test]
fn centres_on_the_hypotenuse_belong_to_the_other_side(rt: HostRuntime) {
    let low = triangle(at(0, 0), at(32, 0), at(0, 32)).expect(&rt, "a triangle");
    let high = triangle(at(32, 0), at(32, 32), at(0, 32)).expect(&rt, "a triangle");
    for (x, y, in_low) in [(0, 0, true), (1, 0, false), (0, 1, false), (1, 1, false)] {
        assert!(rt; covers(&low, x, y) == in_low && covers(&high, x, y) != in_low);
    }
    assert!(rt; two_spans(&low, square(2)) == (Some((0, 0, 1)), None));
    no_double_edge();
    cover_lies_in_bounds();
}

// Column, red, green, depth, s and t of a fragment, where the pixel is covered.
fn fragment(tri: &WindowTriangle, x: i32, y: i32) -> Option<(i32, u8, u8, i32, i32, i32)> {
    if !covers(tri, x, y) {
        return None;
    }
    let f = fragment_at(tri, x, y);
    Some((f.x, f.color.r, f.color.g, f.depth, f.s, f.t))
}

#[test]
fn corners_at_the_bounds_are_weighed(rt: HostRuntime) {
    let m = 1048576;
    let tri = triangle(
        vertex(-m, -m, 0, 0, 2097152, 0),
        vertex(m, -m, 0, 255, 0, 2097152),
        vertex(-m, m, -1, 255, 0, 0),
    )
    .expect(&rt, "a triangle");
    assert!(rt; fragment(&tri, 0, 0) == None);
    assert!(rt; fragment(&tri, 0, -1) == None);
    assert!(rt; fragment(&tri, -1, -1) == Some((-1, 255, 254, -1, 16, 1048568)));
    assert!(rt; flat_color(&tri).is_none());
    assert!(rt; !has_depths(&tri));
}

#[test]
fn a_flat_triangle_has_one_colour(rt: HostRuntime) {
    let corner = vertex(0, 0, 0, 3, 1, 2);
    let tri = triangle(
        corner,
        vertex(144, 0, 16777215, 3, 5, 6),
        vertex(0, 144, 7, 3, 7, 8),
    )
    .expect(&rt, "a triangle");
    assert!(rt; has_depths(&tri));
    assert!(rt; flat_color(&tri) == Some(corner.color));
}

const AROUND: Rect = Rect {
    x0: -6,
    y0: -6,
    x1: 6,
    y1: 12,
};

const PART: Rect = Rect {
    x0: -2,
    y0: -1,
    x1: 1,
    y1: 1,
};

#[test]
fn a_thin_triangle_is_a_column(rt: HostRuntime) {
    let thin = [
        // With its axis on the centres of column 0, and on those of column -2.
        (at(4, 0), at(12, 0), at(8, 160), (0, 0, 10), (0, 0, 1)),
        (
            at(-28, -40),
            at(-20, -40),
            at(-24, 40),
            (-2, -2, 2),
            (-2, -1, 1),
        ),
        // With an edge on the centres of column -1: it keeps a left edge, and no right one.
        (
            at(-8, -24),
            at(-4, -24),
            at(-8, 24),
            (-1, -1, 1),
            (-1, -1, 1),
        ),
    ];
    for (a, b, c, all, some) in thin {
        let tri = triangle(a, b, c).expect(&rt, "a triangle");
        assert!(rt; column(&tri, AROUND) == Some(all));
        assert!(rt; column(&tri, PART) == Some(some));
        assert!(rt; !spans(&tri, PART).is_empty());
    }
    // Its right edge on those centres; of two columns.
    let mirrored = triangle(at(-8, -24), at(-8, 24), at(-12, -24)).expect(&rt, "a triangle");
    assert!(rt; column(&mirrored, AROUND) == None);
    let wide = triangle(at(4, 0), at(28, 0), at(8, 160)).expect(&rt, "a triangle");
    assert!(rt; column(&wide, AROUND) == None);
}

// On the triangle's axis, a fifth of its height further up each time: 127.5 at its foot, 228 at its top.
#[test]
fn a_column_is_stepped_upward(rt: HostRuntime) {
    let tri = triangle(
        vertex(-28, -40, -7, 0, 0, 0),
        vertex(-20, -40, -7, 255, 0, 0),
        vertex(-24, 40, -7, 228, 0, 0),
    )
    .expect(&rt, "a triangle");
    let mut color = color_plane(&tri, &setup_at(&tri, -3, -2)).rise(1, 0);
    for g in [147, 167, 187, 207] {
        assert!(rt; color.color().g == g);
        color.advance();
    }
}

#[test]
fn triangles_between_centres_are_empty(rt: HostRuntime) {
    let rect = square(9);
    for (a, b, c) in [
        (at(12, 0), at(20, 0), at(16, 160)),
        (at(0, 9), at(160, 9), at(80, 20)),
        (at(-28, -40), at(-20, -40), at(-24, 40)),
        (at(4, -90), at(12, -90), at(8, -10)),
    ] {
        let tri = triangle(a, b, c).expect(&rt, "a triangle");
        assert!(rt; spans(&tri, rect).is_empty() && column(&tri, rect) == None);
        assert!(rt; two_spans(&tri, rect) == (None, None));
    }
    // One with a pixel in each of two rows.
    let tri = triangle(at(4, 0), at(12, 0), at(8, 40)).expect(&rt, "a triangle");
    assert!(rt; two_spans(&tri, rect) == (Some((0, 0, 1)), Some((1, 0, 1))));
}

// Whether the spans of a triangle have exactly the pixels of a rectangle that it covers: each row's once, from left to right, rows rising.
fn spans_are_the_cover(tri: &WindowTriangle, rect: Rect) -> bool {
    let mut rows = spans(tri, rect);
    let mut next = rows.next();
    for y in rect.y0..rect.y1 {
        let mut x0 = rect.x1;
        let mut x1 = rect.x1;
        if let Some(span) = next {
            if span.y == y {
                x0 = span.x0;
                x1 = span.x1;
                next = rows.next();
            }
        }
        for x in rect.x0..rect.x1 {
            if covers(tri, x, y) != (x0 <= x && x < x1) {
                return false;
            }
        }
    }
    next.is_none()
}

// The same of each rectangle of one to seventeen columns whose left end is from -9 to 9: of the widths that are found by lanes, and of more.
fn spans_are_the_cover_at_each_width(tri: &WindowTriangle) -> bool {
    for x0 in -9..10 {
        for width in 1..18 {
            let rect = Rect {
                x0,
                y0: -1,
                x1: x0.wrapping_add(width),
                y1: 5,
            };
            if !spans_are_the_cover(tri, rect) {
                return false;
            }
        }
    }
    true
}

#[test]
fn spans_of_any_width_are_the_cover(rt: HostRuntime) {
    let m = 1048576;
    for (a, b, c) in [
        (at(0, 0), at(32, 0), at(0, 32)),
        // All of a window of 17 by 2, and more.
        (at(0, 0), at(544, 0), at(0, 64)),
        (at(-m, -m), at(m, -m), at(-m, m)),
    ] {
        let tri = triangle(a, b, c).expect(&rt, "a triangle");
        assert!(rt; spans_are_the_cover_at_each_width(&tri));
    }
}
