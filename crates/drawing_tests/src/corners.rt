//! Triangles of blocks, and vertices whose place in the window is known by hand.
use geometry::{VertexCache, surrounds_of, to_window, triangles};
use rc_base::command::{Mat4, Rgba};
use rc_base::items::Items;
use rc_base::out_of_memory::OutOfMemory;
use rc_base::state::{Block, State, Vertex};
use rc_base::window::Rect;
use std::alloc::Global;

const IDENTITY: Mat4 = Mat4 {
    m: [
        65536, 0, 0, 0, 0, 65536, 0, 0, 0, 0, 65536, 0, 0, 0, 0, 65536,
    ],
};

pub(crate) const BLACK: Rgba = Rgba {
    r: 0,
    g: 0,
    b: 0,
    a: 0,
};

pub(crate) const ONE: i32 = 65_536;

pub(crate) fn state(viewport: [i32; 4], cull_on: bool) -> State {
    State {
        modelview: IDENTITY,
        projection: IDENTITY,
        viewport,
        depth_range: [0, 65536],
        scissor_on: false,
        scissor: [0, 0, 0, 0],
        cull_on,
        cull_face: 0,
        front_face: 0,
        alpha_on: false,
        alpha: [7, 0],
        depth_on: false,
        depth_func: 1,
        depth_mask: true,
        blend_on: false,
        blend: [1, 0],
        color_mask: [true; 4],
        clear_color: BLACK,
        clear_depth: 65536,
        texture_on: false,
        binding: [0, 0],
        tex_mode: [0, 0, 0],
    }
}

// A vertex in 16.16 clip coordinates.
pub(crate) fn at(x: i32, y: i32, w: i32) -> Vertex {
    Vertex {
        pos: [x, y, 0, w],
        color: BLACK,
        s: 5,
        t: -5,
    }
}

// The corners of a block's second triangle, where it has two and no more.
fn second(
    alloc: Global,
    mode: u8,
    count: u8,
) -> Result<Option<(usize, usize, usize)>, OutOfMemory> {
    let mut vertices = Items::new(alloc);
    for _ in 0..count {
        vertices.push(at(0, 0, 0))?;
    }
    let block = Block { mode, vertices };
    let mut all = triangles(&block);
    let _first = all.next();
    let found = all.next();
    if all.next().is_some() {
        return Ok(None);
    }
    Ok(found.map(|[a, b, c]| (a, b, c)))
}

// A mode, how many vertices there are, and the corners of the second triangle.
const SECONDS: [(u8, u8, Option<(usize, usize, usize)>); 11] = [
    (0, 8, Some((3, 4, 5))),
    (1, 4, Some((2, 1, 3))),
    (2, 4, Some((0, 2, 3))),
    (1, 2, None),
    (3, 9, None),
    // The same in scenes of version 2, and modes that no scene gives.
    (16, 8, Some((3, 4, 5))),
    (17, 4, Some((2, 1, 3))),
    (18, 4, Some((0, 2, 3))),
    (19, 8, None),
    (32, 8, None),
    (255, 8, None),
];

#[test]
fn blocks_have_their_triangles(rt: HostRuntime) {
    for row in &SECONDS {
        let (mode, count, want) = *row;
        assert!(rt; second(rt.alloc(), mode, count) == Ok(want));
    }
}

// Twice the area, the second corner's column and the third's row, where the triangle is kept.
fn seen(state: &State, corners: &[Vertex; 3]) -> Option<(i64, i32, i32)> {
    let tri = to_window(state, corners)?;
    Some((tri.area, tri.v[1].x, tri.v[2].y))
}

// The first corner's column, depth and t.
fn first(state: &State, corners: &[Vertex; 3]) -> Option<(i32, i32, i32)> {
    let tri = to_window(state, corners)?;
    Some((tri.v[0].x, tri.v[0].z, tri.v[0].t))
}

#[test]
fn corners_stand_in_the_window(rt: HostRuntime) {
    let (a, b, c) = (at(-ONE, -ONE, ONE), at(ONE, -ONE, ONE), at(-ONE, ONE, ONE));
    let s = state([0, 0, 2, 2], false);
    assert!(rt; seen(&s, &[a, b, c]) == Some((1024, 32, 32)));
    assert!(rt; first(&s, &[a, b, c]) == Some((0, 8388607, -5)));
    assert!(rt; seen(&s, &[a, c, b]) == Some((1024, 32, 32)));
    assert!(rt; seen(&s, &[a, b, b]) == None);
    assert!(rt; seen(&s, &[a, b, at(0, 0, 0)]) == None);
    let culls = state([0, 0, 2, 2], true);
    assert!(rt; seen(&culls, &[a, b, c]) == None);
    assert!(rt; seen(&culls, &[a, c, b]) == Some((1024, 32, 32)));
}

#[test]
fn corners_may_stand_at_the_bounds(rt: HostRuntime) {
    let s = state([-65536, -65536, 131072, 131072], false);
    let (a, b, c) = (at(-ONE, -ONE, ONE), at(ONE, -ONE, ONE), at(-ONE, ONE, ONE));
    assert!(rt; seen(&s, &[a, b, c]) == Some((4398046511104, 1048576, 1048576)));
    assert!(rt; first(&s, &[a, b, c]) == Some((-1048576, 8388607, -5)));
    assert!(rt; seen(&s, &[a, b, at(-ONE, ONE + 1, ONE)]) == None);
}

// Whether the triangle of a window of 2 by 2 is drawn in a rectangle.
fn is_near(x0: i32, y0: i32, x1: i32, y1: i32) -> bool {
    let vertices = [at(-ONE, -ONE, ONE), at(ONE, -ONE, ONE), at(-ONE, ONE, ONE)];
    let s = state([0, 0, 2, 2], false);
    let mut cache = VertexCache::new(&s, &vertices);
    let near = surrounds_of(Rect { x0, y0, x1, y1 });
    cache.triangle([0, 1, 2]).is_some() && cache.triangle_near([0, 1, 2], &near, &None).is_some()
}

// A rectangle, and whether the triangle is near it.
const RECTANGLES: [(i32, i32, i32, i32, bool); 6] = [
    (0, 0, 2, 2, true),
    (1, 1, 2, 2, true),
    (2, 0, 4, 2, false),
    (-2, 0, 0, 2, false),
    (0, 2, 2, 4, false),
    (0, -2, 2, 0, false),
];

#[test]
fn triangles_beside_a_rectangle_are_left_out(rt: HostRuntime) {
    for row in &RECTANGLES {
        let (x0, y0, x1, y1, want) = *row;
        assert!(rt; is_near(x0, y0, x1, y1) == want);
    }
    let near = surrounds_of(Rect {
        x0: i32::MIN,
        y0: 0,
        x1: i32::MIN,
        y1: i32::MAX,
    });
    assert!(rt; (near.left, near.right) == (-34359738360, -34359738376));
}
