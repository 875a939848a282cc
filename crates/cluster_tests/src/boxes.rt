//! Layouts, tiles and boxes of small windows.
use bounds_bucket::{block_box, clear_box, layout, meets, tile_rect};
use rc_base::command::{Mat4, Rgba};
use rc_base::out_of_memory::OutOfMemory;
use rc_base::scene::Limit;
use rc_base::state::{Block, State, Vertex, Vertices};
use rc_base::window::{Layout, Rect};
use std::alloc::Global;
use std::process::Abort;

fn rect(x0: i32, y0: i32, x1: i32, y1: i32) -> Rect {
    Rect { x0, y0, x1, y1 }
}

#[test]
fn five_by_three_in_four_by_two_tiles(rt: HostRuntime) {
    let cut = Layout {
        width: 5,
        height: 3,
        columns: 4,
        rows: 2,
    };
    assert!(rt; layout(5, 3, 4, 2, 1) == Ok(cut));
    assert!(rt; tile_rect(&cut, 0) == rect(0, 0, 1, 1));
    assert!(rt; tile_rect(&cut, 1) == rect(1, 0, 2, 1));
    assert!(rt; tile_rect(&cut, 2) == rect(2, 0, 3, 1));
    assert!(rt; tile_rect(&cut, 3) == rect(3, 0, 5, 1));
    assert!(rt; tile_rect(&cut, 7) == rect(3, 1, 5, 3));
    assert!(rt; meets(&cut, rect(2, 0, 4, 2)) == 0b1100_1100);
    assert!(rt; meets(&cut, rect(4, 2, 4, 3)) == 0);
}

#[test]
fn quantities_of_a_layout_are_judged_in_their_order(rt: HostRuntime) {
    assert!(rt; layout(7, 1, 8, 1, 1) == Err(Limit { what: 14, value: 8 }));
    assert!(rt; layout(8, 1, 8, 1, 16).is_ok());
    assert!(rt; layout(8, 8, 9, 9, 1) == Err(Limit { what: 14, value: 9 }));
    assert!(rt; layout(8, 8, 8, 0, 1) == Err(Limit { what: 15, value: 0 }));
    assert!(rt;
        layout(8, 8, 8, 5, 17)
            == Err(Limit {
                what: 16,
                value: 40
            })
    );
    assert!(rt;
        layout(8, 8, 8, 4, 17)
            == Err(Limit {
                what: 17,
                value: 17
            })
    );
}

fn state(scissor_on: bool, scissor: [i32; 4]) -> State {
    let identity = Mat4 {
        m: [
            65_536, 0, 0, 0, 0, 65_536, 0, 0, 0, 0, 65_536, 0, 0, 0, 0, 65_536,
        ],
    };
    let black = Rgba {
        r: 0,
        g: 0,
        b: 0,
        a: 0,
    };
    State {
        modelview: identity,
        projection: identity,
        viewport: [0, 0, 8, 8],
        depth_range: [0, 65_536],
        scissor_on,
        scissor,
        cull_on: true,
        cull_face: 1,
        front_face: 0,
        alpha_on: false,
        alpha: [7, 0],
        depth_on: false,
        depth_func: 1,
        depth_mask: true,
        blend_on: false,
        blend: [1, 0],
        color_mask: [true; 4],
        clear_color: black,
        clear_depth: 65_536,
        texture_on: false,
        binding: [0, 1],
        tex_mode: [0, 0, 0],
    }
}

fn triangle(alloc: Global, corners: [[i32; 2]; 3]) -> Result<Block, OutOfMemory> {
    let mut vertices = Vertices::new(alloc);
    for [x, y] in corners {
        vertices.push(Vertex {
            pos: [x, y, 0, 65_536],
            color: Rgba {
                r: 255,
                g: 255,
                b: 255,
                a: 255,
            },
            s: 0,
            t: 0,
        })?;
    }
    Ok(Block { mode: 0, vertices })
}

const LARGE: [[i32; 2]; 3] = [[-65_536, -65_536], [65_536, -65_536], [-65_536, 65_536]];

const SMALL: [[i32; 2]; 3] = [[0, 0], [16_384, 0], [0, 16_384]];

const TURNED: [[i32; 2]; 3] = [[0, 0], [0, 16_384], [16_384, 0]];

// The box of a triangle in the window.
fn triangle_box(
    rt: &impl Abort,
    alloc: Global,
    state: &State,
    corners: [[i32; 2]; 3],
) -> Option<Rect> {
    let block = triangle(alloc, corners).expect(rt, "memory");
    block_box(state, &block, rect(0, 0, 8, 8))
}

#[test]
fn a_large_triangle_meets_tiles_without_its_vertices(rt: HostRuntime) {
    let alloc = rt.alloc();
    let window = rect(0, 0, 8, 8);
    let cut = layout(8, 8, 4, 4, 1).expect(&rt, "a layout");
    let open = state(false, [0; 4]);
    let scissored = state(true, [2, 0, 4, 4]);
    assert!(rt; triangle_box(&rt, alloc, &open, LARGE) == Some(window));
    assert!(rt; meets(&cut, window) == 0xffff);
    assert!(rt; triangle_box(&rt, alloc, &open, SMALL) == Some(rect(4, 4, 5, 5)));
    assert!(rt; triangle_box(&rt, alloc, &open, TURNED) == None);
    assert!(rt; triangle_box(&rt, alloc, &scissored, LARGE) == Some(rect(2, 0, 6, 4)));
    assert!(rt; triangle_box(&rt, alloc, &scissored, SMALL) == None);
    assert!(rt; clear_box(&scissored, rect(0, 0, 5, 8)) == Some(rect(2, 0, 5, 4)));
    assert!(rt; clear_box(&state(true, [8, 0, 1, 1]), window) == None);
}

const CORNER: [i32; 4] = [0, 0, 0, 65_536];

const RIGHT: [i32; 4] = [16_384, 0, 0, 65_536];

const ABOVE: [i32; 4] = [0, 16_384, 0, 65_536];

const FAR: [i32; 4] = [65_536, 65_536, 0, 65_536];

// The box of a block of these vertices in a window of 8 by 8. Backs are culled.
fn box_of(
    rt: &impl Abort,
    alloc: Global,
    mode: u8,
    positions: &[[i32; 4]],
    viewport: [i32; 4],
) -> Option<Rect> {
    let mut vertices = Vertices::new(alloc);
    for pos in positions {
        let vertex = Vertex {
            pos: *pos,
            color: Rgba {
                r: 255,
                g: 255,
                b: 255,
                a: 255,
            },
            s: 0,
            t: 0,
        };
        vertices.push(vertex).expect(rt, "memory");
    }
    let state = State {
        viewport,
        ..state(false, [0; 4])
    };
    block_box(&state, &Block { mode, vertices }, rect(0, 0, 8, 8))
}

// The pixel that the small triangle covers.
const ONE_PIXEL: Option<Rect> = Some(Rect {
    x0: 4,
    y0: 4,
    x1: 5,
    y1: 5,
});

// Sixteen pixels in a corner, and the pixels of two viewports.
const UPPER_RIGHT: Option<Rect> = Some(Rect {
    x0: 4,
    y0: 4,
    x1: 8,
    y1: 8,
});

const WHOLE_WINDOW: Option<Rect> = Some(Rect {
    x0: 0,
    y0: 0,
    x1: 8,
    y1: 8,
});

const SMALL_VIEWPORT: Option<Rect> = Some(Rect {
    x0: 2,
    y0: 1,
    x1: 5,
    y1: 5,
});

// A mode, vertices, and the box. A culled triangle has a box in version 2 alone. Vertices that are left over widen none, and without a triangle there is
// none.
const BOXES: [(u8, &[[i32; 4]], Option<Rect>); 7] = [
    (0, &[CORNER, ABOVE, RIGHT], None),
    (16, &[CORNER, ABOVE, RIGHT], ONE_PIXEL),
    (16, &[CORNER, RIGHT, ABOVE, FAR, FAR], ONE_PIXEL),
    (17, &[CORNER, RIGHT, ABOVE, FAR], UPPER_RIGHT),
    (18, &[CORNER, RIGHT, ABOVE, FAR], UPPER_RIGHT),
    (18, &[CORNER, FAR], None),
    (19, &[CORNER, RIGHT, ABOVE], None),
];

#[test]
fn the_vertices_of_triangles_make_a_box_in_version_2(rt: HostRuntime) {
    for (mode, positions, want) in &BOXES {
        assert!(rt; box_of(&rt, rt.alloc(), *mode, *positions, [0, 0, 8, 8]) == *want);
    }
}

// Where w is a 256th at each corner the triangle is divided as ever.
const AT_THE_EYE: &[[i32; 4]] = &[[0, 0, 0, 256], [64, 0, 0, 256], [0, 64, 0, 256]];

const NEARER: &[[i32; 4]] = &[CORNER, RIGHT, [0, 16_384, 0, 255]];

// Vertices, the viewport, and the box: nearer than a 256th it is the viewport, and one of a side below 0 has no pixel.
const NEAR_BOXES: [(&[[i32; 4]], [i32; 4], Option<Rect>); 6] = [
    (NEARER, [0, 0, 8, 8], WHOLE_WINDOW),
    (NEARER, [2, 1, 3, 4], SMALL_VIEWPORT),
    (AT_THE_EYE, [0, 0, 8, 8], ONE_PIXEL),
    (AT_THE_EYE, [0, 0, -8, 8], None),
    (AT_THE_EYE, [0, 0, 8, -1], None),
    (AT_THE_EYE, [0, 0, 0, 8], None),
];

#[test]
fn a_box_near_the_eye_is_the_viewport(rt: HostRuntime) {
    for (positions, viewport, want) in &NEAR_BOXES {
        assert!(rt; box_of(&rt, rt.alloc(), 16, *positions, *viewport) == *want);
    }
}
