//! Triangles that the near plane cuts, where w is 256: their pieces by hand.
use crate::corners::{BLACK, ONE, at, state};
use geometry::{Uncut, VertexCache, pieces, surrounds_of, vertices_at};
use rc_base::command::{Mat4, Rgba};
use rc_base::state::{State, Vertex};
use rc_base::triangle::WindowTriangle;
use rc_base::window::{Rect, WindowVertex};

// The column and row of each corner of a kept piece.
fn places(piece: Option<WindowTriangle>) -> Option<[i32; 6]> {
    let tri = piece?;
    Some([
        tri.v[0].x, tri.v[0].y, tri.v[1].x, tri.v[1].y, tri.v[2].x, tri.v[2].y,
    ])
}

// The triangle over a window of 1 by 1, one of whose corners stands in the eye.
fn corner_in_the_eye() -> [Vertex; 3] {
    [
        at(-ONE, -ONE, ONE),
        at(196_608, -ONE, ONE),
        at(-ONE, 196_608, 0),
    ]
}

#[test]
fn a_corner_in_the_eye_is_cut_off(rt: HostRuntime) {
    let cut = pieces(&state([0, 0, 1, 1], false), 16, &corner_in_the_eye());
    assert!(rt; places(cut.first) == Some([0, 0, 32, 0, -2008, 6120]));
    assert!(rt; places(cut.second) == Some([0, 0, -2008, 6120, -2040, 6120]));
}

// Whether the first piece and the second are kept.
fn kept(state: &State, mode: u8, corners: &[Vertex; 3]) -> (bool, bool) {
    let cut = pieces(state, mode, corners);
    (cut.first.is_some(), cut.second.is_some())
}

// A mode, and whether its triangles are cut.
const MODES: [(u8, bool); 6] = [
    (0, false),
    (2, false),
    (15, false),
    (16, true),
    (18, true),
    (255, true),
];

#[test]
fn triangles_are_cut_from_mode_16_on(rt: HostRuntime) {
    for row in &MODES {
        let (mode, cut) = *row;
        assert!(rt; kept(&state([0, 0, 1, 1], false), mode, &corner_in_the_eye()) == (cut, cut));
    }
}

// The same of a triangle whose corners have these w.
fn kept_by_w(ws: [i32; 3]) -> (bool, bool) {
    let corners = [at(0, 0, ws[0]), at(4096, 0, ws[1]), at(0, 4096, ws[2])];
    kept(&state([0, 0, 16, 16], false), 17, &corners)
}

// The w of three corners, and whether the first piece and the second are kept. A crossing from a vertex on the plane is that vertex, so its piece may
// have no area.
const PIECES: [([i32; 3], bool, bool); 15] = [
    ([256, 256, 256], true, false),
    ([257, 257, 255], true, true),
    ([257, 255, 257], true, true),
    ([255, 257, 257], true, true),
    ([257, 255, 255], true, false),
    ([255, 257, 255], true, false),
    ([255, 255, 257], true, false),
    ([255, 255, 255], false, false),
    ([256, 256, 255], false, false),
    ([256, 255, 255], false, false),
    ([257, 256, 255], false, true),
    ([256, 257, 255], true, false),
    ([255, 256, 257], false, true),
    ([ONE, -ONE, ONE], true, true),
    ([0, -1, -ONE], false, false),
];

#[test]
fn what_is_in_front_makes_the_pieces(rt: HostRuntime) {
    for row in &PIECES {
        let (ws, first, second) = *row;
        assert!(rt; kept_by_w(ws) == (first, second));
    }
}

// Whether a triangle over half a window of 2 by 2, whose third corner has this w, is known not to be cut, and then whether it is near these columns.
fn uncut(w: i32, x0: i32, x1: i32) -> Option<bool> {
    let vertices = [
        at(-ONE, -ONE, ONE),
        at(ONE, -ONE, ONE),
        at(w.saturating_neg(), w, w),
    ];
    let state = state([0, 0, 2, 2], false);
    let mut cache = VertexCache::new(&state, &vertices);
    let near = surrounds_of(Rect {
        x0,
        y0: 0,
        x1,
        y1: 2,
    });
    match cache.uncut_near([0, 1, 2], &near, &None) {
        Uncut::Whole(tri) => Some(tri.is_some()),
        Uncut::No => None,
    }
}

// The third corner's w, columns, and whether the triangle is near them where it isn't cut.
const IN_FRONT: [(i32, i32, i32, Option<bool>); 7] = [
    (ONE, 0, 2, Some(true)),
    (ONE, 2, 4, Some(false)),
    (256, 0, 2, Some(true)),
    (256, 2, 4, Some(false)),
    (255, 0, 2, None),
    (0, 0, 2, None),
    (-ONE, 0, 2, None),
];

#[test]
fn triangles_in_front_are_not_cut(rt: HostRuntime) {
    for row in &IN_FRONT {
        let (w, x0, x1, want) = *row;
        assert!(rt; uncut(w, x0, x1) == want);
    }
}

// A triangle with these sums over 2^46 in x, y, z and w at two corners or all, and with x from there, or from just above -2^46.
fn far(x: i32, sums: [i32; 4], mode: u8) -> (bool, bool) {
    let low = i32::MIN;
    let state = State {
        modelview: Mat4 {
            m: [
                low, 0, 0, 0, 0, low, 0, 0, sums[0], sums[1], sums[2], sums[3], 0, 0, low, low,
            ],
        },
        ..state([0, 0, 1, 1], false)
    };
    let corner = |x: i32, y: i32| -> Vertex {
        Vertex {
            pos: [x, y, ONE, low],
            color: BLACK,
            s: 0,
            t: 0,
        }
    };
    kept(
        &state,
        mode,
        &[corner(x, low), corner(0, low), corner(x, 0)],
    )
}

// A corner's x, the sums over 2^46, and whether it is cut. 2^31 times 2^31, over 2^16, is 2^46; 2^31 - 1 times -2^31 is 2^15 more than -2^46.
const SUMS: [(i32, [i32; 4], bool); 8] = [
    (i32::MIN, [0, 0, 0, 0], true),
    (i32::MIN, [-1, -1, -1, -1], true),
    (i32::MIN, [1, 0, 0, 0], false),
    (i32::MIN, [0, 1, 0, 0], false),
    (i32::MIN, [0, 0, 1, 0], false),
    (i32::MIN, [0, 0, 0, 1], false),
    (i32::MAX, [-32_768, 0, 0, 0], true),
    (i32::MAX, [-32_769, 0, 0, 0], false),
];

#[test]
fn coordinates_past_the_bound_are_not_cut(rt: HostRuntime) {
    for row in &SUMS {
        let (x, sums, cut) = *row;
        assert!(rt; far(x, sums, 16) == (cut, false) && far(x, sums, 0) == (true, false));
    }
}

// The areas of the two pieces of a triangle, of which the second turns the other way by rounding, where this facing is culled, if any.
fn areas(culled: Option<u8>) -> (Option<i64>, Option<i64>) {
    let state = State {
        cull_face: culled.unwrap_or(0),
        ..state([0, 0, 64, 64], culled.is_some())
    };
    let corners = [at(-277, 383, 257), at(340, -360, 1000), at(214, -164, 0)];
    let cut = pieces(&state, 16, &corners);
    (cut.first.map(|t| t.area), cut.second.map(|t| t.area))
}

// The facing that is culled, and the areas of the two pieces.
const FACINGS: [(Option<u8>, Option<i64>, Option<i64>); 4] = [
    (None, Some(123_594), Some(3132)),
    (Some(0), None, Some(3132)),
    (Some(1), Some(123_594), None),
    (Some(2), None, None),
];

#[test]
fn each_piece_is_culled_by_its_own_facing(rt: HostRuntime) {
    for row in &FACINGS {
        let (culled, first, second) = *row;
        assert!(rt; areas(culled) == (first, second));
    }
}

// A vertex of a channel and a coordinate, and of another channel and another coordinate.
fn carrying(pos: [i32; 4], channels: [u8; 2], words: [i32; 2]) -> Vertex {
    Vertex {
        pos,
        color: Rgba {
            r: channels[0],
            g: channels[1],
            ..BLACK
        },
        s: words[0],
        t: words[1],
    }
}

// Red, green, s and t where an edge crosses the plane: from w to w the first two numbers go over into each other, and so do the last two.
fn crossed(ws: [i32; 2], channels: [u8; 2], words: [i32; 2]) -> Option<(u8, u8, i32, i32)> {
    let a = carrying([0, 0, 0, ws[0]], channels, words);
    let b = carrying(
        [4096, 0, 0, ws[1]],
        [channels[1], channels[0]],
        [words[1], words[0]],
    );
    let corners = [a, b, at(0, 4096, ws[1])];
    let tri = pieces(&state([0, 0, 16, 16], false), 16, &corners).first?;
    let crossing = tri.v[1];
    Some((crossing.color.r, crossing.color.g, crossing.s, crossing.t))
}

// The w of both ends, two channels and two coordinates, and what the crossing has. What is in front of the plane is all but a 65,281st of the edge, a
// half, a half, two thirds, 255 of 512; numbers are rounded down both ways.
const CROSSINGS: [([i32; 2], [u8; 2], [i32; 2], (u8, u8, i32, i32)); 5] = [
    ([ONE, 255], [0, 255], [-3, 4], (254, 0, 3, -3)),
    (
        [257, 255],
        [0, 255],
        [i32::MIN, i32::MAX],
        (127, 127, -1, -1),
    ),
    ([512, 0], [10, 30], [-3, 4], (20, 20, 0, 0)),
    ([768, 0], [0, 255], [-3, 4], (170, 85, 1, -1)),
    (
        [ONE, -ONE],
        [0, 255],
        [i32::MIN, i32::MAX],
        (127, 127, -8_388_609, 8_388_607),
    ),
];

#[test]
fn a_crossing_has_its_share_of_colour_and_coordinates(rt: HostRuntime) {
    for row in &CROSSINGS {
        let (ws, channels, words, want) = *row;
        assert!(rt; crossed(ws, channels, words) == Some(want));
    }
}

// The crossing of an edge from a vertex in front to one behind, as a triangle on its left has it, and one on its right.
fn seen_from_both_sides(front: [i32; 3], behind: [i32; 3]) -> Option<(WindowVertex, WindowVertex)> {
    let vertices = [
        at(front[0], front[1], front[2]),
        at(behind[0], behind[1], behind[2]),
        at(0, 30_000, ONE),
        at(0, 0, ONE),
    ];
    let state = state([0, 0, 64, 64], false);
    let left = pieces(&state, 16, &vertices_at(&vertices, [0, 1, 2])).first?;
    let right = pieces(&state, 16, &vertices_at(&vertices, [1, 0, 3])).first?;
    Some((left.v[1], right.v[0]))
}

// Whether it is at this place of the window, for both.
fn is_shared(front: [i32; 3], behind: [i32; 3], x: i32, y: i32) -> bool {
    match seen_from_both_sides(front, behind) {
        Some((left, right)) => left == right && left.x == x && left.y == y,
        None => false,
    }
}

// A corner in front (x, y, w), one behind, and the place of their crossing in sixteenths of a pixel.
const SHARED_CROSSINGS: [([i32; 3], [i32; 3], i32, i32); 5] = [
    ([-277, 383, 257], [214, -164, 0], -40, 1272),
    ([340, -360, 1000], [214, -164, 0], 1004, 82),
    ([1000, 77, 300], [-5000, 333, -12_345], 2470, 666),
    (
        [-40_000, 25_000, ONE],
        [30_001, -20_003, -7],
        59_952,
        -39_134,
    ),
    ([123, 456, 257], [-789, 1011, 255], -154, 1978),
];

#[test]
fn two_triangles_share_the_crossing_of_their_edge(rt: HostRuntime) {
    for row in &SHARED_CROSSINGS {
        let (front, behind, x, y) = *row;
        assert!(rt; is_shared(front, behind, x, y));
    }
}
