//! Triangles that are rejected by clip coordinates: what a cache tells of them is the same with bounds and without.
use crate::corners::{ONE, at, state};
use geometry::{Uncut, VertexCache, clip_bounds, identities_of, surrounds_of};
use rc_base::window::Rect;

// Where a corner stands, in quarters of half the viewport from its middle: beside it, at its edges, and within.
const PLACES: [i32; 7] = [-9, -4, -3, 0, 3, 4, 9];

// The w of corners: one, two to a power, another number, and one that is behind the near plane.
const WS: [i32; 4] = [ONE, 4096, 1000, 255];

// Rectangles of a window of 8 by 8: its quarters, one pixel, one beside the viewport, one without pixels, and all of it.
const RECTS: [Rect; 7] = [
    Rect {
        x0: 0,
        y0: 0,
        x1: 4,
        y1: 4,
    },
    Rect {
        x0: 4,
        y0: 0,
        x1: 8,
        y1: 4,
    },
    Rect {
        x0: 0,
        y0: 4,
        x1: 4,
        y1: 8,
    },
    Rect {
        x0: 5,
        y0: 5,
        x1: 6,
        y1: 6,
    },
    Rect {
        x0: 12,
        y0: 0,
        x1: 16,
        y1: 8,
    },
    Rect {
        x0: 4,
        y0: 4,
        x1: 4,
        y1: 4,
    },
    Rect {
        x0: 0,
        y0: 0,
        x1: 8,
        y1: 8,
    },
];

// What is told of a triangle in a rectangle: nothing where it may be cut, or else whether it is drawn.
fn told(uncut: Uncut) -> Option<bool> {
    match uncut {
        Uncut::Whole(tri) => Some(tri.is_some()),
        Uncut::No => None,
    }
}

// The same of a triangle whose corners stand at these places across and up, with bounds and without.
fn both(across: [i32; 3], up: [i32; 3], w: i32, rect: Rect) -> (Option<bool>, Option<bool>) {
    let state = state([0, 0, 8, 8], false);
    let unit = w / 4;
    let vertices = [
        at(across[0].wrapping_mul(unit), up[0].wrapping_mul(unit), w),
        at(across[1].wrapping_mul(unit), up[1].wrapping_mul(unit), w),
        at(across[2].wrapping_mul(unit), up[2].wrapping_mul(unit), w),
    ];
    let near = surrounds_of(rect);
    let bounds = clip_bounds(&state, identities_of(&state), &near);
    let mut with = VertexCache::new(&state, &vertices);
    let mut without = VertexCache::new(&state, &vertices);
    (
        told(with.uncut_near([0, 1, 2], &near, &bounds)),
        told(without.uncut_near([0, 1, 2], &near, &None)),
    )
}

#[test]
fn bounds_by_clip_coordinates_change_nothing(rt: HostRuntime) {
    for a in &PLACES {
        for b in &PLACES {
            for w in &WS {
                for rect in &RECTS {
                    let (with, without) = both([*a, *b, 4], [*b, -4, *a], *w, *rect);
                    assert!(rt; with == without);
                }
            }
        }
    }
}

// The first places across of a triangle's corners, and what is told of it in the left quarter below, where w is one.
const TOLD: [([i32; 3], Option<bool>); 5] = [
    ([-9, -4, -3], Some(true)),
    ([-4, 0, -2], Some(true)),
    ([0, 4, 3], Some(false)),
    ([4, 9, 3], Some(false)),
    ([-9, -8, -7], Some(false)),
];

#[test]
fn triangles_beside_are_rejected(rt: HostRuntime) {
    for row in &TOLD {
        let (across, want) = *row;
        let (with, without) = both(across, [-4, -4, 4], ONE, RECTS[0]);
        assert!(rt; with == want);
        assert!(rt; without == want);
    }
}

#[test]
fn bounds_are_known_where_nothing_moves_a_vertex(rt: HostRuntime) {
    let near = surrounds_of(RECTS[0]);
    let usual = state([0, 0, 8, 8], false);
    assert!(rt; clip_bounds(&usual, identities_of(&usual), &near).is_some());
    let mut turned = state([0, 0, 8, 8], false);
    turned.modelview.m[1] = 1;
    assert!(rt; clip_bounds(&turned, identities_of(&turned), &near).is_none());
    let far = state([i32::MAX, 0, 8, 8], false);
    assert!(rt; clip_bounds(&far, identities_of(&far), &near).is_none());
}
