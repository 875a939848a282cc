//! Comparisons, blend factors, masks and products of channels, at their ends and by hand.
use fragment_ops::{blend_over, clear_pixel, modulate, shade_pixel, texture_color};
use rc_base::command::{Mat4, Rgba};
use rc_base::state::State;
use rc_base::window::{Fragment, Pixel};

// No stage is on, and all masks are.
fn plain() -> State {
    State {
        modelview: Mat4 { m: [0; 16] },
        projection: Mat4 { m: [0; 16] },
        viewport: [0; 4],
        depth_range: [0, 65_536],
        scissor_on: false,
        scissor: [0; 4],
        cull_on: false,
        cull_face: 1,
        front_face: 0,
        alpha_on: false,
        alpha: [7, 0],
        depth_on: false,
        depth_func: 1,
        depth_mask: true,
        blend_on: false,
        blend: [1, 0],
        color_mask: [true; 4],
        clear_color: rgba(9, 8, 7, 6),
        clear_depth: 65_536,
        texture_on: false,
        binding: [0, 1],
        tex_mode: [0; 3],
    }
}

fn rgba(r: u8, g: u8, b: u8, a: u8) -> Rgba {
    Rgba { r, g, b, a }
}

fn fragment(color: Rgba, depth: i32) -> Fragment {
    Fragment {
        x: 0,
        y: 0,
        color,
        depth,
        s: 0,
        t: 0,
    }
}

// The pixel after a Clear, whose depth is in range.
fn cleared(state: &State, mask: u8, old: Pixel) -> Pixel {
    if state.clear_depth < 0 || state.clear_depth > 65_536 {
        return old;
    }
    clear_pixel(state, mask, old)
}

const OLD: Pixel = Pixel {
    color: Rgba {
        r: 1,
        g: 2,
        b: 3,
        a: 4,
    },
    depth: 5,
};

// Whether a fragment of this alpha is kept.
fn passes_alpha(function: u8, alpha: u8, reference: u8) -> bool {
    let state = State {
        alpha_on: true,
        alpha: [function, reference],
        ..plain()
    };
    let color = rgba(10, 20, 30, alpha);
    let new = shade_pixel(&state, &fragment(color, 77), OLD);
    new.color == color && new.depth == 5
}

// A function, a fragment's alpha and the reference, and whether it passes.
const ALPHA_TESTS: [(u8, u8, u8, bool); 14] = [
    (0, 0, 255, false),
    (1, 127, 128, true),
    (1, 128, 128, false),
    (2, 255, 255, true),
    (2, 254, 255, false),
    (3, 128, 128, true),
    (3, 129, 128, false),
    (4, 1, 0, true),
    (4, 0, 0, false),
    (5, 0, 1, true),
    (5, 1, 1, false),
    (6, 128, 128, true),
    (6, 127, 128, false),
    (7, 0, 255, true),
];

#[test]
fn alpha_tests_pass_by_their_function(rt: HostRuntime) {
    for row in &ALPHA_TESTS {
        let (function, alpha, reference, want) = *row;
        assert!(rt; passes_alpha(function, alpha, reference) == want);
    }
}

// Whether a fragment of this depth is kept, and the depth that is stored then.
fn tested(function: u8, depth_mask: bool, depth: i32, stored: u32) -> (bool, u32) {
    let state = State {
        depth_on: true,
        depth_func: function,
        depth_mask,
        ..plain()
    };
    let old = Pixel {
        depth: stored,
        ..OLD
    };
    let color = rgba(10, 20, 30, 40);
    let new = shade_pixel(&state, &fragment(color, depth), old);
    (new.color == color, new.depth)
}

// A function, the depth mask, a fragment's depth and the stored one, whether it passes, and the depth that is left.
const DEPTH_TESTS: [(u8, bool, i32, u32, bool, u32); 10] = [
    (0, true, 0, 1, false, 1),
    (1, true, 4, 5, true, 4),
    (1, true, 5, 5, false, 5),
    (2, true, 16_777_215, 16_777_215, true, 16_777_215),
    (3, true, 5, 5, true, 5),
    (3, true, 6, 5, false, 5),
    (4, true, 16_777_215, 0, true, 16_777_215),
    (5, true, 5, 5, false, 5),
    (6, false, 7, 5, true, 5),
    (7, true, 9, 5, true, 9),
];

#[test]
fn depth_tests_pass_by_their_function_and_store_by_their_mask(rt: HostRuntime) {
    for row in &DEPTH_TESTS {
        let (function, mask, depth, stored, passes, left) = *row;
        assert!(rt; tested(function, mask, depth, stored) == (passes, left));
    }
}

#[test]
fn depths_out_of_range_are_discarded(rt: HostRuntime) {
    for depth in [i32::MIN, -1, 16_777_216, i32::MAX] {
        assert!(rt; shade_pixel(&plain(), &fragment(rgba(10, 20, 30, 40), depth), OLD) == OLD);
    }
}

// A channel blended with the stored one, by the codes of the two factors and both alphas.
fn blended(codes: [u8; 2], source: u8, stored: u8, alpha: u8, stored_alpha: u8) -> u8 {
    let state = State {
        blend_on: true,
        blend: codes,
        ..plain()
    };
    let old = Pixel {
        color: rgba(stored, 0, 0, stored_alpha),
        depth: 0,
    };
    shade_pixel(&state, &fragment(rgba(source, 0, 0, alpha), 0), old)
        .color
        .r
}

// The codes of two factors, a channel and the stored one, both alphas, and what is left. The codes from 0 on: ZERO, ONE, SRC_COLOR,
// ONE_MINUS_SRC_COLOR, DST_COLOR, ONE_MINUS_DST_COLOR, SRC_ALPHA, ONE_MINUS_SRC_ALPHA, DST_ALPHA, ONE_MINUS_DST_ALPHA.
const BLENDS: [(u8, u8, u8, u8, u8, u8, u8); 12] = [
    (0, 1, 255, 77, 255, 255, 77),
    (1, 0, 77, 255, 0, 0, 77),
    (1, 1, 200, 100, 0, 0, 255),
    (2, 3, 1, 254, 0, 0, 253),
    (3, 2, 254, 1, 0, 0, 2),
    (4, 5, 127, 128, 0, 0, 128),
    (5, 4, 255, 255, 0, 0, 255),
    (6, 7, 255, 0, 128, 0, 128),
    (6, 7, 0, 255, 128, 0, 127),
    (7, 6, 255, 255, 1, 0, 255),
    (8, 9, 255, 255, 0, 254, 255),
    (9, 8, 255, 0, 0, 254, 1),
];

#[test]
fn each_factor_blends(rt: HostRuntime) {
    for row in &BLENDS {
        let (first, second, source, stored, alpha, stored_alpha, want) = *row;
        assert!(rt; blended([first, second], source, stored, alpha, stored_alpha) == want);
    }
}

#[test]
fn masks_keep_channels(rt: HostRuntime) {
    for (color_mask, colored, cleared_to) in [
        (
            [true, false, false, false],
            rgba(255, 2, 3, 4),
            rgba(9, 2, 3, 4),
        ),
        (
            [false, true, false, true],
            rgba(1, 128, 3, 0),
            rgba(1, 8, 3, 6),
        ),
        (
            [false, false, true, false],
            rgba(1, 2, 127, 4),
            rgba(1, 2, 7, 4),
        ),
        ([false; 4], rgba(1, 2, 3, 4), rgba(1, 2, 3, 4)),
    ] {
        let state = State {
            color_mask,
            ..plain()
        };
        assert!(rt;
            shade_pixel(&state, &fragment(rgba(255, 128, 127, 0), 0), OLD).color == colored
        );
        assert!(rt;
            cleared(&state, 1, OLD).color == cleared_to && cleared(&state, 1, OLD).depth == 5
        );
        assert!(rt; cleared(&state, 3, OLD).color == cleared_to);
        assert!(rt; cleared(&state, 2, OLD).color == OLD.color);
        assert!(rt; cleared(&state, 0, OLD) == OLD);
    }
}

// The stored depth after a Clear of depth 5.
fn depth_after(clear_depth: i32, depth_mask: bool) -> u32 {
    let state = State {
        clear_depth,
        depth_mask,
        ..plain()
    };
    cleared(&state, 2, OLD).depth
}

// A clear depth in 16.16 fixed point, and the depth that is stored.
const CLEAR_DEPTHS: [(i32, u32); 5] = [
    (0, 0),
    (1, 255),
    (32_768, 8_388_607),
    (65_535, 16_776_959),
    (65_536, 16_777_215),
];

#[test]
fn clear_depths_are_rounded_down(rt: HostRuntime) {
    for row in &CLEAR_DEPTHS {
        let (clear_depth, stored) = *row;
        assert!(rt; depth_after(clear_depth, true) == stored);
        assert!(rt; depth_after(clear_depth, false) == 5);
    }
}

// Two channels and their product.
const MODULATED: [(u8, u8, u8); 6] = [
    (255, 255, 255),
    (128, 128, 64),
    (1, 127, 0),
    (1, 128, 1),
    (254, 254, 253),
    (0, 255, 0),
];

#[test]
fn environments_modulate_or_replace(rt: HostRuntime) {
    let replace = State {
        tex_mode: [1, 0, 0],
        ..plain()
    };
    for row in &MODULATED {
        let (a, b, want) = *row;
        let (color, texel) = (rgba(a, b, 255, a), rgba(b, 255, a, 0));
        assert!(rt; texture_color(&plain(), color, texel) == rgba(want, b, a, 0));
        assert!(rt; modulate(color, texel) == rgba(want, b, a, 0));
        assert!(rt; texture_color(&replace, color, texel) == texel);
    }
    assert!(rt;
        blend_over(rgba(255, 0, 10, 128), rgba(0, 255, 10, 255)) == rgba(128, 127, 10, 191)
    );
}
