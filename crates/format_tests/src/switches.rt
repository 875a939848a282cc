//! States by hand.
use context_switch::switch;
use rc_base::command::{Mat4, Rgba};
use rc_base::state::State;

const BLACK: Rgba = Rgba {
    r: 0,
    g: 0,
    b: 0,
    a: 0,
};

const PLAIN: State = State {
    modelview: Mat4 { m: [0; 16] },
    projection: Mat4 { m: [0; 16] },
    viewport: [0, 0, 2, 1],
    depth_range: [0, 65_536],
    scissor_on: false,
    scissor: [0, 0, 2, 1],
    cull_on: false,
    cull_face: 1,
    front_face: 0,
    alpha_on: false,
    alpha: [7, 0],
    depth_on: false,
    depth_func: 1,
    depth_mask: true,
    blend_on: false,
    blend: [1, 0],
    color_mask: [true, true, true, true],
    clear_color: BLACK,
    clear_depth: 65_536,
    texture_on: false,
    binding: [0, 1],
    tex_mode: [0, 0, 0],
};

// Three elements are others: the scissor test, the scissor box in two numbers, and the clear colour.
const OTHER: State = State {
    scissor_on: true,
    scissor: [1, 0, 1, 1],
    clear_color: Rgba {
        r: 0,
        g: 0,
        b: 0,
        a: 1,
    },
    ..PLAIN
};

#[test]
fn three_elements_differ_and_then_none(rt: HostRuntime) {
    let mut state = PLAIN;
    assert!(rt; switch(&mut state, &OTHER) == 3);
    assert!(rt; state == OTHER);
    assert!(rt; switch(&mut state, &OTHER) == 0);
    assert!(rt; switch(&mut state, &PLAIN) == 3);
    assert!(rt; state == PLAIN);
}
