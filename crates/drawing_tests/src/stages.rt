//! The pixels of a small window after a triangle in each state, against the stages of one pixel after the other.
ghost use Rattle.std.specs.Prelude.{IsTrue};
ghost use Rattle.textures.specs.Images.{HasTexelIfAny};
ghost use Rattle.draw_device.specs.Conditions.{IsDrawable};

use draw_device::Device;
use fragment_ops::{shade_pixel, texture_color};
use geometry::to_window;
use raster::{covers, fragment_at};
use rc_base::command::{Mat4, Rgba, Texels};
use rc_base::items::Items;
use rc_base::scene::Sizes;
use rc_base::state::{Block, State, Vertex, Vertices};
use rc_base::triangle::WindowTriangle;
use rc_base::window::{Fragment, Pixel, Rect};
use std::alloc::Global;
use std::process::Abort;
use textures::{PrivateSet, SharedSet, Texture};

// The stages that are on. A texture has its environment, and its wraps in s and in t.
#[derive(Clone, Copy)]
pub(crate) struct Stages {
    pub(crate) texture: Option<[u8; 3]>,
    pub(crate) alpha: Option<[u8; 2]>,
    pub(crate) depth: Option<u8>,
    pub(crate) depth_mask: bool,
    pub(crate) blend: Option<[u8; 2]>,
    pub(crate) mask: [bool; 4],
}

// None at all.
pub(crate) const PLAIN: Stages = Stages {
    texture: None,
    alpha: None,
    depth: None,
    depth_mask: true,
    blend: None,
    mask: [true; 4],
};

fn identity() -> Mat4 {
    Mat4 {
        m: [
            65_536, 0, 0, 0, 0, 65_536, 0, 0, 0, 0, 65_536, 0, 0, 0, 0, 65_536,
        ],
    }
}

// A window of 16 by 4, and private texture 1.
pub(crate) fn state(stages: Stages) -> State {
    State {
        modelview: identity(),
        projection: identity(),
        viewport: [0, 0, 16, 4],
        depth_range: [0, 65_536],
        scissor_on: false,
        scissor: [0; 4],
        cull_on: false,
        cull_face: 1,
        front_face: 0,
        alpha_on: stages.alpha.is_some(),
        alpha: stages.alpha.unwrap_or([7, 0]),
        depth_on: stages.depth.is_some(),
        depth_func: stages.depth.unwrap_or(1),
        depth_mask: stages.depth_mask,
        blend_on: stages.blend.is_some(),
        blend: stages.blend.unwrap_or([1, 0]),
        color_mask: stages.mask,
        clear_color: rgba(0, 0, 0, 0),
        clear_depth: 65_536,
        texture_on: stages.texture.is_some(),
        binding: [0, 1],
        tex_mode: stages.texture.unwrap_or([0; 3]),
    }
}

pub(crate) fn rgba(r: u8, g: u8, b: u8, a: u8) -> Rgba {
    Rgba { r, g, b, a }
}

// Three halves of a number, rounded toward 0.
fn three_halves(x: i32) -> i32 {
    x.saturating_add(x / 2)
}

// A corner, whose texture coordinate goes beyond both ends of an image.
fn corner(x: i32, y: i32, z: i32, color: Rgba) -> Vertex {
    Vertex {
        pos: [x, y, z, 65_536],
        color,
        s: three_halves(x),
        t: three_halves(y),
    }
}

// What is drawn before, from depth 0 to the greatest.
fn backdrop() -> [Vertex; 3] {
    [
        corner(-65_536, -65_536, -65_536, rgba(255, 0, 7, 0)),
        corner(196_608, -65_536, 65_536, rgba(0, 255, 40, 255)),
        corner(-65_536, 196_608, -65_536, rgba(90, 128, 255, 128)),
    ]
}

// What is drawn over it. Some of its depths lie out of range where `deep` is on.
fn front(deep: bool) -> [Vertex; 3] {
    let z = if deep { 131_072 } else { 65_536 };
    [
        corner(-65_536, -65_536, z, rgba(0, 255, 255, 255)),
        corner(131_072, -65_536, 0, rgba(255, 10, 0, 0)),
        corner(-65_536, 131_072, -65_536, rgba(128, 77, 200, 254)),
    ]
}

fn block(rt: &impl Abort, alloc: Global, corners: &[Vertex; 3]) -> Block {
    Block {
        mode: 0,
        vertices: Vertices::from_slice(alloc, corners).expect(rt, "memory"),
    }
}

// 3 by 2 texels.
const TEXELS: [u8; 24] = [
    255, 0, 9, 255, 40, 200, 77, 128, 0, 255, 255, 0, 128, 127, 1, 90, 3, 60, 254, 200, 210, 99,
    150, 31,
];

// The textures of a client, with an image for the first.
fn images(rt: &impl Abort, alloc: Global) -> PrivateSet {
    let texels = Texels::from_slice(alloc, &TEXELS).expect(rt, "memory");
    let mut set = PrivateSet::new(alloc).expect(rt, "memory");
    set.set(1, 3, 2, &texels).expect(rt, "memory");
    set
}

// Whether the texture has a texel.
fn has_texel(texture: &Texture) -> bool
    ensures { IsTrue result → HasTexelIfAny texture.now }
{
    match texture.sampler(0, 0) {
        Some(_) => true,
        None => false,
    }
}

// Whether the state draws without a texture, or with a private one that has a texel.
pub(crate) fn is_drawable(state: &State, privates: &PrivateSet, shareds: &SharedSet) -> bool
    ensures { IsTrue result → IsDrawable state.now privates.now shareds.now }
{
    if !state.texture_on {
        return true;
    }
    let [kind, name] = state.binding;
    if kind == 1 {
        return false;
    }
    match privates.find(name) {
        Some(texture) => has_texel(texture),
        None => false,
    }
}

// A fragment's colour after the texture environment.
fn colored(state: &State, texture: &Texture, fragment: &Fragment) -> Rgba {
    if !state.texture_on {
        return fragment.color;
    }
    let [_, wrap_s, wrap_t] = state.tex_mode;
    match texture.sampler(wrap_s, wrap_t) {
        Some(sampler) => {
            texture_color(
                state,
                fragment.color,
                sampler.nearest(fragment.s, fragment.t),
            )
        }
        None => fragment.color,
    }
}

// The pixel after the triangle's fragment, where it is covered.
fn stepped(
    state: &State,
    texture: &Texture,
    tri: &WindowTriangle,
    x: i32,
    y: i32,
    old: Pixel,
) -> Pixel {
    if !covers(tri, x, y) {
        return old;
    }
    let fragment = fragment_at(tri, x, y);
    let color = colored(state, texture, &fragment);
    shade_pixel(state, &Fragment { color, ..fragment }, old)
}

// How many pixels of two lists differ after a triangle.
fn unlike(
    state: &State,
    texture: &Texture,
    tri: &WindowTriangle,
    old: &[Pixel],
    new: &[Pixel],
) -> u32 {
    let mut count = 0_u32;
    let mut at = 0_usize;
    for y in 0..4_i32 {
        for x in 0..16_i32 {
            let same = match (old.get(at), new.get(at)) {
                (Some(a), Some(b)) => stepped(state, texture, tri, x, y, *a) == *b,
                _ => false,
            };
            count = count.saturating_add(u32::from(!same));
            at = at.saturating_add(1);
        }
    }
    count
}

// The pixels of the device after a triangle.
fn drawn(
    rt: &impl Abort,
    alloc: Global,
    device: &mut Device,
    state: &State,
    corners: &[Vertex; 3],
    privates: &PrivateSet,
) -> Items<Pixel> {
    let shareds = SharedSet::new(alloc, &Sizes::new(alloc)).expect(rt, "memory");
    assert!(rt; is_drawable(state, privates, &shareds));
    device.draw(state, &block(rt, alloc, corners), privates, &shareds);
    device.part(0, 0).expect(rt, "memory").pixels
}

// How many pixels a triangle leaves otherwise than the stages do.
fn wrong(rt: &impl Abort, alloc: Global, stages: Stages, deep: bool) -> u32 {
    let rect = Rect {
        x0: 0,
        y0: 0,
        x1: 16,
        y1: 4,
    };
    let mut device = Device::new(alloc, rect).expect(rt, "memory");
    let privates = images(rt, alloc);
    let plain = state(Stages {
        depth: Some(7),
        ..PLAIN
    });
    let before = drawn(rt, alloc, &mut device, &plain, &backdrop(), &privates);
    let last = state(stages);
    let corners = front(deep);
    let after = drawn(rt, alloc, &mut device, &last, &corners, &privates);
    let tri = to_window(&last, &corners).expect(rt, "a triangle");
    unlike(
        &last,
        privates.get(1),
        &tri,
        before.as_slice(),
        after.as_slice(),
    )
}

// The same with depths in range and out of it, with and without the depth test.
fn all_wrong(rt: &impl Abort, alloc: Global, stages: Stages) -> u32 {
    let mut count = 0_u32;
    for depth in [stages.depth, Some(3)] {
        for deep in [false, true] {
            let stages = Stages { depth, ..stages };
            count = count.saturating_add(wrong(rt, alloc, stages, deep));
        }
    }
    count
}

#[test]
fn all_pairs_of_factors_blend_as_the_stages_do(rt: HostRuntime) {
    for first in 0..10_u8 {
        for second in 0..10_u8 {
            let stages = Stages {
                blend: Some([first, second]),
                ..PLAIN
            };
            assert!(rt; all_wrong(&rt, rt.alloc(), stages) == 0);
        }
    }
}

#[test]
fn alpha_tests_pass_in_a_row_as_the_stages_do(rt: HostRuntime) {
    for function in 0..8_u8 {
        for reference in [0_u8, 100, 255] {
            let stages = Stages {
                alpha: Some([function, reference]),
                blend: Some([6, 7]),
                ..PLAIN
            };
            assert!(rt; all_wrong(&rt, rt.alloc(), stages) == 0);
        }
    }
}

// The depth mask, whether depths are out of range, and the alpha test.
const DEPTH_STAGES: [(bool, bool, Option<[u8; 2]>); 4] = [
    (true, false, None),
    (false, false, Some([4, 100])),
    (true, true, None),
    (true, true, Some([1, 100])),
];

#[test]
fn depth_tests_pass_in_a_row_as_the_stages_do(rt: HostRuntime) {
    for function in 0..8_u8 {
        for row in &DEPTH_STAGES {
            let (depth_mask, deep, alpha) = *row;
            let stages = Stages {
                alpha,
                depth: Some(function),
                depth_mask,
                ..PLAIN
            };
            assert!(rt; wrong(&rt, rt.alloc(), stages, deep) == 0);
        }
    }
}

#[test]
fn colour_masks_write_in_a_row_as_the_stages_do(rt: HostRuntime) {
    for number in 0..16_u8 {
        for blend in [None, Some([6, 7]), Some([4, 0])] {
            let mask = [
                number % 2 == 1,
                number / 2 % 2 == 1,
                number / 4 % 2 == 1,
                number / 8 == 1,
            ];
            let stages = Stages {
                blend,
                mask,
                ..PLAIN
            };
            assert!(rt; all_wrong(&rt, rt.alloc(), stages) == 0);
        }
    }
}

// The alpha test, and the factors of blending.
const TEXTURE_STAGES: [(Option<[u8; 2]>, Option<[u8; 2]>); 3] = [
    (None, None),
    (None, Some([6, 1])),
    (Some([4, 100]), Some([6, 7])),
];

#[test]
fn environments_and_wraps_texture_a_row_as_the_stages_do(rt: HostRuntime) {
    for number in 0..8_u8 {
        for row in &TEXTURE_STAGES {
            let (alpha, blend) = *row;
            let stages = Stages {
                texture: Some([number % 2, number / 2 % 2, number / 4]),
                alpha,
                blend,
                ..PLAIN
            };
            assert!(rt; all_wrong(&rt, rt.alloc(), stages) == 0);
        }
    }
}
