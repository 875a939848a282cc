//! Random blocks of scenes of version 2, in front of the eye, past it and behind it: each pixel that is drawn lies in the block's box.
ghost use Rattle.std.specs.Prelude.{IfSome};
ghost use Rattle.draw_device.specs.Devices.{IsDeviceRect};

use crate::corners::at;
use crate::stages::{PLAIN, is_drawable, rgba, state as state_of};
use bounds_bucket::block_box;
use draw_device::Device;
use rc_base::command::Mat4;
use rc_base::items::Items;
use rc_base::scene::Sizes;
use rc_base::state::{Block, State, Vertex, Vertices};
use rc_base::window::{Pixel, Rect};
use std::alloc::Global;
use std::process::Abort;
use textures::{PrivateSet, SharedSet};

// The numbers of a linear congruential generator, as Knuth's MMIX has it.
#[derive(Clone, Copy)]
struct Numbers {
    last: u64,
}

impl Numbers {
    // From 0 to below `count`.
    fn below(&mut self, count: u16) -> u16 {
        self.last = self
            .last
            .wrapping_mul(6_364_136_223_846_793_005)
            .wrapping_add(1_442_695_040_888_963_407);
        let upper = (self.last >> 40) as u32;
        match upper.checked_rem(u32::from(count)) {
            Some(n) => n as u16,
            None => 0,
        }
    }

    fn is_one_of(&mut self, count: u16) -> bool {
        self.below(count) == 0
    }

    // From `-size` to `size`, in steps of `step`.
    fn about(&mut self, size: u16, step: i32) -> i32 {
        let n = self.below(size.saturating_mul(2).saturating_add(1));
        i32::from(n)
            .saturating_sub(i32::from(size))
            .saturating_mul(step)
    }

    // Mostly one; else near the eye, or anywhere.
    fn depth(&mut self) -> i32 {
        match self.below(4) {
            0 => self.about(600, 1).saturating_add(300),
            1 => self.about(200, 1_000),
            _ => 65_536,
        }
    }

    // The identity with some entries changed, those that give w among them.
    fn matrix(&mut self) -> Mat4 {
        let mut m = [
            65_536, 0, 0, 0, 0, 65_536, 0, 0, 0, 0, 65_536, 0, 0, 0, 0, 65_536,
        ];
        for entry in &mut m {
            if self.is_one_of(4) {
                *entry = self.about(150, 700);
            }
        }
        Mat4 { m }
    }

    fn side(&mut self) -> u16 {
        self.below(24).saturating_add(1)
    }

    fn area(&mut self) -> [i32; 4] {
        [
            self.about(6, 1),
            self.about(6, 1),
            i32::from(self.below(30)),
            i32::from(self.below(30)),
        ]
    }

    fn state(&mut self) -> State {
        let plain = state_of(PLAIN);
        let is_moved = self.is_one_of(2);
        State {
            modelview: if is_moved {
                self.matrix()
            } else {
                plain.modelview
            },
            projection: if self.is_one_of(2) {
                self.matrix()
            } else {
                plain.projection
            },
            viewport: self.area(),
            scissor_on: self.is_one_of(4),
            scissor: self.area(),
            cull_on: self.is_one_of(4),
            ..plain
        }
    }

    fn vertex(&mut self) -> Vertex {
        let mut vertex = at(self.about(200, 500), self.about(200, 500), self.depth());
        vertex.color = rgba(255, 255, 255, 255);
        vertex
    }

    fn block(&mut self, rt: &impl Abort, alloc: Global) -> Block {
        let mode = match self.below(3) {
            0 => 16,
            1 => 17,
            _ => 18,
        };
        let mut vertices = Vertices::new(alloc);
        for _ in 0..self.below(9) {
            vertices.push(self.vertex()).expect(rt, "memory");
        }
        Block { mode, vertices }
    }
}

// A window of these sides.
fn window(width: u16, height: u16) -> Option<Rect>
    ensures { IfSome result (λ r. IsDeviceRect r) }
{
    Some(Rect {
        x0: 0,
        y0: 0,
        x1: i32::from(width),
        y1: i32::from(height),
    })
}

// The pixels of a window after the block.
fn drawn(
    rt: &impl Abort,
    alloc: Global,
    sides: (u16, u16),
    state: &State,
    block: &Block,
) -> Items<Pixel> {
    let rect = window(sides.0, sides.1).expect(rt, "a window");
    let mut device = Device::new(alloc, rect).expect(rt, "memory");
    let privates = PrivateSet::new(alloc).expect(rt, "memory");
    let shareds = SharedSet::new(alloc, &Sizes::new(alloc)).expect(rt, "memory");
    assert!(rt; is_drawable(state, &privates, &shareds));
    device.draw(state, block, &privates, &shareds);
    device.part(0, 0).expect(rt, "memory").pixels
}

fn has(area: Option<Rect>, x: i32, y: i32) -> bool {
    match area {
        Some(r) => r.x0 <= x && x < r.x1 && r.y0 <= y && y < r.y1,
        None => false,
    }
}

// How many pixels of a window of this width are drawn, and how many of them lie outside the box.
fn counted(pixels: &[Pixel], width: i32, area: Option<Rect>) -> (u32, u32) {
    let mut all = 0_u32;
    let mut outside = 0_u32;
    let mut x = 0_i32;
    let mut y = 0_i32;
    for pixel in pixels {
        if pixel.color.r != 0 {
            all = all.saturating_add(1);
            outside = outside.saturating_add(u32::from(!has(area, x, y)));
        }
        x = x.saturating_add(1);
        if x == width {
            x = 0;
            y = y.saturating_add(1);
        }
    }
    (all, outside)
}

// The same of so many random blocks, and how many of them draw anything.
fn tried(rt: &impl Abort, alloc: Global, seed: u64, blocks: u32) -> (u32, u32, u32) {
    let mut numbers = Numbers { last: seed };
    let mut some = 0_u32;
    let mut all = 0_u32;
    let mut outside = 0_u32;
    for _ in 0..blocks {
        let (width, height) = (numbers.side(), numbers.side());
        let state = numbers.state();
        let block = numbers.block(rt, alloc);
        let rect = Rect {
            x0: 0,
            y0: 0,
            x1: i32::from(width),
            y1: i32::from(height),
        };
        let pixels = drawn(rt, alloc, (width, height), &state, &block);
        let count = counted(
            pixels.as_slice(),
            i32::from(width),
            block_box(&state, &block, rect),
        );
        some = some.saturating_add(u32::from(count.0 != 0));
        all = all.saturating_add(count.0);
        outside = outside.saturating_add(count.1);
    }
    (some, all, outside)
}

#[test]
fn each_drawn_pixel_lies_in_the_box_of_its_block(rt: HostRuntime) {
    let (some, all, outside) = tried(&rt, rt.alloc(), 17, 2_000);
    assert!(rt; outside == 0);
    assert!(rt; some > 200);
    assert!(rt; all > 10_000);
}
