//! A wall that runs past the eye, square by square: each pixel that it covers is drawn once. And a sliver that rounding turns, along whose edge it isn't so.
ghost use Rattle.std.specs.Prelude.{IfSome};
ghost use Rattle.draw_device.specs.Devices.{IsDeviceRect};

use crate::corners::at;
use crate::stages::{PLAIN, Stages, is_drawable, rgba, state as state_of};
use draw_device::Device;
use geometry::spelt;
use rc_base::command::Rgba;
use rc_base::items::Items;
use rc_base::scene::Sizes;
use rc_base::state::{Block, State, Vertex, Vertices};
use rc_base::window::{Pixel, Rect};
use std::alloc::Global;
use std::process::Abort;
use textures::{PrivateSet, SharedSet};
use vertex_bytes::{SpeltBlock, SpeltVertices};

// A window of 64 by 16, in which colours are added.
fn state() -> State {
    State {
        viewport: [0, 0, 64, 16],
        ..state_of(Stages {
            blend: Some([1, 1]),
            ..PLAIN
        })
    }
}

// A corner of the wall's squares. The wall stands at x = 10,000, from w = 160,000 far ahead to behind the eye, and is higher than the window at its far
// end. From line to line its squares grow longer. The eleventh of each row crosses the near plane: from w = 13,000 to -1,700 at the lowest line, from
// 11,400 to -3,460 at the highest one. What it has in front is seen, from x / w = 1 at the window's right edge on.
fn corner(column: i32, row: i32) -> Vertex {
    let length = row.saturating_mul(10).saturating_add(14_700);
    let y = row.saturating_mul(20_480).saturating_sub(163_840);
    let w = column
        .saturating_mul(length)
        .saturating_neg()
        .saturating_add(160_000);
    Vertex {
        color: rgba(3, 3, 3, 3),
        ..at(10_000, y, w)
    }
}

// Sixteen squares of a row, as a strip.
fn squares(rt: &impl Abort, alloc: Global, row: i32) -> Block {
    let mut vertices = Vertices::new(alloc);
    for column in 0..17_i32 {
        vertices.push(corner(column, row)).expect(rt, "memory");
        vertices
            .push(corner(column, row.saturating_add(1)))
            .expect(rt, "memory");
    }
    Block { mode: 17, vertices }
}

// The bytes that spell the vertices, 28 each.
fn spelt_bytes(rt: &impl Abort, alloc: Global, vertices: &[Vertex]) -> Vec<u8> {
    let mut bytes = Vec::new(alloc);
    for vertex in vertices {
        let [x, y, z, w] = vertex.pos;
        let Rgba { r, g, b, a } = vertex.color;
        let color = i32::from_le_bytes([r, g, b, a]);
        for word in [x, y, z, w, color, vertex.s, vertex.t] {
            bytes
                .extend_from_slice(&word.to_le_bytes())
                .expect(rt, "memory");
        }
    }
    bytes
}

// Draws a row of squares, each other one by the bytes that spell its vertices.
fn draw_row(
    rt: &impl Abort,
    alloc: Global,
    device: &mut Device,
    privates: &PrivateSet,
    shareds: &SharedSet,
    row: i32,
) {
    let state = state();
    let block = squares(rt, alloc, row);
    assert!(rt; is_drawable(&state, privates, shareds));
    if row & 1 == 0 {
        device.draw(&state, &block, privates, shareds);
        return;
    }
    let bytes = spelt_bytes(rt, alloc, block.vertices.as_slice());
    let prepared = device.prepare(&state);
    let vertices = SpeltVertices {
        bytes: bytes.as_slice(),
    };
    let block = spelt(SpeltBlock {
        mode: block.mode,
        vertices,
    });
    device.draw_prepared(&state, &prepared, &block, privates, shareds);
}

// The pixels of the device after the wall.
fn drawn(rt: &impl Abort, alloc: Global, mut device: Device) -> Items<Pixel> {
    let privates = PrivateSet::new(alloc).expect(rt, "memory");
    let shareds = SharedSet::new(alloc, &Sizes::new(alloc)).expect(rt, "memory");
    for row in 0..16_i32 {
        draw_row(rt, alloc, &mut device, &privates, &shareds, row);
    }
    device.part(0, 0).expect(rt, "memory").pixels
}

// A rectangle of the window.
fn rectangle(left: u16, bottom: u16, right: u16, top: u16) -> Option<Rect>
    ensures { IfSome result (λ r. IsDeviceRect r) }
{
    if right < left {
        return None;
    }
    if top < bottom {
        return None;
    }
    Some(Rect {
        x0: i32::from(left),
        y0: i32::from(bottom),
        x1: i32::from(right),
        y1: i32::from(top),
    })
}

fn device_of(alloc: Global, left: u16, bottom: u16, right: u16, top: u16) -> Option<Device> {
    let rect = rectangle(left, bottom, right, top)?;
    Device::new(alloc, rect).ok()
}

// How many of the pixels, which are so many a row from that column on, aren't drawn as they should be. At the wall's far end x / w is a sixteenth, so it
// stands at column 32 + 32 / 16. From there on each pixel is drawn once, and none before.
fn wrong(pixels: &[Pixel], left: usize, width: usize) -> u32 {
    let mut count = 0_u32;
    let mut x = left;
    for pixel in pixels {
        let value = if x < 34 { 0 } else { 3 };
        count = count.saturating_add(u32::from(pixel.color != rgba(value, value, value, value)));
        x = x.saturating_add(1);
        if x == left.saturating_add(width) {
            x = left;
        }
    }
    count
}

// The same of the wall on a device of so many columns and rows, which has that many pixels.
fn wrong_on(rt: &impl Abort, alloc: Global, left: u16, bottom: u16, wide: u16, high: u16) -> u32 {
    let right = left.saturating_add(wide);
    let device = device_of(alloc, left, bottom, right, bottom.saturating_add(high));
    let pixels = drawn(rt, alloc, device.expect(rt, "a device"));
    let missing = u32::from(pixels.len() != usize::from(wide).saturating_mul(usize::from(high)));
    missing.saturating_add(wrong(pixels.as_slice(), usize::from(left), usize::from(wide)))
}

#[test]
fn a_wall_past_the_eye_is_drawn_once(rt: HostRuntime) {
    assert!(rt; wrong_on(&rt, rt.alloc(), 0, 0, 64, 16) == 0);
}

#[test]
fn tiles_draw_a_wall_past_the_eye_once(rt: HostRuntime) {
    for left in [0_u16, 8, 16, 24, 32, 40, 48, 56] {
        for bottom in [0_u16, 4, 8, 12] {
            assert!(rt; wrong_on(&rt, rt.alloc(), left, bottom, 8, 4) == 0);
        }
    }
}

// Two triangles on the two sides of the edge from (-29, 233) at w = 397 to (-212, 10) at w = 35, which the near plane cuts. In sixteenths of a pixel the
// first one leaves a sliver with corners (474, 812), (310, 804) and (326, 804), and its neighbour a piece with (310, 804), (474, 812) and (1213, -205). By
// rounding the sliver runs counterclockwise, where its neighbour runs clockwise.
const SLIVER: [(i32, i32, i32); 6] = [
    (-29, 233, 397),
    (-212, 10, 35),
    (-264, -84, -122),
    (-212, 10, 35),
    (-29, 233, 397),
    (363, -371, 265),
];

// Both triangles, in one block.
fn sliver(rt: &impl Abort, alloc: Global) -> Block {
    let mut vertices = Vertices::new(alloc);
    for row in &SLIVER {
        let (x, y, w) = *row;
        let vertex = Vertex {
            color: rgba(3, 3, 3, 3),
            ..at(x, y, w)
        };
        vertices.push(vertex).expect(rt, "memory");
    }
    Block { mode: 16, vertices }
}

// The pixels of columns 22 to 31 of row 50, which has the edge's centre.
fn sliver_row(rt: &impl Abort, alloc: Global) -> Items<Pixel> {
    let privates = PrivateSet::new(alloc).expect(rt, "memory");
    let shareds = SharedSet::new(alloc, &Sizes::new(alloc)).expect(rt, "memory");
    let mut device = device_of(alloc, 22, 50, 32, 51).expect(rt, "a device");
    let state = State {
        viewport: [0, 0, 64, 64],
        ..state()
    };
    let block = sliver(rt, alloc);
    assert!(rt; is_drawable(&state, &privates, &shareds));
    device.draw(&state, &block, &privates, &shareds);
    device.part(0, 0).expect(rt, "memory").pixels
}

// How many pixels haven't the values.
fn unlike(pixels: &[Pixel], values: &[u8]) -> u32 {
    let mut count = u32::from(pixels.len() != values.len());
    for (pixel, value) in pixels.iter().zip(values.iter()) {
        let color = rgba(*value, *value, *value, *value);
        count = count.saturating_add(u32::from(pixel.color != color));
    }
    count
}

#[test]
fn a_sliver_that_rounding_turns_meets_its_neighbour_twice(rt: HostRuntime) {
    let row = sliver_row(&rt, rt.alloc());
    assert!(rt; unlike(row.as_slice(), &[0, 0, 6, 3, 3, 3, 3, 3, 0, 0]) == 0);
}
