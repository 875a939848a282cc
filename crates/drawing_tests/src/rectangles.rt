//! Clears of a rectangle of a window, and its pixels by their place.
ghost use Rattle.std.specs.Prelude.{◌+◌};
ghost use Rattle.draw_device.specs.Conditions.{IsClearable};
ghost use Rattle.draw_device.specs.Devices.{IsDeviceRect};

use crate::stages::is_drawable;
use draw_device::{Device, LazyDevice};
use rc_base::command::{Mat4, Rgba};
use rc_base::out_of_memory::OutOfMemory;
use rc_base::scene::Sizes;
use rc_base::state::{Effect, State};
use rc_base::window::{Pixel, Rect};
use std::alloc::Global;
use std::process::Abort;
use textures::{PrivateSet, SharedSet};

// A scissor box of 4 by 3 pixels from (1, 1) on.
fn state() -> State
    ensures { IsClearable result }
{
    State {
        modelview: Mat4 { m: [0; 16] },
        projection: Mat4 { m: [0; 16] },
        viewport: [0, 0, 5, 5],
        depth_range: [0, 65_536],
        scissor_on: true,
        scissor: [1, 1, 4, 3],
        cull_on: false,
        cull_face: 1,
        front_face: 0,
        alpha_on: false,
        alpha: [7, 0],
        depth_on: false,
        depth_func: 1,
        depth_mask: true,
        blend_on: false,
        blend: [6, 7],
        color_mask: [true; 4],
        clear_color: Rgba {
            r: 40,
            g: 50,
            b: 60,
            a: 70,
        },
        clear_depth: 50_000,
        texture_on: false,
        binding: [0, 1],
        tex_mode: [0, 0, 1],
    }
}

// How many pixels have a Clear's colour, and how many have another depth than they should.
fn counted(pixels: &[Pixel]) -> (u8, u8) {
    let mut changed = 0_u8;
    let mut wrong = 0_u8;
    for pixel in pixels {
        let is_changed = pixel.color.r == 40;
        changed = changed.saturating_add(u8::from(is_changed));
        let depth = if is_changed { 12_799_999 } else { 16_777_215 };
        wrong = wrong.saturating_add(u8::from(pixel.depth != depth));
    }
    (changed, wrong)
}

// The same of a window of 6 by 5 after a Clear.
fn cleared(alloc: Global) -> Result<(u8, u8), OutOfMemory> {
    let rect = Rect {
        x0: 0,
        y0: 0,
        x1: 6,
        y1: 5,
    };
    let mut device = Device::new(alloc, rect)?;
    device.clear(&state(), 3);
    let part = device.part(3, 9)?;
    if part.tile != 3 || part.frame != 9 {
        return Ok((0, 0));
    }
    Ok(counted(part.pixels.as_slice()))
}

// How many pixels a window of 3 by 4, whose pixels are written late, has that are black, transparent and as far as can be.
fn blank_pixels(rt: &impl Abort, device: &LazyDevice) -> u8 {
    let mut blank = 0_u8;
    let part = device.part(0, 0).expect(rt, "memory");
    for pixel in part.pixels.as_slice() {
        let color = pixel.color;
        let is_black = color.r == 0 && color.g == 0 && color.b == 0 && color.a == 0;
        blank = blank.saturating_add(u8::from(is_black && pixel.depth == 16_777_215));
    }
    blank
}

// How many are blank before a Clear and after it.
fn blank_before_and_after(rt: &impl Abort, alloc: Global) -> (u8, u8) {
    let rect = Rect {
        x0: 0,
        y0: 0,
        x1: 3,
        y1: 4,
    };
    let mut device = LazyDevice::new(alloc, rect).expect(rt, "memory");
    let before = blank_pixels(rt, &device);
    let state = state();
    let privates = PrivateSet::new(alloc).expect(rt, "memory");
    let mut shareds = SharedSet::new(alloc, &Sizes::new(alloc)).expect(rt, "memory");
    assert!(rt; is_drawable(&state, &privates, &shareds));
    device.carry_out(&Effect::Clear(3), &state, &privates, &mut shareds);
    (before, blank_pixels(rt, &device))
}

// The same with a box of one row, from one column to below another.
fn state_between(from: u8, to: u8) -> State
    ensures { IsClearable result }
{
    State {
        scissor: [i32::from(from), 0, i32::from(to.wrapping_sub(from)), 1],
        ..state()
    }
}

// The run of what was drawn on in a window of 100 by 1, where these columns are cleared to a nearer depth.
fn drawn_between(rt: &impl Abort, alloc: Global, from: u8, to: u8) -> (usize, usize) {
    let rect = Rect {
        x0: 0,
        y0: 0,
        x1: 100,
        y1: 1,
    };
    let mut device = Device::new(alloc, rect).expect(rt, "memory");
    device.clear(&state_between(from, to), 2);
    let run = device.drawn();
    (run.from, run.to)
}

// Columns at the edges of what is looked at together, 32 of them from either end, and within it.
const BETWEEN: [(u8, u8); 10] = [
    (0, 1),
    (0, 100),
    (31, 32),
    (32, 33),
    (33, 67),
    (36, 37),
    (64, 68),
    (67, 69),
    (95, 96),
    (99, 100),
];

#[test]
fn what_was_drawn_on_is_found_from_its_first_pixel_to_its_last(rt: HostRuntime) {
    assert!(rt; drawn_between(&rt, rt.alloc(), 5, 5) == (100, 100));
    for row in &BETWEEN {
        let (from, to) = *row;
        let due = (usize::from(from), usize::from(to));
        assert!(rt; drawn_between(&rt, rt.alloc(), from, to) == due);
    }
}

#[test]
fn a_clear_stays_in_the_scissor_box(rt: HostRuntime) {
    assert!(rt; cleared(rt.alloc()) == Ok((12, 0)));
}

#[test]
fn pixels_that_are_written_late_are_blank_until_then_and_beside_a_clear(rt: HostRuntime) {
    assert!(rt; blank_before_and_after(&rt, rt.alloc()) == (12, 6));
}

#[test]
fn a_pixel_is_found_by_its_place_in_the_window(rt: HostRuntime) {
    let rect = Rect {
        x0: 2,
        y0: 2,
        x1: 6,
        y1: 5,
    };
    let mut device = Device::new(rt.alloc(), rect).expect(&rt, "memory");
    device.clear(&state(), 1);
    assert!(rt; device.rect() == rect);
    assert!(rt; device.pixel(4, 3).color.r == 40);
    assert!(rt; device.pixel(5, 3).color.r == 0);
    assert!(rt; device.pixel(4, 4).color.r == 0);
}
