//! Clients that are drawn apart and put together by depth: layers, and scenes by chance beside the serial renderer.
use super::chance::{add, coordinate, next, shown_in};
use super::rendering::{left_by, packed};
use rc_base::command::Rgba;
use rc_base::gate::OpenGate;
use rc_base::image::Image;
use rc_base::window::{Pixel, Pixels};
use scene_file::{read_scene, read_stored_scene};
use serial_render::sync_lists;
use sort_last::{LastFault, LastRun, Layer, composite, render_last, render_surveyed};
use std::alloc::Global;
use std::process::Abort;
use std::sync::Wait;
use std::thread::Threads;

// A client whose blocks keep the nearest fragment.
const CLIENT: &[u8] = b"client\nEnable 2\n";

const SWAP: &[u8] = b"Swap\n";

const CLEAR: &[u8] = b"Clear 3\n";

const COLOR: Rgba = Rgba {
    r: 1,
    g: 2,
    b: 3,
    a: 4,
};

const NEAR: Pixel = Pixel {
    color: COLOR,
    depth: 5,
};

const FAR: Pixel = Pixel {
    color: COLOR,
    depth: 9,
};

// Whether a layer of one pixel and a longer one give these pixels.
fn gives(rt: &impl Abort, alloc: Global, pixels: &[Pixel]) -> bool {
    let a = Pixels::from_slice(alloc, &[FAR]).expect(rt, "memory");
    let b = Pixels::from_slice(alloc, &[NEAR, FAR]).expect(rt, "memory");
    composite(Layer { pixels: a }, Layer { pixels: b })
        .pixels
        .as_slice()
        == pixels
}

#[test]
fn the_longer_layer_stays_long(rt: HostRuntime) {
    assert!(rt; gives(&rt, rt.alloc(), &[NEAR, FAR]));
}

// Adds a triangle by chance, and gives the generator's next state.
fn add_triangle(rt: &impl Abort, alloc: Global, text: &mut Vec<u8>, from: u32) -> u32 {
    let mut state = next(from);
    let red = state >> 24;
    state = next(state);
    let green = state >> 24;
    let color = format!(in alloc; "Color {red} {green} 128 255\nBegin 0\n").expect(rt, "memory");
    add(rt, text, color.as_bytes());
    for _ in 0..3 {
        state = next(state);
        let x = coordinate(state);
        state = next(state);
        let y = coordinate(state);
        state = next(state);
        let z = coordinate(state);
        let vertex = format!(in alloc; "Vertex {x} {y} {z} 65536\n").expect(rt, "memory");
        add(rt, text, vertex.as_bytes());
    }
    add(rt, text, b"End\n");
    state
}

// Four clients that draw triangles by chance, and swap three times; the first one clears before its second and third frame.
fn by_chance(rt: &impl Abort, alloc: Global, seed: u32) -> Vec<u8> {
    let mut text = Vec::from_slice(alloc, b"scene 1 16 8\n").expect(rt, "memory");
    let mut state = next(seed);
    for client in 0..4u32 {
        add(rt, &mut text, CLIENT);
        for frame in 0..3u32 {
            if client == 0 && frame != 0 {
                add(rt, &mut text, CLEAR);
            }
            for _ in 0..3 {
                state = add_triangle(rt, alloc, &mut text, state);
            }
            add(rt, &mut text, SWAP);
        }
    }
    text
}

// The frames are those of the image.
fn are_frames_of(frames: &[Image], image: &[u8]) -> bool {
    let mut same = frames.len() == 3;
    for frame in 0..frames.len() {
        same &= frames[frame].rgb.as_slice() == shown_in(image, frame);
    }
    same
}

// The frames of what was drawn are those of the image.
fn shows(run: &Result<LastRun, LastFault>, image: &[u8]) -> bool {
    match run {
        Ok(run) => are_frames_of(run.frames.as_slice(), image),
        Err(_) => false,
    }
}

// The scene of a seed shows what the serial renderer shows, whether its streams are surveyed before or not.
fn is_serial<R>(rt: R, alloc: Global, seed: u32) -> bool
where
    R: Abort + Threads + Wait + Copy + Send + Sync + Drop,
{
    let text = by_chance(&rt, alloc, seed);
    let bytes = packed(rt, alloc, text.as_slice());
    let serial = left_by(rt, alloc, &["serial"], bytes.bytes(), &OpenGate);
    let scene = read_scene(alloc, bytes.bytes()).expect(&rt, "a scene");
    let stored = read_stored_scene(alloc, bytes.bytes()).expect(&rt, "a scene");
    let syncs = sync_lists(alloc, &scene).expect(&rt, "memory");
    let image = serial.image.bytes();
    shows(&render_last(&rt, alloc, &scene), image)
        && shows(&render_surveyed(&rt, alloc, &stored, &syncs), image)
}

#[test]
fn scenes_by_chance_show_what_the_serial_renderer_shows(rt: HostRuntime) {
    for seed in 0..8u32 {
        assert!(rt; is_serial(rt, rt.alloc(), seed));
    }
}
