//! Scenes in which nothing is ordered, on as many tiles and by as many clients as there may be: each record is lawful, and each picture its record's.
ghost use Rattle.rc_base.specs.Formats.Within.{IsWithin};
ghost use Rattle.order_model.specs.Sent.{IsRecordOf};

use super::chance::{HEIGHT, WIDTH, add, coordinate, next, shown_in};
use super::rendering::packed;
use bounds_bucket::{layout, tile_rect};
use cluster_run::run_threads;
use order_model::laws::scenes_within_limits;
use order_model::record::Record;
use order_model::{is_permitted, tile_order};
use rc_base::gate::OpenGate;
use rc_base::image::{Frames, Image};
use rc_base::in_memory::MemSink;
use rc_base::out_of_memory::OutOfMemory;
use rc_base::scene::Scene;
use rc_base::window::{Layout, Rect};
use scene_file::read_scene;
use serial_render::render_order;
use std::alloc::Global;
use std::process::Abort;
use std::sync::Wait;
use std::thread::Threads;

// Adds a vertex by chance, and gives the generator's next state.
fn add_vertex(rt: &impl Abort, alloc: Global, text: &mut Vec<u8>, from: u32) -> u32 {
    let state = next(from);
    let x = coordinate(state);
    let state = next(state);
    let y = coordinate(state);
    let vertex = format!(in alloc; "Vertex {x} {y} 0 65536\n").expect(rt, "memory");
    add(rt, text, vertex.as_bytes());
    state
}

// Adds a client's triangle by chance, and gives the generator's next state.
fn add_triangle(rt: &impl Abort, alloc: Global, text: &mut Vec<u8>, client: u32, from: u32) -> u32 {
    let red = client.saturating_mul(36);
    let green = next(from) >> 24;
    let color = format!(in alloc; "Color {red} {green} 128 160\nBegin 0\n").expect(rt, "memory");
    add(rt, text, color.as_bytes());
    let mut state = from;
    for _ in 0..3 {
        state = add_vertex(rt, alloc, text, state);
    }
    add(rt, text, b"End\n");
    state
}

// Eight clients that blend triangles over one another, and swap twice.
fn racy(rt: &impl Abort, alloc: Global, seed: u32) -> Vec<u8> {
    let mut text = Vec::from_slice(alloc, b"scene 1 16 8\n").expect(rt, "memory");
    let mut state = next(seed);
    for client in 0..8u32 {
        add(rt, &mut text, b"client\nEnable 3\nBlendFunc 6 7\n");
        for _ in 0..2 {
            for _ in 0..3 {
                state = add_triangle(rt, alloc, &mut text, client, state);
            }
            add(rt, &mut text, b"Swap\n");
        }
    }
    text
}

// The row of a picture, from the top, in which row y from the bottom stands.
fn from_top(y: i32) -> usize {
    (HEIGHT as i32 - 1).saturating_sub(y).max(0) as usize
}

// Whether a frame has, inside the rectangle, the pixels of these r, g, b bytes, rows from the top.
fn is_same_inside(frame: &Image, shown: &[u8], rect: Rect) -> bool {
    for y in rect.y0..rect.y1 {
        for x in rect.x0..rect.x1 {
            let at = 3 * (from_top(y) % HEIGHT * WIDTH + x.max(0) as usize % WIDTH);
            if frame.rgb.as_slice().get(at..at + 3) != shown.get(at..at + 3) {
                return false;
            }
        }
    }
    true
}

// Whether the frames have, in the tile's rectangle, what the image shows.
fn is_shown(frames: &[Image], layout: &Layout, tile: u8, image: &[u8]) -> bool {
    let mut same = frames.len() == 2;
    for frame in 0..frames.len() {
        same &= is_same_inside(
            &frames[frame],
            shown_in(image, frame),
            tile_rect(layout, tile),
        );
    }
    same
}

// What the serial renderer draws in the order that the tile recorded; nothing where the journal doesn't permit that order.
fn redrawn(
    alloc: Global,
    scene: &Scene,
    layout: &Layout,
    kept: &Record,
    tile: u8,
) -> Result<Frames, OutOfMemory>
    requires within { IsWithin scene.now }
    requires lawful { IsRecordOf scene.now layout.now kept.now }
{
    scenes_within_limits();
    let order = tile_order(alloc, kept, tile)?;
    let permitted = is_permitted(&order, &kept.journal, &kept.syncs);
    if !permitted {
        return Ok(Frames::new(alloc));
    }
    render_order(alloc, scene, &kept.journal, &order)
}

// Whether the run's image is, in each tile's rectangle, what the serial renderer draws in the order that this tile recorded.
fn is_redrawn(
    alloc: Global,
    scene: &Scene,
    layout: &Layout,
    kept: &Record,
    image: &[u8],
) -> Result<bool, OutOfMemory>
    requires within { IsWithin scene.now }
    requires lawful { IsRecordOf scene.now layout.now kept.now }
{
    let mut same = kept.logs.len() == 32;
    for tile in 0..32u8 {
        let frames = redrawn(alloc, scene, layout, kept, tile)?;
        same &= is_shown(frames.as_slice(), layout, tile, image);
    }
    Ok(same)
}

// Whether a run of the scene, over lanes of this depth, shows what its record tells.
fn is_right<R>(rt: R, alloc: Global, scene: &Scene, depth: u64) -> bool
where
    R: Abort + Threads + Wait + Copy + Send + Sync + Drop,
    requires { IsWithin scene.now }
{
    if scene.decl.width != WIDTH as u16 || scene.decl.height != HEIGHT as u16 {
        return false;
    }
    let Ok(layout) = layout(scene.decl.width, scene.decl.height, 8, 4, depth) else {
        return false;
    };
    let mut image = MemSink::new(alloc, 4096, &[]).expect(&rt, "memory");
    let run = run_threads(
        rt,
        alloc,
        scene,
        &layout,
        depth as usize,
        &OpenGate,
        &mut image,
    )
    .expect(&rt, "memory");
    !run.written.fault
        && run.written.bytes == image.bytes().len() as u64
        && is_redrawn(alloc, scene, &layout, &run.kept, image.bytes()).expect(&rt, "memory")
}

// How many runs of a seed's scene, over lanes of three depths, show what their records tell.
fn right<R>(rt: R, alloc: Global, seed: u32) -> u32
where
    R: Abort + Threads + Wait + Copy + Send + Sync + Drop,
{
    let text = racy(&rt, alloc, seed);
    let bytes = packed(rt, alloc, text.as_slice());
    let scene = read_scene(alloc, bytes.bytes()).expect(&rt, "a scene");
    let mut count: u32 = 0;
    for depth in &[1, 2, 16] {
        if is_right(rt, alloc, &scene, *depth) {
            count = count.saturating_add(1);
        }
    }
    count
}

#[test]
fn each_tile_shows_what_it_recorded(rt: HostRuntime) {
    for seed in 0..10u32 {
        assert!(rt; right(rt, rt.alloc(), seed) == 3);
    }
}
