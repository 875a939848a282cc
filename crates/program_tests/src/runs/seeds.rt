//! Records of runs on many schedules: the orders that they tell.
ghost use Rattle.rc_base.specs.Formats.Within.{IsWithin};

use super::{Host, finish_on, run_on, run_text, whole_ends};
use order_model::record::Record;
use order_model::{is_permitted, tile_order};
use rc_base::out_of_memory::OutOfMemory;
use rc_base::scene::Scene;
use scene_file::read_scene;
use serial_render::sync_lists;
use std::alloc::Global;
use test_scenes::{BLENDED_AT_ONCE, BLENDED_IN_TURN};

// Whether the journal permits the order that each of the record's two tiles tells.
fn permits(alloc: Global, scene: &Scene, kept: &Record) -> Result<bool, OutOfMemory>
    requires { IsWithin scene.now }
{
    let lists = sync_lists(alloc, scene)?;
    if kept.syncs.clients.len() > 8 || kept.logs.len() != 2 {
        return Ok(false);
    }
    for tile in 0..kept.logs.len() {
        let order = tile_order(alloc, kept, tile as u8)?;
        if !is_permitted(&order, &kept.journal, &lists) {
            return Ok(false);
        }
    }
    Ok(kept.syncs == lists)
}

// What a seed's run of a scene's bytes keeps, on two tiles with lanes of one item.
fn kept_by(rt: &impl Host, alloc: Global, bytes: &[u8], seed: u32) -> Option<Record> {
    let seed = format!(in alloc; "{seed}").expect(rt, "memory");
    let job = [
        "simulate",
        "--depth",
        "1",
        "--seed",
        seed.as_str(),
        "--tiles",
        "2x1",
    ];
    let mut left = whole_ends(rt, alloc, bytes);
    finish_on(
        rt,
        alloc,
        &job,
        &mut left.source,
        &mut left.image,
        &mut left.notes,
    )
    .kept
}

// Whether the record of a seed's run tells orders that its journal permits.
fn keeps_orders(rt: &impl Host, alloc: Global, bytes: &[u8], seed: u32) -> bool {
    if bytes.len() > 1000 {
        return false;
    }
    let scene = read_scene(alloc, bytes).expect(rt, "a scene");
    match &kept_by(rt, alloc, bytes, seed) {
        Some(kept) => permits(alloc, &scene, kept).expect(rt, "memory"),
        None => false,
    }
}

// How many of twenty seeds keep orders that are permitted.
fn permitted(rt: &impl Host, alloc: Global) -> u32 {
    let scene = run_on(rt, alloc, &["pack"], BLENDED_IN_TURN);
    let mut count: u32 = 0;
    for seed in 0..20u32 {
        if keeps_orders(rt, alloc, scene.image.bytes(), seed) {
            count = count.saturating_add(1);
        }
    }
    count
}

#[test]
fn recorded_orders_are_permitted(rt: HostRuntime) {
    assert!(rt; permitted(&rt, rt.alloc()) == 20);
}

// How often a text stands in another one.
fn times(text: &[u8], part: &[u8]) -> usize {
    let mut count: usize = 0;
    for i in 0..text.len() {
        if text[i..].starts_with(part) {
            count = count.saturating_add(1);
        }
    }
    count
}

// The status of a run that tells orders, and how often it tells one of each tile.
fn orders_told(rt: &impl Host, alloc: Global) -> (u8, usize, usize) {
    let job = ["simulate", "--seed", "0", "--tiles", "2x1", "--order"];
    let left = run_text(rt, alloc, &job, BLENDED_AT_ONCE);
    let notes = left.notes.bytes();
    (
        left.status,
        times(notes, b"order 0 "),
        times(notes, b"order 1 "),
    )
}

#[test]
fn each_tile_tells_its_order(rt: HostRuntime) {
    assert!(rt; orders_told(&rt, rt.alloc()) == (0, 18, 18));
}
