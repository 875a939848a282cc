//! The stepped cluster by hand: two clients blend over both of two tiles, in the sequence of the picks.
ghost use Rattle.std.specs.Prelude.{◌≡◌, ◌<◌, ℕ, IsTrue, EachIndex, length, slice_index};
ghost use Rattle.rc_base.specs.Formats.Within.{IsWithin};

use crate::orders::permits;
use bounds_bucket::layout;
use order_model::tile_order;
use rc_base::cluster::TilePart;
use rc_base::command::Rgba;
use rc_base::scene::Scene;
use scene_file::{read_scene, write_scene};
use scene_text::parse_scene;
use std::alloc::Global;
use std::process::Abort;
use step_core::{CoreRun, finish, run_schedule};
use test_scenes::BLENDED_AT_ONCE;

// The scene that a text spells.
pub(crate) fn scene_of(rt: &impl Abort, alloc: Global, text: &[u8]) -> Scene
    ensures { IsWithin result }
{
    let told = parse_scene(alloc, text).expect(rt, "a text");
    let bytes = write_scene(alloc, &told).expect(rt, "memory");
    read_scene(alloc, bytes.as_slice()).expect(rt, "a scene")
}

fn are_below(picks: &[u32], count: usize) -> bool
    ensures { IsTrue result → EachIndex picks.now (λ k. slice_index picks.now k < count) }
{
    for pick in picks {
        if *pick as usize >= count {
            return false;
        }
    }
    true
}

// What the picks and rounds to the end leave of the scene, on two tiles beside one another.
fn run_of(rt: &impl Abort, alloc: Global, picks: &[u32]) -> CoreRun {
    let scene = scene_of(rt, alloc, BLENDED_AT_ONCE);
    let cut = layout(scene.decl.width, scene.decl.height, 2, 1, 8).expect(rt, "a layout");
    let tiles = usize::from(cut.columns) * usize::from(cut.rows);
    assert!(rt; are_below(picks, scene.streams.len() + 1 + tiles));
    let world = run_schedule(alloc, &scene, &cut, 8, picks).expect(rt, "memory");
    finish(alloc, world).expect(rt, "memory")
}

// Red, green and blue of the one pixel of a part, as three bytes of a number.
fn color_of(part: &TilePart) -> Option<u32> {
    match part.pixels.as_slice() {
        [pixel] => {
            let Rgba { r, g, b, .. } = pixel.color;
            Some(u32::from(r) * 0x1_0000 + u32::from(g) * 0x100 + u32::from(b))
        }
        _ => None,
    }
}

// Whether the two tiles show these colours, and each in an order that is permitted.
fn shows(rt: &impl Abort, alloc: Global, picks: &[u32], left: u32, right: u32) -> bool {
    let run = run_of(rt, alloc, picks);
    assert!(rt; run.kept.syncs.clients.len() <= 8);
    match run.parts.as_slice() {
        [first, second] => {
            if color_of(first) != Some(left) || color_of(second) != Some(right) {
                return false;
            }
        }
        _ => return false,
    }
    let first = tile_order(alloc, &run.kept, 0).expect(rt, "memory");
    let second = tile_order(alloc, &run.kept, 1).expect(rt, "memory");
    permits(&first, &run.kept.journal, &run.kept.syncs) == Some(true)
        && permits(&second, &run.kept.journal, &run.kept.syncs) == Some(true)
}

#[test]
fn picks_settle_who_blends_first(rt: HostRuntime) {
    assert!(rt; shows(&rt, rt.alloc(), &[0, 3, 1, 1, 4, 0], 0x40_0080, 0x80_0040));
    assert!(rt; shows(&rt, rt.alloc(), &[], 0x40_0080, 0x40_0080));
}

#[test]
fn one_schedule_leaves_one_run(rt: HostRuntime) {
    let picks: [u32; 4] = [0, 3, 1, 4];
    assert!(rt; run_of(&rt, rt.alloc(), &picks) == run_of(&rt, rt.alloc(), &picks));
}
