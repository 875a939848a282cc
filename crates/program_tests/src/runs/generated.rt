//! Scenes that are made of a seed.
use super::{Host, ends_of, left_on, run_on, sink, source_of};
use rc_base::command::Command;
use rc_base::in_memory::MemSink;
use rc_base::scene::Scene;
use scene_file::{generate, next_state};
use std::alloc::Global;

// The red of the first colour that the first client sets.
fn first_red(scene: &Scene) -> Option<u8> {
    for command in scene.streams.as_slice().first()?.as_slice() {
        if let Command::Color(color) = command {
            return Some(color.r);
        }
    }
    None
}

// The numbers of seed 7, by another program.
#[test]
fn seed_7_begins_with_red_40(rt: HostRuntime) {
    let first = next_state(7);
    assert!(rt; first == 9_098_160_460_397_411_210);
    assert!(rt; first >> 40 == 8_274_728);
    let scene = generate(rt.alloc(), 7, 1).expect(&rt, "memory");
    assert!(rt; first_red(&scene) == Some(40));
}

// Whether a job is done and leaves this image and these notes.
fn makes(
    rt: &impl Host,
    alloc: Global,
    job: &[&str],
    input: &[u8],
    image: &[u8],
    notes: &[u8],
) -> bool {
    run_on(rt, alloc, job, input).is(0, image, notes)
}

// Whether the scene of these bytes is drawn by each job: one image, and one report of the two clusters.
fn has_one_image(rt: &impl Host, alloc: Global, bytes: &[u8]) -> bool {
    let render = run_on(rt, alloc, &["render", "--tiles", "8x4"], bytes);
    let image = render.image.bytes();
    let stepped = ["simulate", "--seed", "3", "--tiles", "8x4"];
    render.status == 0
        && image.len() == 196_623
        && makes(
            rt,
            alloc,
            &["serial"],
            bytes,
            image,
            b"journal 201\nframes 1\n",
        )
        && makes(rt, alloc, &stepped, bytes, image, render.notes.bytes())
}

// The bytes of the scene of a seed. The source isn't asked: it would fail at its first take.
fn made(rt: &impl Host, alloc: Global, seed: &str, size: &str) -> MemSink {
    let job = ["gen", "--seed", seed, "--size", size];
    let ends = ends_of(
        source_of(rt, alloc, b"RCS1", &[1]),
        sink(rt, alloc, 64, &[]),
        sink(rt, alloc, 64, &[]),
    );
    left_on(rt, alloc, &job, ends).image
}

#[test]
fn a_generated_scene_has_one_image(rt: HostRuntime) {
    let scene = made(&rt, rt.alloc(), "7", "200");
    assert!(rt; has_one_image(&rt, rt.alloc(), scene.bytes()));
}

// Whether a scene's text is read again as that scene.
fn is_read_again(rt: &impl Host, alloc: Global, bytes: &[u8]) -> bool {
    let text = run_on(rt, alloc, &["unpack"], bytes);
    text.status == 0 && makes(rt, alloc, &["pack"], text.image.bytes(), bytes, b"")
}

#[test]
fn a_generated_scene_is_read_again(rt: HostRuntime) {
    let scene = made(&rt, rt.alloc(), "1", "3");
    assert!(rt; is_read_again(&rt, rt.alloc(), scene.bytes()));
}

// How many lines begin so.
fn lines_of(notes: &[u8], word: &[u8]) -> usize {
    let mut count: usize = 0;
    for i in 0..notes.len() {
        if (i == 0 || notes[i - 1] == b'\n') && notes[i..].starts_with(word) {
            count = count.saturating_add(1);
        }
    }
    count
}

const DEMO: [&str; 9] = [
    "demo", "--seed", "7", "--size", "1024", "--tiles", "4x4", "--depth", "8",
];

// A thousand rounds on sixteen tiles: each client, the manager and each tile is a thread, and each run shows and tells the same, as does `serial`.
fn is_the_same(rt: &impl Host, alloc: Global, scene: &[u8]) -> bool {
    let first = run_on(rt, alloc, &DEMO[..7], b"");
    let image = first.image.bytes();
    let notes = first.notes.bytes();
    let narrow = [
        "demo", "--seed", "7", "--size", "1024", "--tiles", "4x4", "--depth", "1",
    ];
    first.status == 0
        && notes.ends_with(b"journal 1025\nframes 1\n")
        && lines_of(notes, b"tile ") == 16
        && lines_of(notes, b"") == 18
        && makes(rt, alloc, &DEMO, b"", image, notes)
        && makes(rt, alloc, &narrow, b"", image, notes)
        && makes(
            rt,
            alloc,
            &["serial"],
            scene,
            image,
            b"journal 1025\nframes 1\n",
        )
}

#[test]
fn a_demo_is_the_same_at_each_run(rt: HostRuntime) {
    let scene = made(&rt, rt.alloc(), "7", "1024");
    assert!(rt; is_the_same(&rt, rt.alloc(), scene.bytes()));
}
