//! Scenes whose commands are kept in less room.
ghost use Rattle.std.specs.Prelude.{◌≤◌};

use command_store::{CommandStore, StoredScene};
use rc_base::command::{Command, Commands};
use rc_base::scene::Scene;
use scene_file::{generate, read_scene, read_stored_scene, read_stored_scene_beside, write_scene};
use std::alloc::Global;
use std::process::Abort;
use std::thread::Threads;
use test_scenes::RED_CLEAR;

/// Whether these commands are stored.
fn holds(store: &CommandStore, commands: &[Command]) -> bool {
    if store.len() != commands.len() {
        return false;
    }
    for place in 0..store.len() {
        let stored = store.at(place);
        let command: &Command = &stored;
        if *command != commands[place] {
            return false;
        }
    }
    true
}

fn hold_all(stores: &[CommandStore], streams: &[Commands]) -> bool {
    if stores.len() != streams.len() {
        return false;
    }
    for client in 0..stores.len() {
        if !holds(&stores[client], streams[client].as_slice()) {
            return false;
        }
    }
    true
}

/// Whether this scene is stored.
fn is_stored(stored: &StoredScene, scene: &Scene) -> bool {
    *stored.decl() == scene.decl && hold_all(stored.streams(), scene.streams.as_slice())
}

/// Whether the scene that the bytes spell is stored where it is read so.
fn is_read_so(rt: &impl Abort, alloc: Global, bytes: &[u8]) -> bool {
    let stored = read_stored_scene(alloc, bytes).expect(rt, "a scene");
    let scene = read_scene(alloc, bytes).expect(rt, "a scene");
    is_stored(&stored, &scene)
}

/// The same of streams that are long enough to be read side by side.
fn is_read_beside<R>(rt: &R, alloc: Global, bytes: &[u8]) -> bool
where
    R: Abort + Threads + Sync,
{
    assert!(rt; 262144 < bytes.len());
    let stored = read_stored_scene_beside(rt, alloc, bytes).expect(rt, "a scene");
    let scene = read_scene(alloc, bytes).expect(rt, "a scene");
    is_stored(&stored, &scene)
}

/// The bytes of a scene with commands of blocks and others, of so many rounds.
fn of_blocks(rt: &impl Abort, alloc: Global, size: u32) -> Vec<u8>
    requires least { 1 ≤ size }
    requires most { size ≤ 4096 }
{
    let scene = generate(alloc, 1, size).expect(rt, "memory");
    write_scene(alloc, &scene).expect(rt, "memory").into_vec()
}

#[test]
fn scenes_are_stored_as_they_are_read(rt: HostRuntime) {
    let bytes = of_blocks(&rt, rt.alloc(), 2);
    assert!(rt; is_read_so(&rt, rt.alloc(), &RED_CLEAR));
    assert!(rt; is_read_so(&rt, rt.alloc(), bytes.as_slice()));
}

#[test]
fn long_streams_are_stored_side_by_side(rt: HostRuntime) {
    let bytes = of_blocks(&rt, rt.alloc(), 1024);
    assert!(rt; is_read_beside(&rt, rt.alloc(), bytes.as_slice()));
}
