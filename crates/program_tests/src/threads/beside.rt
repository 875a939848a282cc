//! Scenes whose streams are read side by side.
use rc_base::out_of_memory::OutOfMemory;
use scene_file::{generate, read_scene, read_scene_beside, write_scene};
use std::alloc::Global;
use std::process::Abort;
use std::thread::Threads;

// The bytes of a scene whose streams are long enough to be read side by side.
fn long_scene(alloc: Global) -> Result<Vec<u8>, OutOfMemory> {
    let scene = generate(alloc, 1, 1024)?;
    let bytes = write_scene(alloc, &scene)?;
    Ok(bytes.into_vec())
}

// Whether so many bytes are a scene, and one thread reads the same scene or the same fault.
fn is_read(rt: &(impl Threads + Sync), alloc: Global, bytes: &[u8]) -> (bool, bool) {
    let scene = read_scene_beside(rt, alloc, bytes);
    (scene.is_ok(), scene == read_scene(alloc, bytes))
}

// What is read of a long scene, and of its first 270,000 bytes.
fn read_twice<R>(rt: &R, alloc: Global) -> ((bool, bool), (bool, bool))
where
    R: Abort + Threads + Sync,
{
    let mut bytes = long_scene(alloc).expect(rt, "memory");
    assert!(rt; 270000 < bytes.len());
    let whole = is_read(rt, alloc, bytes.as_slice());
    bytes.truncate(270000);
    (whole, is_read(rt, alloc, bytes.as_slice()))
}

#[test]
fn long_streams_are_read_side_by_side(rt: HostRuntime) {
    assert!(rt; read_twice(&rt, rt.alloc()) == ((true, true), (false, true)));
}
