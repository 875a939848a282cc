//! Runs of `render` on ends in memory.
use crate::runs::words;
use rc_base::gate::{Gate, OpenGate};
use rc_base::in_memory::{MemSink, MemSource};
use rc_base::outside::Sink;
use render_core::{Finish, run};
use std::alloc::Global;
use std::process::Abort;
use std::sync::Wait;
use std::thread::Threads;

fn source(rt: &impl Abort, alloc: Global, input: &[u8]) -> MemSource {
    MemSource::new(alloc, input, 4096, &[]).expect(rt, "memory")
}

fn sink(rt: &impl Abort, alloc: Global) -> MemSink {
    MemSink::new(alloc, 4096, &[]).expect(rt, "memory")
}

/// What a run leaves.
#[derive(Drop)]
pub(super) struct Left {
    pub(super) finish: Finish,
    pub(super) image: MemSink,
}

/// What the job of the words leaves of a scene's bytes. The contract says nothing, so that a test is proved without that of `run`.
pub(super) fn left_by<G: Gate, R>(
    rt: R,
    alloc: Global,
    job: &[&str],
    bytes: &[u8],
    gate: &G,
) -> Left
where
    R: Abort + Threads + Wait + Copy + Send + Sync + Drop,
{
    let mut image = sink(&rt, alloc);
    let finish = finish_on(rt, alloc, job, bytes, &mut image, gate);
    Left { finish, image }
}

/// How the job of the words ends with a scene's bytes and this image.
pub(super) fn finish_on<G: Gate, K: Sink, R>(
    rt: R,
    alloc: Global,
    job: &[&str],
    bytes: &[u8],
    image: &mut K,
    gate: &G,
) -> Finish
where
    R: Abort + Threads + Wait + Copy + Send + Sync + Drop,
{
    let words = words(&rt, alloc, job);
    let mut from = source(&rt, alloc, bytes);
    let mut notes = sink(&rt, alloc);
    run(
        rt,
        alloc,
        words.as_slice(),
        &mut from,
        image,
        &mut notes,
        gate,
    )
}

/// The bytes of the scene of a text.
pub(super) fn packed<R>(rt: R, alloc: Global, text: &[u8]) -> MemSink
where
    R: Abort + Threads + Wait + Copy + Send + Sync + Drop,
{
    left_by(rt, alloc, &["pack"], text, &OpenGate).image
}
