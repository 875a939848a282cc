//! Runs on sources and sinks in memory.
mod alone;
mod ends;
mod faults;
mod generated;
mod hostile;
mod lists;
mod ordered;
mod seeds;
mod turns;

ghost use Rattle.std.specs.Prelude.{◌<◌};

use rc_base::gate::{Gate, OpenGate};
use rc_base::in_memory::{MemSink, MemSource};
use rc_base::outside::{Sink, Source};
use rc_base::transfer::read_all;
use render_core::{Finish, run};
use std::alloc::Global;
use std::process::Abort;
use std::sync::Wait;
use std::thread::Threads;

// What a test's runtime can do: a run may start threads and wait for them.
pub(super) trait Host: Abort + Threads + Wait + Copy + Send + Sync + Drop {}

impl<R: Abort + Threads + Wait + Copy + Send + Sync + Drop> Host for R {}

// What a run leaves: its status, whether it keeps a record, and the ends that it was given.
#[derive(Drop)]
struct Left {
    status: u8,
    has_record: bool,
    source: MemSource,
    image: MemSink,
    notes: MemSink,
}

impl Left {
    // The status is this, and image and notes hold these bytes.
    fn is(&self, status: u8, image: &[u8], notes: &[u8]) -> bool {
        self.status == status && self.image.bytes() == image && self.notes.bytes() == notes
    }
}

pub(super) fn words(rt: &impl Host, alloc: Global, words: &[&str]) -> Vec<String> {
    let mut all = Vec::new(alloc);
    for word in words {
        let word = String::from_str(alloc, *word).expect(rt, "memory");
        all.push(word).expect(rt, "memory");
    }
    all
}

// How a run on these ends, which passes this gate, is finished. Its contract says nothing, so that a test is proved without that of `run`.
fn finish_by<S: Source, K: Sink, N: Sink, G: Gate>(
    rt: &impl Host,
    alloc: Global,
    job: &[&str],
    source: &mut S,
    image: &mut K,
    notes: &mut N,
    gate: &G,
) -> Finish {
    let words = words(rt, alloc, job);
    run(*rt, alloc, words.as_slice(), source, image, notes, gate)
}

// How a run on these ends is finished.
fn finish_on<S: Source, K: Sink, N: Sink>(
    rt: &impl Host,
    alloc: Global,
    job: &[&str],
    source: &mut S,
    image: &mut K,
    notes: &mut N,
) -> Finish {
    finish_by(rt, alloc, job, source, image, notes, &OpenGate)
}

// A sink that takes at most so many bytes at once, and whose puts of these numbers fail.
fn sink(rt: &impl Host, alloc: Global, step: usize, fails: &[u64]) -> MemSink
    requires { 0 < step }
{
    MemSink::new(alloc, step, fails).expect(rt, "memory")
}

// A source of these bytes whose takes of these numbers fail.
fn source_of(rt: &impl Host, alloc: Global, input: &[u8], fails: &[u64]) -> MemSource {
    MemSource::new(alloc, input, 7, fails).expect(rt, "memory")
}

// A source and two sinks before a run.
fn ends_of(source: MemSource, image: MemSink, notes: MemSink) -> Left {
    Left {
        status: 0,
        has_record: false,
        source,
        image,
        notes,
    }
}

// What a run on these ends leaves.
fn left_on(rt: &impl Host, alloc: Global, job: &[&str], ends: Left) -> Left {
    let mut left = ends;
    let finish = finish_on(
        rt,
        alloc,
        job,
        &mut left.source,
        &mut left.image,
        &mut left.notes,
    );
    left.status = finish.status;
    left.has_record = finish.kept.is_some();
    left
}

// Ends that don't fail, before a run on these bytes.
fn whole_ends(rt: &impl Host, alloc: Global, input: &[u8]) -> Left {
    ends_of(
        source_of(rt, alloc, input, &[]),
        sink(rt, alloc, 4, &[]),
        sink(rt, alloc, 64, &[]),
    )
}

// Whether these bytes are what the source has left.
fn has_left<S: Source>(alloc: Global, source: &mut S, rest: &[u8]) -> bool {
    match read_all(alloc, source) {
        Ok(bytes) => bytes.as_slice() == rest,
        Err(_) => false,
    }
}

// What a run leaves where no end fails.
fn run_on(rt: &impl Host, alloc: Global, job: &[&str], input: &[u8]) -> Left {
    left_on(rt, alloc, job, whole_ends(rt, alloc, input))
}

// What a job leaves of the scene of a text.
fn run_text(rt: &impl Host, alloc: Global, job: &[&str], text: &[u8]) -> Left {
    let scene = run_on(rt, alloc, &["pack"], text);
    run_on(rt, alloc, job, scene.image.bytes())
}
