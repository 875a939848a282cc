//! Frames that go out while later ones are still drawn.

use super::rendering::{finish_on, packed};
use rc_base::gate::{Actor, Gate, OpenGate};
use rc_base::in_memory::MemSink;
use rc_base::outside::{Failed, Sink};
use std::alloc::Global;
use std::process::Abort;
use std::sync::Wait;
use std::sync::atomic::{AtomicBool, Ordering};
use std::thread;
use std::thread::Threads;

// One client, and two frames.
const TWO_FRAMES: &[u8] = b"scene 1 1 1
client
ClearColor 255 0 0 255
Clear 1
Swap
Clear 1
Swap
";

// One client, and three frames.
const THREE_FRAMES: &[u8] = b"scene 1 2 2
client
ClearColor 255 0 0 255
Clear 1
Swap
Clear 1
Swap
Clear 1
Swap
";

// How often a gate looks before it gives up.
const PATIENCE: u32 = 10_000_000;

// The client's turns before that of its last Swap: a Clear, a Swap and its request, and a Clear.
const BEFORE_LAST: u64 = 4;

// A sink that tells of its first put, and counts its puts.
#[derive(Drop)]
struct Telling<'a> {
    sink: MemSink,
    is_given: &'a AtomicBool,
    puts: u64,
}

impl<'a> Sink for Telling<'a> {
    ghost use Rattle.std.specs.Prelude.{Some};

    ghost held = { λ s. Some s.sink.held };

    ghost faults = { λ s. s.sink.faults };

    fn put(&mut self, piece: &[u8]) -> Result<usize, Failed> {
        self.is_given.store(true, Ordering::SeqCst);
        self.puts = self.puts.saturating_add(1);
        self.sink.put(piece)
    }
}

// Holds the client before its last Swap until the image was given something.
#[derive(Drop)]
struct HoldsLast<'a> {
    is_given: &'a AtomicBool,
    gave_up: AtomicBool,
}

impl<'a> Gate for HoldsLast<'a> {
    fn pass(&self, who: Actor, turn: u64) {
        if who != Actor::Client(0) || turn != BEFORE_LAST {
            return;
        }
        for _ in 0..PATIENCE {
            if self.is_given.load(Ordering::SeqCst) {
                return;
            }
            thread::yield_now();
        }
        self.gave_up.store(true, Ordering::SeqCst);
    }
}

// Whether the first frame is out before the last Swap is issued, and each is offered whole.
fn is_out_early<R>(rt: R, alloc: Global) -> bool
where
    R: Abort + Threads + Wait + Copy + Send + Sync + Drop,
{
    let scene = packed(rt, alloc, TWO_FRAMES);
    let is_given = AtomicBool::new(false);
    let gate = HoldsLast {
        is_given: &is_given,
        gave_up: AtomicBool::new(false),
    };
    let mut image = Telling {
        sink: MemSink::new(alloc, 4096, &[]).expect(&rt, "memory"),
        is_given: &is_given,
        puts: 0,
    };
    let finish = finish_on(
        rt,
        alloc,
        &["render", "--depth", "1"],
        scene.bytes(),
        &mut image,
        &gate,
    );
    finish.status == 0
        && !gate.gave_up.load(Ordering::SeqCst)
        && image.puts == 2
        && image.sink.bytes() == b"P6\n1 1\n255\n\xff\x00\x00P6\n1 1\n255\n\xff\x00\x00".as_slice()
}

#[test]
fn a_frame_is_out_before_the_last_command_is_issued(rt: HostRuntime) {
    assert!(rt; is_out_early(rt, rt.alloc()));
}

// Whether a run is whole whose image fails at its third put.
fn runs_on<R>(rt: R, alloc: Global) -> bool
where
    R: Abort + Threads + Wait + Copy + Send + Sync + Drop,
{
    let scene = packed(rt, alloc, THREE_FRAMES);
    let mut image = MemSink::new(alloc, 4, &[3]).expect(&rt, "memory");
    let finish = finish_on(
        rt,
        alloc,
        &["render", "--depth", "1"],
        scene.bytes(),
        &mut image,
        &OpenGate,
    );
    let entries = match &finish.kept {
        Some(kept) => kept.journal.len(),
        None => 0,
    };
    finish.status == 6 && image.bytes().len() == 8 && entries == 3
}

#[test]
fn the_cluster_runs_on_where_the_image_fails(rt: HostRuntime) {
    assert!(rt; runs_on(rt, rt.alloc()));
}
