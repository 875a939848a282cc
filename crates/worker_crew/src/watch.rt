//! A clock of the crew's own, by which a thread finds out what a yield costs.

use std::sync::Wait;
use std::sync::atomic::{AtomicBool, AtomicU64, Ordering};
use std::thread;
use std::thread::Parker;
use std::time::Duration;

// How long a tick is, in microseconds.
const TICK: u64 = 1_000;

// A yield behind which so many ticks more have passed gave a slice of time away.
const LOST: u64 = 2;

// For so many ticks behind such a yield nobody yields.
const CALM: u64 = 64;

/// The ticks that have passed, which a thread of its own counts, and the tick up to which nobody yields.
///
/// Where all processors are idle but for the crew, a yield lets another of its threads go on, or costs next to nothing. Where other work fills them, it
/// costs a whole slice of time: some milliseconds. A thread can't see which, but it can see how much time passed while it was away.
#[derive(Drop)]
pub(crate) struct Watch {
    ticks: AtomicU64,
    calm: AtomicU64,
    over: AtomicBool,
    parker: Parker,
}

impl Watch {
    /// A clock that stands at 0.
    pub(crate) fn new() -> Watch {
        Watch {
            ticks: AtomicU64::new(0),
            calm: AtomicU64::new(0),
            over: AtomicBool::new(false),
            parker: Parker::new(),
        }
    }

    /// Counts ticks until it is stopped.
    pub(crate) fn run<R: Wait + Copy>(&self, rt: R) {
        for _ in rt.forever() {
            if self.over.load(Ordering::SeqCst) {
                break;
            }
            self.parker.park_timeout(&rt, Duration::from_micros(TICK));
            let now = self.ticks.load(Ordering::SeqCst);
            self.ticks.store(now.saturating_add(1), Ordering::SeqCst);
        }
    }

    /// Stops it.
    pub(crate) fn stop(&self) {
        self.over.store(true, Ordering::SeqCst);
        self.parker.unpark();
    }

    /// Gives the processor to another thread, unless that was dear a short while ago. Whether it did.
    pub(crate) fn give_way(&self) -> bool {
        let before = self.ticks.load(Ordering::SeqCst);
        if before < self.calm.load(Ordering::SeqCst) {
            return false;
        }
        thread::yield_now();
        let after = self.ticks.load(Ordering::SeqCst);
        if after.saturating_sub(before) >= LOST {
            self.calm
                .store(after.saturating_add(CALM), Ordering::SeqCst);
        }
        true
    }
}
