//! The places of a crew's workers: whether each has ended, for whom it sleeps, and where.
ghost use Rattle.std.specs.Prelude.{◌≡◌, ◌≢◌, ◌<◌, ◌+◌, ◌^◌};
ghost use Rattle.worker_crew.specs.Owing.{IsNothing};

use crate::crowd::Crowd;
use crate::owed::Owed;
use crate::watch::Watch;
use crossbeam_utils::CachePadded;
use rc_base::out_of_memory::OutOfMemory;
use std::alloc::Global;
use std::sync::Wait;
use std::sync::atomic::{AtomicBool, AtomicU64, Ordering};
use std::thread::Parker;
use std::time::Duration;

// Nobody is waited for: the worker is awake.
const AWAKE: u64 = 0;

// Anybody is waited for.
const ANYBODY: u64 = 1;

// How long a sleep lasts at most, in microseconds: what was given within a step that takes long is found by then.
const SLEEP: u64 = 20_000;

// How long a thread without a place naps, in microseconds.
const NAP: u64 = 50;

/// Whom a sleeper waits for, as one number: 0 nobody, 1 anybody, and n + 2 the worker of place n.
#[derive(Clone, Copy, Debug, PartialEq, Eq)]
pub(crate) struct Awaited(u64);

impl Awaited {
    /// The sleeper is awake.
    pub(crate) fn nobody() -> Awaited {
        Awaited(AWAKE)
    }

    /// Whoever gives something.
    pub(crate) fn anybody() -> Awaited {
        Awaited(ANYBODY)
    }

    /// The worker of this place alone.
    pub(crate) fn of(place: usize) -> Awaited {
        Awaited((place as u64).saturating_add(2))
    }
}

/// That the worker of a place was rung: what it was given is no longer owed to it. Only `ring` makes one.
#[derive(Drop)]
pub(crate) struct Rung {
    place: usize,
}

impl Rung {
    /// Whose place it is.
    pub(crate) fn place(&self) -> usize
        ensures { result ≡ self.now.place }
    {
        self.place
    }
}

/// A worker's place.
#[derive(Drop)]
pub(crate) struct Seat {
    ended: AtomicBool,
    waits: AtomicU64,
    parker: Parker,
}

impl Seat {
    /// The place of a worker that is awake.
    fn new() -> Seat {
        Seat {
            ended: AtomicBool::new(false),
            waits: AtomicU64::new(AWAKE),
            parker: Parker::new(),
        }
    }

    /// Whether its worker has ended, or is held back.
    pub(crate) fn has_ended(&self) -> bool {
        self.ended.load(Ordering::SeqCst)
    }

    /// No thread steps its worker.
    pub(crate) fn end(&self) {
        self.ended.store(true, Ordering::SeqCst);
    }

    /// Its worker has ended, and owes no ring.
    pub(crate) fn leave(&self, owed: &Owed)
        requires { IsNothing owed.now.given }
    {
        let _owed = owed;
        self.end();
    }

    /// Its worker says that it is about to sleep for whom this says, or stays awake, where it said this before. If it says so no longer, somebody woke it
    /// meanwhile, and counted it.
    pub(crate) fn announce(&self, before: Awaited, whom: Awaited, crowd: &Crowd) {
        if self.waits.swap(whom.0, Ordering::SeqCst) != before.0 {
            crowd.rests();
        }
    }

    /// Sleeps until it is woken, for some milliseconds at most. Nobody sleeps who owes a ring.
    pub(crate) fn sleep<R: Wait>(&self, rt: &R, crowd: &Crowd, owed: &Owed)
        requires { IsNothing owed.now.given }
    {
        let _owed = owed;
        crowd.rests();
        self.parker.park_timeout(rt, Duration::from_micros(SLEEP));
        if self.waits.swap(AWAKE, Ordering::SeqCst) != AWAKE {
            crowd.wakes();
        }
    }

    /// Wakes its worker, where that sleeps.
    pub(crate) fn wake(&self, crowd: &Crowd) {
        if self.waits.swap(AWAKE, Ordering::SeqCst) != AWAKE {
            crowd.wakes();
            self.parker.unpark();
        }
    }

    /// Wakes its worker, where that sleeps for the giver or for anybody.
    fn ring(&self, giver: Awaited, crowd: &Crowd) {
        let waits = self.waits.load(Ordering::SeqCst);
        if waits == ANYBODY || waits == giver.0 {
            self.wake(crowd);
        }
    }

    /// Wakes its worker, where that sleeps for just the giver.
    pub(crate) fn ring_just(&self, giver: Awaited, crowd: &Crowd) {
        if self.waits.load(Ordering::SeqCst) == giver.0 {
            self.wake(crowd);
        }
    }
}

/// Wakes the worker of a place, where there is one and it sleeps for the giver or for anybody.
pub(crate) fn ring(
    places: &[CachePadded<Seat>],
    place: usize,
    giver: Awaited,
    crowd: &Crowd,
) -> Rung
    ensures { result.place ≡ place }
{
    if let Some(seat) = places.get(place) {
        seat.ring(giver, crowd);
    }
    Rung { place }
}

/// Naps a moment, where a thread has no place to be woken at. Nobody naps who owes a ring.
pub(crate) fn nap<R: Wait>(rt: &R, owed: &Owed)
    requires { IsNothing owed.now.given }
{
    let _owed = owed;
    Parker::new().park_timeout(rt, Duration::from_micros(NAP));
}

/// The places of a crew: the clients first, then the manager, then the tiles, then the caller. A worker without a place is stepped by the caller.
#[derive(Drop)]
pub struct Seats {
    pub(crate) places: Vec<CachePadded<Seat>>,
    pub(crate) crowd: CachePadded<Crowd>,
    pub(crate) watch: CachePadded<Watch>,
}

impl Seats {
    /// So many places, whose workers are awake.
    pub fn new(alloc: Global, count: usize) -> Result<Seats, OutOfMemory> {
        let mut places = Vec::new(alloc);
        for _ in 0..count {
            places.push(CachePadded::new(Seat::new()))?;
        }
        Ok(Seats {
            places,
            crowd: CachePadded::new(Crowd::new()),
            watch: CachePadded::new(Watch::new()),
        })
    }

    /// The worker of this place is held back: it comes back unstepped, and the caller steps it once all other threads have ended. So this is for a worker for
    /// which no other one waits, and is called before the crew runs.
    pub fn hold_back(&self, place: usize) {
        if let Some(seat) = self.places.get(place) {
            seat.end();
        }
    }
}
