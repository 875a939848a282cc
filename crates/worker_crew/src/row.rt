//! Which place is whose.
ghost use Rattle.std.specs.Prelude.{◌≡◌, ◌≢◌, ◌<◌, ◌+◌, ◌^◌};
ghost use Rattle.worker_crew.specs.declared.worker.Peer.{Peer};
ghost use Rattle.worker_crew.specs.declared.worker.Peer.TheVariants as peer;
ghost use Rattle.worker_crew.specs.Places.{IsOf, place_in};

use crate::crowd::Crowd;
use crate::seat::{Awaited, Rung, Seat, Seats, ring};
use crate::watch::Watch;
use crate::worker::Peer;
use crossbeam_utils::CachePadded;
use std::thread;
use std::thread::Threads;

/// The places of a crew, and which is whose.
#[derive(Clone, Copy, Drop)]
pub(crate) struct Row<'s> {
    places: &'s [CachePadded<Seat>],
    crowd: &'s Crowd,
    watch: &'s Watch,
    processors: u64,
    clients: usize,
    caller: usize,
}

// How many processors there are, or one where nobody knows.
fn processors<R: Threads>(rt: &R) -> u64 {
    match thread::available_parallelism(rt) {
        Ok(count) => count.get() as u64,
        Err(_) => 1,
    }
}

impl Seats {
    /// The row of these places, for a crew of so many clients and tiles. Each peer has a place of its own, and the caller's is the last.
    pub(crate) fn row<R: Threads>(&self, rt: &R, clients: usize, tiles: usize) -> Row<'_>
        ensures apart { clients + tiles + 1 < 2 ^ 64 → (p q : Peer) → IsOf clients tiles p → IsOf clients tiles q → place_in result.clients result.caller p ≡ place_in result.clients result.caller q → p ≡ q }
        ensures last { clients + tiles + 1 < 2 ^ 64 → (p : Peer) → IsOf clients tiles p → p ≢ peer.Caller → place_in result.clients result.caller p < result.caller }
    {
        Row {
            places: self.places.as_slice(),
            crowd: &self.crowd,
            watch: &self.watch,
            processors: processors(rt),
            clients,
            caller: clients.saturating_add(tiles).saturating_add(1),
        }
    }
}

impl<'s> Row<'s> {
    /// The row without places.
    pub(crate) fn empty(crowd: &'s Crowd, watch: &'s Watch) -> Row<'s> {
        Row {
            places: &[],
            crowd,
            watch,
            processors: 1,
            clients: 0,
            caller: 0,
        }
    }

    /// The number of a peer's place.
    pub(crate) fn place_of(&self, peer: Peer) -> usize
        ensures { self.now.clients + 257 < 2 ^ 64 → result ≡ place_in self.now.clients self.now.caller peer }
    {
        match peer {
            Peer::Client(client) => client as usize,
            Peer::Manager => self.clients,
            Peer::Tile(tile) => self.clients.saturating_add(1).saturating_add(tile as usize),
            Peer::Caller => self.caller,
        }
    }

    /// The place of this number, if there is one.
    pub(crate) fn seat(&self, place: usize) -> Option<&'s Seat> {
        match self.places.get(place) {
            Some(seat) => Some(seat),
            None => None,
        }
    }

    /// The number of the caller's place.
    pub(crate) fn caller(&self) -> usize
        ensures { result ≡ self.now.caller }
    {
        self.caller
    }

    /// Who of the crew is awake.
    pub(crate) fn crowd(&self) -> &'s Crowd {
        self.crowd
    }

    /// The crew's clock.
    pub(crate) fn watch(&self) -> &'s Watch {
        self.watch
    }

    /// Whether more threads are awake than there are processors.
    pub(crate) fn is_crowded(&self) -> bool {
        self.crowd.is_above(self.processors)
    }

    /// Whether each worker has ended. Then no thread takes a step any more.
    pub(crate) fn all_ended(&self) -> bool {
        let mut all = true;
        for seat in self.places.iter().take(self.caller) {
            all &= seat.has_ended();
        }
        all
    }

    /// Wakes the worker of a place, where it sleeps for the giver's or for anybody.
    pub(crate) fn ring(&self, place: usize, giver: usize) -> Rung
        ensures { result.place ≡ place }
    {
        ring(self.places, place, Awaited::of(giver), self.crowd)
    }

    /// Wakes the caller.
    pub(crate) fn wake_caller(&self) {
        if let Some(seat) = self.places.get(self.caller) {
            seat.wake(self.crowd);
        }
    }

    /// Wakes all that sleep for just the worker of this place.
    pub(crate) fn ring_waiting(&self, place: usize) {
        for seat in self.places {
            seat.ring_just(Awaited::of(place), self.crowd);
        }
    }
}
