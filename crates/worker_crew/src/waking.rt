//! How a thread waits, and whom it wakes.
//!
//! No wake-up is lost. Who is about to sleep says so at its place, and then tries its step once more; who gave something, an item or room for one,
//! looks at the place of its peer behind that. All of it is in one order, so either the giver finds the peer asleep, or the peer's second try finds what
//! was given. A giver may look later, when it has given some more; it looks before it waits itself, before it ends, and after some steps in any case.
ghost use Rattle.std.specs.Prelude.{◌<◌, ◌+◌, ◌^◌};
ghost use Rattle.worker_crew.specs.Owing.{IsNothing, IsGift, IsSettled};
ghost use Rattle.worker_crew.specs.Places.{place_in};

use crate::owed::{Owed, PLACES};
use crate::patience::Patience;
use crate::row::Row;
use crate::seat::{Awaited, Seat, nap};
use crate::task::Turned;
use crate::waits::Next;
use crate::worker::{Peer, Worker};
use rc_base::gate::Actor;
use std::sync::Wait;

// After so many moved steps all to whom something was given are rung.
const ROUND: u64 = 32;

/// A thread's place, whom it has to wake, and how it waits.
#[derive(Drop)]
pub(crate) struct Waking<'s> {
    row: Row<'s>,
    own: usize,
    acting: usize,
    owed: Owed,
    moved: u64,
    patience: Patience,
}

// Does a part of what is left for a worker to do that nobody waits for, where nobody is owed a ring. Whether there was one.
fn spare_of<W: Worker>(worker: &mut W, owed: &Owed) -> bool
    requires { IsNothing owed.now.given }
    ensures { W.leads worker.old worker.new }
{
    let _owed = owed;
    worker.spare()
}

impl<'s> Waking<'s> {
    /// The thread whose place has this number.
    pub(crate) fn new(row: Row<'s>, own: usize) -> Waking<'s>
        ensures { IsNothing result.owed.given }
    {
        Waking {
            row,
            own,
            acting: own,
            owed: Owed::new(),
            moved: 0,
            patience: Patience::new(),
        }
    }

    /// From here on what is given is given by this actor.
    pub(crate) fn act_as(&mut self, actor: Actor) {
        let peer = match actor {
            Actor::Client(client) => Peer::Client(client),
            Actor::Manager => Peer::Manager,
            Actor::Tile(tile) => Peer::Tile(tile),
        };
        self.acting = self.row.place_of(peer);
    }

    // Wakes the worker of a place, where it sleeps for who acts, or for anybody.
    fn ring(&mut self, place: usize)
        ensures { IsSettled place self.old.owed.given self.new.owed.given }
    {
        let rung = self.row.ring(place, self.acting);
        self.owed.settle(rung);
    }

    /// Something was given to a peer: it is counted, or the peer is rung.
    pub(crate) fn gave(&mut self, peer: Peer)
        ensures { self.old.row.clients + 257 < 2 ^ 64 → IsGift (place_in self.old.row.clients self.old.row.caller peer) self.old.owed.given self.new.owed.given }
    {
        let place = self.row.place_of(peer);
        self.gave_at(place);
    }

    // Something was given to the worker of a place.
    fn gave_at(&mut self, place: usize)
        ensures { IsGift place self.old.owed.given self.new.owed.given }
    {
        if self.owed.count(place) {
            self.ring(place);
        }
    }

    /// Rings all to whom something was given since they were last rung.
    pub(crate) fn settle(&mut self)
        ensures { IsNothing self.new.owed.given }
    {
        self.moved = 0;
        if self.owed.is_any() {
            for place in 0..PLACES {
                if self.owed.is_owed(place) {
                    self.ring(place);
                }
            }
            self.owed.close();
        }
    }

    /// Something was given to peers that aren't told: all are rung.
    pub(crate) fn gave_any(&mut self)
        ensures { IsNothing self.new.owed.given }
    {
        for place in 0..PLACES {
            self.ring(place);
        }
        self.owed.close();
    }

    /// Wakes all that sleep for just this thread.
    pub(crate) fn ring_waiting(&self) {
        self.row.ring_waiting(self.own);
    }

    // Waits at its place: it looks out for what the worker waits for, as often as that was of use, and then sleeps until it is woken.
    fn wait_at<W: Worker, R: Wait>(&mut self, rt: &R, seat: &Seat, on: Option<Peer>, worker: &W)
        requires { IsNothing self.old.owed.given }
    {
        let whom = match on {
            Some(peer) => Awaited::of(self.row.place_of(peer)),
            None => Awaited::anybody(),
        };
        match self.patience.next_for(&self.row, whom) {
            Next::Look(looks) => {
                let _found = self.patience.look(&self.row, worker, on, looks);
            }
            Next::Yield => self.patience.give_way(&self.row, seat, whom),
            Next::Announce => self.patience.announce(&self.row, seat, whom),
            Next::Sleep => self.patience.sleep(rt, &self.row, seat, &self.owed),
        }
    }

    /// Goes on behind a turn that moved something.
    pub(crate) fn go_on(&mut self) {
        self.patience.stay_awake(&self.row, self.own);
        self.moved = self.moved.saturating_add(1);
        if self.moved >= ROUND {
            self.settle();
        }
    }

    /// Rings all to whom something was given, and does a part of what is left for the worker to do that nobody waits for. Whether there was one.
    pub(crate) fn spare<W: Worker>(&mut self, worker: &mut W) -> bool
        ensures leads { W.leads worker.old worker.new }
        ensures owed { IsNothing self.new.owed.given }
    {
        self.settle();
        spare_of(worker, &self.owed)
    }

    /// Goes on behind a turn that moved something. Behind another it rings all to whom something was given, does a part of what nobody waits for, and where
    /// there is none it waits.
    pub(crate) fn after<W: Worker, R: Wait>(&mut self, rt: &R, turned: Turned, worker: &mut W)
        ensures { W.leads worker.old worker.new }
    {
        if turned.moved {
            self.go_on();
        } else if !self.spare(worker) {
            self.wait(rt, turned.on, worker);
        }
    }

    // Waits at its place, or a moment where it has none.
    fn wait<W: Worker, R: Wait>(&mut self, rt: &R, on: Option<Peer>, worker: &W)
        requires { IsNothing self.old.owed.given }
    {
        match self.row.seat(self.own) {
            Some(seat) => self.wait_at(rt, seat, on, worker),
            None => nap(rt, &self.owed),
        }
    }

    /// Waits behind a turn of the caller's that moved nothing, until it is woken.
    pub(crate) fn rest<R: Wait>(&mut self, rt: &R) {
        self.settle();
        match self.row.seat(self.own) {
            Some(seat) => self.patience.rest(rt, &self.row, seat, &self.owed),
            None => nap(rt, &self.owed),
        }
    }

    /// Waits a moment behind a turn of the caller's that moved nothing while workers are left to it.
    pub(crate) fn nap<R: Wait>(&mut self, rt: &R) {
        self.settle();
        nap(rt, &self.owed);
    }

    /// The worker has ended, and nobody is owed anything.
    pub(crate) fn leave(&mut self, seat: &Seat) {
        self.settle();
        seat.leave(&self.owed);
    }
}
