//! How long a thread looks out for what it waits for, and when it sleeps.
ghost use Rattle.worker_crew.specs.Owing.{IsNothing};

use crate::owed::Owed;
use crate::row::Row;
use crate::seat::{Awaited, Seat};
use crate::waits::{Budget, Next, next_for};
use crate::worker::{Peer, Worker};
use std::hint;
use std::sync::Wait;

// Behind a turn that moved something it gives its processor away so often at most before it sleeps.
const YIELDS: u32 = 8;

/// How often a thread may still look out or give its processor away before it sleeps, and for whom it said that it is about to.
#[derive(Drop)]
pub(crate) struct Patience {
    budget: Budget,
    looked: bool,
    yields: u32,
    announced: Awaited,
}

// Looks at a worker's lanes so often. Whether it may move.
fn looks_out<W: Worker>(worker: &W, on: Option<Peer>, looks: u32) -> bool {
    for _ in 0..looks {
        if worker.may_move(on) {
            return true;
        }
        hint::spin_loop();
    }
    false
}

impl Patience {
    /// Before the first wait.
    pub(crate) fn new() -> Patience {
        Patience {
            budget: Budget::new(),
            looked: false,
            yields: YIELDS,
            announced: Awaited::nobody(),
        }
    }

    /// Looks out for what it waits for, a few looks at a time, as long as no more threads are awake than there are processors. Whether the worker may move;
    /// it learns whether the looks were of use, unless they were cut off.
    pub(crate) fn look<W: Worker>(
        &mut self,
        row: &Row<'_>,
        worker: &W,
        on: Option<Peer>,
        looks: u32,
    ) -> bool {
        self.looked = true;
        for _ in 0..looks / 16 {
            if row.is_crowded() {
                return false;
            }
            if looks_out(worker, on, 16) {
                self.budget.double();
                return true;
            }
        }
        self.budget.quarter();
        false
    }

    /// Says for whom it is about to sleep, or that it stays awake.
    pub(crate) fn announce(&mut self, row: &Row<'_>, seat: &Seat, whom: Awaited) {
        seat.announce(self.announced, whom, row.crowd());
        self.announced = whom;
    }

    // Whether it has announced a sleep.
    fn has_announced(&self) -> bool {
        self.announced != Awaited::nobody()
    }

    // How many looks it may have now: none where it has looked since a turn moved something, or has announced a sleep.
    fn looks(&mut self, is_crowded: bool) -> u32 {
        if self.looked || is_crowded || self.has_announced() {
            return 0;
        }
        self.budget.take()
    }

    /// What comes next, where the thread waits for these.
    pub(crate) fn next_for(&mut self, row: &Row<'_>, whom: Awaited) -> Next {
        let is_crowded = row.is_crowded();
        let looks = self.looks(is_crowded);
        let yields = if self.has_announced() { 0 } else { self.yields };
        next_for(self.announced == whom, looks, yields, is_crowded)
    }

    /// Gives its processor away, or announces a sleep where that is dear.
    pub(crate) fn give_way(&mut self, row: &Row<'_>, seat: &Seat, whom: Awaited) {
        self.yields = self.yields.saturating_sub(1);
        if !row.watch().give_way() {
            self.announce(row, seat, whom);
        }
    }

    /// Sleeps for whom it announced. Nobody sleeps who owes a ring.
    pub(crate) fn sleep<R: Wait>(&mut self, rt: &R, row: &Row<'_>, seat: &Seat, owed: &Owed)
        requires { IsNothing owed.now.given }
    {
        seat.sleep(rt, row.crowd(), owed);
        self.announced = Awaited::nobody();
        self.looked = false;
        self.yields = YIELDS;
    }

    /// Waits for anybody, without a look.
    pub(crate) fn rest<R: Wait>(&mut self, rt: &R, row: &Row<'_>, seat: &Seat, owed: &Owed)
        requires { IsNothing owed.now.given }
    {
        if self.announced == Awaited::anybody() {
            self.sleep(rt, row, seat, owed);
        } else {
            self.announce(row, seat, Awaited::anybody());
        }
    }

    /// The thread is awake, and a step of it moved.
    pub(crate) fn stay_awake(&mut self, row: &Row<'_>, own: usize) {
        self.looked = false;
        self.yields = YIELDS;
        if self.has_announced() {
            if let Some(seat) = row.seat(own) {
                self.announce(row, seat, Awaited::nobody());
            }
        }
    }
}
