//! Whom a thread owes a ring.
ghost use Rattle.std.specs.Prelude.{◌≡◌, true, false};
ghost use Rattle.worker_crew.specs.Owing.{IsNothing};

use crate::seat::Rung;

/// So many places are counted for; who has a higher one is rung at once.
pub(crate) const PLACES: usize = 64;

// A peer that was given so much, by one worker, is rung: as much as a lane of the usual depth holds.
const BATCH: u8 = 8;

/// How much was given to the worker of each place since that was last rung.
#[derive(Drop)]
pub(crate) struct Owed {
    given: [u8; 64],
    any: bool,
    ghost none: { any ≡ false → IsNothing given },
}

impl Owed {
    ghost use Rattle.std.specs.Prelude.{◌≡◌, true, false};
    ghost use Rattle.worker_crew.specs.Owing.{IsNothing, IsCounted, IsSettled, given_to};

    /// Nothing is owed.
    pub(crate) fn new() -> Owed
        ensures { IsNothing result.given }
    {
        Owed {
            given: [0; PLACES],
            any: false,
        }
    }

    /// Something was given to the worker of a place. Whether that has to be rung now; else the gift is counted.
    pub(crate) fn count(&mut self, place: usize) -> bool
        ensures counted { result ≡ false → IsCounted place self.old.given self.new.given }
        ensures full { result ≡ true → self.new.given ≡ self.old.given }
    {
        if place >= PLACES {
            return true;
        }
        let count = self.given[place].saturating_add(1);
        if count >= BATCH {
            return true;
        }
        self.given[place] = count;
        self.any = true;
        false
    }

    /// Whether somebody may be owed something.
    pub(crate) fn is_any(&self) -> bool
        ensures { result ≡ false → IsNothing self.now.given }
    {
        self.any
    }

    /// Whether the worker of a place is owed something.
    pub(crate) fn is_owed(&self, place: usize) -> bool
        ensures { result ≡ false → given_to self.now.given place ≡ 0 }
    {
        place < PLACES && self.given[place] > 0
    }

    /// The worker of a place was rung.
    pub(crate) fn settle(&mut self, rung: Rung)
        ensures { IsSettled rung.place self.old.given self.new.given }
    {
        let place = rung.place();
        if place < PLACES {
            self.given[place] = 0;
        }
    }

    /// Nobody is owed anything.
    pub(crate) fn close(&mut self)
        requires { IsNothing self.old.given }
        ensures { self.new.given ≡ self.old.given }
    {
        self.any = false;
    }
}
