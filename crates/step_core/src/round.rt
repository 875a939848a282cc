//! One step of each actor.
use crate::actor::{Stepped, outcome_of};
use crate::cluster::Cluster;
use rc_base::out_of_memory::OutOfMemory;
use world_model::laws::ample_turns_are_moves;

/// What steps came to.
#[derive(Clone, Copy)]
pub(crate) enum Round {
    /// Somebody moved.
    Moved,
    /// Nobody moved, and somebody waits.
    Still,
    /// Nobody has anything left to do.
    Ended,
}

impl Round {
    ghost use Rattle.std.specs.Prelude.{◌≡◌};
    ghost use Rattle.step_core.specs.Rounds.{round_with};
    ghost use Rattle.step_core.specs.declared.actor.Stepped.TheVariants as stepped;

    /// Somebody waits too.
    fn with_wait(self) -> Round
        ensures { result ≡ round_with self stepped.Waits }
    {
        match self {
            Round::Moved => Round::Moved,
            Round::Still => Round::Still,
            Round::Ended => Round::Still,
        }
    }

    /// With one step more.
    fn with(self, stepped: Stepped) -> Round
        ensures { result ≡ round_with self stepped }
    {
        match stepped {
            Stepped::Moved => Round::Moved,
            Stepped::Waits => self.with_wait(),
            Stepped::Ended => self,
        }
    }
}

impl Cluster {
    ghost use Rattle.std.specs.Prelude.{◌+◌, ◌<◌, length};
    ghost use Rattle.step_core.specs.Rounds.{Rounds};
    ghost use Rattle.step_core.specs.Steps.{Attempts};
    ghost use Rattle.step_core.specs.Worlds.{IsSeen};

    /// One step of the actor of this number. Where memory lacks, it has moved, and the cluster notes that memory has lacked.
    fn attempt(&mut self, number: usize) -> Stepped
        requires seen { IsSeen self.old }
        requires number { number < length self.old.clients.items + 1 + length self.old.tiles.items }
        ensures { Attempts number self.old result self.new }
    {
        ample_turns_are_moves();
        match self.step(number) {
            Ok(made) => outcome_of(made),
            Err(OutOfMemory) => {
                self.lacking = true;
                Stepped::Moved
            }
        }
    }

    /// One step of each actor, rising, also behind one that lacks memory.
    pub(crate) fn round(&mut self) -> Round
        requires { IsSeen self.old }
        ensures { Rounds self.old result self.new }
    {
        let mut round = Round::Ended;
        for number in 0..self.actors() {
            round = round.with(self.attempt(number));
        }
        round
    }
}
