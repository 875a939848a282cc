//! What a worker is.
ghost use Rattle.std.specs.Prelude.{◌≡◌};
ghost use Rattle.worker_crew.specs.declared.worker.Attempt.TheVariants as attempt;

use rc_base::gate::Actor;

/// Whom a worker shares a lane with.
#[derive(Clone, Copy, Debug, PartialEq, Eq)]
pub enum Peer {
    /// The client of this number.
    Client(u8),
    /// The manager.
    Manager,
    /// The tile server of this number.
    Tile(u8),
    /// Who runs the crew.
    Caller,
}

/// What an attempt of a step came to.
#[derive(Clone, Copy, Debug, PartialEq, Eq)]
pub enum Attempt {
    /// The worker moved. At most one peer was given something by it, an item or room for one.
    Moved(Option<Peer>),
    /// The worker moved, and memory lacked in it. Each peer may have been given something by it.
    Lacked,
    /// Nothing could be done, since a lane that it waits for was full or empty: a lane of this peer, or of any.
    Blocked(Option<Peer>),
    /// Nothing is left to do.
    Ended,
}

/// An actor of a cluster, with its own ends of lanes.
pub trait Worker {
    ghost use Rattle.rc_base.specs.declared.gate.Actor.{Actor};
    ghost use Rattle.worker_crew.specs.declared.worker.Attempt.{Attempt};

    /// What any number of steps may make of it.
    ghost leads: { Self → Self → Type 0 };

    /// It has nothing left to do.
    ghost over: { Self → Type 0 };

    /// Which actor it is.
    ghost who: { Self → Actor };

    /// What one step makes of it, and what that came to.
    ghost steps: { Self → Attempt → Self → Type 0 };

    /// Which actor it is.
    fn actor(&self) -> Actor
        ensures { result ≡ who self.now };

    /// Tries one step.
    fn step(&mut self) -> Attempt
        ensures steps { steps self.old result self.new }
        ensures leads { leads self.old self.new }
        ensures over { result ≡ attempt.Ended → over self.new };

    /// Whether a look at its lanes finds that a step may move, behind one that was blocked on this peer. A worker that has no look says no, and is
    /// woken.
    fn may_move(&self, _on: Option<Peer>) -> bool {
        false
    }

    /// Does a part of what is left to do that nobody waits for, where a step moved nothing. Whether there was one.
    fn spare(&mut self) -> bool
        ensures leads { leads self.old self.new }
    {
        false
    }

    /// No step at all is a number of steps.
    ghost stays: { (a : Self) → leads a a };

    /// Steps after steps are steps.
    ghost goes_on: { (a b c : Self) → leads a b → leads b c → leads a c };
}
