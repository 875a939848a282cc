//! The rule of a lane over a ruled queue, and its kinds of step.
ghost use Rattle.std.specs.Prelude.{ℕ};

use crossbeam_queue::RuledArrayQueue;
use crossbeam_queue::protocol::{Join, Lesson, Outcome, Protocol, Split};
use std::collections::LinkedList;
use std::marker::{Brand, PhantomData};

/// What a pass may do, how deep its lane is, and what went in and came out by it. It is known in proofs alone: no value of it is made.
pub struct History<T> {
    pub sends: bool,
    pub takes: bool,
    pub depth: usize,
    pub sent: LinkedList<T>,
    pub taken: LinkedList<T>,
}

/// What was sent is what was taken, and then what the lane holds.
pub struct LaneRule;

impl<T> Protocol<T, History<T>> for LaneRule {
    ghost use Rattle.tile_queues.specs.Rule.{InOrder, idle_pass};

    ghost holds = { InOrder };

    ghost first = { idle_pass };
}

/// A queue under the rule of a lane.
pub type Line<T> = RuledArrayQueue<T, History<T>, LaneRule>;

/// How many items a lane holds at most. It is picked where the lane is made.
pub trait Depth {
    ghost depth: { ℕ };
}

impl Depth for Brand {
    ghost depth = { 0 };
}

/// The sender's pass and the receiver's are made.
pub struct Parting<D>(PhantomData<D>);

impl<T, D: Depth> Split<History<T>> for Parting<D> {
    ghost use Rattle.tile_queues.specs.Rule.{sender_pass, receiver_pass};

    ghost left = { λ h. sender_pass D.depth };

    ghost right = { λ h. receiver_pass D.depth };
}

/// The sender's pass and the receiver's are brought together.
pub struct Joining;

impl<T> Join<History<T>> for Joining {
    ghost use Rattle.tile_queues.specs.Rule.{both_passes, idle_pass};

    ghost both = { both_passes };

    ghost spent = { idle_pass };
}

/// A push appends, or finds the lane full.
pub struct Sending;

impl<T> Outcome<T, History<T>> for Sending {
    ghost use Rattle.tile_queues.specs.Rule.{Appends};

    ghost then = { Appends };
}

impl<T> Lesson<T, History<T>> for Sending {
    ghost use Rattle.tile_queues.specs.Rule.{IsWithinSent};

    ghost fact = { IsWithinSent };
}

/// A pop takes the front, or finds the lane empty.
pub struct Taking;

impl<T> Outcome<T, History<T>> for Taking {
    ghost use Rattle.tile_queues.specs.Rule.{TakesItem};

    ghost then = { TakesItem };
}

impl<T> Lesson<T, History<T>> for Taking {
    ghost use Rattle.std.specs.Prelude.{⊤};

    ghost fact = { λ h held. ⊤ };
}

/// A look at the lane, by a pass that may do nothing.
pub struct Looking;

impl<T> Lesson<T, History<T>> for Looking {
    ghost use Rattle.std.specs.Prelude.{⊤};

    ghost fact = { λ h held. ⊤ };
}

/// A pop, or a look, by the pass that knows what was sent and what was taken.
pub struct Draining;

impl<T> Outcome<T, History<T>> for Draining {
    ghost use Rattle.tile_queues.specs.Rule.{TakesNext};

    ghost then = { TakesNext };
}

impl<T> Lesson<T, History<T>> for Draining {
    ghost use Rattle.tile_queues.specs.Rule.{IsHeld};

    ghost fact = { IsHeld };
}
