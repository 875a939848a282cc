//! Making a lane, what is done at its ends, and bringing them together.
ghost use Rattle.std.specs.Prelude.{◌≡◌, ℕ, true, List, [], ◌∷◌, ◌++◌, ◌<◌, ◌≤◌, length, IfOk, IfSome, IfNone};
ghost use Rattle.crossbeam_queue.specs.Passes.{view, ruled_capacity, IsPassOf, IsSamePass};
ghost use Rattle.tile_queues.specs.Ends.{sent_of, taken_of, lane_in, lane_out, rest_of, taken_in, sent_in, lane_rest, lane_depth};
ghost use Rattle.tile_queues.specs.Rule.{idle_pass, sender_pass, receiver_pass, TakesItem, left_of};

use crate::ends::{LaneIn, LaneOut, Rest};
use crate::rule::{Depth, Draining, History, Joining, Line, Looking, Parting, Sending, Taking};
use crossbeam_queue::Pass;
use rc_base::lane::{Inlet, Outlet};
use rc_base::out_of_memory::OutOfMemory;
use std::alloc::Global;
use std::marker::Brand;
use std::sync::{Arc, Wait};

/// The most items that a lane carries in its life.
const MOST: u64 = 1 << 62;

// A line that holds at most `depth` items, and its one pass.
fn new_line<T: Drop>(
    alloc: Global,
    depth: usize,
) -> Result<(Line<T>, Pass<T, History<T>>), OutOfMemory>
    requires { 1 ≤ depth }
    ensures queue { IfOk result (λ l. IsPassOf l.0 l.1) }
    ensures new { IfOk result (λ l. (l.1.id ≡ 0) × (view l.1 ≡ idle_pass)) }
    ensures depth { IfOk result (λ l. ruled_capacity l.0 ≡ depth) }
{
    Ok(Line::ruled(alloc, depth)?)
}

// The receiver's pass of a new lane, whose one pass becomes the sender's.
fn part<T, D: Depth>(line: &Line<T>, pass: &mut Pass<T, History<T>>) -> Pass<T, History<T>>
    requires queue { IsPassOf line.now pass.old }
    requires new { (pass.old.id ≡ 0) × (view pass.old ≡ idle_pass) }
    ensures queue { IsSamePass pass.old pass.new × IsPassOf line.now result }
    ensures passes { (view pass.new ≡ sender_pass D.depth) × (view result ≡ receiver_pass D.depth) }
{
    line.another::<Parting<D>>(pass)
}

/// The two ends of a new lane, which holds at most `depth` items.
pub fn lane<T: Drop, R: Copy>(
    rt: R,
    alloc: Global,
    depth: usize,
) -> Result<(LaneIn<T, R>, LaneOut<T, R>), OutOfMemory>
    requires { (1 ≤ depth) × (depth ≤ 16) }
    ensures pair { IfOk result (λ ends. lane_out ends.1 ≡ lane_in ends.0) }
    ensures depth { IfOk result (λ ends. lane_depth (lane_in ends.0) ≡ depth) }
    ensures empty { IfOk result (λ ends. (sent_of ends.0 ≡ []) × (taken_of ends.1 ≡ [])) }
{
    let (line, mut sender) = new_line(alloc, depth)?;
    let receiver = part::<T, Brand>(&line, &mut sender);
    let queue = Arc::new(alloc, line)?;
    let theirs = Arc::try_clone(&queue)?;
    let a = LaneIn {
        rt,
        queue,
        pass: sender,
        pushed: 0,
        full_seen: 0,
    };
    let b = LaneOut {
        rt,
        queue: theirs,
        pass: receiver,
        empty_seen: 0,
    };
    Ok((a, b))
}

impl<T, R> LaneIn<T, R> {
    /// How often the lane was found full.
    pub fn refusals(&self) -> u64
        ensures { result ≡ self.now.full_seen }
    {
        self.full_seen
    }

    /// Whether the lane looks full. It is no push: nothing is counted.
    pub fn is_full(&self) -> bool
        ensures full { result ≡ true → lane_depth (lane_in self.now) ≤ length (sent_of self.now) }
    {
        if self.pushed < self.queue.capacity() as u64 {
            return false;
        }
        let mut look = self.queue.pass();
        self.queue.is_full_as::<Looking>(&mut look)
    }
}

impl<T: Drop, R: Wait> Outlet<T> for LaneIn<T, R> {
    ghost use Rattle.tile_queues.specs.Ends.{sent_of, fulls_of, lane_in, MayBeFull};

    ghost sent = { sent_of };

    ghost full_seen = { fulls_of };

    ghost lane_of = { lane_in };

    ghost full = { MayBeFull };

    fn push(&mut self, item: T) -> Result<(), T> {
        if self.pushed >= MOST {
            self.full_seen = self.full_seen.saturating_add(1);
            return Err(item);
        }
        let answer = self
            .queue
            .push_as::<Sending, R>(&self.rt, &mut self.pass, item);
        if answer.is_ok() {
            self.pushed += 1;
        } else {
            self.full_seen = self.full_seen.saturating_add(1);
        }
        answer
    }
}

impl<T, R> LaneOut<T, R> {
    /// How often the lane was found empty.
    pub fn refusals(&self) -> u64
        ensures { result ≡ self.now.empty_seen }
    {
        self.empty_seen
    }

    /// Whether the lane looks empty. It is no pop: nothing is counted.
    pub fn is_empty(&self) -> bool {
        let mut look = self.queue.pass();
        self.queue.is_empty_as::<Looking>(&mut look)
    }
}

impl<T, R: Wait> LaneOut<T, R> {
    // Takes the front, or finds the lane empty.
    fn take(&mut self) -> Option<T>
        ensures lane { lane_out self.new ≡ lane_out self.old }
        ensures count { self.new.empty_seen ≡ self.old.empty_seen }
        ensures given { IfSome result (λ x. taken_of self.new ≡ taken_of self.old ++ x ∷ []) }
        ensures none { IfNone result (taken_of self.new ≡ taken_of self.old) }
    {
        self.queue.pop_as::<Taking, R>(&self.rt, &mut self.pass)
    }
}

impl<T: Drop, R: Wait> Inlet<T> for LaneOut<T, R> {
    ghost use Rattle.std.specs.Prelude.{⊤, refl};
    ghost use Rattle.std.proofs.Common.{inl};
    ghost use Rattle.tile_queues.specs.Ends.{empties_of, lane_out, Took, TookNone};

    ghost gave = { Took };

    ghost same = { TookNone };

    ghost empty_seen = { empties_of };

    ghost lane_of = { lane_out };

    ghost bare = { λ b. ⊤ };

    ghost same_here = { λ a. (refl, inl refl) };

    fn pop(&mut self) -> Option<T> {
        let front = self.take();
        if front.is_none() {
            self.empty_seen = self.empty_seen.saturating_add(1);
        }
        front
    }
}

/// Brings the two ends of a lane together. What was taken, and then the rest, is what was sent.
pub fn close<T: Drop, R: Copy>(a: LaneIn<T, R>, b: LaneOut<T, R>) -> Rest<T, R>
    requires { lane_out b ≡ lane_in a }
    ensures order { sent_of a ≡ taken_of b ++ rest_of result }
    ensures held { length (rest_of result) ≤ lane_depth (lane_in a) }
    ensures taken { taken_in result ≡ taken_of b }
    ensures sent { sent_in result ≡ sent_of a }
    ensures lane { lane_rest result ≡ lane_in a }
{
    let LaneIn {
        rt,
        queue,
        mut pass,
        ..
    } = a;
    let LaneOut { pass: other, .. } = b;
    queue.absorb::<Joining>(&mut pass, other);
    queue.learn_as::<Draining>(&mut pass);
    Rest {
        rt,
        queue,
        pass,
        empty_seen: 0,
    }
}

// Takes the next of what was sent and not taken, by the pass that knows of both.
fn drain<T, R: Wait>(rt: &R, line: &Line<T>, pass: &mut Pass<T, History<T>>) -> Option<T>
    requires queue { IsPassOf line.now pass.old }
    requires both { ((view pass.old).sends ≡ true) × ((view pass.old).takes ≡ true) }
    requires ordered { (view pass.old).sent ≡ (view pass.old).taken ++ left_of (view pass.old) }
    ensures queue { IsSamePass pass.old pass.new }
    ensures both { ((view pass.new).sends ≡ true) × ((view pass.new).takes ≡ true) }
    ensures ordered { (view pass.new).sent ≡ (view pass.new).taken ++ left_of (view pass.new) }
    ensures some { IfSome result (λ x. left_of (view pass.old) ≡ x ∷ left_of (view pass.new)) }
    ensures none { IfNone result ((left_of (view pass.old) ≡ []) × (left_of (view pass.new) ≡ [])) }
    ensures given { IfSome result (λ x. TakesItem (view pass.old) x (view pass.new)) }
    ensures same { IfNone result (view pass.new ≡ view pass.old) }
{
    line.pop_as::<Draining, R>(rt, pass)
}

impl<T, R> Rest<T, R> {
    /// How often it was asked at its end.
    pub fn refusals(&self) -> u64
        ensures { result ≡ self.now.empty_seen }
    {
        self.empty_seen
    }
}

impl<T: Drop, R: Wait> Rest<T, R> {
    /// The next item that was sent and not taken, or none where all were given. It counts nothing.
    pub fn next(&mut self) -> Option<T>
        ensures lane { lane_rest self.new ≡ lane_rest self.old }
        ensures count { self.new.empty_seen ≡ self.old.empty_seen }
        ensures sent { sent_in self.new ≡ sent_in self.old }
        ensures given { IfSome result (λ x. taken_in self.new ≡ taken_in self.old ++ x ∷ []) }
        ensures same { IfNone result (taken_in self.new ≡ taken_in self.old) }
        ensures whole { IfNone result (taken_in self.new ≡ sent_in self.new) }
        ensures some { IfSome result (λ x. rest_of self.old ≡ x ∷ rest_of self.new) }
        ensures none { IfNone result ((rest_of self.old ≡ []) × (rest_of self.new ≡ [])) }
    {
        drain(&self.rt, &self.queue, &mut self.pass)
    }
}

impl<T: Drop, R: Wait> Inlet<T> for Rest<T, R> {
    ghost use Rattle.std.specs.Prelude.{◌≡◌, [], ◌∷◌, ◌++◌, refl};
    ghost use Rattle.tile_queues.specs.Ends.{taken_in, sent_in, lane_rest};

    ghost gave = { λ r x s. (taken_in s ≡ taken_in r ++ x ∷ []) × (sent_in s ≡ sent_in r) };

    ghost same = { λ r s. (taken_in s ≡ taken_in r) × (sent_in s ≡ sent_in r) };

    ghost empty_seen = { λ r. r.empty_seen };

    ghost lane_of = { lane_rest };

    ghost bare = { λ r. taken_in r ≡ sent_in r };

    ghost same_here = { λ a. (refl, refl) };

    fn pop(&mut self) -> Option<T> {
        let next = self.next();
        if next.is_none() {
            self.empty_seen = self.empty_seen.saturating_add(1);
        }
        next
    }
}
