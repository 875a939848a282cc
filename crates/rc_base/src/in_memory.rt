//! Sources and sinks in memory, whose every call is known in advance: for tests, and where bytes are at hand.
//!
//! The call numbers that a source or a sink is told to fail at begin with 1. Its counts of calls and of faults stand still at 2^64 - 1.
ghost use Rattle.std.specs.Prelude.{◌≡◌, ◌<◌, ◌≤◌, ◌++◌, [], Ok, IsTrue, IsErr, IfOk, OnOk, OnErr, is_err, length, min, take, drop, Some, None};
ghost use Rattle.std.specs.Io.{ReadsAtMost};
ghost use Rattle.std.specs.Io.KnownBytes.{ReadConsumes, WriteAppends};
ghost use Rattle.rc_base.specs.Outside.Causes.{risen, HasCause};
ghost use Rattle.rc_base.specs.Outside.InMemory.{is_failing, taken_count, take_answer, source_after, quiet_after, sink_after};

use crate::items::Items;
use crate::out_of_memory::OutOfMemory;
use crate::outside::{Failed, Sink, Source, fail};
use std::alloc::Global;
use std::marker::Model;

// Copies the front of the rest: as much as the room, the step and the rest allow. What stands behind it in `into` stays.
fn copy_front(rest: &[u8], step: usize, into: &mut [u8]) -> usize
    ensures count { result ≡ taken_count (length into.old) step rest.now }
    ensures filled { into.new ≡ take result rest.now ++ drop result into.old }
    ensures front { rest.now ≡ take result into.new ++ drop result rest.now }
{
    let count = into.len().min(step).min(rest.len());
    into[..count].copy_from_slice(&rest[..count]);
    count
}

/// A source over bytes in memory that never fails. A call gives as many bytes as the room, the step and the bytes left allow.
#[derive(Drop)]
pub struct QuietSource {
    bytes: Items<u8>,
    at: usize,
    step: usize,
}

impl Model for QuietSource {
    ghost use Rattle.std.specs.Prelude.{◌≤◌, ◌<◌, length, drop};
    ghost use Rattle.rc_base.specs.Outside.InMemory.{QuietSourceModel};

    ghost Value = { QuietSourceModel };

    ghost view = { λ s. record { left = drop s.at s.bytes; step = s.step } };

    ghost invariant = { λ s. (s.at ≤ length s.bytes) × (0 < s.step) };
}

impl QuietSource {
    /// A source of these bytes that gives at most `step` of them a call.
    pub fn new(alloc: Global, bytes: &[u8], step: usize) -> Result<QuietSource, OutOfMemory>
        requires { 0 < step }
        ensures made { IfOk result (λ s. s ≡ record { left = bytes.now; step = step }) }
    {
        Ok(QuietSource {
            bytes: Items::from_slice(alloc, bytes)?,
            at: 0,
            step,
        })
    }
}

impl Source for QuietSource {
    ghost left = { λ s. Some s.left };

    ghost faults = { λ _. 0 };

    fn take(&mut self, into: &mut [u8]) -> Result<usize, Failed>
        requires { 0 < length into.old }
        ensures bound { ReadsAtMost result into.new }
        ensures bytes { ReadConsumes (Some self.old.left) (Some self.new.left) result into.new }
        ensures cause { HasCause 0 0 result }
        ensures answer { result ≡ Ok (taken_count (length into.old) self.old.step self.old.left) }
        ensures after { self.new ≡ quiet_after self.old (length into.old) }
        ensures filled { IfOk result (λ n. into.new ≡ take n self.old.left ++ drop n into.old) }
    {
        let count = copy_front(&self.bytes.as_slice()[self.at..], self.step, into);
        self.at += count;
        Ok(count)
    }
}

/// A sink that takes each piece whole, keeps nothing, and never fails.
#[derive(Clone, Copy, Debug, PartialEq, Eq)]
pub struct QuietSink;

impl QuietSink {
    /// The sink that keeps nothing.
    pub fn new() -> QuietSink {
        QuietSink
    }
}

impl Sink for QuietSink {
    ghost held = { λ _. None };

    ghost faults = { λ _. 0 };

    fn put(&mut self, piece: &[u8]) -> Result<usize, Failed>
        requires { 0 < length piece.now }
        ensures bound { IfOk result (λ n. (0 < n) × (n ≤ length piece.now)) }
        ensures bytes { WriteAppends None None result piece.now }
        ensures cause { HasCause 0 0 result }
        ensures answer { result ≡ Ok (length piece.now) }
    {
        Ok(piece.len())
    }
}

// The calls of an end in memory: the numbers of those that fail, how many were made, and how many of them failed.
#[derive(Drop)]
struct Calls {
    fails: Items<u64>,
    made: u64,
    faults: u64,
}

impl Calls {
    fn new(alloc: Global, fails: &[u64]) -> Result<Calls, OutOfMemory>
        ensures { IfOk result (λ c. c ≡ record { fails = fails.now; made = 0; faults = 0 }) }
    {
        Ok(Calls {
            fails: Items::from_slice(alloc, fails)?,
            made: 0,
            faults: 0,
        })
    }

    // Counts the next call, and its failure where its number is among those that fail.
    fn begin(&mut self) -> Result<(), Failed>
        ensures answer { is_err result ≡ is_failing self.old.fails self.old.made }
        ensures ok { OnOk result (self.new ≡ record self.old { made = risen self.old.made }) }
        ensures err { OnErr result (self.new ≡ record self.old { made = risen self.old.made; faults = risen self.old.faults }) }
        ensures later { self.old.faults ≤ self.new.faults }
    {
        self.made = self.made.saturating_add(1);
        if self.fails.as_slice().contains(&self.made) {
            return Err(fail(&mut self.faults));
        }
        Ok(())
    }
}

/// A source over bytes in memory. A call gives as many bytes as the room, the step and the bytes left allow, and fails where its number is
/// among those that the source was told.
#[derive(Drop)]
pub struct MemSource {
    bytes: QuietSource,
    calls: Calls,
}

impl Model for MemSource {
    ghost use Rattle.rc_base.specs.Outside.InMemory.{MemSourceModel};

    ghost Value = { MemSourceModel };

    ghost view = { λ s. record { left = s.bytes.left; step = s.bytes.step; fails = s.calls.fails; calls = s.calls.made; faults = s.calls.faults } };
}

impl MemSource {
    /// A source of these bytes that gives at most `step` of them a call, and fails the calls of these numbers.
    pub fn new(
        alloc: Global,
        bytes: &[u8],
        step: usize,
        fails: &[u64],
    ) -> Result<MemSource, OutOfMemory>
        requires { 0 < step }
        ensures made { IfOk result (λ s. s ≡ record { left = bytes.now; step = step; fails = fails.now; calls = 0; faults = 0 }) }
    {
        Ok(MemSource {
            bytes: QuietSource::new(alloc, bytes, step)?,
            calls: Calls::new(alloc, fails)?,
        })
    }
}

impl Source for MemSource {
    ghost left = { λ s. Some s.left };

    ghost faults = { λ s. s.faults };

    fn take(&mut self, into: &mut [u8]) -> Result<usize, Failed>
        requires { 0 < length into.old }
        ensures bound { ReadsAtMost result into.new }
        ensures bytes { ReadConsumes (Some self.old.left) (Some self.new.left) result into.new }
        ensures cause { HasCause self.old.faults self.new.faults result }
        ensures answer { result ≡ take_answer self.old (length into.old) }
        ensures after { self.new ≡ source_after self.old (length into.old) }
        ensures filled { IfOk result (λ n. into.new ≡ take n self.old.left ++ drop n into.old) }
    {
        self.calls.begin()?;
        self.bytes.take(into)
    }
}

/// A sink that keeps in memory what it takes. A call takes as many bytes as the step and the piece allow. It fails where its number is among
/// those that the sink was told, or where there is no memory for the bytes, and each failure is counted.
#[derive(Drop)]
pub struct MemSink {
    bytes: Items<u8>,
    step: usize,
    calls: Calls,
}

impl Model for MemSink {
    ghost use Rattle.std.specs.Prelude.{◌<◌};
    ghost use Rattle.rc_base.specs.Outside.InMemory.{MemSinkModel};

    ghost Value = { MemSinkModel };

    ghost view = { λ s. record { held = s.bytes; step = s.step; fails = s.calls.fails; calls = s.calls.made; faults = s.calls.faults } };

    ghost invariant = { λ s. 0 < s.step };
}

impl MemSink {
    /// An empty sink that takes at most `step` bytes a call, and fails the calls of these numbers.
    pub fn new(alloc: Global, step: usize, fails: &[u64]) -> Result<MemSink, OutOfMemory>
        requires { 0 < step }
        ensures made { IfOk result (λ s. s ≡ record { held = []; step = step; fails = fails.now; calls = 0; faults = 0 }) }
    {
        Ok(MemSink {
            bytes: Items::new(alloc),
            step,
            calls: Calls::new(alloc, fails)?,
        })
    }

    /// The bytes that the sink took so far.
    pub fn bytes(&self) -> &[u8]
        ensures { result.now ≡ self.now.held }
    {
        self.bytes.as_slice()
    }
}

impl Sink for MemSink {
    ghost held = { λ s. Some s.held };

    ghost faults = { λ s. s.faults };

    fn put(&mut self, piece: &[u8]) -> Result<usize, Failed>
        requires { 0 < length piece.now }
        ensures bound { IfOk result (λ n. (0 < n) × (n ≤ length piece.now)) }
        ensures bytes { WriteAppends (Some self.old.held) (Some self.new.held) result piece.now }
        ensures cause { HasCause self.old.faults self.new.faults result }
        ensures numbered { IsTrue (is_failing self.old.fails self.old.calls) → IsErr result }
        ensures count { IfOk result (λ n. n ≡ min (length piece.now) self.old.step) }
        ensures after { self.new ≡ sink_after self.old piece.now result }
    {
        self.calls.begin()?;
        let count = piece.len().min(self.step);
        match self.bytes.extend_from_slice(&piece[..count]) {
            Ok(()) => Ok(count),
            Err(_) => Err(fail(&mut self.calls.faults)),
        }
    }
}
