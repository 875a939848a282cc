//! The ends of the program: a source, where bytes come from, and a sink, where bytes go.
//!
//! Each end counts its own failures. A call fails only where that count rose in it, so that a program can't blame an end that did nothing wrong,
//! and a call that is answered leaves the count as it was. A count that stands at 2^64 - 1 stands still, and is taken to rise at each failure.
ghost use Rattle.std.specs.Prelude.{◌≡◌, ◌<◌, ◌≤◌, ℕ, List, length, Option, IfOk};
ghost use Rattle.std.specs.Io.{ReadsAtMost};
ghost use Rattle.std.specs.Io.KnownBytes.{ReadConsumes, WriteAppends};
ghost use Rattle.rc_base.specs.Outside.Causes.{risen, Rose, HasCause};

use thiserror::Error;

/// The answer of a source or a sink that failed, for no reason that is told. Its count of faults rose.
#[derive(Clone, Copy, Debug, PartialEq, Eq, Error)]
#[error("the call failed")]
pub struct Failed;

// Counts one failure more.
pub(crate) fn fail(faults: &mut u64) -> Failed
    ensures counted { faults.new ≡ risen faults.old }
    ensures later { faults.old ≤ faults.new }
    ensures rose { Rose faults.old faults.new }
{
    *faults = faults.saturating_add(1);
    Failed
}

/// Where bytes come from. A take that is answered, at the end too, leaves the count of faults as it was; one that fails raises it.
pub trait Source {
    /// The bytes that are still to come, where the source tells them.
    ghost left: { Self → Option (List ℕ) };

    /// How many of its calls the source has refused.
    ghost faults: { Self → ℕ };

    /// Takes bytes from the front of those left and puts them at the front of `into`: as many as the answer says, at most what `into` has room
    /// for, and none only at the end. After a failure all bytes that were left are still to come.
    fn take(&mut self, into: &mut [u8]) -> Result<usize, Failed>
        requires { 0 < length into.old }
        ensures bound { ReadsAtMost result into.new }
        ensures bytes { ReadConsumes (left self.old) (left self.new) result into.new }
        ensures cause { HasCause (faults self.old) (faults self.new) result };
}

/// Where bytes go. A put that is answered leaves the count of faults as it was; one that fails raises it.
pub trait Sink {
    /// The bytes that the sink holds, where it tells them.
    ghost held: { Self → Option (List ℕ) };

    /// How many of its calls the sink has refused.
    ghost faults: { Self → ℕ };

    /// Takes bytes from the front of the piece, one or more of them, and puts them behind those held. After a failure the sink holds what it
    /// held before.
    fn put(&mut self, piece: &[u8]) -> Result<usize, Failed>
        requires { 0 < length piece.now }
        ensures bound { IfOk result (λ n. (0 < n) × (n ≤ length piece.now)) }
        ensures bytes { WriteAppends (held self.old) (held self.new) result piece.now }
        ensures cause { HasCause (faults self.old) (faults self.new) result };
}
