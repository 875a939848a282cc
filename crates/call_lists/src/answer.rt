//! What an expansion gives, or why there is none.
ghost use Rattle.std.specs.Prelude.{◌≡◌};
ghost use Rattle.call_lists.specs.declared.answer.ExpandFault.TheVariants.{OutOfMemory as no_memory};

use rc_base::cluster::FaultList;
use rc_base::command::Commands;
use rc_base::out_of_memory::OutOfMemory;
use std::alloc::{AllocError, AllocFailed};
use thiserror::Error;

/// What a stream means.
#[derive(Debug, Drop)]
pub struct Expansion {
    /// Its plain commands: all of them where they are at most 1,048,577, else the first 1,048,577.
    pub commands: Commands,
    /// How many they are in all.
    pub count: u64,
    /// Each refused command's place in the stream and its fault, places rising.
    pub faults: FaultList,
    /// What was spent before, and what this stream costs.
    pub spent: u64,
}

/// Why a stream was not expanded.
#[derive(Clone, Copy, Debug, PartialEq, Eq, Error)]
pub enum ExpandFault {
    /// The costs pass 67,108,864 at a command, and this is their sum with it.
    #[error("an expansion costs {spent}")]
    TooLong { spent: u64 },
    #[error("out of memory")]
    OutOfMemory,
}

impl From<OutOfMemory> for ExpandFault {
    ghost from_gives = { λ _ e. e ≡ no_memory };

    fn from(_: OutOfMemory) -> ExpandFault {
        ExpandFault::OutOfMemory
    }
}

impl From<AllocError> for ExpandFault {
    ghost from_gives = { λ _ e. e ≡ no_memory };

    fn from(_: AllocError) -> ExpandFault {
        ExpandFault::OutOfMemory
    }
}

impl<T: Drop> From<AllocFailed<T>> for ExpandFault {
    ghost from_gives = { λ _ e. e ≡ no_memory };

    fn from(_: AllocFailed<T>) -> ExpandFault {
        ExpandFault::OutOfMemory
    }
}
