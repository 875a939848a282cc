//! Why a table isn't run to its end.
use rc_base::out_of_memory::OutOfMemory;
use std::alloc::{AllocError, AllocFailed};
use thiserror::Error;

/// Why a table isn't run to its end.
#[derive(Clone, Copy, Debug, Error)]
pub(crate) enum Refusal {
    /// A line of it is none, and why.
    #[error("line {line}: {why}")]
    Malformed { line: usize, why: &'static str },
    /// It can't be read, or is no text.
    #[error("the table can't be read, or is no text")]
    Unread,
    /// What is told can't be written.
    #[error("standard output failed")]
    Untold,
    /// There was no memory.
    #[error("out of memory")]
    OutOfMemory,
}

impl From<AllocError> for Refusal {
    fn from(_: AllocError) -> Refusal {
        Refusal::OutOfMemory
    }
}

impl<T: Drop> From<AllocFailed<T>> for Refusal {
    fn from(_: AllocFailed<T>) -> Refusal {
        Refusal::OutOfMemory
    }
}

impl From<OutOfMemory> for Refusal {
    fn from(_: OutOfMemory) -> Refusal {
        Refusal::OutOfMemory
    }
}
