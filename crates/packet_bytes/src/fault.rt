//! Why bytes are no packets.
ghost use Rattle.std.specs.Prelude.{◌≡◌};
ghost use Rattle.packet_bytes.specs.declared.fault.PackFault.TheVariants as fault;

use std::alloc::{AllocError, AllocFailed};
use thiserror::Error;

/// Why bytes spell no list of commands, with the place in bytes from the start: of the count's first byte, of the opcode's byte, or of the end.
#[derive(Clone, Copy, Debug, PartialEq, Eq, Error)]
pub enum PackFault {
    /// A packet's count is 0 or more than 1,024.
    #[error("a packet's count is out of range at byte {at}")]
    BadCount { at: usize },
    /// A byte in an opcode's place stands for no command.
    #[error("an unknown opcode at byte {at}")]
    UnknownOpcode { at: usize },
    /// The bytes end within a packet.
    #[error("the bytes end within a packet at byte {at}")]
    Truncated { at: usize },
    #[error("out of memory")]
    OutOfMemory,
}

impl From<AllocError> for PackFault {
    ghost from_gives = { λ _ e. e ≡ fault.OutOfMemory };

    fn from(_: AllocError) -> PackFault {
        PackFault::OutOfMemory
    }
}

impl<T: Drop> From<AllocFailed<T>> for PackFault {
    ghost from_gives = { λ _ e. e ≡ fault.OutOfMemory };

    fn from(_: AllocFailed<T>) -> PackFault {
        PackFault::OutOfMemory
    }
}
