//! Why bytes are not what is to be read.
ghost use Rattle.std.specs.Prelude.{◌≡◌};
ghost use Rattle.byte_codec.specs.declared.fault.ReadError.TheVariants as error;

use std::alloc::{AllocError, AllocFailed};

/// What is wrong with the bytes at hand, of packets or of a parcel. A place is told by how many bytes stand from there on, so that a reader of a part needs no offset.
#[derive(Clone, Copy, Debug, PartialEq, Eq)]
pub enum Form {
    /// A packet's count is 0 or more than 1,024.
    BadCount { left: usize },
    /// A byte stands for nothing: for no command, where an opcode is due, or for no element, act, operation or flag.
    Unknown { left: usize },
    /// The bytes end too early.
    Truncated,
}

/// Why something that takes memory was not read.
#[derive(Clone, Copy, Debug, PartialEq, Eq)]
pub enum ReadError {
    Memory,
    Form(Form),
}

impl From<Form> for ReadError {
    ghost from_gives = { λ f e. e ≡ error.Form f };

    fn from(form: Form) -> ReadError {
        ReadError::Form(form)
    }
}

impl From<AllocError> for ReadError {
    ghost from_gives = { λ _ e. e ≡ error.Memory };

    fn from(_: AllocError) -> ReadError {
        ReadError::Memory
    }
}

impl<T: Drop> From<AllocFailed<T>> for ReadError {
    ghost from_gives = { λ _ e. e ≡ error.Memory };

    fn from(_: AllocFailed<T>) -> ReadError {
        ReadError::Memory
    }
}
