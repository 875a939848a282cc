//! Why bytes are no scene.
ghost use Rattle.std.specs.Prelude.{◌≡◌};
ghost use Rattle.scene_file.specs.declared.fault.Broken.TheVariants.{Memory};
ghost use Rattle.scene_file.specs.declared.fault.SceneFault.TheVariants.{OutOfMemory};
ghost use Rattle.scene_file.specs.Reading.{form_fault, field_fault, stream_fault, scene_fault};

use byte_codec::fault::{Form, ReadError};
use packet_bytes::PackFault;
use rc_base::scene::SceneKind;
use std::alloc::AllocFailed;
use thiserror::Error;

/// What is wrong with the bytes of a scene. A place is told by how many bytes stand from there on.
#[derive(Clone, Copy, Debug, PartialEq, Eq)]
pub enum Broken {
    Memory,
    Form { kind: SceneKind, left: usize },
}

/// Why no scene was read.
#[derive(Clone, Copy, Debug, PartialEq, Eq, Error)]
pub enum SceneFault {
    /// The bytes spell no scene. The first fault from the left stands at this byte, counted from 0.
    #[error("malformed {kind:?} at byte {at}")]
    Malformed { kind: SceneKind, at: usize },
    /// A scene is spelled, and a quantity of it is outside its range: its number in the table of limits (`docs/scene-format.md`) and its
    /// value.
    #[error("quantity {what} is {value}")]
    Limit { what: u8, value: u64 },
    /// There was no memory for the scene.
    #[error("out of memory")]
    OutOfMemory,
}

impl From<Form> for Broken {
    ghost from_gives = { λ f b. b ≡ form_fault f };

    fn from(form: Form) -> Broken {
        let (kind, left) = match form {
            Form::BadCount { left } => (SceneKind::BadCount, left),
            Form::Unknown { left } => (SceneKind::UnknownOpcode, left),
            Form::Truncated => (SceneKind::Truncated, 0),
        };
        Broken::Form { kind, left }
    }
}

impl From<ReadError> for Broken {
    ghost from_gives = { λ e b. b ≡ field_fault e };

    fn from(error: ReadError) -> Broken {
        match error {
            ReadError::Memory => Broken::Memory,
            ReadError::Form(form) => Broken::from(form),
        }
    }
}

impl<T: Drop> From<AllocFailed<T>> for Broken {
    ghost from_gives = { λ _ e. e ≡ Memory };

    fn from(_: AllocFailed<T>) -> Broken {
        Broken::Memory
    }
}

/// A fault of a stream's own bytes, where so many bytes stand from the stream's length on.
pub fn in_stream(fault: PackFault, size: usize) -> Broken
    ensures { result ≡ stream_fault fault size }
{
    let size = size.saturating_sub(4);
    let (kind, at) = match fault {
        PackFault::OutOfMemory => return Broken::Memory,
        PackFault::BadCount { at } => (SceneKind::BadCount, at),
        PackFault::UnknownOpcode { at } => (SceneKind::UnknownOpcode, at),
        PackFault::Truncated { at } => (SceneKind::Truncated, at),
    };
    Broken::Form {
        kind,
        left: size.saturating_sub(at),
    }
}

/// The fault with its place, in bytes of which there are so many.
pub fn fault_at(broken: Broken, size: usize) -> SceneFault
    ensures { result ≡ scene_fault broken size }
{
    match broken {
        Broken::Memory => SceneFault::OutOfMemory,
        Broken::Form { kind, left } => SceneFault::Malformed {
            kind,
            at: size.saturating_sub(left),
        },
    }
}
