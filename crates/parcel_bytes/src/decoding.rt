//! The parcel that bytes spell.
ghost use Rattle.std.specs.Prelude.{◌≡◌, IfOk, IfErr, Ok, Err, ◌⊎◌};
ghost use Rattle.rc_base.specs.declared.state.Parcel.{Parcel as AnyParcel};
ghost use Rattle.parcel_bytes.specs.Spelling.{SpellsParcel};
ghost use Rattle.parcel_bytes.specs.Faults.{FailsAsParcel, parcel_fault};

use crate::fault::ParcelFault;
use crate::reading::read_parcel;
use byte_codec::fault::{Form, ReadError};
use rc_base::state::Parcel;
use std::alloc::Global;

// The fault with its place, in bytes of which there are so many. No count of a parcel is a bad one.
fn fault_at(error: ReadError, len: usize) -> ParcelFault
    ensures { result ≡ parcel_fault error len }
{
    match error {
        ReadError::Memory => ParcelFault::OutOfMemory,
        ReadError::Form(Form::BadCount { .. }) => ParcelFault::OutOfMemory,
        ReadError::Form(Form::Unknown { left }) => ParcelFault::UnknownTag {
            at: len.saturating_sub(left),
        },
        ReadError::Form(Form::Truncated) => ParcelFault::Truncated { at: len },
    }
}

/// The parcel that the bytes spell, or the first fault from the left with its place, in bytes from the start.
pub fn decode_parcel(alloc: Global, bytes: &[u8]) -> Result<Parcel, ParcelFault>
    // What is read is spelled so.
    ensures found { IfOk result (SpellsParcel bytes.now) }
    // What is spelled so is read, unless memory runs out.
    ensures only { (p : AnyParcel) → SpellsParcel bytes.now p → (result ≡ Ok p) ⊎ (result ≡ Err ParcelFault.OutOfMemory) }
    // The fault is the first one from the left.
    ensures fails { IfErr result (FailsAsParcel bytes.now) }
{
    match read_parcel(alloc, bytes) {
        Ok((parcel, rest)) => {
            if rest.is_empty() {
                Ok(parcel)
            } else {
                Err(ParcelFault::Trailing {
                    at: bytes.len().saturating_sub(rest.len()),
                })
            }
        }
        Err(error) => Err(fault_at(error, bytes.len())),
    }
}
