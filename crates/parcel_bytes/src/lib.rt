//! Parcels as bytes: the reader `decode_parcel`, which names the first fault from the left, and `Packed`, the bytes of one parcel.
//!
//! A parcel is its place, its sets behind their number, and its act behind the act's tag; a set is its element and the value of the element's kind.
//! What bytes spell is defined in `specs/Spelling`, what is wrong with other bytes in `specs/Faults`. This crate stands on `element_table` for the kinds
//! of values and on `byte_codec` for the fields.
#![tactic(auto)]

pub mod decoding;
pub mod fault;
pub mod laws;
pub mod packable;
pub mod packed;
mod pool;
mod reading;
pub mod room;
mod writing;

pub use decoding::decode_parcel;
pub use fault::ParcelFault;
pub use packable::is_packable;
pub use packed::{Packed, encode_parcel, encode_parcel_in};
pub use pool::Pool;
pub use room::Room;
