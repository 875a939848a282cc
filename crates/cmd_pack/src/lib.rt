//! Commands and parcels as bytes, in one place: the calls of `packet_bytes` and of `parcel_bytes`, handed out together.
//!
//! It has no function of its own, and meets what those two meet. A crate that needs one of them stands on that one.
#![tactic(auto)]

pub use packet_bytes::{
    PackFault, decode, decode_lists, decode_lists_within, decode_within, encode,
};
pub use parcel_bytes::{Packed, ParcelFault, Room, decode_parcel, encode_parcel, is_packable};
