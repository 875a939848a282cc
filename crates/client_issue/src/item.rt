//! An item of the sequence, and where it goes.
use parcel_bytes::Packed;
use rc_base::sync::Request;

/// A parcel to a tile with the looks that it cost, or a request to the manager.
#[derive(Drop)]
pub(crate) enum Item {
    Parcel {
        tile: u8,
        parcel: Packed,
        looks: u64,
    },
    Request(Request),
}
