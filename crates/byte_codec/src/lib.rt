//! Single fields as bytes: readers, which take a field from the front and give what stands behind it, and writers, with what joins the two.
//!
//! How readers are put together, and the first fault from the left that they meet, is defined in `specs/Reading`; a reader and a spelling that belong
//! together are a `Codec` of `specs/Codec`, and `specs/NumberCodecs` has those of numbers and runs of bytes. Packets (`packet_bytes`), parcels
//! (`parcel_bytes`) and scenes (`scene_file`) are read and written by these. This crate stands on `rc_base` alone.
#![tactic(auto)]

pub mod fault;
pub mod fields;
pub mod writing;
