//! The client's core: it issues its commands, and sends what they give, item by item, to the tiles and the manager.
//!
//! The sequence of items is that of `rc_base::specs::Cluster::Sending`; a parcel is packed once, when it is made, and tiles
//! that get one act with the same sets share its bytes. Stands on `gl_context`,
//! `bounds_bucket`, `state_update` and `parcel_bytes`.
#![tactic(auto)]

mod acts;
mod client;
mod first;
mod give;
mod issue;
mod item;
mod kept;
mod lanes;
pub mod laws;
mod pending;
mod sender;
mod step;

pub use client::{ClientCore, ClientKept};
pub use rc_base::cluster::Tally;
