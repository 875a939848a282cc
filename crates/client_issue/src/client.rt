//! The client's core, and what is kept of it.
ghost use Rattle.std.specs.Prelude.{◌≡◌, ◌+◌, ◌-◌, ◌<◌, ◌≤◌, ◌^◌, length, replicate};
ghost use Rattle.rc_base.specs.Cluster.Parcels.{end_parcel};
ghost use Rattle.rc_base.specs.Cluster.Tiles.{tile_count};
ghost use Rattle.client_issue.specs.Sequence.{IsSound, IsSound-prop};

use crate::item::Item;
use crate::sender::Sender;
use parcel_bytes::Packed;
use rc_base::cluster::{FaultList, Tallies, Tally};
use rc_base::sync::SyncRow;

/// A client: it issues its commands and sends what they give, one item a step.
#[derive(Drop)]
pub struct ClientCore {
    pub(crate) sender: Sender,
    pub(crate) ready: Option<Item>,
    pub(crate) ends: u8,
    pub(crate) last: Vec<Packed>,
    pub(crate) short: bool,
    pub(crate) tallies: Vec<Tally>,
    ghost few: { length sender.stream < 2 ^ 32 },
    ghost count: { sender.count ≡ tile_count sender.layout },
    ghost tiles: { sender.count ≤ 32 },
    ghost tallied: { length tallies.items ≡ sender.count },
    ghost ended: { ends ≤ sender.count + 1 },
    // the End parcels that are still to be sent were made at first
    ghost prepared: { last.items ≡ replicate (sender.count - ends) (end_parcel (length sender.stream)) },
    ghost sound: { IsSound sender ready ends short } by { IsSound-prop sender ready ends short },
}

/// What is kept of a client: its accepted operations, its faults, and one tally for each tile.
#[derive(Debug, Drop)]
pub struct ClientKept {
    pub syncs: SyncRow,
    pub faults: FaultList,
    pub tallies: Tallies,
}
