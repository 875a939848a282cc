//! What a step of the manager does.
ghost use Rattle.std.specs.Prelude.{◌≡◌};
ghost use Rattle.sync_manager.specs.Progress.{answer_of};

use rc_base::cluster::ManagerMoved;
use rc_base::out_of_memory::OutOfMemory;
use rc_base::sync::{Entry, Grant, Request, SyncOp};

/// What a step does, with the item that it moves.
#[derive(Clone, Copy)]
pub enum ManagerDeed {
    /// The grant is appended for the tile.
    Delivers { tile: u8, grant: Grant },
    /// A grant is due to the tile, and its lane is full.
    FindsFull { tile: u8 },
    /// The book grants the entry.
    Grants(Entry),
    /// A request of the client is taken, and arrives or ends the client.
    Receives { client: u8, request: Request },
    /// An operation of the client is taken, and dropped since memory lacks.
    Loses { client: u8, place: u32, op: SyncOp },
    /// No client that neither waits nor has ended has a request in its lane.
    FindsNoRequest,
    /// No more is granted: a request of the client is taken and dropped.
    Drops { client: u8, request: Request },
    /// No client whose End wasn't taken has a request in its lane.
    FindsNoneLeft,
    /// Nothing is left to do.
    Finishes,
}

/// What is to be done next.
#[derive(Clone, Copy)]
pub enum Task {
    /// To append the grant for the tile.
    Deliver { tile: u8, grant: Grant },
    /// To carry out the entry.
    Grant(Entry),
    /// To take a request that may arrive.
    Receive,
    /// To take a request and drop it.
    Drain,
}

/// What the step answers.
pub fn answer(deed: ManagerDeed) -> Result<ManagerMoved, OutOfMemory>
    ensures { result ≡ answer_of deed }
{
    match deed {
        ManagerDeed::Delivers { tile, .. } => Ok(ManagerMoved::Delivered { tile }),
        ManagerDeed::FindsFull { tile } => Ok(ManagerMoved::BlockedGrant { tile }),
        ManagerDeed::Grants(_) => Ok(ManagerMoved::Granted),
        ManagerDeed::Receives { client, .. } => Ok(ManagerMoved::Arrived { client }),
        ManagerDeed::Loses { .. } => Err(OutOfMemory),
        ManagerDeed::FindsNoRequest => Ok(ManagerMoved::BlockedRequest),
        ManagerDeed::Drops { client, .. } => Ok(ManagerMoved::Drained { client }),
        ManagerDeed::FindsNoneLeft => Ok(ManagerMoved::BlockedRequest),
        ManagerDeed::Finishes => Ok(ManagerMoved::Ended),
    }
}
