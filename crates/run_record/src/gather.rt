//! What cores leave that have ended.
ghost use Rattle.std.specs.Prelude.{IfOk};
ghost use Rattle.run_record.specs.Collected.{AreCollected};

use crate::kept::{kept_lists, logs_of};
use client_issue::ClientCore;
use order_model::record::Record;
use rc_base::cluster::{FaultLists, Tallies};
use rc_base::out_of_memory::OutOfMemory;
use rc_base::scene::{Counts, Decl, Units};
use rc_base::sync::{SyncLists, SyncRows, Waiting};
use std::alloc::Global;
use sync_manager::manager::ManagerCore;
use tile_server::TileCore;

/// The record, what was sent, who waits for ever, and what was refused.
#[derive(Drop)]
pub struct Collected {
    pub kept: Record,
    pub tallies: Tallies,
    pub waiting: Option<Waiting>,
    pub faults: FaultLists,
}

/// Takes the cores of a cluster apart: the clients' lists, the tiles' logs, the journal, and who is stuck.
pub fn collect(
    alloc: Global,
    decl: &Decl,
    clients: Vec<ClientCore>,
    manager: ManagerCore,
    tiles: Vec<TileCore>,
) -> Result<Collected, OutOfMemory>
    ensures { IfOk result (λ c. AreCollected decl.now clients.items manager tiles.items c.kept c.tallies c.waiting c.faults) }
{
    let lists = kept_lists(alloc, clients, tiles.len())?;
    let logs = logs_of(alloc, tiles)?;
    let counts = Counts::from_slice(alloc, decl.barriers.as_slice())?;
    let units = Units::from_slice(alloc, decl.semaphores.as_slice())?;
    let waiting = manager.book().stuck();
    let journal = manager.into_journal();
    Ok(Collected {
        kept: Record {
            journal,
            logs,
            syncs: SyncLists {
                clients: SyncRows::from_vec(lists.rows),
                counts,
                units,
            },
        },
        tallies: Tallies::from_vec(lists.tallies),
        waiting,
        faults: FaultLists::from_vec(lists.faults),
    })
}
