//! What is kept of the clients and of the tiles' cores.
ghost use Rattle.std.specs.Prelude.{◌≡◌, ◌<◌, ℕ, [], length, slice_index_or, IfOk, OnOk};
ghost use Rattle.client_issue.specs.Cores.{no_tally};
ghost use Rattle.client_issue.specs.declared.client.ClientCore.{ClientCore};
ghost use Rattle.rc_base.specs.Lists.{ArePaired};
ghost use Rattle.run_record.specs.Gathering.{IsLogOf};
ghost use Rattle.run_record.specs.Kept.{together, AreAdded, AreKept, HasAdded};

use client_issue::{ClientCore, ClientKept};
use order_model::record::Logs;
use rc_base::cluster::{FaultList, Tally};
use rc_base::out_of_memory::OutOfMemory;
use rc_base::sync::SyncRow;
use std::alloc::Global;
use tile_server::TileCore;

/// By clients their operations and their refused commands; by tiles the tallies of all clients as one.
#[derive(Drop)]
pub struct KeptLists {
    pub rows: Vec<SyncRow>,
    pub faults: Vec<FaultList>,
    pub tallies: Vec<Tally>,
}

/// Two tallies as one; a count stands still at its type's end.
fn together(a: Tally, b: Tally) -> Tally
    ensures { result ≡ together a b }
{
    Tally {
        parcels: a.parcels.saturating_add(b.parcels),
        sets: a.sets.saturating_add(b.sets),
        looks: a.looks.saturating_add(b.looks),
    }
}

/// The tally of this number, or one of nothing.
fn tally_at(tallies: &[Tally], number: usize) -> Tally
    ensures { result ≡ slice_index_or tallies.now number no_tally }
{
    match tallies.get(number) {
        Some(tally) => *tally,
        None => Tally {
            parcels: 0,
            sets: 0,
            looks: 0,
        },
    }
}

/// Adds to each tally the one of its number.
fn add_tallies(sums: &mut [Tally], more: &[Tally])
    ensures { AreAdded sums.old more.now sums.new }
{
    for tile in 0..sums.len() {
        sums[tile] = together(sums[tile], tally_at(more, tile));
    }
}

/// The logs of the tiles, handed out.
pub fn logs_of(alloc: Global, tiles: Vec<TileCore>) -> Result<Logs, OutOfMemory>
    ensures { IfOk result (λ logs. ArePaired IsLogOf tiles.items logs) }
{
    let mut logs = Logs::new(alloc);
    for tile in tiles {
        logs.push(tile.into_log())?;
    }
    Ok(logs)
}

impl KeptLists {
    /// Nothing is kept yet.
    fn new(alloc: Global, tiles: usize) -> Result<KeptLists, OutOfMemory>
        ensures { IfOk result (λ lists. AreKept [] tiles lists) }
    {
        let mut tallies = Vec::new(alloc);
        for _ in 0..tiles {
            tallies.push(Tally {
                parcels: 0,
                sets: 0,
                looks: 0,
            })?;
        }
        Ok(KeptLists {
            rows: Vec::new(alloc),
            faults: Vec::new(alloc),
            tallies,
        })
    }

    /// What is kept of one client more.
    fn add(&mut self, kept: ClientKept) -> Result<(), OutOfMemory>
        ensures { OnOk result (HasAdded self.old kept self.new) }
    {
        add_tallies(&mut self.tallies, kept.tallies.as_slice());
        self.rows.push(kept.syncs)?;
        self.faults.push(kept.faults)?;
        Ok(())
    }
}

/// What is kept of the clients, with one tally for each of so many tiles.
pub fn kept_lists(
    alloc: Global,
    clients: Vec<ClientCore>,
    tiles: usize,
) -> Result<KeptLists, OutOfMemory>
    ensures { IfOk result (λ lists. AreKept clients.items tiles lists) }
{
    let mut lists = KeptLists::new(alloc, tiles)?;
    for client in clients {
        lists.add(client.into_kept())?;
    }
    Ok(lists)
}
