//! The order that a tile's log records.
ghost use Rattle.std.specs.Prelude.{◌≡◌, ◌+◌, ◌-◌, ◌<◌, ◌≤◌, ◌^◌, ◌++◌, true, [], slice_index, slice_index_or, replicate, IfOk, OnOk};
ghost use Rattle.rc_base.specs.Orders.Journal.{is_member, reach_of, start};
ghost use Rattle.rc_base.specs.Orders.Order.{added, all_added, names_from};
ghost use Rattle.rc_base.specs.Orders.Sync.{client_count};
ghost use Rattle.order_model.specs.Counted.{AreCounts, AreCountsFor, HasPerformed, IsRecording, place_or_end};
ghost use Rattle.order_model.specs.Log.{logged};
ghost use Rattle.order_model.specs.Report.{tile_order};

use crate::record::{Log, LogEntry, Record};
use crate::walk::{advance, clients_of, place_or_end, reach_in};
use rc_base::items::Items;
use rc_base::out_of_memory::OutOfMemory;
use rc_base::sync::{Entry, Name, Order, SyncLists, is_member};
use std::alloc::{AllocError, Global};

/// What is read of a log and its journal: the order so far with the number of each client's names, the entries that are performed, and how many
/// operations each client has used in them.
#[derive(Drop)]
struct Recording {
    order: Order,
    counts: [u64; 256],
    read: usize,
    used: [usize; 8],
}

/// Adds a client's names from a place on, below another.
fn add_names(order: &mut Order, client: u8, from: u64, below: u64) -> Result<(), AllocError>
    requires { below ≤ 2 ^ 32 }
    ensures { OnOk result (order.new ≡ order.old ++ names_from client from (below - from)) }
{
    for place in from..below {
        order.push(Name {
            client,
            place: place as u32,
        })?;
    }
    Ok(())
}

/// Adds the client's names below a place that the order doesn't have yet. `counts` are how many names each client has in it.
fn add(
    order: &mut Order,
    counts: &mut [u64; 256],
    client: u8,
    below: u64,
) -> Result<(), OutOfMemory>
    requires below { below ≤ 2 ^ 32 }
    requires counts { AreCounts order.old counts.old }
    ensures order { OnOk result (order.new ≡ added client below order.old) }
    ensures counts { OnOk result (AreCounts order.new counts.new) }
{
    let from = counts[client as usize];
    add_names(order, client, from, below)?;
    if from < below {
        counts[client as usize] = below;
    }
    Ok(())
}

/// Each member of the entry, rising, adds its names up to its operation, that included. `used` are the operations that each client has used.
fn add_members(
    order: &mut Order,
    counts: &mut [u64; 256],
    syncs: &SyncLists,
    used: &[usize; 8],
    entry: Entry,
) -> Result<(), OutOfMemory>
    requires { AreCountsFor syncs.now order.old counts.old }
    ensures order { OnOk result (order.new ≡ all_added (is_member (client_count syncs.now) entry)
        (λ c. place_or_end syncs.now c (slice_index used.now c) + 1) (client_count syncs.now)
        order.old) }
    ensures counts { OnOk result (AreCounts order.new counts.new) }
{
    let clients = clients_of(syncs);
    for client in 0..clients as u8 {
        if is_member(entry, client, clients) {
            let place = place_or_end(syncs, client, used[client as usize]);
            add(order, counts, client, place as u64 + 1)?;
        }
    }
    Ok(())
}

/// Each client, rising, adds its names below its reach.
fn add_rest(
    order: &mut Order,
    counts: &mut [u64; 256],
    syncs: &SyncLists,
    journal: &[Entry],
) -> Result<(), OutOfMemory>
    requires { AreCountsFor syncs.now order.old counts.old }
    ensures { OnOk result (order.new ≡ all_added (λ c. true) (reach_of syncs.now journal.now)
        (client_count syncs.now) order.old) }
{
    for client in 0..clients_of(syncs) as u8 {
        add(
            order,
            counts,
            client,
            reach_in(journal, syncs, client) as u64,
        )?;
    }
    Ok(())
}

/// Performs the journal's next entry, if there is one.
fn perform(
    recording: &mut Recording,
    syncs: &SyncLists,
    journal: &[Entry],
) -> Result<(), OutOfMemory>
    requires clients { client_count syncs.now ≤ 8 }
    requires counted { IsRecording syncs.now journal.now recording.old }
    ensures counted { OnOk result (IsRecording syncs.now journal.now recording.new) }
    ensures order { OnOk result (HasPerformed syncs.now journal.now recording.old recording.new) }
{
    if recording.read >= journal.len() {
        return Ok(());
    }
    let entry = journal[recording.read];
    add_members(
        &mut recording.order,
        &mut recording.counts,
        syncs,
        &recording.used,
        entry,
    )?;
    advance(&mut recording.used, entry, clients_of(syncs));
    recording.read += 1;
    Ok(())
}

/// Nothing is read.
fn nothing_read(alloc: Global) -> Recording
    ensures order { result.order ≡ [] }
    ensures counts { result.counts ≡ replicate 256 0 }
    ensures read { result.read ≡ 0 }
    ensures used { result.used ≡ replicate 8 0 }
{
    Recording {
        order: Items::new(alloc),
        counts: [0; 256],
        read: 0,
        used: [0; 8],
    }
}

/// Reads a log.
fn replay(
    alloc: Global,
    syncs: &SyncLists,
    journal: &[Entry],
    log: &[LogEntry],
) -> Result<Recording, OutOfMemory>
    requires { client_count syncs.now ≤ 8 }
    ensures counts { IfOk result (λ r. AreCounts r.order r.counts) }
    ensures order { IfOk result
        (λ r. r.order ≡ logged syncs.now (start syncs.now) journal.now log.now []) }
{
    let mut recording = nothing_read(alloc);
    for line in log {
        match *line {
            LogEntry::Took { client, place } => add(
                &mut recording.order,
                &mut recording.counts,
                client,
                place as u64 + 1,
            )?,
            LogEntry::Performed => perform(&mut recording, syncs, journal)?,
        }
    }
    Ok(recording)
}

/// The log of a tile. A tile that doesn't exist did nothing.
fn log_of(logs: &[Log], tile: u8) -> &[LogEntry]
    ensures { result.now ≡ slice_index_or logs.now tile [] }
{
    match logs.get(tile as usize) {
        Some(log) => log.as_slice(),
        None => &[],
    }
}

/// The order of all commands that a tile of the run records: a Took adds its client's names up to its place, a Performed the names of each member of
/// the journal's next entry up to its operation, members rising, where the order doesn't have them yet; at the end each client, rising, adds its
/// names below its reach.
pub fn tile_order(alloc: Global, kept: &Record, tile: u8) -> Result<Order, OutOfMemory>
    requires { client_count kept.now.syncs ≤ 8 }
    ensures { IfOk result (λ order. order ≡ tile_order kept.now tile) }
{
    let syncs = &kept.syncs;
    let journal = kept.journal.as_slice();
    let mut recording = replay(alloc, syncs, journal, log_of(kept.logs.as_slice(), tile))?;
    add_rest(&mut recording.order, &mut recording.counts, syncs, journal)?;
    Ok(recording.order)
}
