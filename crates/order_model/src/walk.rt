//! Walks along a journal, which count the operations that each client has used.
ghost use Rattle.std.specs.Prelude.{◌≡◌, ◌<◌, ◌≤◌, ◌^◌, ◌==◌, ℕ, slice_index};
ghost use Rattle.rc_base.specs.Orders.Journal.{is_member, reach_of};
ghost use Rattle.rc_base.specs.Orders.Sync.{client_count, ops_of};
ghost use Rattle.order_model.specs.Counted.{HaveUsedOneMore, place_at, place_or, place_or_end, used_by};

use crate::record::Record;
use rc_base::sync::{Entry, SyncLists, SyncRow, is_member};

/// How many clients there are.
pub fn clients_of(syncs: &SyncLists) -> usize
    ensures { result ≡ client_count syncs.now }
{
    syncs.clients.len()
}

/// How many entries use an operation of the client.
fn used_by(journal: &[Entry], client: u8, clients: usize) -> usize
    requires { client < 8 }
    ensures { result ≡ used_by clients client journal.now }
{
    let mut n = 0;
    for entry in journal {
        if is_member(*entry, client, clients) {
            n += 1;
        }
    }
    n
}

/// The client has used one operation more.
fn advance_one(used: &mut [usize; 8], client: u8)
    requires { (other : ℕ) → slice_index used.old other < 2 ^ 63 }
    ensures { HaveUsedOneMore (λ other. other == client) used.old used.new }
{
    if client < 8 {
        used[client as usize] += 1;
    }
}

/// Each member has used one operation more.
pub fn advance(used: &mut [usize; 8], entry: Entry, clients: usize)
    requires { (client : ℕ) → slice_index used.old client < 2 ^ 63 }
    ensures { HaveUsedOneMore (is_member clients entry) used.old used.new }
{
    match entry {
        Entry::Give { client, .. } => advance_one(used, client),
        Entry::Take { client, .. } => advance_one(used, client),
        _ => {
            for client in 0..8u8 {
                if is_member(entry, client, clients) {
                    used[client as usize] += 1;
                }
            }
        }
    }
}

fn place_in(row: &SyncRow, number: usize) -> Option<u32>
    ensures { result ≡ place_at row.now.ops number }
{
    match row.ops.as_slice().get(number) {
        Some(wait) => Some(wait.place),
        None => None,
    }
}

/// The place of a client's operation of this number.
pub fn place_of(syncs: &SyncLists, client: u8, number: usize) -> Option<u32>
    ensures { result ≡ place_at (ops_of syncs.now client) number }
{
    match syncs.clients.as_slice().get(client as usize) {
        Some(row) => place_in(row, number),
        None => None,
    }
}

fn place_or_length(row: &SyncRow, number: usize) -> u32
    ensures { result ≡ place_or row.now.ops number row.now.length }
{
    match row.ops.as_slice().get(number) {
        Some(wait) => wait.place,
        None => row.length,
    }
}

/// The place of a client's operation of this number, else the end of its stream.
pub fn place_or_end(syncs: &SyncLists, client: u8, number: usize) -> u32
    ensures { result ≡ place_or_end syncs.now client number }
{
    match syncs.clients.as_slice().get(client as usize) {
        Some(row) => place_or_length(row, number),
        None => 0,
    }
}

/// The place of the client's first operation that the journal doesn't use, else the end of its stream.
pub fn reach_in(journal: &[Entry], syncs: &SyncLists, client: u8) -> u32
    requires { client < 8 }
    ensures { result ≡ reach_of syncs.now journal.now client }
{
    place_or_end(syncs, client, used_by(journal, client, clients_of(syncs)))
}

/// Where a client of the run stops: the place of its first accepted operation of synchronisation that the journal doesn't use, else the number of
/// commands in its stream. The commands below this place are carried out. A client that doesn't exist stops at 0.
pub fn reach(kept: &Record, client: u8) -> u32
    requires { client_count kept.now.syncs ≤ 8 }
    ensures { result ≡ reach_of kept.now.syncs kept.now.journal client }
{
    if client >= 8 {
        return 0;
    }
    reach_in(kept.journal.as_slice(), &kept.syncs, client)
}
