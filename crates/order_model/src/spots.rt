//! Where names stand in an order, found along a journal.
ghost use Rattle.std.specs.Prelude.{◌≡◌, ◌+◌, ◌<◌, ◌≤◌, [], length, replicate, IsSome, None};
ghost use Rattle.rc_base.specs.Orders.Sync.{client_count};
ghost use Rattle.order_model.specs.Checked.{AreNotBehind, WalksOnTo, WalksAlong, first_at, is_from, next_spot, unit_client, unit_spots};

use crate::walk::{advance, clients_of, place_of};
use rc_base::sync::{Entry, Name, SyncLists};

/// The name is of the client, and of this place or a later one.
fn is_from(name: Name, client: u8, place: u64) -> bool
    ensures { result ≡ is_from client place name }
{
    name.client == client && place <= name.place as u64
}

/// Where the first name of the client of this place or a later one stands, else the end of the order. It is looked for from a spot on that is not
/// behind it.
pub fn first_at(order: &[Name], from: usize, client: u8, place: u64) -> usize
    requires { from ≤ first_at order.now client place }
    ensures { result ≡ first_at order.now client place }
{
    for spot in from..order.len() {
        if is_from(order[spot], client, place) {
            return spot;
        }
    }
    order.len()
}

/// A walk along a journal: how many entries are read, how many operations each client has used in them, and for each client a spot of the order
/// before which none of its names from its next operation on stands.
#[derive(Drop)]
pub struct Walk {
    pub read: usize,
    pub used: [usize; 8],
    pub spots: [usize; 8],
}

/// Nothing is read.
pub fn nothing_read() -> Walk
    ensures read { result.read ≡ 0 }
    ensures used { result.used ≡ replicate 8 0 }
    ensures spots { result.spots ≡ replicate 8 0 }
{
    Walk {
        read: 0,
        used: [0; 8],
        spots: [0; 8],
    }
}

/// Where the name of the next operation of a client stands, if there is a client and it has one left.
fn next_spot(
    order: &[Name],
    syncs: &SyncLists,
    walk: &mut Walk,
    client: Option<u8>,
) -> Option<usize>
    requires clients { client_count syncs.now ≤ 8 }
    requires passed { AreNotBehind syncs.now order.now walk.old.used walk.old.spots }
    ensures spot { result ≡ next_spot syncs.now order.now walk.old.used client }
    ensures passed { AreNotBehind syncs.now order.now walk.old.used walk.new.spots }
    ensures walk { (walk.new.read ≡ walk.old.read) × (walk.new.used ≡ walk.old.used) }
{
    let client = client?;
    if client >= 8 {
        return None;
    }
    match place_of(syncs, client, walk.used[client as usize]) {
        Some(place) => {
            let spot = first_at(order, walk.spots[client as usize], client, place as u64);
            walk.spots[client as usize] = spot;
            Some(spot)
        }
        None => None,
    }
}

/// The client that gives a unit of the semaphore in the entry, or that takes one.
fn unit_client(entry: Entry, gives: bool, semaphore: u8) -> Option<u8>
    ensures { result ≡ unit_client gives semaphore entry }
{
    match entry {
        Entry::Give {
            semaphore: other,
            client,
        } => {
            if gives && other == semaphore {
                Some(client)
            } else {
                None
            }
        }
        Entry::Take {
            semaphore: other,
            client,
        } => {
            if gives {
                None
            } else if other == semaphore {
                Some(client)
            } else {
                None
            }
        }
        _ => None,
    }
}

/// Reads an entry.
fn read_entry(
    order: &[Name],
    syncs: &SyncLists,
    journal: &[Entry],
    walk: &mut Walk,
    gives: bool,
    semaphore: u8,
) -> Option<usize>
    requires along { WalksAlong syncs.now journal.now order.now walk.old }
    requires more { walk.old.read < length journal.now }
    ensures next { WalksOnTo syncs.now journal.now order.now gives semaphore
        walk.old result walk.new }
    ensures read { walk.new.read ≡ walk.old.read + 1 }
{
    let entry = journal[walk.read];
    let spot = next_spot(order, syncs, walk, unit_client(entry, gives, semaphore));
    advance(&mut walk.used, entry, clients_of(syncs));
    walk.read += 1;
    spot
}

/// Where the next name stands that gives a unit of the semaphore, or that takes one.
pub fn next_unit(
    order: &[Name],
    syncs: &SyncLists,
    journal: &[Entry],
    walk: &mut Walk,
    gives: bool,
    semaphore: u8,
) -> Option<usize>
    requires { WalksAlong syncs.now journal.now order.now walk.old }
    ensures next { WalksOnTo syncs.now journal.now order.now gives semaphore
        walk.old result walk.new }
    ensures read { IsSome result → walk.old.read < walk.new.read }
    ensures none { result ≡ None → unit_spots syncs.now journal.now order.now gives semaphore walk.old.read ≡ [] }
{
    for index in walk.read..journal.len() {
        if let Some(spot) = read_entry(order, syncs, journal, walk, gives, semaphore) {
            return Some(spot);
        }
    }
    None
}
