//! Whether the entries of a journal part the names of their members in an order.
ghost use Rattle.std.specs.Prelude.{◌≡◌, ℕ, ◌+◌, ◌-◌, ◌<◌, ◌≤◌, ◌^◌, ◌↔◌, true, cond, IsTrue};
ghost use Rattle.rc_base.specs.Orders.Journal.{is_member};
ghost use Rattle.rc_base.specs.Orders.Order.{entries_of};
ghost use Rattle.rc_base.specs.Orders.Sync.{IsWellFormed, client_count};
ghost use Rattle.order_model.specs.Checked.{CanBeWalked, all_part, parts, place_by, spot_before, spot_behind};

use crate::spots::first_at;
use crate::walk::{clients_of, place_of};
use rc_base::sync::{Entry, Name, SyncLists, is_member};

/// The place of a client's operation in an entry, if it is a member.
fn place_by(syncs: &SyncLists, entry: Entry, client: u8, number: usize) -> Option<u32>
    requires { client < 8 }
    ensures { result ≡ place_by syncs.now entry client number }
{
    if is_member(entry, client, clients_of(syncs)) {
        place_of(syncs, client, number)
    } else {
        None
    }
}

/// How many operations a client has used after an entry.
fn used_after(syncs: &SyncLists, entry: Entry, client: u8, number: usize) -> usize
    requires client { client < 8 }
    requires number { number < 2 ^ 63 }
    ensures { result ≡ cond (is_member (client_count syncs.now) entry client) (number + 1) number }
{
    if is_member(entry, client, clients_of(syncs)) {
        number + 1
    } else {
        number
    }
}

/// A client's walk along a journal: how many operations it has used, and a spot of the order that is not behind what is looked for next.
#[derive(Drop)]
struct Side {
    used: usize,
    spot: usize,
}

/// The first client's names before its operation in the entry stand before the second's names behind its own.
fn are_parted(
    order: &[Name],
    syncs: &SyncLists,
    entry: Entry,
    a: u8,
    first: &mut Side,
    b: u8,
    second: &mut Side,
) -> bool
    requires clients { (a < 8) × (b < 8) }
    requires first { first.old.spot ≤ spot_before syncs.now order.now a first.old.used }
    requires second { second.old.spot ≤ spot_behind syncs.now order.now b second.old.used }
    ensures result { result ≡ parts syncs.now order.now entry a first.old.used b second.old.used }
    ensures first { first.new.spot ≤ spot_before syncs.now order.now a first.old.used }
    ensures second { second.new.spot ≤ spot_behind syncs.now order.now b second.old.used }
    ensures used { (first.new.used ≡ first.old.used) × (second.new.used ≡ second.old.used) }
{
    if let Some(before) = place_by(syncs, entry, a, first.used) {
        if let Some(behind) = place_by(syncs, entry, b, second.used) {
            if before > 0 {
                first.spot = first_at(order, first.spot, a, before as u64 - 1);
                second.spot = first_at(order, second.spot, b, behind as u64 + 1);
                return first.spot <= second.spot;
            }
        }
    }
    true
}

/// Each entry parts the names of these two clients.
fn all_part(order: &[Name], syncs: &SyncLists, journal: &[Entry], a: u8, b: u8) -> bool
    requires clients { (a < 8) × (b < 8) }
    requires lists { IsWellFormed syncs.now }
    ensures { result ≡ all_part order.now a b (entries_of syncs.now journal.now) }
{
    let mut first = Side { used: 0, spot: 0 };
    let mut second = Side { used: 0, spot: 0 };
    for entry in journal {
        if !are_parted(order, syncs, *entry, a, &mut first, b, &mut second) {
            return false;
        }
        first.used = used_after(syncs, *entry, a, first.used);
        second.used = used_after(syncs, *entry, b, second.used);
    }
    true
}

/// Each entry parts the names of a client and any other.
fn all_part_from(order: &[Name], syncs: &SyncLists, journal: &[Entry], a: u8) -> bool
    requires client { a < 8 }
    requires syncs { CanBeWalked syncs.now }
    ensures { IsTrue result ↔ ((b : ℕ) → b < client_count syncs.now
        → all_part order.now a b (entries_of syncs.now journal.now) ≡ true) }
{
    for b in 0..clients_of(syncs) as u8 {
        if !all_part(order, syncs, journal, a, b) {
            return false;
        }
    }
    true
}

/// Each entry parts the names of its members.
pub fn entries_part(order: &[Name], syncs: &SyncLists, journal: &[Entry]) -> bool
    requires { CanBeWalked syncs.now }
    ensures { IsTrue result ↔ ((a b : ℕ) → a < client_count syncs.now → b < client_count syncs.now
        → all_part order.now a b (entries_of syncs.now journal.now) ≡ true) }
{
    for a in 0..clients_of(syncs) as u8 {
        if !all_part_from(order, syncs, journal, a) {
            return false;
        }
    }
    true
}
