//! The checker of one given order.
ghost use Rattle.std.specs.Prelude.{◌≡◌, ◌≤◌, ◌↔◌, ℕ, IsTrue, length, replicate, slice_index};
ghost use Rattle.rc_base.specs.Orders.Journal.{reach_of};
ghost use Rattle.rc_base.specs.Orders.Order.{IsPermitted};
ghost use Rattle.rc_base.specs.Orders.Sync.{IsWellFormed, client_count};
ghost use Rattle.order_model.specs.Checked.{CanBeWalked, runs_to};

use crate::parted::entries_part;
use crate::units::all_hand_over;
use crate::walk::reach_in;
use rc_base::sync::{Entry, Journal, Name, Order, SyncLists};

/// What each client reaches.
fn reaches(syncs: &SyncLists, journal: &[Entry]) -> [u32; 8]
    requires { client_count syncs.now ≤ 8 }
    ensures slots { length result ≡ 8 }
    ensures ends { (client : ℕ) → slice_index result client ≡ reach_of syncs.now journal.now client }
{
    let mut ends = [0; 8];
    for client in 0..8u8 {
        ends[client as usize] = reach_in(journal, syncs, client);
    }
    ends
}

/// Each client's names are those from 0 up to its end, in their order.
fn runs_to(order: &[Name], ends: &[u32; 8]) -> bool
    ensures { result ≡ runs_to ends.now (replicate 8 0) order.now }
{
    let mut next = [0; 8];
    for name in order {
        let client = name.client as usize;
        if client >= 8 || name.place != next[client] || name.place >= ends[client] {
            return false;
        }
        next[client] += 1;
    }
    next == *ends
}

/// The parts of a permitted order.
fn permits(order: &[Name], journal: &[Entry], syncs: &SyncLists) -> bool
    requires { CanBeWalked syncs.now }
    ensures { IsTrue result ↔ IsPermitted syncs.now journal.now order.now }
{
    let ends = reaches(syncs, journal);
    if !runs_to(order, &ends) {
        return false;
    }
    if !entries_part(order, syncs, journal) {
        return false;
    }
    all_hand_over(order, syncs, journal)
}

/// Whether the journal permits the order: it has each name below its client's reach once and no other, each client's names rise, the name that gave
/// a unit stands before the one that took it, and for each Meet or Swap all names before a member's operation stand before all names after any
/// member's operation. No memory is taken, and the time is linear in the order and the journal.
pub fn is_permitted(order: &Order, journal: &Journal, syncs: &SyncLists) -> bool
    requires clients { client_count syncs.now ≤ 8 }
    requires lists { IsWellFormed syncs.now }
    ensures { IsTrue result ↔ IsPermitted syncs.now journal.now order.now }
{
    permits(order.as_slice(), journal.as_slice(), syncs)
}
