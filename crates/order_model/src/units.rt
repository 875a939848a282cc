//! Whether an order has each unit of a semaphore given before it is taken.
ghost use Rattle.std.specs.Prelude.{◌≡◌, ◌≤◌, ◌↔◌, ℕ, true, false, IsTrue, slice_index, replicate};
ghost use Rattle.rc_base.specs.Orders.Sync.{units_of};
ghost use Rattle.order_model.specs.Checked.{CanBeWalked, WalksAlong, IsWalkOf, Passes, are_in_turn, hands_over, takes_in, unit_spots};

use crate::spots::{Walk, next_unit, nothing_read};
use rc_base::sync::{Entry, Name, SyncLists};

/// The units of a semaphore at first.
fn units_of(syncs: &SyncLists, semaphore: u8) -> u16
    ensures { result ≡ units_of syncs.now semaphore }
{
    if semaphore == 0 {
        return 0;
    }
    match syncs.units.as_slice().get(semaphore as usize - 1) {
        Some(units) => *units,
        None => 0,
    }
}

fn no_takes() -> [usize; 256]
    ensures { result ≡ replicate 256 0 }
{
    [0; 256]
}

/// How many entries take a unit of each semaphore.
fn takes_of(journal: &[Entry]) -> [usize; 256]
    ensures takes { (semaphore : ℕ) → slice_index result semaphore ≡ takes_in semaphore journal.now }
    ensures names { (semaphore : ℕ) → 256 ≤ semaphore → takes_in semaphore journal.now ≡ 0 }
{
    let mut takes = no_takes();
    for entry in journal {
        if let Entry::Take { semaphore, .. } = *entry {
            takes[semaphore as usize] += 1;
        }
    }
    takes
}

/// Passes the names that have a semaphore's first units.
fn pass_first(
    order: &[Name],
    syncs: &SyncLists,
    journal: &[Entry],
    takers: &mut Walk,
    semaphore: u8,
    units: u16,
)
    requires { WalksAlong syncs.now journal.now order.now takers.old }
    ensures walk { IsWalkOf syncs.now journal.now order.now takers.new }
    ensures spots { Passes syncs.now journal.now order.now semaphore units takers.old takers.new }
{
    for unit in 0..units {
        let _spot = next_unit(order, syncs, journal, takers, false, semaphore);
    }
}

/// The first giver stands before the first taker, the second before the second, and so on.
fn are_in_turn(
    order: &[Name],
    syncs: &SyncLists,
    journal: &[Entry],
    givers: &mut Walk,
    takers: &mut Walk,
    semaphore: u8,
) -> bool
    requires givers { WalksAlong syncs.now journal.now order.now givers.old }
    requires takers { WalksAlong syncs.now journal.now order.now takers.old }
    ensures { result ≡ are_in_turn
        (unit_spots syncs.now journal.now order.now true semaphore givers.old.read)
        (unit_spots syncs.now journal.now order.now false semaphore takers.old.read) }
{
    for index in takers.read..journal.len() {
        match next_unit(order, syncs, journal, takers, false, semaphore) {
            Some(taken) => match next_unit(order, syncs, journal, givers, true, semaphore) {
                Some(given) => {
                    if taken <= given {
                        return false;
                    }
                }
                None => return true,
            },
            None => return true,
        }
    }
    true
}

/// Each unit of the semaphore beyond the first ones is given before it is taken.
fn hands_over(order: &[Name], syncs: &SyncLists, journal: &[Entry], semaphore: u8) -> bool
    requires { CanBeWalked syncs.now }
    ensures { result ≡ hands_over syncs.now journal.now order.now semaphore }
{
    let mut givers = nothing_read();
    let mut takers = nothing_read();
    pass_first(
        order,
        syncs,
        journal,
        &mut takers,
        semaphore,
        units_of(syncs, semaphore),
    );
    are_in_turn(order, syncs, journal, &mut givers, &mut takers, semaphore)
}

/// Each unit of every semaphore beyond its first ones is given before it is taken.
pub fn all_hand_over(order: &[Name], syncs: &SyncLists, journal: &[Entry]) -> bool
    requires { CanBeWalked syncs.now }
    ensures { IsTrue result ↔ ((semaphore : ℕ)
        → hands_over syncs.now journal.now order.now semaphore ≡ true) }
{
    let takes = takes_of(journal);
    for number in 0..256usize {
        let semaphore = number as u8;
        if takes[number] > units_of(syncs, semaphore) as usize {
            if !hands_over(order, syncs, journal, semaphore) {
                return false;
            }
        }
    }
    true
}
