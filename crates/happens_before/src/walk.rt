//! A journal read entry by entry: what each entry puts before what.
ghost use Rattle.std.specs.Prelude.{◌≡◌, slice_index, ◌+◌, ◌<◌, ◌≤◌, ◌^◌, ℕ, length, Some, None, List, IfSome, IfOk, OnOk};
ghost use Rattle.rc_base.specs.declared.sync.Name.{Name as AnyName};
ghost use Rattle.rc_base.specs.Lists.{AreRising};
ghost use Rattle.rc_base.specs.Orders.Journal.{IsLegal};
ghost use Rattle.rc_base.specs.Orders.Sync.{IsWellFormed, client_count, ops_of, places_of};
ghost use Rattle.rc_base.specs.declared.sync.Entry.{Entry as AnyEntry};
ghost use Rattle.rc_base.specs.declared.sync.Entry.TheVariants as entry;
ghost use Rattle.order_model.specs.Checked.{place_by};
ghost use Rattle.order_model.specs.Counted.{place_at};
ghost use Rattle.happens_before.specs.Clocks.{IsExact};
ghost use Rattle.happens_before.specs.Walks.{HasRead, IsAlong, IsNext, KeepsNext};
ghost use Rattle.happens_before.specs.Timelines.{ChangesGoTo, IsGate, IsRaised, KeepsChanges, behind, AreOrdered, IsUnitEntry, clock_of, places_in};

use crate::semaphores::Semaphore;
use crate::timelines::Timelines;
use order_model::walk::{advance, clients_of};
use rc_base::out_of_memory::OutOfMemory;
use rc_base::sync::{Entry, Name, SyncLists, SyncRow, is_member};
use std::alloc::Global;

fn operation_place(row: &SyncRow, number: usize) -> Option<u32>
    requires { AreRising 0 (places_of row.now.ops) row.now.length }
    ensures place { result ≡ place_at row.now.ops number }
    ensures small { IfSome result (λ p. p + 1 < 2 ^ 32) }
{
    let _end = row.length;
    match row.ops.as_slice().get(number) {
        Some(wait) => Some(wait.place),
        None => None,
    }
}

/// The place of a client's operation of this number.
fn place_of(syncs: &SyncLists, client: u8, number: usize) -> Option<u32>
    requires { IsWellFormed syncs.now }
    ensures place { result ≡ place_at (ops_of syncs.now client) number }
    ensures small { IfSome result (λ p. p + 1 < 2 ^ 32) }
{
    match syncs.clients.as_slice().get(client as usize) {
        Some(row) => operation_place(row, number),
        None => None,
    }
}

/// The place of a client's operation in an entry, if it is a member.
fn place_by(syncs: &SyncLists, entry: Entry, client: u8, number: usize) -> Option<u32>
    requires client { client < 8 }
    requires lists { IsWellFormed syncs.now }
    ensures place { result ≡ place_by syncs.now entry client number }
    ensures small { IfSome result (λ p. p + 1 < 2 ^ 32) }
{
    if is_member(entry, client, clients_of(syncs)) {
        place_of(syncs, client, number)
    } else {
        None
    }
}

/// How many entries are read, how many operations each client has used in them, what they left of the semaphores, and the clocks.
#[derive(Drop)]
struct Walk {
    read: usize,
    used: [usize; 8],
    semaphores: Vec<Semaphore>,
    timelines: Timelines,
}

/// The places of the members' operations.
fn places(syncs: &SyncLists, entry: Entry, used: &[usize; 8]) -> [Option<u32>; 8]
    requires { IsWellFormed syncs.now }
    ensures slots { length result ≡ 8 }
    ensures places { (c : ℕ) → c < 8
        → places_in result c ≡ place_by syncs.now entry c (slice_index used.now c) }
    ensures small { (c p : ℕ) → places_in result c ≡ Some p → p + 1 < 2 ^ 32 }
{
    let mut places = [None; 8];
    for client in 0..8u8 {
        places[client as usize] = place_by(syncs, entry, client, used[client as usize]);
    }
    places
}

/// What is before the members' operations, and these names.
fn gate_of(timelines: &Timelines, at: &[Option<u32>; 8]) -> [u32; 8]
    requires timelines { AreOrdered timelines.now.clients.items }
    ensures { IsGate (clock_of timelines.now.clients.items) (places_in at.now)
        (slice_index result) }
{
    let mut gate = [0; 8];
    for client in 0..8u8 {
        match at[client as usize] {
            Some(behind) => {
                if behind > 0 {
                    let place = behind - 1;
                    timelines.count(&mut gate, Name { client, place });
                }
            }
            None => {}
        }
    }
    gate
}

/// From behind the members' operations on, their names have these before them too.
fn raise_members(
    timelines: &mut Timelines,
    at: &[Option<u32>; 8],
    gate: &[u32; 8],
) -> Result<(), OutOfMemory>
    requires timelines { AreOrdered timelines.old.clients.items }
    requires small { (c p : ℕ) → places_in at.now c ≡ Some p → p + 1 < 2 ^ 32 }
    requires late { (c p : ℕ) → places_in at.now c ≡ Some p
        → ChangesGoTo timelines.old c (p + 1) }
    ensures clients { OnOk result (length timelines.new.clients.items ≡ 8) }
    ensures moved { OnOk result ((c p : ℕ) → c < 8 → places_in at.now c ≡ Some p
        → ChangesGoTo timelines.new c (p + 1)) }
    ensures others { OnOk result ((c : ℕ) → c < 8 → places_in at.now c ≡ None
        → KeepsChanges timelines.old timelines.new c) }
    ensures clock { OnOk result ((n : AnyName) (d : ℕ) → n.client < 8
        → IsRaised timelines.old (behind (places_in at.now)) gate.now timelines.new n d) }
{
    for client in 0..8u8 {
        match at[client as usize] {
            Some(place) => timelines.raise(client, place + 1, gate)?,
            None => {}
        }
    }
    Ok(())
}

impl Walk {
    /// Nothing is read.
    fn new(alloc: Global, syncs: &SyncLists) -> Result<Walk, OutOfMemory>
        requires lists { IsWellFormed syncs.now }
        ensures read { IfOk result (λ w. w.read ≡ 0) }
        ensures is { IfOk result (λ w. (journal : List AnyEntry) → HasRead syncs.now journal w) }
    {
        let mut semaphores = Vec::new(alloc);
        for name in 0..256usize {
            semaphores.push(Semaphore::new(alloc, syncs, name as u8))?;
        }
        Ok(Walk {
            read: 0,
            used: [0; 8],
            semaphores,
            timelines: Timelines::new(alloc)?,
        })
    }

    /// A client gives a unit.
    fn give(
        &mut self,
        syncs: &SyncLists,
        journal: &[Entry],
        semaphore: u8,
        client: u8,
    ) -> Result<(), OutOfMemory>
        requires client { client < 8 }
        requires next { IsNext syncs.now journal.now (entry.Give semaphore client) self.old }
        ensures { OnOk result (KeepsNext syncs.now journal.now self.old self.new) }
    {
        let _journal = journal;
        if let Some(place) = place_of(syncs, client, self.used[client as usize]) {
            self.semaphores[semaphore as usize].give(Name { client, place })?;
        }
        Ok(())
    }

    /// A client takes a unit: what is before its giver, and the giver, is before the name that takes it.
    fn take(
        &mut self,
        syncs: &SyncLists,
        journal: &[Entry],
        semaphore: u8,
        client: u8,
    ) -> Result<(), OutOfMemory>
        requires client { client < 8 }
        requires next { IsNext syncs.now journal.now (entry.Take semaphore client) self.old }
        ensures { OnOk result (KeepsNext syncs.now journal.now self.old self.new) }
    {
        let _journal = journal;
        if let Some(giver) = self.semaphores[semaphore as usize].take() {
            if let Some(place) = place_of(syncs, client, self.used[client as usize]) {
                let mut gate = [0; 8];
                self.timelines.count(&mut gate, giver);
                self.timelines.raise(client, place, &gate)?;
            }
        }
        Ok(())
    }

    /// An entry parts the names of its members.
    fn part(
        &mut self,
        syncs: &SyncLists,
        journal: &[Entry],
        entry: Entry,
    ) -> Result<(), OutOfMemory>
        requires many { IsUnitEntry entry → ⊥ }
        requires next { IsNext syncs.now journal.now entry self.old }
        ensures { OnOk result (KeepsNext syncs.now journal.now self.old self.new) }
    {
        let _journal = journal;
        let at = places(syncs, entry, &self.used);
        let gate = gate_of(&self.timelines, &at);
        raise_members(&mut self.timelines, &at, &gate)?;
        Ok(())
    }

    /// Reads an entry, but for the operations that it uses.
    fn keep(
        &mut self,
        syncs: &SyncLists,
        journal: &[Entry],
        entry: Entry,
    ) -> Result<(), OutOfMemory>
        requires { IsNext syncs.now journal.now entry self.old }
        ensures { OnOk result (KeepsNext syncs.now journal.now self.old self.new) }
    {
        match entry {
            Entry::Give { semaphore, client } => self.give(syncs, journal, semaphore, client),
            Entry::Take { semaphore, client } => self.take(syncs, journal, semaphore, client),
            Entry::Meet { .. } => self.part(syncs, journal, entry),
            Entry::Swap => self.part(syncs, journal, entry),
        }
    }

    /// Reads the next entry.
    fn read(&mut self, syncs: &SyncLists, journal: &[Entry]) -> Result<(), OutOfMemory>
        requires along { IsAlong syncs.now journal.now self.old }
        requires more { self.old.read < length journal.now }
        ensures read { OnOk result (self.new.read ≡ self.old.read + 1) }
        ensures is { OnOk result (HasRead syncs.now journal.now self.new) }
    {
        let entry = journal[self.read];
        self.keep(syncs, journal, entry)?;
        advance(&mut self.used, entry, clients_of(syncs));
        self.read += 1;
        Ok(())
    }
}

/// For each name that a journal carries out, how many names of each client are before it.
pub fn clocks_of(
    alloc: Global,
    journal: &[Entry],
    syncs: &SyncLists,
) -> Result<Timelines, OutOfMemory>
    requires lists { IsWellFormed syncs.now }
    requires clients { client_count syncs.now ≤ 8 }
    requires legal { IsLegal syncs.now journal.now }
    ensures ordered { IfOk result (λ t. AreOrdered t.clients.items) }
    ensures exact { IfOk result (λ t. IsExact syncs.now journal.now (clock_of t.clients.items)) }
{
    let mut walk = Walk::new(alloc, syncs)?;
    for _ in 0..journal.len() {
        walk.read(syncs, journal)?;
    }
    let Walk { timelines, .. } = walk;
    Ok(timelines)
}
