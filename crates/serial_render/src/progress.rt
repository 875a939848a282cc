//! How far clients are that take turns.
ghost use Rattle.std.specs.Prelude.{◌≡◌, ℕ, ◌+◌, ◌-◌, ◌<◌, ◌≤◌, ◌^◌, [], true, false, length, is_some, Some, slice_get, slice_index, IfOk, OnOk};
ghost use Rattle.std.specs.Option.{option_map_or};
ghost use Rattle.rc_base.specs.Orders.Grant.{grant};
ghost use Rattle.rc_base.specs.Orders.Journal.{sync_state_after};
ghost use Rattle.rc_base.specs.Orders.Order.{added, all_added};
ghost use Rattle.rc_base.specs.Orders.Sync.{IsWellFormed, client_count, client_row, length_of};
ghost use Rattle.sync_manager.specs.Books.{clients_in, is_wanted, journal_in, names_declared};
ghost use Rattle.serial_render.specs.Turns.{CanAdvance, IsOrderUnderWay, IsBetweenTurns, StaysUnderWay, left_after};
ghost use Rattle.order_model.specs.Gathering.{AreDeclared};
ghost use Rattle.serial_render.specs.Advances.{CountsNames, GoOnByOne, IsTold, stop_in};

use crate::runs::RunOrder;
use rc_base::items::Items;
use rc_base::out_of_memory::OutOfMemory;
use rc_base::scene::{Decl, Sizes};
use rc_base::sync::{SyncLists, SyncRow, WaitAt};
use std::alloc::Global;
use sync_manager::book::Book;

/// The book, the order so far, and for each client how many of its operations have arrived and how many of its names the order has.
#[derive(Drop)]
pub(crate) struct Progress {
    pub(crate) book: Book,
    pub(crate) order: RunOrder,
    arrived: [usize; 8],
    issued: [u32; 8],
}

// The row of a client.
fn row_of(syncs: &SyncLists, client: u8) -> &SyncRow
    requires { client < client_count syncs.now }
    ensures { result.now ≡ client_row syncs.now client }
{
    &syncs.clients.as_slice()[client as usize]
}

// An operation of a client, by its index.
fn operation(row: &SyncRow, index: usize) -> Option<WaitAt>
    ensures operation { result ≡ slice_get row.now.ops index }
    ensures room { is_some result ≡ true → index + 1 < 2 ^ 64 }
    ensures small { index < 2 ^ 64 }
{
    match row.ops.as_slice().get(index) {
        Some(wait) => Some(*wait),
        None => None,
    }
}

// The place of an operation, or else the end of the stream.
fn place_of(next: Option<WaitAt>, end: u32) -> u32
    ensures { result ≡ option_map_or (λ (w : WaitAt). w.place) next end }
{
    match next {
        Some(wait) => wait.place,
        None => end,
    }
}

// The place behind one that lies below the end.
fn place_behind(place: u32, end: u32) -> u32
    requires { place < end }
    ensures { result ≡ place + 1 }
{
    place + 1
}

// Tells the book of the client's next operation, or that it has ended.
fn tell(book: &mut Book, client: u8, next: Option<WaitAt>) -> Result<(), OutOfMemory>
    requires client { client < clients_in book.old }
    requires wanted { is_wanted book.old client ≡ true }
    requires declared { (w : WaitAt) → next ≡ Some w → names_declared book.old w.op ≡ true }
    ensures { OnOk result (IsTold client next book.old book.new) }
{
    match next {
        Some(wait) => book.arrive(client, wait.place, wait.op)?,
        None => book.end(client),
    }
    Ok(())
}

// What the lists say of barriers and semaphores, as a declaration.
fn declared(alloc: Global, syncs: &SyncLists) -> Result<Decl, OutOfMemory>
    ensures barriers { IfOk result (λ d. d.barriers ≡ syncs.now.counts) }
    ensures semaphores { IfOk result (λ d. d.semaphores ≡ syncs.now.units) }
{
    Ok(Decl {
        version: 1,
        width: 1,
        height: 1,
        shared: Sizes::new(alloc),
        barriers: Items::from_slice(alloc, syncs.counts.as_slice())?,
        semaphores: Items::from_slice(alloc, syncs.units.as_slice())?,
    })
}

impl Progress {
    /// Before the first turn: nothing is issued.
    pub(crate) fn new(alloc: Global, syncs: &SyncLists) -> Result<Progress, OutOfMemory>
        requires well { IsWellFormed syncs.now }
        requires clients { client_count syncs.now ≤ 8 }
        requires barriers { length syncs.now.counts < 256 }
        ensures way { IfOk result (λ p. IsOrderUnderWay syncs.now p) }
        ensures journal { IfOk result (λ p. journal_in p.book ≡ []) }
        ensures order { IfOk result (λ p. p.order ≡ []) }
    {
        let decl = declared(alloc, syncs)?;
        Ok(Progress {
            book: Book::new(alloc, &decl, syncs.clients.len() as u8)?,
            order: RunOrder::new(alloc),
            arrived: [0; 8],
            issued: [0; 8],
        })
    }

    /// A client that is wanted issues up to its next operation, or to the end of its stream.
    fn advance_client(&mut self, syncs: &SyncLists, client: u8) -> Result<(), OutOfMemory>
        requires way { CanAdvance syncs.now self.old }
        requires client { client < client_count syncs.now }
        requires wanted { is_wanted self.old.book client ≡ true }
        ensures way { OnOk result (StaysUnderWay syncs.now self.old self.new) }
        ensures order { OnOk result
            (self.new.order ≡ added client (stop_in syncs.now self.old client) self.old.order) }
        ensures settled { OnOk result (is_wanted self.new.book client ≡ false) }
        ensures others { OnOk result ((c : ℕ) → c < client_count syncs.now
            → is_wanted self.old.book c ≡ false → is_wanted self.new.book c ≡ false) }
    {
        let row = row_of(syncs, client);
        let next = operation(row, self.arrived[client as usize]);
        let place = place_of(next, row.length);
        let first = self.issued[client as usize];
        self.order.add(client, first, place)?;
        self.issued[client as usize] = place;
        self.arrived[client as usize] += usize::from(next.is_some());
        tell(&mut self.book, client, next)?;
        Ok(())
    }

    /// Each client that is wanted does, clients rising.
    pub(crate) fn advance(&mut self, syncs: &SyncLists) -> Result<(), OutOfMemory>
        requires { CanAdvance syncs.now self.old }
        ensures way { OnOk result (StaysUnderWay syncs.now self.old self.new) }
        ensures order { OnOk result (self.new.order ≡ all_added
            (λ c. true) (stop_in syncs.now self.old) (client_count syncs.now) self.old.order) }
        ensures settled { OnOk result
            ((c : ℕ) → c < client_count syncs.now → is_wanted self.new.book c ≡ false) }
    {
        for client in 0..syncs.clients.len() as u8 {
            if self.book.is_wanted(client) {
                self.advance_client(syncs, client)?;
            }
        }
        Ok(())
    }

    /// The clients that are wanted after a grant, which are the members of its entry, add the names of their operations.
    fn perform(&mut self, syncs: &SyncLists) -> Result<(), OutOfMemory>
        requires clients { client_count syncs.now ≤ 8 }
        requires book { client_count syncs.now ≡ clients_in self.old.book }
        requires issued { CountsNames syncs.now self.old }
        requires slots { length self.old.issued ≡ 8 }
        requires room { (c : ℕ) → c < client_count syncs.now → is_wanted self.old.book c ≡ true
            → slice_index self.old.issued c < length_of syncs.now c }
        ensures book { OnOk result (self.new.book ≡ self.old.book) }
        ensures arrived { OnOk result (self.new.arrived ≡ self.old.arrived) }
        ensures order { OnOk result (self.new.order ≡ all_added (is_wanted self.old.book)
            (λ c. slice_index self.old.issued c + 1) (client_count syncs.now) self.old.order) }
        ensures issued { OnOk result (GoOnByOne syncs.now self.old self.new) }
        ensures slots { OnOk result (length self.new.issued ≡ 8) }
        ensures names { OnOk result (CountsNames syncs.now self.new) }
    {
        for client in 0..syncs.clients.len() as u8 {
            if self.book.is_wanted(client) {
                let place = self.issued[client as usize];
                let behind = place_behind(place, row_of(syncs, client).length);
                self.order.add(client, place, behind)?;
                self.issued[client as usize] = behind;
            }
        }
        Ok(())
    }

    /// One entry is granted and performed, and its members go on. The answer is whether there was one.
    pub(crate) fn turn(&mut self, syncs: &SyncLists) -> Result<bool, OutOfMemory>
        requires well { IsWellFormed syncs.now }
        requires clients { client_count syncs.now ≤ 8 }
        requires declared { AreDeclared syncs.now }
        requires turns { IsBetweenTurns syncs.now self.old }
        ensures turns { OnOk result (IsBetweenTurns syncs.now self.new) }
        ensures less { IfOk result (λ more. more ≡ true → left_after syncs.now
            (journal_in self.new.book) < left_after syncs.now (journal_in self.old.book)) }
        ensures over { IfOk result (λ more. more ≡ false → grant syncs.now
            (sync_state_after syncs.now (journal_in self.new.book)) ≡ None) }
    {
        match self.book.grant() {
            Some(_) => {
                self.perform(syncs)?;
                self.advance(syncs)?;
                Ok(true)
            }
            None => Ok(false),
        }
    }
}
