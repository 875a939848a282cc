//! The book.
ghost use Rattle.std.specs.Prelude.{length};
ghost use Rattle.std.specs.Vec.{vec_len, vec_capacity};
ghost use Rattle.sync_manager.specs.Stored.{IsSoundBook};

use crate::search::{grant_at, is_name};
use crate::unit::{move_unit, release, widened};
use rc_base::items::Items;
use rc_base::out_of_memory::OutOfMemory;
use rc_base::scene::{Counts, Decl};
use rc_base::sync::{Entry, Journal, SyncOp, WaitAt, Waiting};
use std::alloc::Global;

/// What is known of synchronisation: the operation at which each client waits, the units of each semaphore, who has ended, and the entries that
/// were granted. It grants the first lawful entry by what arrived.
#[derive(Drop)]
pub struct Book {
    clients: u8,
    counts: Counts,
    units: Vec<u64>,
    waiting: [Option<WaitAt>; 8],
    ended: [bool; 8],
    entries: Vec<Entry>,
    pub ghost is_sound: { IsSoundBook clients counts units.items waiting (vec_len entries) (vec_capacity entries) },
}

impl Book {
    ghost use Rattle.std.specs.Prelude.{◌≡◌, ℕ, ◌≤◌, ◌<◌, true, false, is_some, length, Some, None, IfOk, OnOk, OnErr, IfSome, IsSome, IsNone, IsTrue, ◌↔◌};
    ghost use Rattle.rc_base.specs.Orders.Book.{standing, waiting_in, IsBookOver};
    ghost use Rattle.rc_base.specs.Orders.Book.BookEvent.{Arrives, Ends, Grants};
    ghost use Rattle.rc_base.specs.Orders.Grant.{grant};
    ghost use Rattle.rc_base.specs.Orders.Journal.{NothingIsLawful};
    ghost use Rattle.sync_manager.specs.Stored.{CountSomeone, wait_at};
    ghost use Rattle.sync_manager.specs.Books.{clients_in, waiting_at, names_declared, journal_in, has_ended, is_wanted, first_in, AllWaitOrEnded, IsBookAfter, IsBookOf, IsNewBook, IsStuck, OfBook};

    /// A book in which nothing arrived, with the units as declared.
    pub fn new(alloc: Global, decl: &Decl, clients: u8) -> Result<Book, OutOfMemory>
        requires clients { (0 < clients) × (clients ≤ 8) }
        requires barriers { length decl.now.barriers < 256 }
        requires counts { CountSomeone decl.now.barriers }
        ensures clients { IfOk result (λ kept. clients_in kept ≡ clients) }
        ensures book { IfOk result (λ kept. IsNewBook decl.now clients kept) }
    {
        let counts = Items::from_slice(alloc, decl.barriers.as_slice())?;
        let units = widened(alloc, decl.semaphores.as_slice())?;
        Ok(Book {
            clients,
            counts,
            units,
            waiting: [None; 8],
            ended: [false; 8],
            entries: Vec::new(alloc),
        })
    }

    /// How many clients there are.
    pub fn clients(&self) -> u8
        ensures { result ≡ clients_in self.now }
    {
        self.clients
    }

    /// Whether the client neither waits nor has ended.
    pub fn is_wanted(&self, client: u8) -> bool
        requires { client < clients_in self.now }
        ensures { result ≡ is_wanted self.now client }
    {
        !self.ended[client as usize] && self.waiting[client as usize].is_none()
    }

    /// Whether the operation names a barrier or a semaphore that is declared.
    pub fn is_declared(&self, op: SyncOp) -> bool
        ensures { result ≡ names_declared self.now op }
    {
        match op {
            SyncOp::Barrier(name) => is_name(self.counts.len(), name),
            SyncOp::SemP(name) => is_name(self.units.len(), name),
            SyncOp::SemV(name) => is_name(self.units.len(), name),
            SyncOp::Swap => true,
        }
    }

    /// An operation of a client arrives, and room is made for the entry that it may lead to. Where there is no memory for it, nothing arrived.
    pub fn arrive(&mut self, client: u8, place: u32, op: SyncOp) -> Result<(), OutOfMemory>
        requires client { client < clients_in self.old }
        requires free { waiting_at self.old client ≡ None }
        requires running { has_ended self.old client ≡ false }
        requires declared { names_declared self.old op ≡ true }
        ensures clients { clients_in self.new ≡ clients_in self.old }
        ensures arrived { OnOk result (IsBookAfter self.old (Arrives client record { place = place; op = op }) self.new) }
        ensures unchanged { OnErr result (OfBook self.old (λ syncs b. IsBookOf syncs self.new b)) }
    {
        self.entries.reserve(8)?;
        self.waiting[client as usize] = Some(WaitAt { place, op });
        Ok(())
    }

    /// A client has ended.
    pub fn end(&mut self, client: u8)
        requires client { client < clients_in self.old }
        requires free { waiting_at self.old client ≡ None }
        requires running { has_ended self.old client ≡ false }
        ensures clients { clients_in self.new ≡ clients_in self.old }
        ensures ended { IsBookAfter self.old (Ends client) self.new }
    {
        self.ended[client as usize] = true;
    }

    /// The first lawful entry by what arrived.
    pub(crate) fn next_entry(&self) -> Option<Entry>
        ensures { result ≡ first_in self.now }
    {
        grant_at(
            self.counts.as_slice(),
            self.units.as_slice(),
            &self.waiting,
            self.clients,
        )
    }

    /// Carries out the first lawful entry.
    pub(crate) fn carry_out(&mut self, entry: Entry)
        requires { first_in self.old ≡ Some entry }
        ensures clients { clients_in self.new ≡ clients_in self.old }
        ensures granted { IsBookAfter self.old Grants self.new }
    {
        release(&mut self.waiting, self.clients, entry);
        move_unit(&mut self.units, entry);
        self.entries.push_reserved(entry);
    }

    /// Grants the first lawful entry: the Give of the lowest client that waits to give, else the Take of the lowest that can have a unit, else the
    /// Meet of the lowest barrier where enough clients wait, else Swap where all do. Its members wait no more. None comes exactly where no entry is
    /// lawful by what arrived.
    pub fn grant(&mut self) -> Option<Entry>
        ensures clients { clients_in self.new ≡ clients_in self.old }
        ensures entry { OfBook self.old (λ syncs b. result ≡ grant syncs (standing syncs b)) }
        ensures none { OfBook self.old (λ syncs b. IsNone result ↔ NothingIsLawful syncs (standing syncs b)) }
        ensures granted { IsBookAfter self.old Grants self.new }
    {
        match self.next_entry() {
            Some(entry) => {
                self.carry_out(entry);
                Some(entry)
            }
            None => None,
        }
    }

    /// Each client waits or has ended.
    pub(crate) fn all_wait(&self) -> bool
        ensures { IsTrue result ↔ AllWaitOrEnded self.now }
    {
        for client in 0..self.clients {
            if self.is_wanted(client) {
                return false;
            }
        }
        true
    }

    fn someone_waits(&self) -> bool
        ensures { IsTrue result ↔ ((client : ℕ) × (is_some (wait_at self.now.waiting client) ≡ true)) }
    {
        for client in 0..self.clients {
            if self.waiting[client as usize].is_some() {
                return true;
            }
        }
        false
    }

    /// Whether the book is over: each client waits or has ended, and no entry is lawful.
    pub fn is_over(&self) -> bool
        ensures { OfBook self.now (λ syncs b. IsTrue result ↔ IsBookOver syncs b) }
    {
        self.all_wait() && self.next_entry().is_none()
    }

    /// Where the book is over and a client waits, the operation at which each client waits.
    pub fn stuck(&self) -> Option<Waiting>
        ensures exact { OfBook self.now (λ syncs b. IsSome result ↔ IsStuck syncs b) }
        ensures waiting { IfSome result
            (λ w. OfBook self.now (λ syncs b. (client : ℕ) → wait_at w.at client ≡ waiting_in syncs b client)) }
    {
        if self.is_over() && self.someone_waits() {
            Some(Waiting { at: self.waiting })
        } else {
            None
        }
    }

    /// The entries that were granted.
    pub fn journal(&self) -> &[Entry]
        ensures { result.now ≡ journal_in self.now }
    {
        self.entries.as_slice()
    }

    /// The journal, handed out.
    pub fn into_journal(self) -> Journal
        ensures { result ≡ journal_in self }
    {
        let Book { entries, .. } = self;
        Items::from_vec(entries)
    }
}
