//! How far a tile is: whom it holds and who is closed, the entry that is to be performed, and its log.
ghost use Rattle.std.specs.Prelude.{◌≡◌, ◌≤◌, ◌<◌, false, length, nat_lt, slice_index_or, IsTrue};
ghost use Rattle.rc_base.specs.Orders.Journal.{has, is_member};
ghost use Rattle.tile_server.specs.Ledgers.{AreReleased, HoldsAll, HoldsEach, LacksSome};

use order_model::record::{Log, LogEntry};
use rc_base::items::Items;
use rc_base::out_of_memory::OutOfMemory;
use rc_base::sync::{Entry, has, is_member};
use std::alloc::Global;

/// How far a tile is with its clients and its grants.
#[derive(Drop)]
pub struct Ledger {
    clients: u8,
    held: [bool; 8],
    closed: [bool; 8],
    known: Option<Entry>,
    no_more: bool,
    log: Vec<LogEntry>,
}

impl Ledger {
    ghost use Rattle.std.specs.Prelude.{◌≡◌, ℕ, ◌≤◌, ◌<◌, true, false, cond, is_none, Some, OnOk, OnErr, IfSome, IfNone, IsTrue};
    ghost use Rattle.rc_base.specs.declared.sync.Entry.{Entry};
    ghost use Rattle.order_model.specs.Standing.{new_progress};
    ghost use Rattle.tile_model.specs.Items.{after_end, after_entry, after_no_more, after_performed, after_wait, after_work};
    ghost use Rattle.tile_server.specs.Ledgers.{held_in, closed_in, is_over_in, HoldsAll, IsLedgerOf, IsSameLedger, KeepsUp, KeepsUpShortOrNot};

    /// The ledger of a tile that took nothing yet.
    pub fn new(alloc: Global, clients: u8) -> Ledger
        ensures clients { result.clients ≡ clients }
        ensures progress { IsLedgerOf false result (new_progress clients) }
    {
        Ledger {
            clients,
            held: [false; 8],
            closed: [false; 8],
            known: None,
            no_more: false,
            log: Vec::new(alloc),
        }
    }

    /// The log, handed out.
    pub fn into_log(self) -> Log
        ensures { result ≡ self.log.items }
    {
        let Ledger { log, .. } = self;
        Items::from_vec(log)
    }

    /// How many clients there are.
    pub fn clients(&self) -> u8
        ensures { result ≡ self.now.clients }
    {
        self.clients
    }

    /// Whether the client waits at an operation.
    pub fn is_held(&self, client: u8) -> bool
        requires { client < 8 }
        ensures { result ≡ held_in self.now client }
    {
        self.held[client as usize]
    }

    /// Whether the End of the client was taken.
    pub fn is_closed(&self, client: u8) -> bool
        requires { client < 8 }
        ensures { result ≡ closed_in self.now client }
    {
        self.closed[client as usize]
    }

    /// Whether the End of each client was taken.
    pub fn all_closed(&self) -> bool
        requires { self.now.clients ≤ 8 }
        ensures yes { IsTrue result
            → (client : ℕ) → client < self.now.clients → closed_in self.now client ≡ true }
        ensures no { result ≡ false
            → (client : ℕ) × (client < self.now.clients) × (closed_in self.now client ≡ false) }
    {
        for client in 0..self.clients {
            if !self.closed[client as usize] {
                return false;
            }
        }
        true
    }

    /// Whether it is known that no more is granted.
    pub fn saw_no_more(&self) -> bool
        ensures { result ≡ self.now.no_more }
    {
        self.no_more
    }

    /// Whether an entry may still be learnt before anything else is performed.
    pub fn is_listening(&self) -> bool
        ensures { result ≡ cond self.now.no_more false (is_none self.now.known) }
    {
        !self.no_more && self.known.is_none()
    }

    /// Whether nothing will be performed any more.
    pub fn is_over(&self) -> bool
        ensures { result ≡ is_over_in self.now }
    {
        self.no_more && self.known.is_none()
    }

    /// The entry that is known, if each of its members is held.
    pub fn due(&self) -> Option<Entry>
        requires { self.now.clients ≤ 8 }
        ensures some { IfSome result (λ e. (self.now.known ≡ Some e)
            × HoldsAll self.now.held self.now.clients e) }
        ensures none { IfNone result ((e : Entry) → self.now.known ≡ Some e
            → HoldsAll self.now.held self.now.clients e → ⊥) }
    {
        match self.known {
            Some(entry) => {
                if holds_all(&self.held, self.clients, entry) {
                    Some(entry)
                } else {
                    None
                }
            }
            None => None,
        }
    }

    /// The known entry is performed, and logged: its members are held no more. Where memory lacks for the log, nothing changes.
    pub fn perform(&mut self, entry: Entry) -> Result<(), OutOfMemory>
        requires known { self.old.known ≡ Some entry }
        ensures done { OnOk result (KeepsUp self.old (λ p. after_performed p entry) self.new) }
        ensures unchanged { OnErr result (IsSameLedger self.old self.new) }
    {
        self.log.push(LogEntry::Performed)?;
        self.known = None;
        release(&mut self.held, self.clients, entry);
        Ok(())
    }

    /// An entry is learnt.
    pub fn learn(&mut self, entry: Entry)
        requires { is_none self.old.known ≡ true }
        ensures { KeepsUp self.old (λ p. after_entry p entry) self.new }
    {
        self.known = Some(entry);
    }

    /// No more is granted.
    pub fn learn_no_more(&mut self)
        ensures clients { self.new.clients ≡ self.old.clients }
        ensures step { KeepsUpShortOrNot self.old after_no_more self.new }
    {
        self.no_more = true;
    }

    /// Work of the client, of this place, is logged. Where memory lacks for that, nothing changes.
    pub fn log_work(&mut self, client: u8, place: u32) -> Result<(), OutOfMemory>
        ensures done { OnOk result (KeepsUp self.old (λ p. after_work p client place) self.new) }
        ensures unchanged { OnErr result (IsSameLedger self.old self.new) }
    {
        self.log.push(LogEntry::Took { client, place })?;
        Ok(())
    }

    /// The client is held.
    pub fn hold(&mut self, client: u8)
        requires { client < 8 }
        ensures { KeepsUp self.old (λ p. after_wait p client) self.new }
    {
        self.held[client as usize] = true;
    }

    /// The client is closed.
    pub fn close(&mut self, client: u8)
        requires { client < 8 }
        ensures clients { self.new.clients ≡ self.old.clients }
        ensures step { KeepsUpShortOrNot self.old (λ p. after_end p client) self.new }
    {
        self.closed[client as usize] = true;
    }
}

/// Each client of the set is held.
fn holds_set(held: &[bool; 8], members: u8) -> bool
    ensures yes { IsTrue result → HoldsEach held.now (has members) }
    ensures no { result ≡ false → LacksSome held.now (has members) }
{
    for client in 0..8u8 {
        if has(u32::from(members), client) && !held[client as usize] {
            return false;
        }
    }
    true
}

/// Each of the first so many clients is held.
fn holds_first(held: &[bool; 8], clients: u8) -> bool
    requires { clients ≤ 8 }
    ensures yes { IsTrue result → HoldsEach held.now (λ client. nat_lt client clients) }
    ensures no { result ≡ false → LacksSome held.now (λ client. nat_lt client clients) }
{
    for client in 0..clients {
        if !held[client as usize] {
            return false;
        }
    }
    true
}

/// The client is held. One beyond the eighth never is.
fn holds_one(held: &[bool; 8], client: u8) -> bool
    ensures { result ≡ slice_index_or held.now client false }
{
    client < 8 && held[client as usize]
}

/// Each member of the entry is held.
fn holds_all(held: &[bool; 8], clients: u8, entry: Entry) -> bool
    requires { clients ≤ 8 }
    ensures yes { IsTrue result → HoldsAll held.now clients entry }
    ensures no { result ≡ false → LacksSome held.now (is_member clients entry) }
{
    match entry {
        Entry::Meet { members, .. } => holds_set(held, members),
        Entry::Swap => holds_first(held, clients),
        Entry::Give { client, .. } => holds_one(held, client),
        Entry::Take { client, .. } => holds_one(held, client),
    }
}

/// The members are held no more.
fn release(held: &mut [bool], clients: u8, entry: Entry)
    requires { length held.old ≡ 8 }
    ensures slots { length held.new ≡ length held.old }
    ensures held { AreReleased clients entry held.old held.new }
{
    for client in 0..8u8 {
        if is_member(entry, client, usize::from(clients)) {
            held[client as usize] = false;
        }
    }
}
