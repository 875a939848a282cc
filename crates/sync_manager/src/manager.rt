//! The manager's core: its steps.
ghost use Rattle.std.specs.Prelude.{◌≤◌};
ghost use Rattle.sync_manager.specs.Books.{clients_in};

use crate::book::Book;
use crate::deed::{ManagerDeed, Task, answer};
use rc_base::cluster::ManagerMoved;
use rc_base::lane::{Inlet, Outlet};
use rc_base::out_of_memory::OutOfMemory;
use rc_base::rotation::take_in_rotation;
use rc_base::scene::Decl;
use rc_base::sync::{Entry, Grant, Journal, Request, SyncOp};
use std::alloc::Global;

/// The manager of one cluster. Step by step it takes the clients' requests, grants entries, and appends each entry for each tile. Once no more is
/// granted, it appends NoMore for each tile, and takes and drops what the clients have left to ask.
#[derive(Drop)]
pub struct ManagerCore {
    book: Book,
    tiles: u8,
    // how many tiles, from tile 0 on, have the last entry
    supplied: u8,
    // how many tiles, from tile 0 on, have NoMore
    told: u8,
    // the clients whose End wasn't taken
    left: [bool; 8],
    start: u8,
    short: bool,
    ghost starts: { start ≤ clients_in book },
}

impl ManagerCore {
    ghost use Rattle.std.specs.Prelude.{◌≡◌, ◌⊎◌, ◌≤◌, ◌<◌, true, false, length, IfOk, OnOk, OnErr, IfSome, IfNone};
    ghost use Rattle.rc_base.specs.Cluster.Lanes.{EachLane};
    ghost use Rattle.sync_manager.specs.Books.{clients_in, names_declared};
    ghost use Rattle.sync_manager.specs.Stored.{CountSomeone};
    ghost use Rattle.sync_manager.specs.Progress.{answer_of};
    ghost use Rattle.sync_manager.specs.Cores.{clients_of, tiles_of, book_of, drained_in, is_short, AreLeft, AreWanted, HasToldAll, AreServed, AreSupplied, IsManagerStep, IsNewManager, OfProgress, AreTaken, AreFoundEmpty, AreSent, AreFoundFull};
    ghost use Rattle.sync_manager.specs.Tasks.{AllSupplied, MayReceive, IsDeliveryIn, IsReceivingIn, IsDrainingIn, IsTask, IsEnding, IsNoted, IsTakingIn, IsServing, IsSupplying};
    ghost use Rattle.rc_base.specs.declared.sync.Grant.TheVariants as grant;
    ghost use Rattle.sync_manager.specs.declared.deed.Task.TheVariants as task;
    ghost use Rattle.sync_manager.specs.declared.deed.ManagerDeed.{ManagerDeed};
    ghost use Rattle.sync_manager.specs.declared.deed.ManagerDeed.TheVariants as deed;

    /// A manager that has done nothing, of so many clients and tiles, with the units as declared.
    pub fn new(
        alloc: Global,
        decl: &Decl,
        clients: u8,
        tiles: u8,
    ) -> Result<ManagerCore, OutOfMemory>
        requires clients { (0 < clients) × (clients ≤ 8) }
        requires barriers { length decl.now.barriers < 256 }
        requires counts { CountSomeone decl.now.barriers }
        ensures clients { IfOk result (λ core. clients_of core ≡ clients) }
        ensures tiles { IfOk result (λ core. tiles_of core ≡ tiles) }
        ensures progress { IfOk result (λ core. IsNewManager decl.now clients core) }
    {
        let book = Book::new(alloc, decl, clients)?;
        Ok(ManagerCore {
            book,
            tiles,
            supplied: tiles,
            told: 0,
            left: [true; 8],
            start: 0,
            short: false,
        })
    }

    /// The book.
    pub fn book(&self) -> &Book
        ensures { result.now ≡ book_of self.now }
    {
        &self.book
    }

    /// The journal, handed out.
    pub fn into_journal(self) -> Journal
        ensures { OfProgress self (λ syncs d. result ≡ d.book.journal) }
    {
        let ManagerCore { book, .. } = self;
        book.into_journal()
    }

    /// Whether memory has lacked in a step.
    pub fn is_short(&self) -> bool
        ensures { result ≡ is_short self.now }
    {
        self.short
    }

    // ---- what is next

    /// The last entry, where it isn't yet with every tile.
    fn owed(&self) -> Option<Entry>
        ensures some { IfSome result (λ e. IsDeliveryIn self.now self.now.supplied (grant.Entry e)) }
        ensures none { IfNone result (AllSupplied self.now) }
    {
        if self.supplied < self.tiles {
            self.book.journal().last().copied()
        } else {
            None
        }
    }

    fn task(&self) -> Task
        ensures { IsTask self.now result }
    {
        if let Some(entry) = self.owed() {
            return Task::Deliver {
                tile: self.supplied,
                grant: Grant::Entry(entry),
            };
        }
        if !self.short {
            if let Some(entry) = self.book.next_entry() {
                return Task::Grant(entry);
            }
            if !self.book.all_wait() {
                return Task::Receive;
            }
        }
        if self.told < self.tiles {
            Task::Deliver {
                tile: self.told,
                grant: Grant::NoMore,
            }
        } else {
            Task::Drain
        }
    }

    // ---- grants

    /// The grant was appended for the tile.
    fn note_delivered(&mut self, tile: u8, grant: Grant)
        requires { IsDeliveryIn self.old tile grant }
        ensures { IsManagerStep self.old (deed.Delivers tile grant) self.new }
    {
        match grant {
            Grant::Entry(_) => self.supplied = tile + 1,
            Grant::NoMore => self.told = tile + 1,
        }
    }

    /// The entry is granted, and no tile has it yet.
    fn grant(&mut self, entry: Entry)
        requires { IsTask self.old (task.Grant entry) }
        ensures { IsManagerStep self.old (deed.Grants entry) self.new }
    {
        self.book.carry_out(entry);
        self.supplied = 0;
    }

    // ---- requests

    /// A request of the client was taken.
    fn note_taken(&mut self, client: u8, request: Request)
        requires { client < clients_of self.old }
        ensures { IsNoted self.old client request self.new }
    {
        self.start = client + 1;
        if let Request::End = request {
            self.left[client as usize] = false;
        }
    }

    /// The client's operation arrives, or is lost where memory lacks.
    fn arrive(&mut self, client: u8, place: u32, op: SyncOp) -> ManagerDeed
        requires received { MayReceive self.old client }
        requires declared { names_declared (book_of self.old) op ≡ true }
        ensures { IsTakingIn self.old client (Request.Op place op) result self.new }
    {
        let request = Request::Op { place, op };
        match self.book.arrive(client, place, op) {
            Ok(()) => {
                self.note_taken(client, request);
                ManagerDeed::Receives { client, request }
            }
            Err(OutOfMemory) => {
                self.short = true;
                self.note_taken(client, request);
                ManagerDeed::Loses { client, place, op }
            }
        }
    }

    /// The client has ended.
    fn end(&mut self, client: u8, request: Request)
        requires received { MayReceive self.old client }
        requires ending { IsEnding self.old request }
        ensures { IsManagerStep self.old (deed.Receives client request) self.new }
    {
        self.book.end(client);
        self.note_taken(client, request);
    }

    /// A request that was taken arrives in the book; one for what isn't declared counts as End.
    fn enter(&mut self, client: u8, request: Request) -> ManagerDeed
        requires { MayReceive self.old client }
        ensures { IsTakingIn self.old client request result self.new }
    {
        if let Request::Op { place, op } = request {
            if self.book.is_declared(op) {
                return self.arrive(client, place, op);
            }
        }
        self.end(client, request);
        ManagerDeed::Receives { client, request }
    }

    /// A request that was taken is dropped.
    fn drop_request(&mut self, client: u8, request: Request)
        requires client { client < clients_of self.old }
        requires left { drained_in self.old client ≡ false }
        requires task { IsDrainingIn self.old }
        ensures { IsManagerStep self.old (deed.Drops client request) self.new }
    {
        self.note_taken(client, request);
    }

    /// Nothing was taken while requests are dropped.
    fn rest(&self) -> ManagerDeed
        requires { IsDrainingIn self.now }
        ensures step { IsManagerStep self.now result self.now }
        ensures deed { (result ≡ deed.FindsNoneLeft) ⊎ (result ≡ deed.Finishes) }
    {
        for client in 0..self.book.clients() {
            if self.left[client as usize] {
                return ManagerDeed::FindsNoneLeft;
            }
        }
        ManagerDeed::Finishes
    }

    /// The clients that neither wait nor have ended.
    fn wanted(&self) -> [bool; 8]
        ensures { AreWanted self.now result }
    {
        let mut asks = [false; 8];
        for client in 0..self.book.clients() {
            asks[client as usize] = self.book.is_wanted(client);
        }
        asks
    }

    /// The clients whose requests a step takes, where it takes one: those that neither wait nor have ended, and once each tile has NoMore those whose End
    /// wasn't taken.
    pub fn asked(&self) -> [bool; 8]
        ensures receiving { (HasToldAll self.now → ⊥) → AreWanted self.now result }
        ensures draining { HasToldAll self.now → AreLeft self.now result }
    {
        if self.told >= self.tiles {
            self.left
        } else {
            self.wanted()
        }
    }

    // ---- a step

    /// Appends the grant for the tile, unless its lane is full.
    fn deliver<O: Outlet<Grant>>(&mut self, grants: &mut [O], tile: u8, grant: Grant) -> ManagerDeed
        requires lanes { length grants.old ≡ tiles_of self.old }
        requires due { IsDeliveryIn self.old tile grant }
        requires tile { tile < tiles_of self.old }
        ensures { IsSupplying O.lane_of O.sent O.full_seen O.full self.old result self.new
            grants.old grants.new }
    {
        match grants[tile as usize].push(grant) {
            Ok(()) => {
                self.note_delivered(tile, grant);
                ManagerDeed::Delivers { tile, grant }
            }
            Err(_) => ManagerDeed::FindsFull { tile },
        }
    }

    /// Takes a request that may arrive.
    fn receive<I: Inlet<Request>>(&mut self, requests: &mut [I]) -> ManagerDeed
        requires lanes { length requests.old ≡ clients_of self.old }
        requires task { IsReceivingIn self.old }
        ensures { IsServing I.lane_of I.gave I.same I.empty_seen I.bare self.old result self.new
            requests.old requests.new }
    {
        let asks = self.wanted();
        match take_in_rotation(requests, &asks, self.start as usize) {
            Some((client, request)) => self.enter(client as u8, request),
            None => ManagerDeed::FindsNoRequest,
        }
    }

    /// Takes a request and drops it.
    fn drain<I: Inlet<Request>>(&mut self, requests: &mut [I]) -> ManagerDeed
        requires lanes { length requests.old ≡ clients_of self.old }
        requires task { IsDrainingIn self.old }
        ensures { IsServing I.lane_of I.gave I.same I.empty_seen I.bare self.old result self.new
            requests.old requests.new }
    {
        match take_in_rotation(requests, &self.left, self.start as usize) {
            Some((client, request)) => {
                let client = client as u8;
                self.drop_request(client, request);
                ManagerDeed::Drops { client, request }
            }
            None => self.rest(),
        }
    }

    fn act<I: Inlet<Request>, O: Outlet<Grant>>(
        &mut self,
        requests: &mut [I],
        grants: &mut [O],
    ) -> ManagerDeed
        requires clients { length requests.old ≡ clients_of self.old }
        requires tiles { length grants.old ≡ tiles_of self.old }
        ensures step { IsManagerStep self.old result self.new }
        ensures requests { AreServed I.lane_of I.gave I.same I.empty_seen I.bare self.old result
            requests.old requests.new }
        ensures grants { AreSupplied O.lane_of O.sent O.full_seen O.full result
            grants.old grants.new }
    {
        match self.task() {
            Task::Deliver { tile, grant } => self.deliver(grants, tile, grant),
            Task::Grant(entry) => {
                self.grant(entry);
                ManagerDeed::Grants(entry)
            }
            Task::Receive => self.receive(requests),
            Task::Drain => self.drain(requests),
        }
    }

    /// Does the first of these that applies.
    ///
    /// 1. An entry that isn't yet with every tile is appended for the next tile.
    /// 2. The book grants an entry.
    /// 3. While the book isn't over, one request is taken of the clients that neither wait nor have ended: of the first whose lane has one, in
    ///    rotation after the last client that was taken from, at first from client 0. A request for a name that isn't declared counts as End.
    /// 4. Once the book is over, NoMore is appended for each tile in turn.
    /// 5. Then what is left in the lanes is taken and dropped, in the same rotation, until each client's End was taken.
    /// 6. Then nothing is left to do.
    ///
    /// Where memory lacks, an operation that was taken is dropped and the manager becomes short: it grants nothing more, and goes on with 4.
    pub fn step<I: Inlet<Request>, O: Outlet<Grant>>(
        &mut self,
        requests: &mut [I],
        grants: &mut [O],
    ) -> Result<ManagerMoved, OutOfMemory>
        requires clients { length requests.old ≡ clients_of self.old }
        requires tiles { length grants.old ≡ tiles_of self.old }
        ensures clients { clients_of self.new ≡ clients_of self.old }
        ensures tiles { tiles_of self.new ≡ tiles_of self.old }
        ensures request_lanes { EachLane (λ i a b. I.lane_of b ≡ I.lane_of a) requests.old requests.new }
        ensures grant_lanes { EachLane (λ i a b. O.lane_of b ≡ O.lane_of a) grants.old grants.new }
        ensures out_of_memory { OnErr result ((is_short self.old ≡ false) × (is_short self.new ≡ true)) }
        ensures ample { OnOk result (is_short self.new ≡ is_short self.old) }
        // the answer tells what it did: the first case that applies; it took and appended just that, and each lane that it found empty or full says so
        ensures step { (did : ManagerDeed) × (result ≡ answer_of did) × IsManagerStep self.old did self.new
            × AreTaken I.gave I.same did requests.old requests.new
            × AreFoundEmpty I.empty_seen I.bare self.old did requests.old requests.new
            × AreSent O.sent did grants.old grants.new
            × AreFoundFull O.full_seen O.full did grants.old grants.new }
    {
        answer(self.act(requests, grants))
    }
}
