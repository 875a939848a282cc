//! A tile's core: its steps.
ghost use Rattle.std.specs.Prelude.{◌≡◌, ◌≤◌};
ghost use Rattle.tile_server.specs.Boards.{canvas_clients, is_plain};
ghost use Rattle.tile_server.specs.Deeds.{is_wait};

use crate::deed::{Taking, TileDeed, answer};
use crate::lazy::LazyCanvas;
use crate::ledger::Ledger;
use order_model::record::Log;
use parcel_bytes::{Packed, Room};
use rc_base::cluster::{TileMoved, TilePart};
use rc_base::lane::Inlet;
use rc_base::out_of_memory::OutOfMemory;
use rc_base::rotation::take_in_rotation;
use rc_base::scene::Decl;
use rc_base::state::{Act, Parcel};
use rc_base::sync::{Entry, Grant};
use rc_base::window::Layout;
use std::alloc::Global;

/// One tile of a cluster.
#[derive(Drop)]
pub struct TileCore {
    ledger: Ledger,
    canvas: LazyCanvas,
    // for the vertices of the next block
    room: Room,
    next: u8,
    frames: u32,
    short: bool,
    ghost few: { ledger.clients ≤ 8 },
    ghost clients: { canvas_clients canvas.drawn ≡ ledger.clients },
    ghost turn: { next ≤ ledger.clients },
}

impl TileCore {
    ghost use Rattle.std.specs.Prelude.{◌≡◌, ◌≢◌, ℕ, ◌⊎◌, ◌≤◌, ◌<◌, ◌||◌, ◌-◌, nat_lt, slice_index_or, cond, not, true, false, None, length, IfOk, OnOk, OnErr, IfSome, IfNone, IsTrue};
    ghost use Rattle.rc_base.specs.Cluster.Tiles.{tile_count};
    ghost use Rattle.rc_base.specs.Cluster.Parcels.{is_end};
    ghost use Rattle.order_model.specs.Standing.{Progress, new_progress};
    ghost use Rattle.tile_model.specs.Acts.{is_work};
    ghost use Rattle.tile_server.specs.Boards.{is_plain};
    ghost use Rattle.tile_model.specs.Boards.{IsNewBoard};
    ghost use Rattle.rc_base.specs.declared.state.Parcel.{Parcel};
    ghost use Rattle.rc_base.specs.declared.sync.Entry.{Entry};
    ghost use Rattle.rc_base.specs.declared.sync.Entry.TheVariants.{Swap};
    ghost use Rattle.rc_base.specs.declared.sync.Grant.TheVariants as grant;
    ghost use Rattle.tile_server.specs.Deeds.{granted_of, is_wait, AnswersDeed};
    ghost use Rattle.tile_server.specs.Ledgers.{held_in, is_over_in};
    ghost use Rattle.tile_server.specs.Tasks.{asks_in, listens_in, IsDueIn, IsFinishedIn, IsFreeIn, IsInternalStep, IsNextPart, MayLearn, MayTakeIn, NothingIsDueIn, WorkIsTried};
    ghost use Rattle.tile_server.specs.declared.deed.TileDeed.TheVariants as deed;
    ghost use Rattle.tile_server.specs.Cores.{board_of, clients_of, decl_of, is_short, layout_of, next_of, tile_of, waiting_of, AreFoundEmpty, AreSameLanes, AreServed, AreTaken, BecameShort, CountsUnheard, IsHeard, IsProgressOf, IsSameCore, IsSameView, IsTileAct, IsTileStep, TakesMore};

    /// The core of a tile that was sent nothing yet.
    pub fn new(
        alloc: Global,
        decl: &Decl,
        clients: u8,
        layout: &Layout,
        tile: u8,
    ) -> Result<TileCore, OutOfMemory>
        requires clients { clients ≤ 8 }
        requires tile { tile < tile_count layout.now }
        ensures decl { IfOk result (λ core. decl_of core ≡ decl.now) }
        ensures clients { IfOk result (λ core. clients_of core ≡ clients) }
        ensures layout { IfOk result (λ core. layout_of core ≡ layout.now) }
        ensures tile { IfOk result (λ core. tile_of core ≡ tile) }
        ensures rotation { IfOk result (λ core. next_of core ≡ 0) }
        ensures ample { IfOk result (λ core. is_short core ≡ false) }
        ensures progress { IfOk result (λ core. IsProgressOf core (new_progress clients)) }
        ensures board { IfOk result (λ core. IsNewBoard decl.now layout.now tile (board_of core)) }
    {
        let canvas = LazyCanvas::new(alloc, decl, clients, layout, tile)?;
        Ok(TileCore {
            ledger: Ledger::new(alloc, clients),
            canvas,
            room: Room::new(alloc),
            next: 0,
            frames: 0,
            short: false,
        })
    }

    /// The log, handed out.
    pub fn into_log(self) -> Log
        ensures { (p : Progress) → IsProgressOf self p → result ≡ p.log }
    {
        let TileCore { ledger, .. } = self;
        ledger.into_log()
    }

    /// Whether memory has lacked in a step.
    pub fn is_short(&self) -> bool
        ensures { result ≡ is_short self.now }
    {
        self.short
    }

    // ---- what is next

    /// The entry that is to be performed.
    fn due(&self) -> Option<Entry>
        ensures some { IfSome result (λ e. IsDueIn self.now e) }
        ensures none { IfNone result (NothingIsDueIn self.now) }
    {
        if self.short {
            return None;
        }
        self.ledger.due()
    }

    /// Whether grants are taken.
    pub fn listens(&self) -> bool
        ensures { result ≡ listens_in self.now }
    {
        if self.short {
            return !self.ledger.saw_no_more();
        }
        self.ledger.is_listening()
    }

    /// Whether parcels of the client are taken. It has no branch, since `asked` calls it for each client.
    #[tactic(auto, using(crate::proofs::Asked::asked_by))]
    fn asks(&self, client: u8, free: bool) -> bool
        requires client { client < 8 }
        requires free { free ≡ (is_short self.now || is_over_in self.now.ledger) }
        ensures { result ≡ asks_in self.now client }
    {
        !self.ledger.is_closed(client) & (free | !self.ledger.is_held(client))
    }

    /// The clients that parcels are taken of: whom a tile holds counts as long as it isn't short and more may be performed.
    pub fn asked(&self) -> [bool; 8]
        ensures { (client : ℕ) → client < clients_of self.now
            → slice_index_or result client true ≡ asks_in self.now client }
    {
        let free = self.short || self.ledger.is_over();
        let mut asks = [false; 8];
        for client in 0..self.ledger.clients() {
            asks[client as usize] = self.asks(client, free);
        }
        asks
    }

    /// Whether an entry may still be performed, where none is to come.
    fn may_perform(&self) -> bool
        ensures { result ≡ cond (is_short self.now) false (not (is_over_in self.now.ledger)) }
    {
        if self.short {
            return false;
        }
        !self.ledger.is_over()
    }

    /// Whether nothing is left to do.
    fn is_finished(&self) -> bool
        ensures yes { IsTrue result → IsFinishedIn self.now }
        ensures no { result ≡ false → IsFinishedIn self.now → ⊥ }
    {
        if !self.ledger.saw_no_more() {
            return false;
        }
        if self.may_perform() {
            return false;
        }
        self.ledger.all_closed()
    }

    // ---- entries

    /// The entry is performed.
    fn perform_entry(&mut self, entry: Entry) -> TileDeed
        requires due { IsDueIn self.old entry }
        requires unshown { entry ≢ Swap }
        ensures { IsInternalStep self.old result self.new }
    {
        match self.ledger.perform(entry) {
            Ok(()) => TileDeed::Performs(entry),
            Err(OutOfMemory) => {
                self.short = true;
                TileDeed::Fails
            }
        }
    }

    /// A Swap is performed, which shows the part.
    fn show_part(&mut self, part: TilePart) -> TileDeed
        requires due { IsDueIn self.old Swap }
        requires part { IsNextPart self.old part }
        ensures { IsInternalStep self.old result self.new }
    {
        match self.ledger.perform(Entry::Swap) {
            Ok(()) => {
                self.frames = self.frames.saturating_add(1);
                TileDeed::Shows(part)
            }
            Err(OutOfMemory) => {
                self.short = true;
                TileDeed::Fails
            }
        }
    }

    /// The part that the next Swap shows, behind all blocks that wait.
    fn next_part(&mut self) -> Result<TilePart, OutOfMemory>
        ensures same { IsSameView self.old self.new }
        ensures part { IfOk result (λ part. IsNextPart self.new part) }
    {
        self.canvas.part(self.frames.saturating_add(1))
    }

    /// A Swap is performed.
    fn show(&mut self) -> TileDeed
        requires { IsDueIn self.old Swap }
        ensures { IsInternalStep self.old result self.new }
    {
        match self.next_part() {
            Ok(part) => self.show_part(part),
            Err(OutOfMemory) => {
                self.short = true;
                TileDeed::Fails
            }
        }
    }

    fn perform(&mut self, entry: Entry) -> TileDeed
        requires { IsDueIn self.old entry }
        ensures { IsInternalStep self.old result self.new }
    {
        match entry {
            Entry::Swap => self.show(),
            _ => self.perform_entry(entry),
        }
    }

    // ---- grants

    /// An entry is learnt; a short tile drops it.
    fn learn_entry(&mut self, entry: Entry)
        requires { MayLearn self.old }
        ensures { IsTileStep self.old (deed.Learns (grant.Entry entry)) self.new }
    {
        if !self.short {
            self.ledger.learn(entry);
        }
    }

    /// No more is granted.
    fn learn_no_more(&mut self)
        requires { MayLearn self.old }
        ensures { IsTileStep self.old (deed.Learns grant.NoMore) self.new }
    {
        self.ledger.learn_no_more();
    }

    fn learn(&mut self, grant: Grant)
        requires { MayLearn self.old }
        ensures { IsTileStep self.old (deed.Learns grant) self.new }
    {
        match grant {
            Grant::Entry(entry) => self.learn_entry(entry),
            Grant::NoMore => self.learn_no_more(),
        }
    }

    // ---- parcels

    /// The work is carried out and logged.
    fn work(&mut self, client: u8, parcel: Parcel) -> Result<(), OutOfMemory>
        requires client { client < clients_of self.old }
        requires work { is_work parcel.act ≡ true }
        ensures { WorkIsTried self.old client parcel result self.new }
    {
        let place = parcel.place;
        let drawn = self.canvas.carry_out(client, parcel);
        self.room.keep(drawn);
        self.ledger.log_work(client, place)
    }

    /// Work of the client is carried out, or lost where memory lacks.
    fn take_work(&mut self, client: u8, parcel: Parcel) -> Taking
        requires free { IsFreeIn self.old client }
        requires work { is_work parcel.act ≡ true }
        ensures { IsTileStep self.old (deed.Takes client parcel result) self.new }
    {
        match self.work(client, parcel) {
            Ok(()) => {
                self.next = client + 1;
                Taking::Works
            }
            Err(OutOfMemory) => {
                self.short = true;
                self.next = client + 1;
                Taking::Loses
            }
        }
    }

    /// A block without sets waits to be drawn, and is logged.
    fn put_off(&mut self, client: u8, parcel: &Packed) -> Result<(), OutOfMemory>
        requires client { client < clients_of self.old }
        requires plain { is_plain parcel.now ≡ true }
        ensures { WorkIsTried self.old client parcel.now result self.new }
    {
        let copy = parcel.clone()?;
        self.canvas.put_off(client, copy);
        self.ledger.log_work(client, parcel.place())
    }

    /// A block without sets is taken, or lost where memory lacks for its log.
    fn take_block(&mut self, client: u8, parcel: &Packed) -> Taking
        requires free { IsFreeIn self.old client }
        requires plain { is_plain parcel.now ≡ true }
        ensures { IsTileStep self.old (deed.Takes client parcel.now result) self.new }
    {
        match self.put_off(client, parcel) {
            Ok(()) => {
                self.next = client + 1;
                Taking::Works
            }
            Err(OutOfMemory) => {
                self.short = true;
                self.next = client + 1;
                Taking::Loses
            }
        }
    }

    /// The client is held at its operation.
    fn hold(&mut self, client: u8) -> Taking
        requires free { IsFreeIn self.old client }
        ensures { (parcel : Parcel) → is_wait parcel.act ≡ true
            → IsTileStep self.old (deed.Takes client parcel result) self.new }
    {
        self.ledger.hold(client);
        self.next = client + 1;
        Taking::Holds
    }

    /// The parcel, which was read, holds its client or is carried out.
    fn serve(&mut self, client: u8, parcel: Parcel) -> Taking
        requires free { IsFreeIn self.old client }
        requires more { is_end parcel.act ≡ false }
        ensures { IsTileStep self.old (deed.Takes client parcel result) self.new }
    {
        if is_wait(&parcel.act) {
            return self.hold(client);
        }
        self.take_work(client, parcel)
    }

    /// A parcel is lost, since memory lacks for reading it.
    fn lose(&mut self, client: u8) -> Taking
        requires free { IsFreeIn self.old client }
        ensures { TakesMore self.old client result self.new }
    {
        self.short = true;
        self.next = client + 1;
        Taking::Loses
    }

    /// A parcel of a client that isn't held is read, unless it is a block without sets.
    fn open(&mut self, client: u8, parcel: &Packed) -> Taking
        requires free { IsFreeIn self.old client }
        requires more { is_end parcel.now.act ≡ false }
        ensures { IsTileStep self.old (deed.Takes client parcel.now result) self.new }
    {
        if is_plain(parcel) {
            return self.take_block(client, parcel);
        }
        match parcel.parcel_in(&mut self.room) {
            Ok(read) => self.serve(client, read),
            Err(OutOfMemory) => self.lose(client),
        }
    }

    /// The client is closed.
    fn close(&mut self, client: u8) -> Taking
        requires { MayTakeIn self.old client }
        ensures { (parcel : Parcel) → is_end parcel.act ≡ true
            → IsTileStep self.old (deed.Takes client parcel result) self.new }
    {
        self.ledger.close(client);
        self.next = client + 1;
        Taking::Closes
    }

    /// A parcel is dropped.
    fn drop_parcel(&mut self, client: u8) -> Taking
        requires take { MayTakeIn self.old client }
        requires dropped { (is_short self.old ≡ true) ⊎ (held_in self.old.ledger client ≡ true) }
        ensures { TakesMore self.old client result self.new }
    {
        self.next = client + 1;
        Taking::Drops
    }

    /// A parcel of the client was taken. An End and a parcel that is dropped aren't read, so memory can't lack for them.
    fn receive(&mut self, client: u8, parcel: &Packed) -> Taking
        requires { MayTakeIn self.old client }
        ensures { IsTileStep self.old (deed.Takes client parcel.now result) self.new }
    {
        if parcel.is_end() {
            return self.close(client);
        }
        if self.short {
            return self.drop_parcel(client);
        }
        if self.ledger.is_held(client) {
            return self.drop_parcel(client);
        }
        self.open(client, parcel)
    }

    /// No client has a parcel in its lane.
    fn rest(&self) -> TileDeed
        requires { NothingIsDueIn self.now }
        ensures step { IsTileStep self.now result self.now }
        ensures deed { (result ≡ deed.Rests) ⊎ (result ≡ deed.Finishes) }
    {
        if self.is_finished() {
            TileDeed::Finishes
        } else {
            TileDeed::Rests
        }
    }

    // ---- what waits

    /// Draws the block that waits longest, if one waits: blocks without sets are drawn when there is nothing to take, or before what needs them drawn. Whether
    /// one did. Contracts see each as drawn from its step on.
    pub fn draw_one(&mut self) -> bool
        ensures same { IsSameView self.old self.new }
        ensures one { waiting_of self.new ≡ waiting_of self.old - 1 }
        ensures drew { result ≡ nat_lt 0 (waiting_of self.old) }
    {
        self.canvas.draw_one()
    }

    // ---- a step

    /// Takes a parcel.
    fn take<I: Inlet<Packed>>(&mut self, clients: &mut [I]) -> TileDeed
        requires lanes { length clients.old ≡ clients_of self.old }
        requires undue { NothingIsDueIn self.old }
        ensures step { IsTileStep self.old result self.new }
        ensures clients { AreServed I.lane_of I.gave I.same I.empty_seen I.bare self.old result
            clients.old clients.new }
        ensures grants { granted_of result ≡ None }
    {
        let asks = self.asked();
        match take_in_rotation(clients, &asks, self.next as usize) {
            Some((client, parcel)) => {
                let client = client as u8;
                let how = self.receive(client, &parcel);
                TileDeed::Takes {
                    client,
                    parcel,
                    how,
                }
            }
            None => self.rest(),
        }
    }

    /// Takes a grant, and where none is there a parcel.
    fn hear<I: Inlet<Packed>, J: Inlet<Grant>>(
        &mut self,
        clients: &mut [I],
        grants: &mut J,
    ) -> TileDeed
        requires lanes { length clients.old ≡ clients_of self.old }
        requires learns { MayLearn self.old }
        ensures { IsTileAct I.lane_of I.gave I.same I.empty_seen I.bare
            J.lane_of J.gave J.same J.empty_seen J.bare self.old result self.new
            clients.old clients.new grants.old grants.new }
    {
        match grants.pop() {
            Some(grant) => {
                self.learn(grant);
                TileDeed::Learns(grant)
            }
            None => self.take(clients),
        }
    }

    fn act<I: Inlet<Packed>, J: Inlet<Grant>>(
        &mut self,
        clients: &mut [I],
        grants: &mut J,
    ) -> TileDeed
        requires { length clients.old ≡ clients_of self.old }
        ensures { IsTileAct I.lane_of I.gave I.same I.empty_seen I.bare
            J.lane_of J.gave J.same J.empty_seen J.bare self.old result self.new
            clients.old clients.new grants.old grants.new }
    {
        match self.due() {
            Some(entry) => self.perform(entry),
            None => {
                if self.listens() {
                    self.hear(clients, grants)
                } else {
                    self.take(clients)
                }
            }
        }
    }

    /// Does the first of these that applies.
    ///
    /// 1. An entry that is known is performed once each of its members is held. A Swap shows the pixels as the tile's part of the next frame.
    /// 2. Where no entry is known, and no more may still come, a grant is taken.
    /// 3. One parcel is taken of the clients that are neither held nor closed: of the first whose lane has one, in rotation after the last client
    ///    that was taken from, at first from client 0. Work is carried out and logged, an operation holds its client, and End closes it. Once
    ///    nothing will be performed any more, parcels are taken of held clients too, and dropped up to their End.
    ///
    /// A parcel is read only where it is no End and isn't dropped. Where memory lacks, a parcel that was taken is dropped and the tile becomes short: it
    /// takes and drops parcels up to each client's End, and grants until no more comes.
    pub fn step<I: Inlet<Packed>, J: Inlet<Grant>>(
        &mut self,
        clients: &mut [I],
        grants: &mut J,
    ) -> Result<TileMoved, OutOfMemory>
        requires { length clients.old ≡ clients_of self.old }
        ensures same { IsSameCore self.old self.new }
        ensures client_lanes { AreSameLanes I.lane_of clients.old clients.new }
        ensures grant_lane { J.lane_of grants.new ≡ J.lane_of grants.old }
        ensures out_of_memory { OnErr result (BecameShort self.old self.new) }
        ensures ample { OnOk result (is_short self.new ≡ is_short self.old) }
        // the answer tells what it did: the first case that applies; it took just that, and each lane that it found empty says so
        ensures step { AnswersDeed result (λ did. IsTileStep self.old did self.new
            × AreTaken I.gave I.same did clients.old clients.new
            × AreFoundEmpty I.empty_seen I.bare self.old did clients.old clients.new
            × IsHeard J.gave J.same did grants.old grants.new
            × CountsUnheard J.empty_seen J.bare self.old did grants.old grants.new) }
    {
        answer(self.act(clients, grants))
    }
}

/// The act waits for an entry.
fn is_wait(act: &Act) -> bool
    ensures { result ≡ is_wait act.now }
{
    match act {
        Act::Sync(_) => true,
        _ => false,
    }
}

/// Whether the parcel draws a block without sets.
fn is_plain(parcel: &Packed) -> bool
    ensures { result ≡ is_plain parcel.now }
{
    parcel.set_count() == 0 && parcel.block().is_some()
}
