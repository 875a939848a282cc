//! A step of the core: at most one item is appended.
ghost use Rattle.std.specs.Prelude.{◌≡◌, ◌≢◌, ℕ, ◌+◌, ◌<◌, ◌≤◌, ◌++◌, ◌∷◌, [], length, true, false, IfOk, OnOk, OnErr, IfNone, IfSome, Some, None, Ok};
ghost use Rattle.rc_base.specs.Cluster.Lanes.{EachLane};
ghost use Rattle.rc_base.specs.Cluster.Tiles.{tile_count};
ghost use Rattle.rc_base.specs.declared.state.Parcel.{Parcel};
ghost use Rattle.client_issue.specs.Cores.{commands_left, commands_of, ends_from, issued_of, layout_of, left_in, looks_of, short_of, IsSameCore, IsTallied};
ghost use Rattle.client_issue.specs.Deeds.{answer_of, is_loss, ClientDeed};
ghost use Rattle.client_issue.specs.Sequence.{items_of, scene_of, HasLooks, IsForTile, IsOfLast, IsOver};
ghost use Rattle.client_issue.specs.Steps.{AreSent, IsClientStep, IsCutShort, IsRequested, MayLack};

use crate::client::ClientCore;
use crate::item::Item;
use crate::lanes::append;
use parcel_bytes::Packed;
use rc_base::cluster::{ClientMoved, Tally};
use rc_base::lane::Outlet;
use rc_base::out_of_memory::OutOfMemory;
use rc_base::sync::Request;

impl ClientCore {
    // The next End parcel or the End request. It takes no memory.
    #[tactic(auto, unfolding(crate::specs::Sequence::IsSound))]
    fn next_end(&mut self) -> Option<Item>
        requires { self.old.short ≡ false → IsOver self.old.sender }
        ensures sender { self.new.sender ≡ self.old.sender }
        ensures waits { self.new.ready ≡ self.old.ready }
        ensures short { self.new.short ≡ self.old.short }
        ensures tallies { self.new.tallies ≡ self.old.tallies }
        ensures left { ends_from (layout_of self.old) (commands_of self.old) self.old.ends
            ≡ items_of result ++ ends_from (layout_of self.old) (commands_of self.old) self.new.ends }
        ensures tile { IfSome result (IsForTile self.old.sender.count) }
        ensures looked { IfSome result (HasLooks (scene_of self.old.sender) (layout_of self.old)) }
        ensures next { IfSome result (IsOfLast (commands_of self.old) (commands_of self.old)) }
        ensures none { IfNone result ((0 < self.new.ends)
            × (ends_from (layout_of self.old) (commands_of self.old) self.new.ends ≡ [])) }
    {
        let tile = self.ends;
        if tile > self.sender.count {
            return None;
        }
        self.ends = tile + 1;
        if tile == self.sender.count {
            return Some(Item::Request(Request::End));
        }
        let parcel = self.last.pop()?;
        Some(Item::Parcel {
            tile,
            parcel,
            looks: 0,
        })
    }

    // The next item of a command, while one gives any.
    #[tactic(auto, unfolding(crate::specs::Sequence::IsSound))]
    fn next_of_commands(&mut self) -> Result<Option<Item>, OutOfMemory>
        requires { self.old.ready ≡ None }
        ensures same { IsSameCore self.old self.new }
        ensures rest { (self.new.ready ≡ None) × (self.new.ends ≡ self.old.ends) × (self.new.tallies ≡ self.old.tallies) }
        ensures short { OnOk result (self.new.short ≡ self.old.short) }
        ensures still { self.old.short ≡ true → self.new.sender.issued ≡ self.old.sender.issued }
        ensures err { OnErr result (MayLack self.old × (self.old.ends ≡ 0) × (self.new.short ≡ true)) }
        ensures left { IfOk result (λ o. commands_left self.old.short self.old.sender
            ≡ items_of o ++ commands_left self.new.short self.new.sender) }
        ensures all { IfOk result (λ o. IfNone o (commands_left self.new.short self.new.sender ≡ [])) }
        ensures over { IfOk result (λ o. self.old.short ≡ false → IfNone o (IsOver self.new.sender)) }
        ensures tile { IfOk result (λ o. IfSome o (IsForTile self.old.sender.count)) }
        ensures looked { IfOk result (λ o. IfSome o (HasLooks (scene_of self.old.sender) (layout_of self.old))) }
        ensures next { IfOk result (λ o. self.old.short ≡ false → IfSome o (IsOfLast (commands_of self.old) (issued_of self.new))) }
    {
        if self.short {
            return Ok(None);
        }
        if self.ends > 0 {
            return Ok(None);
        }
        match self.sender.next() {
            Ok(item) => Ok(item),
            Err(error) => {
                self.short = true;
                Err(error)
            }
        }
    }

    // Makes the next item ready, if one is left.
    #[tactic(auto, unfolding(crate::specs::Sequence::IsSound))]
    fn prepare(&mut self) -> Result<(), OutOfMemory>
        requires { self.old.ready ≡ None }
        ensures same { IsSameCore self.old self.new }
        ensures tallies { self.new.tallies ≡ self.old.tallies }
        ensures short { OnOk result (self.new.short ≡ self.old.short) }
        ensures still { self.old.short ≡ true → issued_of self.new ≡ issued_of self.old }
        ensures err { OnErr result (MayLack self.old × (self.new.short ≡ true) × IsCutShort self.old self.new) }
        ensures left { OnOk result (left_in self.new ≡ left_in self.old) }
        ensures none { OnOk result (self.new.ready ≡ None → (0 < self.new.ends) × (left_in self.new ≡ [])) }
    {
        if let Some(item) = self.next_of_commands()? {
            self.ready = Some(item);
            return Ok(());
        }
        self.ready = self.next_end();
        Ok(())
    }

    fn count_parcel(&mut self, tile: u8, sets: usize, looks: u64)
        requires { tile < self.old.sender.count }
        ensures sender { self.new.sender ≡ self.old.sender }
        ensures waits { self.new.ready ≡ self.old.ready }
        ensures ends { self.new.ends ≡ self.old.ends }
        ensures short { self.new.short ≡ self.old.short }
        ensures tallied { (p : Parcel) → length p.sets ≡ sets → looks_of self.old tile p ≡ looks → IsTallied self.old self.new tile p }
    {
        let tally = &mut self.tallies[usize::from(tile)];
        tally.parcels = tally.parcels.saturating_add(1);
        tally.sets = tally.sets.saturating_add(sets as u64);
        tally.looks = tally.looks.saturating_add(looks);
    }

    // Appends the item that is ready to its lane, or keeps it where that lane is full.
    #[tactic(auto, unfolding(crate::specs::Sequence::IsSound))]
    fn send<P: Outlet<Packed>, Q: Outlet<Request>>(
        &mut self,
        tiles: &mut [P],
        requests: &mut Q,
    ) -> ClientMoved
        requires lanes { length tiles.old ≡ tile_count (layout_of self.old) }
        requires none { self.old.ready ≡ None → (0 < self.old.ends) × (left_in self.old ≡ []) }
        ensures tile_lanes { EachLane (λ i a b. P.lane_of b ≡ P.lane_of a) tiles.old tiles.new }
        ensures request_lane { Q.lane_of requests.new ≡ Q.lane_of requests.old }
        ensures step { (did : ClientDeed) × (is_loss did ≡ false) × (answer_of did ≡ Ok result)
            × IsClientStep self.old did self.new
            × AreSent P.sent P.full_seen P.full did tiles.old tiles.new
            × IsRequested Q.sent Q.full_seen Q.full did requests.old requests.new }
    {
        match self.ready.take() {
            Some(
                Item::Parcel {
                    tile,
                    parcel,
                    looks,
                },
            ) => {
                let sets = parcel.set_count();
                match append(tiles, usize::from(tile), parcel) {
                    Ok(()) => {
                        self.count_parcel(tile, sets, looks);
                        ClientMoved::Appended { tile }
                    }
                    Err(parcel) => {
                        self.ready = Some(Item::Parcel {
                            tile,
                            parcel,
                            looks,
                        });
                        ClientMoved::BlockedTile { tile }
                    }
                }
            }
            Some(Item::Request(request)) => match requests.push(request) {
                Ok(()) => ClientMoved::Requested,
                Err(request) => {
                    self.ready = Some(Item::Request(request));
                    ClientMoved::BlockedRequest
                }
            },
            None => ClientMoved::Ended,
        }
    }

    /// Appends the next item of the client's sequence to its lane: `tiles` has a lane for each tile, tiles rising, and `requests` is
    /// the lane to the manager. Commands are issued up to the next one that gives an item. Where the lane is full, nothing is lost, and
    /// the next step tries the same item.
    ///
    /// Where memory lacks for what a command gives, the core becomes short: it sends only its End parcels and its End request, for
    /// which it takes none.
    pub fn step<P: Outlet<Packed>, Q: Outlet<Request>>(
        &mut self,
        tiles: &mut [P],
        requests: &mut Q,
    ) -> Result<ClientMoved, OutOfMemory>
        requires { length tiles.old ≡ tile_count (layout_of self.old) }
        ensures same { IsSameCore self.old self.new }
        ensures tile_lanes { EachLane (λ i a b. P.lane_of b ≡ P.lane_of a) tiles.old tiles.new }
        ensures request_lane { Q.lane_of requests.new ≡ Q.lane_of requests.old }
        ensures out_of_memory { OnErr result ((short_of self.old ≡ false) × (short_of self.new ≡ true)) }
        ensures ample { OnOk result (short_of self.new ≡ short_of self.old) }
        // the answer tells what it did with the next item: just its lane got it, or was found full, and no other was touched
        ensures step { (did : ClientDeed) × (result ≡ answer_of did) × IsClientStep self.old did self.new
            × AreSent P.sent P.full_seen P.full did tiles.old tiles.new
            × IsRequested Q.sent Q.full_seen Q.full did requests.old requests.new }
    {
        if self.ready.is_some() {
            return Ok(self.send(tiles, requests));
        }
        match self.prepare() {
            Ok(()) => Ok(self.send(tiles, requests)),
            Err(OutOfMemory) => Err(OutOfMemory),
        }
    }
}
