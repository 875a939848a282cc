//! The next parcel or request of the command that was issued last.
ghost use Rattle.std.specs.Prelude.{◌≡◌, ◌≢◌, ℕ, ◌+◌, ◌<◌, ◌^◌, ◌==◌, ◌&&◌, not, ◌∷◌, length, IfOk, OnOk, IfSome, None, Some};
ghost use Rattle.rc_base.specs.declared.state.ElementValue.{ElementValue};
ghost use Rattle.parcel_bytes.specs.Spelling.{IsPackable};
ghost use Rattle.state_update.specs.Knowledge.{HasBoundTexture, IsSettled, Knows, after_sets, pending};
ghost use Rattle.client_issue.specs.Acts.{act_looks, act_sets, examines};
ghost use Rattle.client_issue.specs.Sequence.{GivesNext, HasLooks, IsForTile, IsMade, IsNextItem, IsOfLast, IsSending, IsSendingWith, KeepsIssuing, left_of, left_with, item_of, scene_of};

use crate::acts::next_tile;
use crate::item::Item;
use crate::pending::Pending;
use crate::sender::Sender;
use dirty_bits::Looks;
use gl_context::Context;
use gl_context::laws::{contexts_of_streams_are_valid, streams_go_on_by_issue};
use parcel_bytes::{Packed, Pool, encode_parcel_in};
use rc_base::out_of_memory::OutOfMemory;
use rc_base::state::{Act, Parcel, Sets};
use rc_base::sync::Request;
use state_update::Tracker;
use state_update::laws::{
    elements_that_are_not_pending_were_told, known_values_are_alike, trackers_follow_parcels,
    valid_contexts_have_their_texture,
};
use std::alloc::Global;

// The sets that a tile gets with the act; it counts as told.
fn sets_with(
    alloc: Global,
    tracker: &mut Tracker,
    context: &Context,
    tile: u8,
    act: &Act,
    looks: &mut Looks,
) -> Result<Sets, OutOfMemory>
    requires tile { tile < length tracker.old.told }
    requires server { tile < 32 }
    requires bound { HasBoundTexture context.now }
    requires settled { IsSettled tracker.old tile context.now }
    requires room { looks.old < 2 ^ 62 }
    ensures count { length tracker.new.told ≡ length tracker.old.told }
    ensures sets { (values : ℕ → ElementValue) → Knows tracker.old tile values → IfOk result (λ sets. sets ≡ act_sets values context.now act.now) }
    ensures told { (values : ℕ → ElementValue) → Knows tracker.old tile values → OnOk result (Knows tracker.new tile (after_sets values (act_sets values context.now act.now))) }
    ensures others { (other : ℕ) (values : ℕ → ElementValue) → other ≢ tile → Knows tracker.old other values → Knows tracker.new other values }
    ensures pending { OnOk result ((t e : ℕ) → t < 32 → pending tracker.new t e ≡ (pending tracker.old t e && not (t == tile && examines context.now act.now e))) }
    ensures looked { OnOk result (looks.new ≡ looks.old + act_looks (pending tracker.old tile) act.now) }
{
    match act {
        Act::Draw(_) => tracker.update(context, tile, true, looks),
        Act::Clear(_) => tracker.update(context, tile, false, looks),
        _ => Ok(Sets::new(alloc)),
    }
}

// The parcel, packed from one of its place and act: only the sets may be others.
fn repacked(made: Packed, parcel: &Parcel) -> Result<Packed, OutOfMemory>
    requires packable { IsPackable parcel.now }
    requires made { IsMade parcel.now.place parcel.now.act made }
    ensures { IfOk result (λ p. p ≡ parcel.now) }
{
    made.with_sets(parcel.sets.as_slice())
}

// The parcel, packed: from what was made of its place and act before, if anything.
fn packed(
    alloc: Global,
    pool: &mut Pool,
    parcel: &Parcel,
    made: Option<Packed>,
) -> Result<Packed, OutOfMemory>
    requires packable { IsPackable parcel.now }
    requires made { IfSome made (IsMade parcel.now.place parcel.now.act) }
    ensures { IfOk result (λ p. p ≡ parcel.now) }
{
    match made {
        Some(made) => repacked(made, parcel),
        None => encode_parcel_in(alloc, pool, parcel),
    }
}

impl Sender {
    // The parcel for the next tile, packed. It is kept for the tile after that.
    fn give_parcel(&mut self, pending: Pending) -> Result<Item, OutOfMemory>
        requires none { self.old.pending ≡ None }
        requires sending { IsSendingWith self.old (Some pending) }
        ensures keeps { KeepsIssuing self.old self.new }
        ensures sending { OnOk result (IsSending self.new) }
        ensures left { IfOk result (λ i. left_with self.old (Some pending) ≡ item_of i ∷ left_of self.new) }
        ensures tile { IfOk result (IsForTile self.old.count) }
        ensures looked { IfOk result (HasLooks (scene_of self.old) self.old.layout) }
        ensures next { IfOk result (IsOfLast (length self.old.stream) self.new.issued) }
    {
        contexts_of_streams_are_valid();
        streams_go_on_by_issue();
        valid_contexts_have_their_texture();
        trackers_follow_parcels();
        elements_that_are_not_pending_were_told();
        known_values_are_alike();
        let tile = pending.tile;
        let mut looks = Looks::new();
        let sets = sets_with(
            self.alloc,
            &mut self.tracker,
            &self.context,
            tile,
            &pending.act,
            &mut looks,
        )?;
        let looks = looks.count();
        let next = next_tile(pending.tiles, tile + 1, self.count);
        let Pending {
            place,
            act,
            tiles,
            made,
            ..
        } = pending;
        let parcel = Parcel { place, sets, act };
        let packed = packed(self.alloc, &mut self.pool, &parcel, made)?;
        let Parcel { act, .. } = parcel;
        if next == self.count {
            self.take_back(act);
            return Ok(Item::Parcel {
                tile,
                parcel: packed,
                looks,
            });
        }
        let kept = packed.clone()?;
        self.pending = Some(Pending {
            place,
            act,
            tiles,
            tile: next,
            made: Some(kept),
        });
        Ok(Item::Parcel {
            tile,
            parcel: packed,
            looks,
        })
    }

    fn give_request(&mut self) -> Option<Item>
        requires none { self.old.pending ≡ None }
        requires sending { IsSending self.old }
        requires over { self.old.request ≡ None → self.old.issued ≡ length self.old.stream }
        ensures keeps { KeepsIssuing self.old self.new }
        ensures given { IsNextItem self.old result self.new }
    {
        let Some(wait) = self.request.take() else {
            return None;
        };
        Some(Item::Request(Request::Op {
            place: wait.place,
            op: wait.op,
        }))
    }

    // The next item of the command that was issued last, if any is left.
    fn give(&mut self) -> Result<Option<Item>, OutOfMemory>
        requires sending { IsSending self.old }
        requires over { self.old.pending ≡ None → self.old.request ≡ None → self.old.issued ≡ length self.old.stream }
        ensures { GivesNext self.old result self.new }
    {
        match self.pending.take() {
            Some(pending) => Ok(Some(self.give_parcel(pending)?)),
            None => Ok(self.give_request()),
        }
    }

    /// The next item of the sequence, while a command gives one.
    pub(crate) fn next(&mut self) -> Result<Option<Item>, OutOfMemory>
        requires { IsSending self.old }
        ensures { GivesNext self.old result self.new }
    {
        'issuing: while self.is_resting() && (self.issued as usize) < self.stream.len() {
            self.issue_next()?;
        }
        self.give()
    }
}
