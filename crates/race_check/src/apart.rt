//! The walk along an order by boxes: it settles scenes whose clients draw apart, or one behind the other.
ghost use Rattle.std.specs.Prelude.{◌≡◌, ◌+◌, ◌<◌, ◌^◌, true, IfOk, OnOk};
ghost use Rattle.rc_base.specs.Formats.Within.{IsWithin};
ghost use Rattle.rc_base.specs.Orders.Footprints.{footprint_of};
ghost use Rattle.happens_before.specs.Clocks.{IsExact};
ghost use Rattle.happens_before.specs.Timelines.{AreOrdered, clock_of};
ghost use Rattle.race_check.specs.Outlines.{FitWindow, IsApart, PassesOutlines};
ghost use Rattle.race_check.specs.Races.{IsOrderOfScene, NoRaces};
ghost use Rattle.race_check.specs.Uses.{HasIssued, IsNextOf};

use crate::clock::clock_of;
use crate::outlines::Outlines;
use crate::reach::{is_quiet, reach_of};
use happens_before::Timelines;
use rc_base::out_of_memory::OutOfMemory;
use rc_base::scene::Decl;
use rc_base::state::{Effect, State};
use rc_base::sync::{Journal, Name, Order, SyncLists};
use std::alloc::Global;
use stream_replay::{Client, SceneStore, clients_of, issue_name, take_back};

// Whether all that a name may conflict with is before it. Then the tables tell of it.
fn outline(
    outlines: &mut Outlines,
    timelines: &Timelines,
    decl: &Decl,
    name: Name,
    state: &State,
    effect: &Effect,
) -> bool
    requires timelines { AreOrdered timelines.now.clients.items }
    requires client { name.client < 8 }
    requires place { name.place + 1 < 2 ^ 32 }
    requires fits { FitWindow decl.now.width decl.now.height outlines.old }
    ensures fits { FitWindow decl.now.width decl.now.height outlines.new }
    ensures apart { let clock = clock_of timelines.now.clients.items name in
        result ≡ true → IsApart state.now effect.now decl.now clock name outlines.old outlines.new }
{
    if is_quiet(effect) {
        return true;
    }
    let reach = reach_of(state, effect, decl.width, decl.height);
    let clock = clock_of(timelines, name);
    if !outlines.is_counted(&clock, &reach, decl.width, decl.height) {
        return false;
    }
    outlines.mark(name, &reach, decl.width, decl.height);
    true
}

// Issues a name's command, the next one of its client, and outlines it.
fn outline_name<S: SceneStore>(
    scene: &S,
    clients: &mut Vec<Client>,
    outlines: &mut Outlines,
    timelines: &Timelines,
    name: Name,
) -> Result<bool, OutOfMemory>
    requires within { IsWithin (S.scene scene.now) }
    requires next { IsNextOf (S.scene scene.now) clients.old.items name }
    requires timelines { AreOrdered timelines.now.clients.items }
    requires fits { FitWindow
        (S.scene scene.now).decl.width (S.scene scene.now).decl.height outlines.old }
    ensures clients { OnOk result
        (HasIssued (S.scene scene.now) clients.old.items name clients.new.items) }
    ensures fits { OnOk result (FitWindow
        (S.scene scene.now).decl.width (S.scene scene.now).decl.height outlines.new) }
    ensures apart { let clock = clock_of timelines.now.clients.items name in
        IfOk result (λ apart. apart ≡ true
        → PassesOutlines (footprint_of (S.scene scene.now))
        (S.scene scene.now).decl.width (S.scene scene.now).decl.height
        clock name outlines.old outlines.new) }
{
    let client = usize::from(name.client);
    let effect = issue_name(clients, scene, name)?;
    let state = clients[client].context.state();
    let apart = outline(outlines, timelines, scene.decl(), name, state, &effect);
    take_back(clients, client, effect);
    Ok(apart)
}

/// Whether boxes alone tell that all conflicts of a scene are ordered. Where they don't, nothing is known.
pub fn are_apart<S: SceneStore>(
    alloc: Global,
    scene: &S,
    journal: &Journal,
    order: &Order,
    syncs: &SyncLists,
    timelines: &Timelines,
) -> Result<bool, OutOfMemory>
    requires order { IsOrderOfScene (S.scene scene.now) syncs.now journal.now order.now }
    requires timelines { AreOrdered timelines.now.clients.items }
    requires exact { IsExact syncs.now journal.now (clock_of timelines.now.clients.items) }
    ensures { IfOk result (λ apart. apart ≡ true
        → NoRaces syncs.now journal.now (S.scene scene.now)) }
{
    let _journal = journal;
    let _syncs = syncs;
    let mut clients = clients_of(alloc, scene)?;
    let decl = scene.decl();
    let mut outlines = Outlines::new(alloc, decl.width, decl.height)?;
    for name in order.as_slice() {
        if !outline_name(scene, &mut clients, &mut outlines, timelines, *name)? {
            return Ok(false);
        }
    }
    Ok(true)
}
