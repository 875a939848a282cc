//! The walk along an order pixel by pixel.
ghost use Rattle.std.specs.Prelude.{◌≡◌, IfOk, OnOk};
ghost use Rattle.rc_base.specs.Formats.Within.{IsWithin};
ghost use Rattle.rc_base.specs.Orders.Footprints.{footprint_of};
ghost use Rattle.happens_before.specs.Clocks.{IsExact};
ghost use Rattle.happens_before.specs.Timelines.{AreOrdered, clock_of};
ghost use Rattle.race_check.specs.Races.{IsOrderOfScene, IsVerdictOn};
ghost use Rattle.race_check.specs.Uses.{HasIssued, AreSized, IsNextOf, PassesMarks};

use crate::carry::carry_out;
use crate::found::Found;
use crate::marks::Marks;
use crate::verdict::Verdict;
use happens_before::Timelines;
use rc_base::out_of_memory::OutOfMemory;
use rc_base::sync::{Journal, Name, Order, SyncLists};
use std::alloc::Global;
use stream_replay::{Client, SceneStore, clients_of, issue_name, take_back};

// Carries a name out, the next one of its client, and tells what it conflicts with unordered.
fn carry_name<S: SceneStore>(
    scene: &S,
    clients: &mut Vec<Client>,
    marks: &mut Marks,
    timelines: &Timelines,
    name: Name,
) -> Result<Option<Found>, OutOfMemory>
    requires within { IsWithin (S.scene scene.now) }
    requires next { IsNextOf (S.scene scene.now) clients.old.items name }
    requires timelines { AreOrdered timelines.now.clients.items }
    requires sized { AreSized
        (S.scene scene.now).decl.width (S.scene scene.now).decl.height marks.old }
    ensures clients { OnOk result
        (HasIssued (S.scene scene.now) clients.old.items name clients.new.items) }
    ensures sized { OnOk result (AreSized
        (S.scene scene.now).decl.width (S.scene scene.now).decl.height marks.new) }
    ensures carried { let clock = clock_of timelines.now.clients.items name in
        IfOk result (λ told. PassesMarks (footprint_of (S.scene scene.now))
        (S.scene scene.now).decl.width (S.scene scene.now).decl.height
        clock name marks.old marks.new told) }
{
    let client = usize::from(name.client);
    let effect = issue_name(clients, scene, name)?;
    let state = clients[client].context.state();
    let found = carry_out(marks, timelines, scene.decl(), name, state, &effect);
    take_back(clients, client, effect);
    Ok(found)
}

/// The verdict on an order, by the last use of each pixel and each shared texture.
pub fn first_race<S: SceneStore>(
    alloc: Global,
    scene: &S,
    journal: &Journal,
    order: &Order,
    syncs: &SyncLists,
    timelines: &Timelines,
) -> Result<Verdict, OutOfMemory>
    requires order { IsOrderOfScene (S.scene scene.now) syncs.now journal.now order.now }
    requires timelines { AreOrdered timelines.now.clients.items }
    requires exact { IsExact syncs.now journal.now (clock_of timelines.now.clients.items) }
    ensures { IfOk result (IsVerdictOn (S.scene scene.now) syncs.now journal.now order.now) }
{
    let _journal = journal;
    let _syncs = syncs;
    let mut clients = clients_of(alloc, scene)?;
    let decl = scene.decl();
    let mut marks = Marks::new(alloc, decl.width, decl.height)?;
    for name in order.as_slice() {
        if let Some(found) = carry_name(scene, &mut clients, &mut marks, timelines, *name)? {
            return Ok(Verdict::Race {
                first: Name {
                    client: found.client,
                    place: found.place,
                },
                second: *name,
                spot: found.spot,
            });
        }
    }
    Ok(Verdict::Ordered)
}
