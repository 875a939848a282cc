//! The race checker.
ghost use Rattle.std.specs.Prelude.{◌≡◌, ◌↔◌, IfOk};
ghost use Rattle.rc_base.specs.Formats.Within.{IsWithin};
ghost use Rattle.rc_base.specs.Orders.Footprints.{IsOrderedScene};
ghost use Rattle.rc_base.specs.Orders.Journal.{IsMaximal};
ghost use Rattle.rc_base.specs.Orders.Order.{IsPermitted};
ghost use Rattle.rc_base.specs.Orders.Sync.{sync_lists_of};
ghost use Rattle.race_check.specs.Races.{IsOrderOfScene, IsVerdictOn, NoRaces, SaysOrdered};
ghost use Rattle.race_check.specs.declared.verdict.Verdict.TheVariants as verdict;

use crate::apart::are_apart;
use crate::verdict::Verdict;
use crate::walk::first_race;
use happens_before::clocks_of;
use rc_base::out_of_memory::OutOfMemory;
use rc_base::scene::Scene;
use rc_base::sync::{Journal, Order, SyncLists};
use std::alloc::Global;
use stream_replay::SceneStore;

// The verdict: of one client alone nothing conflicts, and in most scenes boxes tell that all is ordered. Else the pixels are looked at.
fn verdict_on<S: SceneStore>(
    alloc: Global,
    scene: &S,
    journal: &Journal,
    order: &Order,
    syncs: &SyncLists,
) -> Result<Verdict, OutOfMemory>
    requires order { IsOrderOfScene (S.scene scene.now) syncs.now journal.now order.now }
    requires maximal { IsMaximal syncs.now journal.now }
    ensures { IfOk result (IsVerdictOn (S.scene scene.now) syncs.now journal.now order.now) }
{
    if scene.client_count() < 2 {
        return Ok(Verdict::Ordered);
    }
    let timelines = clocks_of(alloc, journal.as_slice(), syncs)?;
    if are_apart(alloc, scene, journal, order, syncs, &timelines)? {
        return Ok(Verdict::Ordered);
    }
    first_race(alloc, scene, journal, order, syncs, &timelines)
}

/// Whether synchronisation orders every two conflicting commands of a scene, by a permitted order. `Ordered` comes exactly where every two conflicting
/// commands stand in one sequence in all orders that the journal permits. Otherwise `second` is the first name of the order that conflicts with an
/// earlier one that isn't before it; among these earlier ones `first` is of the lowest client, and of that client the one of the highest place. The
/// spot is the lowest shared texture in which they conflict, else their common pixel of the lowest row, and in it of the lowest column.
pub fn check_races(
    alloc: Global,
    scene: &Scene,
    journal: &Journal,
    order: &Order,
    syncs: &SyncLists,
) -> Result<Verdict, OutOfMemory>
    requires within { IsWithin scene.now }
    requires lists { syncs.now ≡ sync_lists_of scene.now }
    requires maximal { IsMaximal syncs.now journal.now }
    requires permitted { IsPermitted syncs.now journal.now order.now }
    ensures verdict { IfOk result (IsVerdictOn scene.now syncs.now journal.now order.now) }
    ensures exactly { IfOk result (λ v. SaysOrdered v ↔ NoRaces syncs.now journal.now scene.now) }
    ensures exactly_ordered { IfOk result (λ v. SaysOrdered v
        ↔ IsOrderedScene scene.now journal.now) }
{
    check_scene_races(alloc, scene, journal, order, syncs)
}

/// The same of a scene however it is stored.
pub fn check_scene_races<S: SceneStore>(
    alloc: Global,
    scene: &S,
    journal: &Journal,
    order: &Order,
    syncs: &SyncLists,
) -> Result<Verdict, OutOfMemory>
    requires within { IsWithin (S.scene scene.now) }
    requires lists { syncs.now ≡ sync_lists_of (S.scene scene.now) }
    requires maximal { IsMaximal syncs.now journal.now }
    requires permitted { IsPermitted syncs.now journal.now order.now }
    ensures verdict { IfOk result
        (IsVerdictOn (S.scene scene.now) syncs.now journal.now order.now) }
    ensures exactly { IfOk result (λ v. SaysOrdered v
        ↔ NoRaces syncs.now journal.now (S.scene scene.now)) }
    ensures exactly_ordered { IfOk result (λ v. SaysOrdered v
        ↔ IsOrderedScene (S.scene scene.now) journal.now) }
{
    let verdict = verdict_on(alloc, scene, journal, order, syncs)?;
    Ok(verdict)
}
