//! Orders of commands, and races.
ghost use Rattle.std.specs.Prelude.{◌≡◌, ◌≢◌, ◌<◌, ◌≤◌, ◌↔◌, IfOk, IsTrue};
ghost use Rattle.rc_base.specs.Formats.Within.{IsWithin};
ghost use Rattle.rc_base.specs.Orders.Book.{Book as Arrivals};
ghost use Rattle.rc_base.specs.Orders.Journal.{reach_of, IsLegal, IsMaximal};
ghost use Rattle.rc_base.specs.Orders.Order.{IsPermitted};
ghost use Rattle.rc_base.specs.Orders.Sync.{sync_lists_of, client_count, IsWellFormed};
ghost use Rattle.rc_base.specs.declared.sync.Name.{Name as AnyName};
ghost use Rattle.order_model.specs.Gathering.{HasArrived};
ghost use Rattle.sync_manager.specs.Books.{journal_in, IsBookOf};
ghost use Rattle.happens_before.specs.Before.{IsBefore};
ghost use Rattle.race_check.specs.Races.{SaysOrdered};
ghost use Rattle.rc_base.specs.declared.window.Layout.{Layout};
ghost use Rattle.uses.specs.Orders.{BeginsARun, NoneConflict, PartsNames, RaceAtAPixel};

use happens_before::clocks_of;
use order_model::is_permitted;
use order_model::laws::{over_books_are_maximal, scenes_within_limits};
use race_check::{Verdict, check_races};
use rc_base::out_of_memory::OutOfMemory;
use rc_base::scene::Scene;
use rc_base::sync::{Entry, Journal, Name, Order, SyncLists};
use shown_frames::laws::unfinished_runs_go_on;
use std::alloc::Global;
use sync_manager::Book;

/// Whether a journal permits an order. One that is permitted has each name before a member's operation before each name behind another member's,
/// whichever of the two clients has the lower number.
pub fn parts_names(order: &Order, journal: &Journal, syncs: &SyncLists) -> bool
    requires clients { client_count syncs.now ≤ 8 }
    requires lists { IsWellFormed syncs.now }
    ensures { IsTrue result → PartsNames syncs.now journal.now order.now }
{
    is_permitted(order, journal, syncs)
}

/// Whether a name is before another client's, whatever order is taken: the clocks tell no fewer names, and no more.
pub fn is_before(
    alloc: Global,
    journal: &[Entry],
    syncs: &SyncLists,
    first: Name,
    second: Name,
) -> Result<bool, OutOfMemory>
    requires lists { IsWellFormed syncs.now }
    requires clients { client_count syncs.now ≤ 8 }
    requires legal { IsLegal syncs.now journal.now }
    requires names { (first.client < 8) × (second.client < 8) × (first.client ≢ second.client) }
    requires reached { second.place < reach_of syncs.now journal.now second.client }
    ensures { IfOk result (λ r. IsTrue r ↔ IsBefore syncs.now journal.now first second) }
{
    let timelines = clocks_of(alloc, journal, syncs)?;
    let before = timelines.before(second.client, second.place);
    Ok(first.place < before[first.client as usize])
}

/// The verdict on a scene. Where no two commands conflict, as where two clients sample one texture, nothing races.
pub fn told_of_readers(
    alloc: Global,
    scene: &Scene,
    journal: &Journal,
    order: &Order,
    syncs: &SyncLists,
) -> Result<Verdict, OutOfMemory>
    requires within { IsWithin scene.now }
    requires lists { syncs.now ≡ sync_lists_of scene.now }
    requires maximal { IsMaximal syncs.now journal.now }
    requires permitted { IsPermitted syncs.now journal.now order.now }
    ensures { NoneConflict syncs.now journal.now scene.now → IfOk result SaysOrdered }
{
    check_races(alloc, scene, journal, order, syncs)
}

/// The verdict on a scene. Where two clients touch one pixel and neither name is before the other, a race is told, whatever tests their drawing has to pass.
pub fn told_of_pixels(
    alloc: Global,
    scene: &Scene,
    journal: &Journal,
    order: &Order,
    syncs: &SyncLists,
) -> Result<Verdict, OutOfMemory>
    requires within { IsWithin scene.now }
    requires lists { syncs.now ≡ sync_lists_of scene.now }
    requires maximal { IsMaximal syncs.now journal.now }
    requires permitted { IsPermitted syncs.now journal.now order.now }
    ensures { (a b : AnyName) → RaceAtAPixel syncs.now journal.now scene.now a b
        → IfOk result (λ v. SaysOrdered v → ⊥) }
{
    check_races(alloc, scene, journal, order, syncs)
}

/// Grants the next entry of a book, in which any part of a scene's operations has arrived. A whole run on any tiles has a journal that begins with what was
/// granted so far: no grant leads into a blind alley.
pub fn goes_on_to_a_run(book: &mut Book, scene: &Scene) -> Option<Entry>
    requires { IsWithin scene.now }
    ensures { (l : Layout) (arrived : Arrivals)
        → IsBookOf (sync_lists_of scene.now) book.old arrived
        → HasArrived (sync_lists_of scene.now) arrived
        → BeginsARun scene.now l (journal_in book.new) }
{
    scenes_within_limits();
    over_books_are_maximal();
    unfinished_runs_go_on();
    let _scene = scene;
    book.grant()
}
