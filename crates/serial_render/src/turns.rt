//! The default journal and the default order.
ghost use Rattle.std.specs.Prelude.{◌≡◌, IfOk};
ghost use Rattle.rc_base.specs.Formats.Within.{IsWithin};
ghost use Rattle.rc_base.specs.Orders.Order.{default_journal, default_order as default_order_of};
ghost use Rattle.rc_base.specs.Orders.Sync.{sync_lists_of};
ghost use Rattle.serial_render.specs.Turns.{CanTakeTurns};
ghost use Rattle.serial_render.specs.Waits.{TellsStuck, HasWaits};

use crate::progress::Progress;
use crate::runs::RunOrder;
use crate::streams::sync_lists;
use rc_base::out_of_memory::OutOfMemory;
use rc_base::scene::Scene;
use rc_base::sync::{Journal, Order, SyncLists, Waiting};
use std::alloc::Global;

/// What comes of clients that take turns.
#[derive(Drop)]
pub struct Turns {
    /// The entries that were granted.
    pub journal: Journal,
    /// The names in the sequence of issue and grant.
    pub order: Order,
    /// Where each client is left waiting, if one is.
    pub waiting: Option<Waiting>,
}

/// What comes of clients that take turns, the names in runs.
#[derive(Drop)]
pub struct RunTurns {
    /// The entries that were granted.
    pub journal: Journal,
    /// The names in the sequence of issue and grant.
    pub order: RunOrder,
    /// Where each client is left waiting, if one is.
    pub waiting: Option<Waiting>,
}

/// Each client, rising, issues up to its next operation or to the end of its stream, and then the first lawful entry is granted, again and again
/// until none is lawful. An operation's name stands at its grant.
pub fn turns_in_runs(alloc: Global, syncs: &SyncLists) -> Result<RunTurns, OutOfMemory>
    requires { CanTakeTurns syncs.now }
    ensures journal { IfOk result (λ t. t.journal ≡ default_journal syncs.now) }
    ensures order { IfOk result (λ t. t.order ≡ default_order_of syncs.now t.journal) }
    ensures waiting { IfOk result (λ t. TellsStuck syncs.now t.journal t.waiting) }
    ensures at { IfOk result (λ t. HasWaits syncs.now t.journal t.waiting) }
{
    let mut progress = Progress::new(alloc, syncs)?;
    progress.advance(syncs)?;
    loop {
        if !progress.turn(syncs)? {
            break;
        }
    }
    let Progress { book, order, .. } = progress;
    let waiting = book.stuck();
    Ok(RunTurns {
        journal: book.into_journal(),
        order,
        waiting,
    })
}

/// The same, with each name.
pub fn turns_of(alloc: Global, syncs: &SyncLists) -> Result<Turns, OutOfMemory>
    requires { CanTakeTurns syncs.now }
    ensures journal { IfOk result (λ t. t.journal ≡ default_journal syncs.now) }
    ensures order { IfOk result (λ t. t.order ≡ default_order_of syncs.now t.journal) }
    ensures waiting { IfOk result (λ t. TellsStuck syncs.now t.journal t.waiting) }
    ensures at { IfOk result (λ t. HasWaits syncs.now t.journal t.waiting) }
{
    let RunTurns {
        journal,
        order,
        waiting,
    } = turns_in_runs(alloc, syncs)?;
    Ok(Turns {
        journal,
        order: order.to_order(alloc)?,
        waiting,
    })
}

/// The default journal and the default order of a scene, and where its clients are left waiting, if one is.
pub fn default_order(
    alloc: Global,
    scene: &Scene,
) -> Result<(Journal, Order, Option<Waiting>), OutOfMemory>
    requires { IsWithin scene.now }
    ensures journal { IfOk result (λ t. t.0 ≡ default_journal (sync_lists_of scene.now)) }
    ensures order { IfOk result (λ t. t.1 ≡ default_order_of (sync_lists_of scene.now) t.0) }
    ensures waiting { IfOk result (λ t. TellsStuck (sync_lists_of scene.now) t.0 t.2) }
    ensures at { IfOk result (λ t. HasWaits (sync_lists_of scene.now) t.0 t.2) }
{
    let syncs = sync_lists(alloc, scene)?;
    let Turns {
        journal,
        order,
        waiting,
    } = turns_of(alloc, &syncs)?;
    Ok((journal, order, waiting))
}
