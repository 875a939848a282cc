//! Starting a worker, and its join.
ghost use Rattle.worker_crew.specs.Tasks.{IsTask, IsStarted};

use crate::row::Row;
use crate::seat::Seat;
use crate::task::{Kept, Task, work};
use crate::worker::Worker;
use rc_base::gate::Gate;
use std::snapshot::Snapshot;
use std::sync::Wait;
use std::thread::{PromisedHandle, Scope, Threads};

/// A task in a thread, or one that came back since no thread could be made.
pub type Started<W> = Result<PromisedHandle<Task<W>, Kept<W>>, Task<W>>;

/// Starts a thread for the worker. Where none can be made, its place says so, so that it comes back unstepped.
fn start<'s, E, W: Worker + Drop + Send + 's, G: Gate, R: Wait + Copy + Send + 's>(
    scope: &Scope<'s, E>,
    rt: R,
    gate: &'s G,
    row: Row<'s>,
    seat: &'s Seat,
    number: usize,
    worker: W,
) -> Started<W>
    ensures { IsStarted W.leads W.over worker result }
{
    let task = Task::new(worker);
    let kept = Kept(Snapshot::of(&task));
    match scope.spawn_with(kept, move || work(rt, gate, row, seat, number, task)) {
        Ok(handle) => Ok(handle),
        Err(refused) => {
            seat.end();
            Err((refused.value)())
        }
    }
}

/// Starts a thread for the worker with the place of this number. Where there is no such place, the worker comes back.
pub fn start_with<'s, E, W: Worker + Drop + Send + 's, G: Gate, R: Wait + Copy + Send + 's>(
    scope: &Scope<'s, E>,
    rt: R,
    gate: &'s G,
    row: Row<'s>,
    number: usize,
    worker: W,
) -> Started<W>
    ensures { IsStarted W.leads W.over worker result }
{
    match row.seat(number) {
        Some(seat) => start(scope, rt, gate, row, seat, number, worker),
        None => Err(Task::new(worker)),
    }
}

/// The task at the end of its thread, or as it came back.
pub fn joined<W: Worker, R: Threads>(rt: &R, one: Started<W>) -> Task<W>
    ensures { (w : W) → IsStarted W.leads W.over w one → IsTask W.leads W.over w result }
{
    match one {
        Ok(handle) => handle.join(rt),
        Err(task) => task,
    }
}
