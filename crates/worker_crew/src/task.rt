//! A worker, and how far it is.
ghost use Rattle.std.specs.Prelude.{◌≡◌, ◌&&◌, ◌||◌, true, false, cond, IsTrue, None};
ghost use Rattle.rc_base.specs.Outside.Causes.{risen};
ghost use Rattle.worker_crew.specs.Tasks.{IsTask};

use crate::row::Row;
use crate::seat::Seat;
use crate::waking::Waking;
use crate::worker::{Attempt, Peer, Worker};
use rc_base::gate::Gate;
use std::snapshot::Snapshot;
use std::sync::Wait;
use std::thread::Promise;

/// A worker, the number of steps that it has moved, and whether it has ended.
#[derive(Drop)]
pub struct Task<W> {
    pub worker: W,
    pub moves: u64,
    pub ended: bool,
}

impl<W: Worker> Task<W> {
    /// The task of a worker that has moved no step.
    pub fn new(worker: W) -> Task<W>
        ensures { IsTask W.leads W.over worker result }
    {
        Task {
            worker,
            moves: 0,
            ended: false,
        }
    }
}

/// What is promised of a task that a thread hands back: it is a task of whatever worker it was a task of when the thread began.
#[derive(Drop)]
pub struct Kept<W>(pub Snapshot<Task<W>>);

impl<W: Worker> Promise<Task<W>> for Kept<W> {
    ghost use Rattle.worker_crew.specs.Tasks.{IsTask};

    ghost kept_by = { λ p r. (w : W) → IsTask W.leads W.over w p.0.value → IsTask W.leads W.over w r };
}

/// What a turn came to: whether anything moved in it, whether all whose turn it was have ended, for whom it waits, and whether something was done that
/// nobody waits for.
#[derive(Clone, Copy, Drop)]
pub struct Turned {
    pub moved: bool,
    pub ended: bool,
    pub on: Option<Peer>,
    pub spare: bool,
}

impl Turned {
    /// The turn of nobody.
    pub fn nobody() -> Turned
        ensures { result ≡ record { moved = false; ended = true; on = None; spare = false } }
    {
        Turned {
            moved: false,
            ended: true,
            on: None,
            spare: false,
        }
    }

    /// This turn and another, of which it isn't known for whom they wait.
    pub fn and(self, other: Turned) -> Turned
        ensures { result ≡ record { moved = self.moved || other.moved; ended = self.ended && other.ended; on = None; spare = self.spare || other.spare } }
    {
        Turned {
            moved: self.moved || other.moved,
            ended: self.ended && other.ended,
            on: None,
            spare: self.spare || other.spare,
        }
    }
}

/// Passes the gate and tries one step, unless the task has ended.
pub fn attempt<W: Worker, G: Gate>(gate: &G, task: &mut Task<W>, waking: &mut Waking<'_>) -> Turned
    ensures kept { (w : W) → IsTask W.leads W.over w task.old → IsTask W.leads W.over w task.new }
    ensures ended { result.ended ≡ task.new.ended }
    ensures moves { task.new.moves ≡ cond result.moved (risen task.old.moves) task.old.moves }
{
    let mut moved = false;
    let mut on = None;
    if !task.ended {
        gate.pass(task.worker.actor(), task.moves);
        match task.worker.step() {
            Attempt::Moved(to) => {
                task.moves = task.moves.saturating_add(1);
                moved = true;
                if let Some(peer) = to {
                    waking.gave(peer);
                }
            }
            Attempt::Blocked(from) => on = from,
            Attempt::Lacked => {
                task.moves = task.moves.saturating_add(1);
                moved = true;
                waking.gave_any();
            }
            Attempt::Ended => task.ended = true,
        }
    }
    Turned {
        moved,
        ended: task.ended,
        on,
        spare: false,
    }
}

/// A turn of a task that no thread steps: it passes the gate and tries one step, unless the task has ended. All to whom something was given are rung, and
/// where nothing moved a part of what nobody waits for is done.
pub fn turn<W: Worker, G: Gate>(gate: &G, task: &mut Task<W>, waking: &mut Waking<'_>) -> Turned
    ensures kept { (w : W) → IsTask W.leads W.over w task.old → IsTask W.leads W.over w task.new }
    ensures ended { result.ended ≡ task.new.ended }
{
    let mut turned = attempt(gate, task, waking);
    waking.settle();
    if !turned.moved && !turned.ended {
        turned.spare = waking.spare(&mut task.worker);
    }
    turned
}

/// Steps a task to its end, unless it is held back; then it comes back unstepped.
fn work_unless<W: Worker, G: Gate, R: Wait + Copy>(
    held_back: bool,
    rt: R,
    gate: &G,
    waking: &mut Waking<'_>,
    task: Task<W>,
) -> Task<W>
    ensures kept { (w : W) → IsTask W.leads W.over w task → IsTask W.leads W.over w result }
    ensures unstepped { held_back ≡ true → result ≡ task }
    ensures ended { held_back ≡ false → result.ended ≡ true }
{
    let mut task = task;
    if held_back {
        return task;
    }
    for _ in rt.forever() {
        let turned = attempt(gate, &mut task, waking);
        if turned.ended {
            break;
        }
        waking.after(&rt, turned, &mut task.worker);
    }
    task
}

/// Steps a task to its end, unless its place says that it is held back, which is read first. The place says at the end, after the last step, that the
/// worker has ended, so that who finds it so finds all that was sent. Who ends last wakes the caller.
pub fn work<W: Worker, G: Gate, R: Wait + Copy>(
    rt: R,
    gate: &G,
    row: Row<'_>,
    seat: &Seat,
    number: usize,
    task: Task<W>,
) -> Task<W>
    ensures { (w : W) → IsTask W.leads W.over w task → IsTask W.leads W.over w result }
{
    row.crowd().wakes();
    let mut waking = Waking::new(row, number);
    let task = work_unless(seat.has_ended(), rt, gate, &mut waking, task);
    waking.leave(seat);
    if row.all_ended() {
        row.wake_caller();
    }
    row.crowd().rests();
    task
}
