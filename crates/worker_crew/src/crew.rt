//! All workers of a cluster: started, stepped where they came back, joined.
ghost use Rattle.std.specs.Prelude.{◌≡◌, List, ◌≤◌, ◌<◌, ℕ, true, vec_len, vec_capacity, slice_index_or};
ghost use Rattle.rc_base.specs.Lists.{ArePaired};
ghost use Rattle.worker_crew.specs.Tasks.{AreStarted, HaveAllEnded, GoOn, StartedGoOn, IsTask, IsStarted, HasEnded};

use crate::crowd::Crowd;
use crate::row::Row;
use crate::start::{Started, joined, start_with};
use crate::task::{Task, Turned, turn};
use crate::waking::Waking;
use crate::watch::Watch;
use crate::worker::Worker;
use rc_base::gate::Gate;
use std::sync::Wait;
use std::thread::{Scope, Threads};

/// The three kinds of worker of a cluster, or what they became.
#[derive(Drop)]
pub struct Crew<A, B, C> {
    pub clients: Vec<A>,
    pub manager: B,
    pub tiles: Vec<C>,
}

/// Starts each worker, in the room that `started` has. The first has place `from`.
pub fn start_all<'s, E, W: Worker + Drop + Send + 's, G: Gate, R: Wait + Copy + Send + 's>(
    scope: &Scope<'s, E>,
    rt: R,
    gate: &'s G,
    row: Row<'s>,
    from: usize,
    workers: Vec<W>,
    started: Vec<Started<W>>,
) -> Vec<Started<W>>
    requires empty { vec_len started ≡ 0 }
    requires room { vec_len workers ≤ vec_capacity started }
    ensures count { vec_len result ≡ vec_len workers }
    ensures started { AreStarted W.leads W.over workers.items result.items }
{
    let mut started = started;
    for worker in workers {
        let number = from.saturating_add(started.len());
        started.push_reserved(start_with(scope, rt, gate, row, number, worker));
    }
    started
}

// Tries one step of a worker that came back, and wakes all to whom it gave something.
fn turn_for<W: Worker, G: Gate>(gate: &G, task: &mut Task<W>, waking: &mut Waking<'_>) -> Turned
    ensures { (w : W) → IsTask W.leads W.over w task.old → IsTask W.leads W.over w task.new }
{
    waking.act_as(task.worker.actor());
    turn(gate, task, waking)
}

/// Tries one step of a worker that came back.
pub fn turn_one<W: Worker, G: Gate>(
    gate: &G,
    started: &mut Started<W>,
    waking: &mut Waking<'_>,
) -> Turned
    ensures { (w : W) → IsStarted W.leads W.over w started.old → IsStarted W.leads W.over w started.new }
{
    match started {
        Ok(_) => Turned::nobody(),
        Err(task) => turn_for(gate, task, waking),
    }
}

/// Tries one step of each worker that came back.
pub fn turn_started<W: Worker, G: Gate>(
    gate: &G,
    started: &mut Vec<Started<W>>,
    waking: &mut Waking<'_>,
) -> Turned
    ensures { StartedGoOn W.leads W.over started.old.items started.new.items }
{
    let mut all = Turned::nobody();
    for i in 0..started.len() {
        all = all.and(turn_one(gate, &mut started[i], waking));
    }
    all
}

/// Waits for the end of each thread, and puts what comes back into the room that `tasks` has.
pub fn join_all<W: Worker + Drop, R: Threads>(
    rt: &R,
    started: Vec<Started<W>>,
    tasks: Vec<Task<W>>,
) -> Vec<Task<W>>
    requires empty { vec_len tasks ≡ 0 }
    requires room { vec_len started ≤ vec_capacity tasks }
    ensures { ArePaired (λ i s t. (w : W) → IsStarted W.leads W.over w s → IsTask W.leads W.over w t) started.items result.items }
{
    let mut tasks = tasks;
    for one in started {
        tasks.push_reserved(joined(rt, one));
    }
    tasks
}

/// Tries one step of each that hasn't ended.
pub fn turn_tasks<W: Worker, G: Gate>(
    gate: &G,
    tasks: &mut Vec<Task<W>>,
    waking: &mut Waking<'_>,
) -> Turned
    ensures kept { GoOn W.leads W.over tasks.old.items tasks.new.items }
    ensures ended { result.ended ≡ true → (i : ℕ) (d : Task W) → i < vec_len tasks.new → (slice_index_or tasks.new.items i d).ended ≡ true }
{
    let mut all = Turned::nobody();
    for i in 0..tasks.len() {
        all = all.and(turn(gate, &mut tasks[i], waking));
    }
    all
}

/// Waits for the end of each thread, and steps what came back until all have ended.
pub fn join_crew<A: Worker + Drop, B: Worker + Drop, C: Worker + Drop, G: Gate, R: Threads + Wait>(
    rt: &R,
    gate: &G,
    crew: Crew<Started<A>, Started<B>, Started<C>>,
    clients: Vec<Task<A>>,
    tiles: Vec<Task<C>>,
) -> Crew<Task<A>, Task<B>, Task<C>>
    requires empty { (vec_len clients ≡ 0) × (vec_len tiles ≡ 0) }
    requires room { (vec_len crew.clients ≤ vec_capacity clients) × (vec_len crew.tiles ≤ vec_capacity tiles) }
    ensures clients { (ws : List A) → AreStarted A.leads A.over ws crew.clients.items → HaveAllEnded A.leads A.over ws result.clients.items }
    ensures manager { (w : B) → IsStarted B.leads B.over w crew.manager → HasEnded B.leads B.over w result.manager }
    ensures tiles { (ws : List C) → AreStarted C.leads C.over ws crew.tiles.items → HaveAllEnded C.leads C.over ws result.tiles.items }
{
    let clients = join_all(rt, crew.clients, clients);
    let manager = joined(rt, crew.manager);
    let tiles = join_all(rt, crew.tiles, tiles);
    let mut crew = Crew {
        clients,
        manager,
        tiles,
    };
    settle(rt, gate, &mut crew);
    crew
}

/// Steps all until each has ended.
fn settle<A: Worker, B: Worker, C: Worker, G: Gate, R: Wait>(
    rt: &R,
    gate: &G,
    crew: &mut Crew<Task<A>, Task<B>, Task<C>>,
)
    ensures clients { GoOn A.leads A.over crew.old.clients.items crew.new.clients.items }
    ensures manager { (w : B) → IsTask B.leads B.over w crew.old.manager → IsTask B.leads B.over w crew.new.manager }
    ensures tiles { GoOn C.leads C.over crew.old.tiles.items crew.new.tiles.items }
    ensures clients_end { (i : ℕ) (d : Task A) → i < vec_len crew.new.clients → (slice_index_or crew.new.clients.items i d).ended ≡ true }
    ensures manager_ends { crew.new.manager.ended ≡ true }
    ensures tiles_end { (i : ℕ) (d : Task C) → i < vec_len crew.new.tiles → (slice_index_or crew.new.tiles.items i d).ended ≡ true }
{
    let crowd = Crowd::new();
    let watch = Watch::new();
    let mut waking = Waking::new(Row::empty(&crowd, &watch), 0);
    for _ in rt.forever() {
        let clients = turn_tasks(gate, &mut crew.clients, &mut waking);
        let manager = turn(gate, &mut crew.manager, &mut waking);
        let tiles = turn_tasks(gate, &mut crew.tiles, &mut waking);
        if clients.ended && manager.ended && tiles.ended {
            break;
        }
        let turned = clients.and(manager).and(tiles);
        if !(turned.moved || turned.spare) {
            waking.nap(rt);
        }
    }
}
