//! The threads of a crew, and what the caller does while they run.
ghost use Rattle.std.specs.Prelude.{◌≡◌};
ghost use Rattle.worker_crew.specs.Crews.{HaveEnded};
ghost use Rattle.worker_crew.specs.Tasks.{IsStarted, StartedGoOn};

use crate::crew::{Crew, join_crew, start_all, turn_one, turn_started};
use crate::foreground::Foreground;
use crate::ready::Ready;
use crate::row::Row;
use crate::seat::Seats;
use crate::start::{Started, start_with};
use crate::task::Task;
use crate::waking::Waking;
use crate::watch::Watch;
use crate::worker::Worker;
use rc_base::gate::Gate;
use std::sync::Wait;
use std::thread;
use std::thread::{Scope, Threads};

/// Starts the thread that counts the crew's ticks. Where none can be made, no tick passes, and a yield counts as cheap.
fn start_watch<'s, E, R: Wait + Copy + Send + 's>(scope: &Scope<'s, E>, rt: R, watch: &'s Watch) {
    if scope.spawn(move || watch.run(rt)).is_err() {
        watch.stop();
    }
}

/// Serves the foreground and steps what came back, in turns, until each thread has ended, each that came back has too, and then nothing of the
/// foreground is left. The places are read before the turn is served: what was sent by the thread that ended last is there for this turn.
fn attend<
    A: Worker,
    B: Worker,
    C: Worker,
    J: Foreground<Crew<Task<A>, Task<B>, Task<C>>>,
    G: Gate,
    R: Wait,
>(
    rt: &R,
    gate: &G,
    row: Row<'_>,
    crew: &mut Crew<Started<A>, Started<B>, Started<C>>,
    foreground: &mut J,
)
    ensures clients { StartedGoOn A.leads A.over crew.old.clients.items crew.new.clients.items }
    ensures manager { (w : B) → IsStarted B.leads B.over w crew.old.manager → IsStarted B.leads B.over w crew.new.manager }
    ensures tiles { StartedGoOn C.leads C.over crew.old.tiles.items crew.new.tiles.items }
    ensures served { J.served foreground.old foreground.new }
{
    row.crowd().wakes();
    let mut waking = Waking::new(row, row.caller());
    for _ in rt.forever() {
        let threads_ended = row.all_ended();
        let served = foreground.serve();
        let clients = turn_started(gate, &mut crew.clients, &mut waking);
        let manager = turn_one(gate, &mut crew.manager, &mut waking);
        let tiles = turn_started(gate, &mut crew.tiles, &mut waking);
        let turned = clients.and(manager).and(tiles);
        if threads_ended && turned.ended && !served {
            break;
        }
        if turned.moved || turned.spare || served {
            waking.go_on();
        } else if turned.ended {
            waking.ring_waiting();
            waking.rest(rt);
        } else {
            waking.nap(rt);
        }
    }
    row.crowd().rests();
}

/// Starts each worker in a thread of its own, serves the foreground, steps the workers for which no thread could be made, and joins all.
pub fn run_crew<'s, E, A, B, C, J, G, R>(
    scope: &Scope<'s, E>,
    rt: R,
    gate: &'s G,
    row: Row<'s>,
    ready: Ready<A, B, C>,
    foreground: &mut J,
) -> Crew<Task<A>, Task<B>, Task<C>>
where
    A: Worker + Drop + Send + 's,
    B: Worker + Drop + Send + 's,
    C: Worker + Drop + Send + 's,
    J: Foreground<Crew<Task<A>, Task<B>, Task<C>>>,
    G: Gate,
    R: Threads + Wait + Copy + Send + 's,
    ensures served { J.served foreground.old foreground.new }
    ensures over { HaveEnded A.leads A.over B.leads B.over C.leads C.over ready.crew result }
{
    let Ready {
        crew,
        clients,
        tiles,
        client_tasks,
        tile_tasks,
    } = ready;
    start_watch(scope, rt, row.watch());
    let count = crew.clients.len();
    let mut started = Crew {
        clients: start_all(scope, rt, gate, row, 0, crew.clients, clients),
        manager: start_with(scope, rt, gate, row, count, crew.manager),
        tiles: start_all(
            scope,
            rt,
            gate,
            row,
            count.saturating_add(1),
            crew.tiles,
            tiles,
        ),
    };
    attend(&rt, gate, row, &mut started, foreground);
    row.watch().stop();
    join_crew(&rt, gate, started, client_tasks, tile_tasks)
}

/// Runs a crew to its end, each worker in a thread of its own where one can be made, and serves the foreground meanwhile, which keeps what became of
/// the crew. A worker has the place of its number: the clients first, then the manager, then the tiles, then the caller.
pub fn run_in_scope<A, B, C, J, G, R>(
    rt: R,
    gate: &G,
    seats: &Seats,
    ready: Ready<A, B, C>,
    foreground: &mut J,
)
where
    A: Worker + Drop + Send,
    B: Worker + Drop + Send,
    C: Worker + Drop + Send,
    J: Foreground<Crew<Task<A>, Task<B>, Task<C>>>,
    G: Gate,
    R: Threads + Wait + Copy + Send,
    ensures { (m : J) × (tasks : _) × J.served foreground.old m × HaveEnded A.leads A.over B.leads B.over C.leads C.over ready.crew tasks × J.keeps m tasks foreground.new }
{
    let row = seats.row(&rt, ready.crew.clients.len(), ready.crew.tiles.len());
    let _foreground = thread::scope(
        thread::scope_env(),
        &rt,
        |scope| -> &mut J
            ensures name { result.ghost_name ≡ foreground.entry.ghost_name }
            ensures all { (m : J) × (tasks : _) × J.served foreground.entry.now m × HaveEnded A.leads A.over B.leads B.over C.leads C.over ready.crew tasks × J.keeps m tasks result.now }
        {
            let tasks = run_crew(scope, rt, gate, row, ready, foreground);
            foreground.keep(tasks);
            foreground
        },
    );
}
