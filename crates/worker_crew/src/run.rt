//! A crew's run, with a foreground or with nothing for the caller to do meanwhile.
ghost use Rattle.std.specs.Prelude.{◌≡◌, IfOk, OnOk, OnErr};
ghost use Rattle.worker_crew.specs.Crews.{HaveEnded};

use crate::crew::Crew;
use crate::foreground::{Foreground, Idle};
use crate::ready::{Ready, prepare};
use crate::scope::{run_crew, run_in_scope};
use crate::seat::Seats;
use crate::task::Task;
use crate::worker::Worker;
use rc_base::gate::Gate;
use rc_base::out_of_memory::OutOfMemory;
use std::alloc::Global;
use std::sync::Wait;
use std::thread;
use std::thread::Threads;

/// Runs a crew to its end at these places.
fn run_with<A, B, C, G, R>(
    rt: R,
    gate: &G,
    seats: &Seats,
    ready: Ready<A, B, C>,
) -> Crew<Task<A>, Task<B>, Task<C>>
where
    A: Worker + Drop + Send,
    B: Worker + Drop + Send,
    C: Worker + Drop + Send,
    G: Gate,
    R: Threads + Wait + Copy + Send,
    ensures { HaveEnded A.leads A.over B.leads B.over C.leads C.over ready.crew result }
{
    let row = seats.row(&rt, ready.crew.clients.len(), ready.crew.tiles.len());
    thread::scope(
        thread::scope_env(),
        &rt,
        |scope| -> Crew<Task<A>, Task<B>, Task<C>>
            ensures { HaveEnded A.leads A.over B.leads B.over C.leads C.over ready.crew result }
        {
            let mut idle = Idle;
            run_crew(scope, rt, gate, row, ready, &mut idle)
        },
    )
}

/// Runs a crew to its end, each worker in a thread of its own where one can be made. The others are stepped by the caller. All memory is taken before
/// the first start.
pub fn run_to_end<A, B, C, G, R>(
    rt: R,
    alloc: Global,
    gate: &G,
    crew: Crew<A, B, C>,
) -> Result<Crew<Task<A>, Task<B>, Task<C>>, OutOfMemory>
where
    A: Worker + Drop + Send,
    B: Worker + Drop + Send,
    C: Worker + Drop + Send,
    G: Gate,
    R: Threads + Wait + Copy + Send,
    ensures { IfOk result (λ tasks. HaveEnded A.leads A.over B.leads B.over C.leads C.over crew tasks) }
{
    let count = crew.clients.len().saturating_add(crew.tiles.len());
    let seats = Seats::new(alloc, count.saturating_add(2))?;
    let ready = prepare(alloc, crew)?;
    Ok(run_with(rt, gate, &seats, ready))
}

/// Runs a crew to its end, each worker in a thread of its own where one can be made, and serves the foreground meanwhile, which keeps what became of
/// the crew. All memory is taken before the first start.
pub fn run_beside<A, B, C, J, G, R>(
    rt: R,
    alloc: Global,
    gate: &G,
    crew: Crew<A, B, C>,
    foreground: &mut J,
) -> Result<(), OutOfMemory>
where
    A: Worker + Drop + Send,
    B: Worker + Drop + Send,
    C: Worker + Drop + Send,
    J: Foreground<Crew<Task<A>, Task<B>, Task<C>>>,
    G: Gate,
    R: Threads + Wait + Copy + Send,
    ensures run { OnOk result ((m : J) × (tasks : _) × J.served foreground.old m × HaveEnded A.leads A.over B.leads B.over C.leads C.over crew tasks × J.keeps m tasks foreground.new) }
    ensures lacked { OnErr result (foreground.new ≡ foreground.old) }
{
    let count = crew.clients.len().saturating_add(crew.tiles.len());
    let seats = Seats::new(alloc, count.saturating_add(2))?;
    let ready = prepare(alloc, crew)?;
    run_in_scope(rt, gate, &seats, ready, foreground);
    Ok(())
}
