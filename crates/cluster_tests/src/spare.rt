//! Workers that are blocked until they have done what nobody waits for.

use rc_base::gate::{Actor, Gate};
use std::alloc::Global;
use std::process::Abort;
use worker_crew::{Attempt, Crew, Task, Worker, run_to_end};

// A gate that lets all pass.
#[derive(Drop)]
struct OpenGate;

impl Gate for OpenGate {
    fn pass(&self, _who: Actor, _turn: u64) {}
}

// A worker whose steps are blocked until it has done so many parts of what nobody waits for.
#[derive(Drop)]
struct Idler {
    actor: Actor,
    parts: u32,
    done: u32,
}

impl Worker for Idler {
    ghost use Rattle.std.specs.Prelude.{⊤};

    ghost leads = { λ a b. ⊤ };

    ghost over = { λ a. ⊤ };

    ghost who = { λ a. a.actor };

    ghost steps = { λ a came b. ⊤ };

    ghost stays = { λ a. tt };

    ghost goes_on = { λ a b c f g. tt };

    fn actor(&self) -> Actor {
        self.actor
    }

    fn step(&mut self) -> Attempt {
        if self.done < self.parts {
            return Attempt::Blocked(None);
        }
        Attempt::Ended
    }

    fn spare(&mut self) -> bool {
        if self.done < self.parts {
            self.done += 1;
            return true;
        }
        false
    }
}

fn new_idler(actor: Actor, parts: u32) -> Idler {
    Idler {
        actor,
        parts,
        done: 0,
    }
}

fn crew_of(rt: &impl Abort, alloc: Global) -> Crew<Idler, Idler, Idler> {
    let clients = vec![in alloc; new_idler(Actor::Client(0), 1000)];
    let tiles = vec![in alloc;
        new_idler(Actor::Tile(0), 1),
        new_idler(Actor::Tile(1), 300),
    ];
    Crew {
        clients: clients.expect(rt, "memory"),
        manager: new_idler(Actor::Manager, 0),
        tiles: tiles.expect(rt, "memory"),
    }
}

// Whether the task has done its parts, none of which is a step that moved.
fn has_idled(task: &Task<Idler>) -> bool {
    task.ended && task.moves == 0 && task.worker.done == task.worker.parts
}

#[test]
fn what_nobody_waits_for_is_done_where_no_step_moves(rt: HostRuntime) {
    let crew = crew_of(&rt, rt.alloc());
    let ended = run_to_end(rt, rt.alloc(), &OpenGate, crew).expect(&rt, "memory");
    assert!(rt; ended.clients.iter().all(|task| has_idled(task)));
    assert!(rt; has_idled(&ended.manager));
    assert!(rt; ended.tiles.iter().all(|task| has_idled(task)));
}
