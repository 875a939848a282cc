//! A crew of small workers, in threads and without them, and a gate that counts their attempts.
ghost use Rattle.std.specs.Prelude.{◌≡◌, IfSome};
ghost use Rattle.worker_crew.specs.Crews.{HaveEnded};

use rc_base::gate::{Actor, Gate};
use std::alloc::Global;
use std::process::Abort;
use std::sync::Wait;
use std::sync::atomic::{AtomicBool, AtomicU64, Ordering};
use std::thread::Threads;
use worker_crew::{
    Attempt, Crew, Foreground, Ready, Seats, Task, Worker, prepare, run_in_scope, run_to_end,
};

// A worker that counts down, and after each step that it moves finds nothing to do once.
#[derive(Drop)]
struct Countdown {
    actor: Actor,
    left: u32,
    is_tired: bool,
}

impl Countdown {
    fn new(actor: Actor, left: u32) -> Countdown {
        Countdown {
            actor,
            left,
            is_tired: false,
        }
    }
}

impl Worker for Countdown {
    ghost use Rattle.std.specs.Prelude.{◌≡◌, ⊤};

    ghost leads = { λ a b. ⊤ };

    ghost over = { λ a. a.left ≡ 0 };

    ghost who = { λ a. a.actor };

    ghost steps = { λ a came b. ⊤ };

    ghost stays = { λ a. tt };

    ghost goes_on = { λ a b c f g. tt };

    fn actor(&self) -> Actor {
        self.actor
    }

    fn step(&mut self) -> Attempt {
        if self.is_tired {
            self.is_tired = false;
            return Attempt::Blocked(None);
        }
        if self.left == 0 {
            return Attempt::Ended;
        }
        self.left -= 1;
        self.is_tired = true;
        Attempt::Moved(None)
    }
}

type Before = Crew<Countdown, Countdown, Countdown>;

type After = Crew<Task<Countdown>, Task<Countdown>, Task<Countdown>>;

// Two clients, a manager and three tiles, which count down from these numbers.
fn crew_of(rt: &impl Abort, alloc: Global) -> Before {
    let clients = vec![in alloc;
        Countdown::new(Actor::Client(0), 10),
        Countdown::new(Actor::Client(1), 20),
    ];
    let tiles = vec![in alloc;
        Countdown::new(Actor::Tile(0), 0),
        Countdown::new(Actor::Tile(1), 1),
        Countdown::new(Actor::Tile(2), 300),
    ];
    Crew {
        clients: clients.expect(rt, "memory"),
        manager: Countdown::new(Actor::Manager, 30),
        tiles: tiles.expect(rt, "memory"),
    }
}

// Whether the task has moved so many steps and has ended.
fn has_moved(task: &Task<Countdown>, steps: u32) -> bool {
    task.moves == u64::from(steps) && task.ended && task.worker.left == 0
}

// Whether these tasks have, in their order.
fn have_moved(tasks: &[Task<Countdown>], steps: &[u32]) -> bool {
    let mut all = tasks.len() == steps.len();
    for (task, steps) in tasks.iter().zip(steps) {
        all &= has_moved(task, *steps);
    }
    all
}

// Whether all have counted down from their numbers and have ended.
fn have_ended(crew: &After) -> bool {
    have_moved(&crew.clients, &[10, 20])
        && has_moved(&crew.manager, 30)
        && have_moved(&crew.tiles, &[0, 1, 300])
}

// What a gate saw of one actor.
#[derive(Drop)]
struct Seen {
    passes: AtomicU64,
    turn: AtomicU64,
}

impl Seen {
    fn new() -> Seen {
        Seen {
            passes: AtomicU64::new(0),
            turn: AtomicU64::new(0),
        }
    }

    // Whether the turn isn't below that of the pass before.
    fn note(&self, turn: u64) -> bool {
        self.passes.fetch_add(1, Ordering::SeqCst);
        self.turn.swap(turn, Ordering::SeqCst) <= turn
    }

    // Whether the actor passed before each of so many steps, once more after each, and last with as many steps moved.
    fn is_whole(&self, steps: u32) -> bool {
        let steps = u64::from(steps);
        self.passes.load(Ordering::SeqCst) == 2 * steps + 1
            && self.turn.load(Ordering::SeqCst) == steps
    }
}

// A gate that counts the passes of each actor.
#[derive(Drop)]
struct CountingGate {
    first_client: Seen,
    second_client: Seen,
    manager: Seen,
    first_tile: Seen,
    second_tile: Seen,
    third_tile: Seen,
    fell: AtomicBool,
}

impl CountingGate {
    fn new() -> CountingGate {
        CountingGate {
            first_client: Seen::new(),
            second_client: Seen::new(),
            manager: Seen::new(),
            first_tile: Seen::new(),
            second_tile: Seen::new(),
            third_tile: Seen::new(),
            fell: AtomicBool::new(false),
        }
    }

    // Whether each actor passed before each of its attempts, and no turn fell.
    fn is_whole(&self) -> bool {
        self.first_client.is_whole(10)
            && self.second_client.is_whole(20)
            && self.manager.is_whole(30)
            && self.first_tile.is_whole(0)
            && self.second_tile.is_whole(1)
            && self.third_tile.is_whole(300)
            && !self.fell.load(Ordering::SeqCst)
    }
}

impl Gate for CountingGate {
    fn pass(&self, who: Actor, turn: u64) {
        let seen = match who {
            Actor::Client(0) => &self.first_client,
            Actor::Client(_) => &self.second_client,
            Actor::Manager => &self.manager,
            Actor::Tile(0) => &self.first_tile,
            Actor::Tile(1) => &self.second_tile,
            Actor::Tile(_) => &self.third_tile,
        };
        if !seen.note(turn) {
            self.fell.store(true, Ordering::SeqCst);
        }
    }
}

#[test]
fn each_worker_of_a_crew_ends_and_passes_the_gate(rt: HostRuntime) {
    let gate = CountingGate::new();
    let crew = crew_of(&rt, rt.alloc());
    let ended = run_to_end(rt, rt.alloc(), &gate, crew).expect(&rt, "memory");
    assert!(rt; have_ended(&ended));
    assert!(rt; gate.is_whole());
}

// A foreground of so many turns, and a place for what becomes of the crew.
#[derive(Drop)]
struct Turns<'a, 'b, K> {
    left: &'a mut u32,
    kept: &'b mut Option<K>,
}

impl<'a, 'b, K: Drop> Foreground<K> for Turns<'a, 'b, K> {
    ghost use Rattle.std.specs.Prelude.{◌≡◌, Some};
    ghost use Rattle.std.proofs.Common.{refl, ◌∙◌};

    ghost served = { λ a b. (b.left.ghost_name ≡ a.left.ghost_name) × (b.kept.ghost_name ≡ a.kept.ghost_name) };

    ghost keeps = { λ a k b. (b.left ≡ a.left) × (b.kept.ghost_name ≡ a.kept.ghost_name) × (b.kept.now ≡ Some k) };

    ghost unserved = { λ a. (refl, refl) };

    ghost goes_on = { λ a b c f g. (g.0 ∙ f.0, g.1 ∙ f.1) };

    fn serve(&mut self) -> bool {
        let moved = *self.left > 0;
        *self.left = self.left.saturating_sub(1);
        moved
    }

    fn keep(&mut self, kept: K) {
        *self.kept = Some(kept);
    }
}

// Runs a crew, with so many turns meanwhile.
fn run_beside<W, G, R>(
    rt: R,
    gate: &G,
    seats: &Seats,
    ready: Ready<W, W, W>,
    left: &mut u32,
) -> Option<Crew<Task<W>, Task<W>, Task<W>>>
where
    W: Worker + Drop + Send,
    G: Gate,
    R: Threads + Wait + Copy + Send,
    ensures { IfSome result (λ tasks. HaveEnded W.leads W.over W.leads W.over W.leads W.over ready.crew tasks) }
{
    let mut kept = None;
    let mut turns = Turns {
        left,
        kept: &mut kept,
    };
    run_in_scope(rt, gate, seats, ready, &mut turns);
    kept
}

// The first client has a thread, the second is held back, and the others have no place and are stepped by the caller.
#[test]
fn workers_that_come_back_are_stepped_by_the_caller(rt: HostRuntime) {
    let gate = CountingGate::new();
    let ready = prepare(rt.alloc(), crew_of(&rt, rt.alloc())).expect(&rt, "memory");
    let seats = Seats::new(rt.alloc(), 2).expect(&rt, "memory");
    seats.hold_back(1);
    let mut left = 50;
    let kept = run_beside(rt, &gate, &seats, ready, &mut left);
    assert!(rt; left == 0);
    let ended = match &kept {
        Some(crew) => have_ended(crew),
        None => false,
    };
    assert!(rt; ended);
    assert!(rt; gate.is_whole());
}
