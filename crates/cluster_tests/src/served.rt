//! A crew whose workers send to the caller, who takes until the last thread has ended.

use rc_base::gate::{Actor, Gate};
use rc_base::lane::{Inlet, Outlet};
use std::alloc::Global;
use std::process::Abort;
use std::sync::Wait;
use std::thread::Threads;
use tile_queues::{LaneIn, LaneOut, lane};
use worker_crew::{Attempt, Crew, Foreground, Peer, Seats, Task, Worker, prepare, run_in_scope};

// So many numbers go through each lane. A sleep of twenty milliseconds before each would take longer than a test may.
const COUNT: u32 = 4000;

// A gate that lets all pass.
#[derive(Drop)]
struct OpenGate;

impl Gate for OpenGate {
    fn pass(&self, _who: Actor, _turn: u64) {}
}

// A worker that sends the first numbers.
#[derive(Drop)]
struct Sender<R> {
    actor: Actor,
    end: LaneIn<u32, R>,
    next: u32,
}

impl<R: Wait> Worker for Sender<R> {
    ghost use Rattle.std.specs.Prelude.{⊤};

    ghost leads = { λ a b. ⊤ };

    ghost over = { λ a. ⊤ };

    ghost who = { λ a. a.actor };

    ghost steps = { λ a came b. ⊤ };

    ghost stays = { λ a. tt };

    ghost goes_on = { λ a b c f g. tt };

    fn actor(&self) -> Actor {
        self.actor
    }

    fn step(&mut self) -> Attempt {
        if self.next >= COUNT {
            return Attempt::Ended;
        }
        match self.end.push(self.next) {
            Ok(()) => {
                self.next += 1;
                Attempt::Moved(Some(Peer::Caller))
            }
            Err(_) => Attempt::Blocked(Some(Peer::Caller)),
        }
    }
}

// The other end of a sender's lane, and what came out by it.
#[derive(Drop)]
struct Receiver<R> {
    end: LaneOut<u32, R>,
    next: u32,
    is_in_order: bool,
}

impl<R: Wait> Receiver<R> {
    // Takes one number. Whether there was one.
    fn take(&mut self) -> bool {
        match self.end.pop() {
            Some(number) => {
                self.is_in_order &= number == self.next;
                self.next = self.next.saturating_add(1);
                true
            }
            None => false,
        }
    }

    // Whether all numbers came, in order.
    fn is_whole(&self) -> bool {
        self.is_in_order && self.next == COUNT
    }
}

// A foreground that takes from each lane, and a place for what becomes of the crew.
#[derive(Drop)]
struct Taking<'a, 'b, R, K> {
    receivers: &'a mut Vec<Receiver<R>>,
    kept: &'b mut Option<K>,
}

impl<'a, 'b, R: Wait, K: Drop> Foreground<K> for Taking<'a, 'b, R, K> {
    ghost use Rattle.std.specs.Prelude.{⊤};

    ghost served = { λ a b. ⊤ };

    ghost keeps = { λ a k b. ⊤ };

    ghost unserved = { λ a. tt };

    ghost goes_on = { λ a b c f g. tt };

    fn serve(&mut self) -> bool {
        let mut moved = false;
        for receiver in self.receivers.iter_mut() {
            moved |= receiver.take();
        }
        moved
    }

    fn keep(&mut self, kept: K) {
        *self.kept = Some(kept);
    }
}

type Senders<R> = Crew<Sender<R>, Sender<R>, Sender<R>>;

// A sender, whose receiver comes behind these.
fn sender_to<R: Wait + Copy + Abort>(
    rt: R,
    alloc: Global,
    actor: Actor,
    receivers: &mut Vec<Receiver<R>>,
) -> Sender<R> {
    let (end, other) = lane(rt, alloc, 1).expect(&rt, "memory");
    let receiver = Receiver {
        end: other,
        next: 0,
        is_in_order: true,
    };
    receivers.push(receiver).expect(&rt, "memory");
    Sender {
        actor,
        end,
        next: 0,
    }
}

// Two clients, a manager and a tile, each of which sends through a lane of one place.
fn senders_to<R: Wait + Copy + Abort>(
    rt: R,
    alloc: Global,
    receivers: &mut Vec<Receiver<R>>,
) -> Senders<R> {
    let first = sender_to(rt, alloc, Actor::Client(0), receivers);
    let second = sender_to(rt, alloc, Actor::Client(1), receivers);
    let third = sender_to(rt, alloc, Actor::Tile(0), receivers);
    let mut clients = Vec::new(alloc);
    clients.push(first).expect(&rt, "memory");
    clients.push(second).expect(&rt, "memory");
    let mut tiles = Vec::new(alloc);
    tiles.push(third).expect(&rt, "memory");
    Crew {
        clients,
        manager: sender_to(rt, alloc, Actor::Manager, receivers),
        tiles,
    }
}

// Whether each sender ended and each receiver took all, where there are so many places.
fn are_served<R: Threads + Wait + Copy + Send + Sync + Abort>(
    rt: R,
    alloc: Global,
    places: usize,
) -> bool {
    let seats = Seats::new(alloc, places).expect(&rt, "memory");
    let mut receivers = Vec::new(alloc);
    let crew = senders_to(rt, alloc, &mut receivers);
    let ready = prepare(alloc, crew).expect(&rt, "memory");
    let mut kept = None;
    let mut taking = Taking {
        receivers: &mut receivers,
        kept: &mut kept,
    };
    run_in_scope(rt, &OpenGate, &seats, ready, &mut taking);
    have_ended(&kept) && receivers.iter().all(|receiver| receiver.is_whole())
}

fn has_ended<R>(task: &Task<Sender<R>>) -> bool {
    task.ended && task.moves == u64::from(COUNT)
}

// Whether each worker of a crew has sent all.
fn have_ended<R>(kept: &Option<Crew<Task<Sender<R>>, Task<Sender<R>>, Task<Sender<R>>>>) -> bool {
    match kept {
        Some(crew) => {
            crew.clients.iter().all(|task| has_ended(task))
                && has_ended(&crew.manager)
                && crew.tiles.iter().all(|task| has_ended(task))
        }
        None => false,
    }
}

// A sender that wasn't served would wait for ever, with the last number or before.
#[test]
fn the_foreground_is_served_until_the_last_thread_has_ended(rt: HostRuntime) {
    assert!(rt; are_served(rt, rt.alloc(), 5));
    assert!(rt; are_served(rt, rt.alloc(), 4));
}

#[test]
fn the_foreground_is_served_until_the_last_that_came_back_has_ended(rt: HostRuntime) {
    assert!(rt; are_served(rt, rt.alloc(), 2));
    assert!(rt; are_served(rt, rt.alloc(), 0));
}
