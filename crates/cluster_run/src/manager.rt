//! The manager's worker.
ghost use Rattle.std.specs.Prelude.{◌≡◌, ◌<◌, true, false, not, length, slice_index_or, Ok};
ghost use Rattle.rc_base.specs.declared.cluster.ManagerMoved.TheVariants as moved;
ghost use Rattle.sync_manager.specs.Books.{is_wanted};
ghost use Rattle.sync_manager.specs.Cores.{book_of, clients_of, drained_in, HasToldAll};
ghost use Rattle.tile_queues.specs.Ends.{MayBeFull};
ghost use Rattle.worker_crew.specs.declared.worker.Attempt.TheVariants as attempt;
ghost use Rattle.cluster_run.specs.Attempts.{manager_attempt};
ghost use Rattle.cluster_run.specs.Managers.{ManagerLeads};
ghost use Rattle.cluster_run.specs.Steps.{IsManagerTurn, manager_came};
ghost use Rattle.cluster_run.specs.Turns.{IsWorkerTurn, TurnsGoOn};

use crate::workers::{ManagerWorker, has_ended};
use rc_base::cluster::ManagerMoved;
use rc_base::gate::Actor;
use rc_base::out_of_memory::OutOfMemory;
use rc_base::sync::{Grant, Request};
use std::sync::Wait;
use sync_manager::ManagerCore;
use sync_manager::laws::managers_meet_their_clause_over_lanes;
use tile_queues::{LaneIn, LaneOut};
use worker_crew::{Attempt, Peer, Worker};

/// What an answer of the core comes to. Want of memory is a move: the core is short from then on, and goes on.
fn attempt_of(answer: Result<ManagerMoved, OutOfMemory>) -> Attempt
    ensures exact { result ≡ manager_attempt answer }
    ensures ended { result ≡ attempt.Ended → answer ≡ Ok moved.Ended }
{
    match answer {
        Ok(ManagerMoved::Delivered { tile }) => Attempt::Moved(Some(Peer::Tile(tile))),
        Ok(ManagerMoved::Arrived { client }) | Ok(ManagerMoved::Drained { client }) => {
            Attempt::Moved(Some(Peer::Client(client)))
        }
        Ok(ManagerMoved::BlockedGrant { tile }) => Attempt::Blocked(Some(Peer::Tile(tile))),
        Ok(ManagerMoved::BlockedRequest) => Attempt::Blocked(None),
        Ok(ManagerMoved::Ended) => Attempt::Ended,
        Ok(ManagerMoved::Granted) | Err(OutOfMemory) => Attempt::Moved(None),
    }
}

impl<R: Wait> ManagerWorker<R> {
    /// Tries one step of the core over the worker's own lanes.
    fn advance(&mut self) -> Attempt
        ensures steps { IsWorkerTurn IsManagerTurn manager_came self.old result self.new }
        ensures leads { ManagerLeads self.old self.new }
        ensures turns { TurnsGoOn IsManagerTurn self.old self.new }
        ensures ended { result ≡ attempt.Ended → self.new.ended ≡ true }
    {
        managers_meet_their_clause_over_lanes::<LaneOut<Request, R>, LaneIn<Grant, R>>();
        let answer = self.core.step(&mut self.requests, &mut self.grants);
        let attempt = attempt_of(answer);
        self.ended = has_ended(attempt);
        attempt
    }
}

/// Whether the core takes of the client's lane, where it takes a request.
fn asks(core: &ManagerCore, client: usize) -> bool
    ensures receiving { (HasToldAll core.now → ⊥) → client < clients_of core.now
        → result ≡ is_wanted (book_of core.now) client }
    ensures draining { HasToldAll core.now → not result ≡ drained_in core.now client }
{
    match core.asked().get(client) {
        Some(asked) => *asked,
        None => true,
    }
}

impl<R> ManagerWorker<R> {
    /// Whether the lane to this tile looks as if there were room. Where it doesn't, as many grants were sent as the lane holds.
    fn has_room(&self, tile: u8) -> bool
        ensures { result ≡ false → (d : _) → tile < length self.now.grants.items
            → MayBeFull (slice_index_or self.now.grants.items tile d) }
    {
        match self.grants.get(tile as usize) {
            Some(lane) => !lane.is_full(),
            None => false,
        }
    }

    /// Whether a lane that the core takes of looks as if there were a request.
    fn is_asked(&self) -> bool {
        for client in 0..self.requests.len() {
            if !self.requests[client].is_empty() && asks(&self.core, client) {
                return true;
            }
        }
        false
    }
}

impl<R: Wait> Worker for ManagerWorker<R> {
    ghost use Rattle.std.specs.Prelude.{◌≡◌, true};
    ghost use Rattle.rc_base.specs.declared.gate.Actor.TheVariants as actor;
    ghost use Rattle.cluster_run.specs.Managers.{ManagerLeads};
    ghost use Rattle.cluster_run.specs.Steps.{IsManagerTurn, manager_came};
    ghost use Rattle.cluster_run.specs.Turns.{IsWorkerTurn, TurnsGoOn};

    ghost leads = { λ a b. ManagerLeads a b × TurnsGoOn IsManagerTurn a b };

    ghost over = { λ w. w.ended ≡ true };

    ghost who = { λ w. actor.Manager };

    ghost steps = { IsWorkerTurn IsManagerTurn manager_came };

    ghost stays = { λ a. ((λ syncs tiles asked granted h. h), (λ first h. h)) };

    ghost goes_on = { λ a b c f g. ((λ syncs tiles asked granted h. g.0 syncs tiles asked granted (f.0 syncs tiles asked granted h)), (λ first h. g.1 first (f.1 first h))) };

    fn actor(&self) -> Actor {
        Actor::Manager
    }

    fn step(&mut self) -> Attempt {
        self.advance()
    }

    fn may_move(&self, on: Option<Peer>) -> bool {
        match on {
            Some(Peer::Tile(tile)) => self.has_room(tile),
            _ => self.is_asked(),
        }
    }
}
