//! A client's worker.
ghost use Rattle.std.specs.Prelude.{◌≡◌, ◌<◌, true, false, length, slice_index_or, Ok};
ghost use Rattle.rc_base.specs.declared.cluster.ClientMoved.TheVariants as moved;
ghost use Rattle.worker_crew.specs.declared.worker.Attempt.TheVariants as attempt;
ghost use Rattle.tile_queues.specs.Ends.{MayBeFull};
ghost use Rattle.cluster_run.specs.Attempts.{client_attempt};
ghost use Rattle.cluster_run.specs.Clients.{ClientLeads};
ghost use Rattle.cluster_run.specs.Steps.{IsClientTurn, client_came};
ghost use Rattle.cluster_run.specs.Turns.{IsWorkerTurn, TurnsGoOn};

use crate::workers::{ClientWorker, has_ended};
use client_issue::laws::clients_meet_their_clause_over_lanes;
use parcel_bytes::Packed;
use rc_base::cluster::ClientMoved;
use rc_base::gate::Actor;
use rc_base::out_of_memory::OutOfMemory;
use rc_base::sync::Request;
use std::sync::Wait;
use tile_queues::LaneIn;
use worker_crew::{Attempt, Peer, Worker};

/// What an answer of the core comes to. Want of memory is a move: the core is short from then on, and goes on.
fn attempt_of(answer: Result<ClientMoved, OutOfMemory>) -> Attempt
    ensures exact { result ≡ client_attempt answer }
    ensures ended { result ≡ attempt.Ended → answer ≡ Ok moved.Ended }
{
    match answer {
        Ok(ClientMoved::Appended { tile }) => Attempt::Moved(Some(Peer::Tile(tile))),
        Ok(ClientMoved::Requested) => Attempt::Moved(Some(Peer::Manager)),
        Ok(ClientMoved::BlockedTile { tile }) => Attempt::Blocked(Some(Peer::Tile(tile))),
        Ok(ClientMoved::BlockedRequest) => Attempt::Blocked(Some(Peer::Manager)),
        Ok(ClientMoved::Ended) => Attempt::Ended,
        Err(OutOfMemory) => Attempt::Moved(None),
    }
}

impl<R: Wait> ClientWorker<R> {
    /// Tries one step of the core over the worker's own lanes.
    fn advance(&mut self) -> Attempt
        ensures steps { IsWorkerTurn IsClientTurn client_came self.old result self.new }
        ensures leads { ClientLeads self.old self.new }
        ensures turns { TurnsGoOn IsClientTurn self.old self.new }
        ensures ended { result ≡ attempt.Ended → self.new.ended ≡ true }
    {
        clients_meet_their_clause_over_lanes::<LaneIn<Packed, R>, LaneIn<Request, R>>();
        let answer = self.core.step(&mut self.tiles, &mut self.requests);
        let attempt = attempt_of(answer);
        self.ended = has_ended(attempt);
        attempt
    }
}

impl<R> ClientWorker<R> {
    /// Whether the lane to this tile looks as if there were room. Where it doesn't, as many parcels were sent as the lane holds.
    fn has_room(&self, tile: u8) -> bool
        ensures { result ≡ false → (d : _) → tile < length self.now.tiles.items
            → MayBeFull (slice_index_or self.now.tiles.items tile d) }
    {
        match self.tiles.get(tile as usize) {
            Some(lane) => !lane.is_full(),
            None => false,
        }
    }
}

impl<R: Wait> Worker for ClientWorker<R> {
    ghost use Rattle.std.specs.Prelude.{◌≡◌, true};
    ghost use Rattle.rc_base.specs.declared.gate.Actor.TheVariants as actor;
    ghost use Rattle.cluster_run.specs.Clients.{ClientLeads};
    ghost use Rattle.cluster_run.specs.Steps.{IsClientTurn, client_came};
    ghost use Rattle.cluster_run.specs.Turns.{IsWorkerTurn, TurnsGoOn};

    ghost leads = { λ a b. ClientLeads a b × TurnsGoOn IsClientTurn a b };

    ghost over = { λ w. w.ended ≡ true };

    ghost who = { λ w. actor.Client w.number };

    ghost steps = { IsWorkerTurn IsClientTurn client_came };

    ghost stays = { λ a. ((λ scene l client sent asked h. h), (λ first h. h)) };

    ghost goes_on = { λ a b c f g. ((λ scene l client sent asked h. g.0 scene l client sent asked (f.0 scene l client sent asked h)), (λ first h. g.1 first (f.1 first h))) };

    fn actor(&self) -> Actor {
        Actor::Client(self.number)
    }

    fn step(&mut self) -> Attempt {
        self.advance()
    }

    fn may_move(&self, on: Option<Peer>) -> bool {
        match on {
            Some(Peer::Tile(tile)) => self.has_room(tile),
            _ => !self.requests.is_full(),
        }
    }
}
