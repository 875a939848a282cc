//! A tile's worker.
ghost use Rattle.std.specs.Prelude.{◌≡◌, ◌<◌, ℕ, true, false, Ok, None, ◌++◌, [], Some, option_to_list, IfOk, OnErr};
ghost use Rattle.rc_base.specs.declared.cluster.TilePart.{TilePart};
ghost use Rattle.rc_base.specs.declared.cluster.TileMoved.TheVariants as moved;
ghost use Rattle.tile_server.specs.Clauses.{shown_in};
ghost use Rattle.tile_server.specs.Cores.{clients_of};
ghost use Rattle.tile_server.specs.Tasks.{asks_in, listens_in};
ghost use Rattle.tile_queues.specs.Ends.{sent_of, lane_in};
ghost use Rattle.worker_crew.specs.declared.worker.Attempt.TheVariants as attempt;
ghost use Rattle.cluster_run.specs.Attempts.{tile_attempt};
ghost use Rattle.cluster_run.specs.Steps.{IsPut, IsTileTried, IsTileTurn, tile_came};
ghost use Rattle.cluster_run.specs.Tiles.{TileLeads};
ghost use Rattle.cluster_run.specs.Turns.{IsWorkerTurn, TurnsGoOn};

use crate::workers::{TileWorker, has_ended};
use parcel_bytes::Packed;
use rc_base::cluster::{TileMoved, TilePart};
use rc_base::gate::Actor;
use rc_base::items::Items;
use rc_base::lane::Outlet;
use rc_base::out_of_memory::OutOfMemory;
use rc_base::sync::Grant;
use std::alloc::Global;
use std::sync::Wait;
use tile_queues::{LaneIn, LaneOut};
use tile_server::TileCore;
use tile_server::laws::{same_views_meet_the_clause, tiles_meet_their_clause_over_lanes};
use worker_crew::{Attempt, Peer, Worker};

/// What an answer of the core comes to. Want of memory is a move: the core is short from then on, and goes on, and the caller learns of it.
fn attempt_of(answer: &Result<TileMoved, OutOfMemory>) -> Attempt
    ensures exact { result ≡ tile_attempt answer.now }
    ensures ended { result ≡ attempt.Ended → answer.now ≡ Ok moved.Ended }
{
    match answer {
        Ok(TileMoved::Took { client })
        | Ok(TileMoved::Held { client })
        | Ok(TileMoved::Closed { client })
        | Ok(TileMoved::Dropped { client }) => Attempt::Moved(Some(Peer::Client(*client))),
        Ok(TileMoved::Learnt) => Attempt::Moved(Some(Peer::Manager)),
        Ok(TileMoved::Swapped(_)) | Err(OutOfMemory) => Attempt::Moved(Some(Peer::Caller)),
        Ok(TileMoved::Blocked) => Attempt::Blocked(None),
        Ok(TileMoved::Ended) => Attempt::Ended,
        Ok(TileMoved::Performed) => Attempt::Moved(None),
    }
}

/// The part that a step has for the image: the one that it shows. Where memory lacked it is one without pixels, by which the image's writer learns
/// of it.
fn offered(alloc: Global, tile: u8, answer: Result<TileMoved, OutOfMemory>) -> Option<TilePart>
    ensures shown { IfOk answer (λ did. option_to_list result ≡ shown_in (Ok did)) }
    ensures lacked { OnErr answer ((part : TilePart) × (result ≡ Some part) × (part.pixels ≡ [])) }
{
    match answer {
        Ok(TileMoved::Swapped(part)) => Some(part),
        Ok(_) => None,
        Err(OutOfMemory) => Some(TilePart {
            tile,
            frame: 0,
            pixels: Items::new(alloc),
        }),
    }
}

/// Sends the part that waits. Whether none waits any more.
fn put_held<R: Wait>(parts: &mut LaneIn<TilePart, R>, held: &mut Option<TilePart>) -> bool
    ensures handed { IsPut held.old result parts.old parts.new held.new }
    ensures lane { lane_in parts.new ≡ lane_in parts.old }
    ensures kept { sent_of parts.new ++ option_to_list held.new ≡ sent_of parts.old ++ option_to_list held.old }
    ensures put { result ≡ true → held.new ≡ None }
    ensures waits { result ≡ false → held.new ≡ None → ⊥ }
    ensures none { held.old ≡ None → held.new ≡ None }
{
    let Some(part) = held.take() else {
        return true;
    };
    match parts.push(part) {
        Ok(()) => true,
        Err(part) => {
            *held = Some(part);
            false
        }
    }
}

impl<R: Wait> TileWorker<R> {
    /// Tries one step of the core over the worker's own lanes, and sends the part that it shows. While a part waits from before, a step sends it and does
    /// nothing else.
    fn advance(&mut self) -> Attempt
        ensures steps { IsWorkerTurn IsTileTried tile_came self.old result self.new }
        ensures leads { TileLeads self.old self.new }
        ensures turns { TurnsGoOn IsTileTurn self.old self.new }
        ensures ended { result ≡ attempt.Ended → self.new.ended ≡ true }
    {
        tiles_meet_their_clause_over_lanes::<LaneOut<Packed, R>, LaneOut<Grant, R>>();
        let waited = self.held.is_some();
        if !put_held(&mut self.parts, &mut self.held) {
            return Attempt::Blocked(Some(Peer::Caller));
        }
        if waited {
            return Attempt::Moved(Some(Peer::Caller));
        }
        let answer = self.core.step(&mut self.clients, &mut self.grants);
        let attempt = attempt_of(&answer);
        self.ended = has_ended(attempt);
        self.held = offered(self.alloc, self.number, answer);
        let _sent = put_held(&mut self.parts, &mut self.held);
        attempt
    }
}

/// Whether the core takes of the client's lane.
fn asks(core: &TileCore, client: usize) -> bool
    ensures { client < clients_of core.now → result ≡ asks_in core.now client }
{
    match core.asked().get(client) {
        Some(asked) => *asked,
        None => true,
    }
}

impl<R> TileWorker<R> {
    /// Whether a lane that the core takes of looks as if there were a parcel.
    fn is_sent(&self) -> bool
        ensures { result ≡ true → (client : ℕ) × (client < clients_of self.now.core)
            × (asks_in self.now.core client ≡ true) }
    {
        for client in 0..self.clients.len() {
            if !self.clients[client].is_empty() && asks(&self.core, client) {
                return true;
            }
        }
        false
    }

    /// Whether the core takes grants, and their lane looks as if there were one.
    fn is_granted(&self) -> bool
        ensures { result ≡ true → listens_in self.now.core ≡ true }
    {
        self.core.listens() && !self.grants.is_empty()
    }

    /// Draws a block that the core took before, if one waits. Whether one did.
    fn draw_one(&mut self) -> bool
        ensures leads { TileLeads self.old self.new }
        ensures turns { TurnsGoOn IsTileTurn self.old self.new }
    {
        same_views_meet_the_clause();
        self.core.draw_one()
    }
}

impl<R: Wait> Worker for TileWorker<R> {
    ghost use Rattle.std.specs.Prelude.{◌≡◌, true};
    ghost use Rattle.rc_base.specs.declared.gate.Actor.TheVariants as actor;
    ghost use Rattle.cluster_run.specs.Steps.{IsTileTried, IsTileTurn, tile_came};
    ghost use Rattle.cluster_run.specs.Tiles.{TileLeads};
    ghost use Rattle.cluster_run.specs.Turns.{IsWorkerTurn, TurnsGoOn};

    ghost leads = { λ a b. TileLeads a b × TurnsGoOn IsTileTurn a b };

    ghost over = { λ w. w.ended ≡ true };

    ghost who = { λ w. actor.Tile w.number };

    ghost steps = { IsWorkerTurn IsTileTried tile_came };

    ghost stays = { λ a. ((λ scene l tile took heard shown h. h), (λ first h. h)) };

    ghost goes_on = { λ a b c f g. ((λ scene l tile took heard shown h. g.0 scene l tile took heard shown (f.0 scene l tile took heard shown h)), (λ first h. g.1 first (f.1 first h))) };

    fn actor(&self) -> Actor {
        Actor::Tile(self.number)
    }

    fn step(&mut self) -> Attempt {
        self.advance()
    }

    fn spare(&mut self) -> bool {
        self.draw_one()
    }

    fn may_move(&self, _on: Option<Peer>) -> bool {
        if self.held.is_some() {
            return !self.parts.is_full();
        }
        self.is_granted() || self.is_sent()
    }
}
