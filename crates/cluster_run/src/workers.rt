//! The workers: each a core with its own ends of lanes.
ghost use Rattle.std.specs.Prelude.{◌≡◌, true, length};
ghost use Rattle.rc_base.specs.Cluster.Tiles.{tile_count};
ghost use Rattle.client_issue.specs.Cores as client;
ghost use Rattle.sync_manager.specs.Cores as manager;
ghost use Rattle.tile_server.specs.Cores as tile;
ghost use Rattle.worker_crew.specs.declared.worker.Attempt.TheVariants as answer;

use client_issue::ClientCore;
use parcel_bytes::Packed;
use rc_base::cluster::TilePart;
use rc_base::sync::{Grant, Request};
use std::alloc::Global;
use sync_manager::ManagerCore;
use tile_queues::{LaneIn, LaneOut};
use tile_server::TileCore;
use worker_crew::Attempt;

/// A client's core with its lanes to the tiles, tiles rising, and to the manager. Whether it has nothing left to send.
#[derive(Drop)]
pub struct ClientWorker<R> {
    pub(crate) number: u8,
    pub(crate) core: ClientCore,
    pub(crate) tiles: Vec<LaneIn<Packed, R>>,
    pub(crate) requests: LaneIn<Request, R>,
    pub(crate) ended: bool,
    ghost lanes: { length tiles.items ≡ tile_count (client.layout_of core) },
}

/// The manager's core with its lanes from the clients, clients rising, and to the tiles, tiles rising. Whether nothing is left for it to do.
#[derive(Drop)]
pub struct ManagerWorker<R> {
    pub(crate) core: ManagerCore,
    pub(crate) requests: Vec<LaneOut<Request, R>>,
    pub(crate) grants: Vec<LaneIn<Grant, R>>,
    pub(crate) ended: bool,
    ghost clients: { length requests.items ≡ manager.clients_of core },
    ghost tiles: { length grants.items ≡ manager.tiles_of core },
}

/// A tile's core with its lanes from the clients, clients rising, and from the manager, and the lane of the parts that it shows. A part that found that
/// lane full waits in `held`; until there is room for it the core takes no step.
#[derive(Drop)]
pub struct TileWorker<R> {
    pub(crate) alloc: Global,
    pub(crate) number: u8,
    pub(crate) core: TileCore,
    pub(crate) clients: Vec<LaneOut<Packed, R>>,
    pub(crate) grants: LaneOut<Grant, R>,
    pub(crate) parts: LaneIn<TilePart, R>,
    pub(crate) held: Option<TilePart>,
    pub(crate) ended: bool,
    ghost lanes: { length clients.items ≡ tile.clients_of core },
}

/// Whether nothing is left to do.
pub(crate) fn has_ended(attempt: Attempt) -> bool
    ensures only { result ≡ true → attempt ≡ answer.Ended }
    ensures ended { attempt ≡ answer.Ended → result ≡ true }
{
    match attempt {
        Attempt::Ended => true,
        _ => false,
    }
}
