//! All tiles' workers.
ghost use Rattle.std.specs.Prelude.{◌≡◌, ◌<◌, ◌≤◌, ℕ, length, slice_index_or, IfOk};
ghost use Rattle.rc_base.specs.Cluster.Tiles.{tile_count};
ghost use Rattle.cluster_run.specs.NewWorkers.{AreNewTiles, IsNewTile};

use crate::workers::TileWorker;
use command_store::StoredScene;
use parcel_bytes::Packed;
use rc_base::cluster::TilePart;
use rc_base::out_of_memory::OutOfMemory;
use rc_base::sync::Grant;
use rc_base::window::Layout;
use std::alloc::Global;
use tile_queues::{LaneIn, LaneOut, lane};
use tile_server::TileCore;
use tile_server::laws::tiles_meet_their_clause;

/// The workers of all tiles, the manager's ends of their lanes, and the ends by which their parts are taken.
#[derive(Drop)]
pub(crate) struct NewTiles<R> {
    pub(crate) workers: Vec<TileWorker<R>>,
    pub(crate) grants: Vec<LaneIn<Grant, R>>,
    pub(crate) parts: Vec<LaneOut<TilePart, R>>,
}

/// The worker of a tile that was sent nothing.
fn new_tile<R: Drop>(
    alloc: Global,
    scene: &StoredScene,
    layout: &Layout,
    number: u8,
    clients: Vec<LaneOut<Packed, R>>,
    grants: LaneOut<Grant, R>,
    parts: LaneIn<TilePart, R>,
) -> Result<TileWorker<R>, OutOfMemory>
    requires few { length scene.now.streams ≤ 8 }
    requires number { number < tile_count layout.now }
    requires lanes { length clients.items ≡ length scene.now.streams }
    ensures new { IfOk result (λ w. IsNewTile scene.now layout.now number clients w) }
    ensures grants { IfOk result (λ w. w.grants ≡ grants) }
    ensures parts { IfOk result (λ w. w.parts ≡ parts) }
{
    tiles_meet_their_clause();
    let client_count = scene.streams().len() as u8;
    let core = TileCore::new(alloc, scene.decl(), client_count, layout, number)?;
    Ok(TileWorker {
        alloc,
        number,
        core,
        clients,
        grants,
        parts,
        held: None,
        ended: false,
    })
}

/// A worker for each column of ends, with a new lane from the manager, and one of its parts. Of its tile's pixels the memory alone is taken here: they are
/// written by the worker.
pub(crate) fn new_tiles<R: Copy + Drop>(
    rt: R,
    alloc: Global,
    scene: &StoredScene,
    layout: &Layout,
    depth: usize,
    columns: Vec<Vec<LaneOut<Packed, R>>>,
) -> Result<NewTiles<R>, OutOfMemory>
    requires few { length scene.now.streams ≤ 8 }
    requires depth { (1 ≤ depth) × (depth ≤ 16) }
    requires few_tiles { tile_count layout.now ≤ 32 }
    requires tiles { length columns.items ≡ tile_count layout.now }
    requires lanes { (t : ℕ) (d : _) → t < length columns.items → length (slice_index_or columns.items t d).items ≡ length scene.now.streams }
    ensures { IfOk result (λ new. AreNewTiles scene.now layout.now depth columns.items new.workers.items new.grants.items new.parts.items) }
{
    let mut workers = Vec::new(alloc);
    let mut grants = Vec::new(alloc);
    let mut parts = Vec::new(alloc);
    for clients in columns {
        let number = workers.len() as u8;
        let (sender, hearing) = lane(rt, alloc, depth)?;
        let (showing, receiver) = lane(rt, alloc, depth)?;
        let worker = new_tile(alloc, scene, layout, number, clients, hearing, showing)?;
        workers.push(worker)?;
        grants.push(sender)?;
        parts.push(receiver)?;
    }
    Ok(NewTiles {
        workers,
        grants,
        parts,
    })
}
