//! The workers of a cluster that has moved nothing, and the lanes between them.
ghost use Rattle.std.specs.Prelude.{◌≡◌, length, IfOk};
ghost use Rattle.rc_base.specs.declared.scene.Scene.{Scene};
ghost use Rattle.rc_base.specs.Cluster.Tiles.{tile_count};
ghost use Rattle.rc_base.specs.Formats.Within.{IsWithin, IsLayoutFor};
ghost use Rattle.cluster_run.specs.NewWorkers.{IsNewManager, IsSceneOf};
ghost use Rattle.cluster_run.specs.Workers.{IsNewCluster};

use crate::clients::new_clients;
use crate::tiles::new_tiles;
use crate::workers::{ClientWorker, ManagerWorker, TileWorker};
use command_store::StoredScene;
use order_model::laws::scenes_within_limits;
use rc_base::cluster::TilePart;
use rc_base::out_of_memory::OutOfMemory;
use rc_base::scene::Decl;
use rc_base::sync::{Grant, Request};
use rc_base::window::Layout;
use std::alloc::Global;
use sync_manager::ManagerCore;
use sync_manager::laws::managers_meet_their_clause;
use tile_queues::{LaneIn, LaneOut, lane_grid};
use worker_crew::Crew;

/// The worker of a manager that was asked for nothing.
fn new_manager<R: Drop>(
    alloc: Global,
    decl: &Decl,
    tiles: u8,
    requests: Vec<LaneOut<Request, R>>,
    grants: Vec<LaneIn<Grant, R>>,
) -> Result<ManagerWorker<R>, OutOfMemory>
    requires scene { (scene : Scene) × IsSceneOf scene decl.now (length requests.items) }
    requires tiles { length grants.items ≡ tiles }
    ensures { (scene : Scene) → IsSceneOf scene decl.now (length requests.items) → IfOk result (λ w. IsNewManager scene tiles requests grants w) }
{
    scenes_within_limits();
    managers_meet_their_clause();
    let client_count = requests.len() as u8;
    let core = ManagerCore::new(alloc, decl, client_count, tiles)?;
    Ok(ManagerWorker {
        core,
        requests,
        grants,
        ended: false,
    })
}

/// The workers of a cluster, the caller's ends of the lanes of parts, tiles rising, and what the scene declares.
#[derive(Drop)]
pub(crate) struct NewCrew<R> {
    pub(crate) crew: Crew<ClientWorker<R>, ManagerWorker<R>, TileWorker<R>>,
    pub(crate) parts: Vec<LaneOut<TilePart, R>>,
    pub(crate) decl: Decl,
}

/// The workers of a scene on the tiles of a layout, before their first step, joined by new lanes of one depth: one from each client to each tile and to
/// the manager, one from the manager to each tile, and one from each tile to the caller.
pub(crate) fn new_crew<R: Copy + Drop>(
    rt: R,
    alloc: Global,
    scene: StoredScene,
    layout: &Layout,
    depth: usize,
) -> Result<NewCrew<R>, OutOfMemory>
    requires within { IsWithin scene }
    requires layout { IsLayoutFor scene layout.now depth }
    ensures new { IfOk result (λ new. IsNewCluster scene layout.now depth new.crew new.parts.items) }
    ensures decl { IfOk result (λ new. new.decl ≡ scene.decl) }
{
    scenes_within_limits();
    let tile_count = layout.columns * layout.rows;
    let grid = lane_grid(
        rt,
        alloc,
        depth,
        scene.streams().len(),
        usize::from(tile_count),
    )?;
    let tiles = new_tiles(rt, alloc, &scene, layout, depth, grid.outs)?;
    let clients = new_clients(rt, alloc, scene, layout, depth, grid.ins)?;
    let decl = clients.decl;
    let manager = new_manager(alloc, &decl, tile_count, clients.requests, tiles.grants)?;
    let crew = Crew {
        clients: clients.workers,
        manager,
        tiles: tiles.workers,
    };
    Ok(NewCrew {
        crew,
        parts: tiles.parts,
        decl,
    })
}
