//! A crew that has ended, taken apart: its lanes are closed, and what is left is its cores and the tiles' ends of the lanes of parts. So it is whatever memory
//! lacks: there is room for all that before the crew is started.
ghost use Rattle.std.specs.Prelude.{◌≡◌, ◌<◌, ◌||◌, false, length, vec_len, IfOk};
ghost use Rattle.rc_base.specs.Lists.{ArePaired};
ghost use Rattle.rc_base.specs.declared.scene.Scene.{Scene};
ghost use Rattle.rc_base.specs.declared.window.Layout.{Layout};
ghost use Rattle.rc_base.specs.Cluster.Tiles.{tile_count};
ghost use Rattle.run_record.specs.Closed.{AreClosed};
ghost use Rattle.tile_queues.specs.Names.{AreInto};
ghost use Rattle.cluster_run.specs.Apart.{AreOfClients, AreOfTiles};
ghost use Rattle.cluster_run.specs.Clusters.{LaneNames, IsEndedCluster};
ghost use Rattle.cluster_run.specs.Rooms.{IsClientRoom, IsTileRoom, IsRoomFor};
ghost use Rattle.cluster_run.specs.Serving.{shown_in_lanes};
ghost use Rattle.cluster_run.specs.Workers.{AreCoresOf, AreOrderly};

use crate::workers::{ClientWorker, ManagerWorker, TileWorker};
use client_issue::ClientCore;
use parcel_bytes::Packed;
use rc_base::cluster::TilePart;
use rc_base::out_of_memory::OutOfMemory;
use rc_base::sync::{Grant, Request};
use std::alloc::Global;
use sync_manager::ManagerCore;
use tile_queues::{
    LaneIn, LaneOut, Rest, close_all, close_list, named_ends_are_paired,
    named_rows_and_columns_are_a_grid,
};
use tile_server::TileCore;
use worker_crew::{Crew, Task};

/// The cores of a cluster that has ended, the ends by which the tiles have sent their parts, and whether memory lacked in one of the workers.
#[derive(Drop)]
pub(crate) struct Cores<R> {
    pub(crate) clients: Vec<ClientCore>,
    pub(crate) manager: ManagerCore,
    pub(crate) tiles: Vec<TileCore>,
    pub(crate) parts: Vec<LaneIn<TilePart, R>>,
    pub(crate) short: bool,
}

/// What the clients' workers had, clients rising, and whether memory lacked in one of them.
#[derive(Drop)]
pub(crate) struct ClientParts<R> {
    cores: Vec<ClientCore>,
    rows: Vec<Vec<LaneIn<Packed, R>>>,
    requests: Vec<LaneIn<Request, R>>,
    short: bool,
}

/// What the tiles' workers had, tiles rising, and whether memory lacked in one of them.
#[derive(Drop)]
pub(crate) struct TileParts<R> {
    cores: Vec<TileCore>,
    columns: Vec<Vec<LaneOut<Packed, R>>>,
    grants: Vec<LaneOut<Grant, R>>,
    parts: Vec<LaneIn<TilePart, R>>,
    short: bool,
}

/// Room for all that a crew's workers have, and for the lanes of parts once their ends are brought together. It is made before the first worker is
/// started, so that a crew can be taken apart whatever memory is left.
#[derive(Drop)]
pub(crate) struct Room<R> {
    pub(crate) clients: ClientParts<R>,
    pub(crate) tiles: TileParts<R>,
    pub(crate) rests: Vec<Rest<TilePart, R>>,
}

/// Room for what so many clients' workers have.
fn client_room<R: Drop>(alloc: Global, count: usize) -> Result<ClientParts<R>, OutOfMemory>
    ensures { IfOk result (IsClientRoom count) }
{
    Ok(ClientParts {
        cores: Vec::with_capacity(alloc, count)?,
        rows: Vec::with_capacity(alloc, count)?,
        requests: Vec::with_capacity(alloc, count)?,
        short: false,
    })
}

/// Room for what so many tiles' workers have.
fn tile_room<R: Drop>(alloc: Global, count: usize) -> Result<TileParts<R>, OutOfMemory>
    ensures { IfOk result (IsTileRoom count) }
{
    Ok(TileParts {
        cores: Vec::with_capacity(alloc, count)?,
        columns: Vec::with_capacity(alloc, count)?,
        grants: Vec::with_capacity(alloc, count)?,
        parts: Vec::with_capacity(alloc, count)?,
        short: false,
    })
}

impl<R: Drop> Room<R> {
    /// Room for what the workers of so many clients and tiles have.
    pub(crate) fn new(alloc: Global, clients: usize, tiles: usize) -> Result<Room<R>, OutOfMemory>
        ensures { IfOk result (IsRoomFor clients tiles) }
    {
        Ok(Room {
            clients: client_room(alloc, clients)?,
            tiles: tile_room(alloc, tiles)?,
            rests: Vec::with_capacity(alloc, tiles)?,
        })
    }
}

/// Takes the clients' workers apart, into the room that there is.
fn client_parts<R: Copy>(room: ClientParts<R>, tasks: Vec<Task<ClientWorker<R>>>) -> ClientParts<R>
    requires { IsClientRoom (vec_len tasks) room }
    ensures { AreOfClients result.short tasks.items result.cores.items result.rows.items result.requests.items }
{
    let ClientParts {
        mut cores,
        mut rows,
        mut requests,
        ..
    } = room;
    let mut short = false;
    for task in tasks {
        let Task { worker, .. } = task;
        let ClientWorker {
            core,
            tiles,
            requests: asking,
            ..
        } = worker;
        short |= core.is_short();
        cores.push_reserved(core);
        rows.push_reserved(tiles);
        requests.push_reserved(asking);
    }
    ClientParts {
        cores,
        rows,
        requests,
        short,
    }
}

/// Takes the tiles' workers apart, into the room that there is.
fn tile_parts<R: Copy>(room: TileParts<R>, tasks: Vec<Task<TileWorker<R>>>) -> TileParts<R>
    requires { IsTileRoom (vec_len tasks) room }
    ensures { AreOfTiles result.short tasks.items result.cores.items result.columns.items result.grants.items result.parts.items }
{
    let TileParts {
        mut cores,
        mut columns,
        mut grants,
        mut parts,
        ..
    } = room;
    let mut short = false;
    for task in tasks {
        let Task { worker, .. } = task;
        let TileWorker {
            core,
            clients,
            grants: hearing,
            parts: showing,
            ..
        } = worker;
        short |= core.is_short();
        cores.push_reserved(core);
        columns.push_reserved(clients);
        grants.push_reserved(hearing);
        parts.push_reserved(showing);
    }
    TileParts {
        cores,
        columns,
        grants,
        parts,
        short,
    }
}

/// Takes a crew that has ended apart, and closes all its lanes but those of parts.
pub(crate) fn cores_of<R: Copy>(
    client_room: ClientParts<R>,
    tile_room: TileParts<R>,
    crew: Crew<Task<ClientWorker<R>>, Task<ManagerWorker<R>>, Task<TileWorker<R>>>,
) -> Cores<R>
    requires client_room { IsClientRoom (vec_len crew.clients) client_room }
    requires tile_room { IsTileRoom (vec_len crew.tiles) tile_room }
    requires some { (0 < vec_len crew.clients) × (0 < vec_len crew.tiles) }
    requires ended { (scene : Scene) × (l : Layout) × (names : LaneNames) × IsEndedCluster scene l names crew }
    ensures closed { result.short ≡ false → (scene : Scene) (l : Layout) (names : LaneNames) → IsEndedCluster scene l names crew
        → AreClosed scene l result.clients.items result.manager result.tiles.items (shown_in_lanes result.parts.items) }
    ensures orderly { (scene : Scene) (l : Layout) (names : LaneNames) → IsEndedCluster scene l names crew
        → AreOrderly (length scene.streams) (tile_count l) crew }
    ensures cores { result.short ≡ false → (result.manager ≡ crew.manager.worker.core) × AreCoresOf crew result.clients.items result.tiles.items }
    ensures parts { (scene : Scene) (l : Layout) (names : LaneNames) → IsEndedCluster scene l names crew
        → AreInto (tile_count l) names.parts result.parts.items }
    ensures shown { ArePaired (λ tile task end. end ≡ task.worker.parts) crew.tiles.items result.parts.items }
{
    named_rows_and_columns_are_a_grid::<Packed, R>();
    named_ends_are_paired::<Request, R>();
    named_ends_are_paired::<Grant, R>();
    let Crew {
        clients,
        manager,
        tiles,
    } = crew;
    let ClientParts {
        cores: clients,
        rows,
        requests: asking,
        short: clients_lack,
    } = client_parts(client_room, clients);
    let TileParts {
        cores: tiles,
        mut columns,
        grants: mut hearing,
        parts,
        short: tiles_lack,
    } = tile_parts(tile_room, tiles);
    let Task { worker, .. } = manager;
    let ManagerWorker {
        core: manager,
        mut requests,
        grants,
        ..
    } = worker;
    close_all(rows, &mut columns);
    close_list(asking, &mut requests);
    close_list(grants, &mut hearing);
    let short = clients_lack | tiles_lack | manager.is_short();
    Cores {
        clients,
        manager,
        tiles,
        parts,
        short,
    }
}
