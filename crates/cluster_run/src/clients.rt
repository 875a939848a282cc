//! All clients' workers.
ghost use Rattle.std.specs.Prelude.{◌≡◌, ◌<◌, ◌≤◌, ℕ, length, slice_index_or, IfOk};
ghost use Rattle.rc_base.specs.declared.scene.Scene.{Scene};
ghost use Rattle.rc_base.specs.Cluster.Tiles.{tile_count};
ghost use Rattle.rc_base.specs.Formats.Within.{IsWithin, IsLayoutFor};
ghost use Rattle.client_issue.specs.Given.{AreWithin, IsStreamOf};
ghost use Rattle.cluster_run.specs.NewWorkers.{AreNewClients, IsNewClient};

use crate::workers::ClientWorker;
use client_issue::ClientCore;
use client_issue::laws::clients_meet_their_clause;
use command_store::{CommandStore, StoredScene};
use parcel_bytes::Packed;
use rc_base::out_of_memory::OutOfMemory;
use rc_base::scene::Decl;
use rc_base::sync::Request;
use rc_base::window::Layout;
use std::alloc::Global;
use tile_queues::{LaneIn, LaneOut, lane};

/// The workers of all clients, the manager's ends of their lanes, and what the scene declares.
#[derive(Drop)]
pub(crate) struct NewClients<R> {
    pub(crate) workers: Vec<ClientWorker<R>>,
    pub(crate) requests: Vec<LaneOut<Request, R>>,
    pub(crate) decl: Decl,
}

/// The worker of a client that has sent nothing.
fn new_client<R: Drop>(
    alloc: Global,
    decl: &Decl,
    layout: &Layout,
    number: u8,
    stream: CommandStore,
    tiles: Vec<LaneIn<Packed, R>>,
    requests: LaneIn<Request, R>,
) -> Result<ClientWorker<R>, OutOfMemory>
    requires within { AreWithin decl.now stream layout.now }
    requires lanes { length tiles.items ≡ tile_count layout.now }
    ensures new { IfOk result (λ w. (scene : Scene) → IsStreamOf scene number decl.now stream → IsNewClient scene layout.now number tiles w) }
    ensures requests { IfOk result (λ w. w.requests ≡ requests) }
{
    clients_meet_their_clause();
    let core = ClientCore::of_store(alloc, decl, stream, layout)?;
    Ok(ClientWorker {
        number,
        core,
        tiles,
        requests,
        ended: false,
    })
}

/// A worker for each row of ends, which has its client's stream, with a new lane to the manager.
pub(crate) fn new_clients<R: Copy + Drop>(
    rt: R,
    alloc: Global,
    scene: StoredScene,
    layout: &Layout,
    depth: usize,
    rows: Vec<Vec<LaneIn<Packed, R>>>,
) -> Result<NewClients<R>, OutOfMemory>
    requires within { IsWithin scene }
    requires layout { (d : ℕ) × IsLayoutFor scene layout.now d }
    requires few { length scene.streams ≤ 8 }
    requires depth { (1 ≤ depth) × (depth ≤ 16) }
    requires clients { length rows.items ≡ length scene.streams }
    requires lanes { (c : ℕ) (d : _) → c < length rows.items → length (slice_index_or rows.items c d).items ≡ tile_count layout.now }
    ensures new { IfOk result (λ new. AreNewClients scene layout.now depth rows.items new.workers.items new.requests.items) }
    ensures decl { IfOk result (λ new. new.decl ≡ scene.decl) }
{
    let (decl, streams) = scene.into_parts();
    let mut streams = streams.into_vec().into_iter();
    let mut workers = Vec::new(alloc);
    let mut requests = Vec::new(alloc);
    for tiles in rows {
        let Some(stream) = streams.next() else {
            unreachable!();
        };
        let number = workers.len() as u8;
        let (sender, receiver) = lane(rt, alloc, depth)?;
        let worker = new_client(alloc, &decl, layout, number, stream, tiles, sender)?;
        workers.push(worker)?;
        requests.push(receiver)?;
    }
    Ok(NewClients {
        workers,
        requests,
        decl,
    })
}
