//! The actors and their lanes.
use crate::first::{new_clients, new_lanes, new_lists, new_ports, new_rows, new_tiles};
use crate::landing::Landing;
use crate::port::Port;
use client_issue::ClientCore;
use rc_base::cluster::TilePart;
use rc_base::out_of_memory::OutOfMemory;
use rc_base::plain_lane::PlainLane;
use rc_base::scene::Scene;
use rc_base::sync::{Grant, Request};
use rc_base::window::Layout;
use std::alloc::Global;
use sync_manager::manager::ManagerCore;
use tile_server::TileCore;

/// A cluster for one scene: its clients, its manager, a tile for each tile of the layout, the lanes between them, the parts of frames that the
/// tiles have shown, and whether memory has lacked.
#[derive(Drop)]
pub(crate) struct Cluster {
    pub(crate) clients: Vec<ClientCore>,
    pub(crate) manager: ManagerCore,
    pub(crate) tiles: Vec<TileCore>,
    // of each tile one lane from each client
    pub(crate) parcels: Vec<Vec<Landing>>,
    // of each client its ends of these
    pub(crate) ports: Vec<Vec<Port>>,
    pub(crate) requests: Vec<PlainLane<Request>>,
    pub(crate) grants: Vec<PlainLane<Grant>>,
    // of each tile
    pub(crate) parts: Vec<Vec<TilePart>>,
    // memory has lacked in a step of a round
    pub(crate) lacking: bool,
}

impl Cluster {
    ghost use Rattle.std.specs.Prelude.{IfOk};
    ghost use Rattle.rc_base.specs.Formats.Within.{IsWithin, IsLayoutFor};
    ghost use Rattle.step_core.specs.NewWorlds.{IsNew};
    ghost use Rattle.step_core.specs.Runnable.{IsDepth, IsLaidOut, HasActors};

    /// The cluster before its first step.
    pub(crate) fn new(
        alloc: Global,
        scene: &Scene,
        layout: &Layout,
        depth: usize,
    ) -> Result<Cluster, OutOfMemory>
        requires within { IsWithin scene.now }
        requires fits { IsLayoutFor scene.now layout.now depth }
        requires scene { HasActors scene.now }
        requires layout { IsLaidOut layout.now }
        requires depth { IsDepth depth }
        ensures { IfOk result (λ world. IsNew scene.now layout.now depth world) }
    {
        let client_count = scene.streams.len();
        let tile_count = layout.columns * layout.rows;
        let clients = new_clients(alloc, scene, layout)?;
        let manager = ManagerCore::new(alloc, &scene.decl, client_count as u8, tile_count)?;
        let tiles = new_tiles(alloc, &scene.decl, client_count as u8, layout, tile_count)?;
        let parcels = new_rows(alloc, client_count, usize::from(tile_count), depth)?;
        let ports = new_ports(alloc, client_count, usize::from(tile_count), depth)?;
        let requests = new_lanes(alloc, client_count, depth)?;
        let grants = new_lanes(alloc, usize::from(tile_count), depth)?;
        let parts = new_lists(alloc, usize::from(tile_count))?;
        Ok(Cluster {
            clients,
            manager,
            tiles,
            parcels,
            ports,
            requests,
            grants,
            parts,
            lacking: false,
        })
    }
}
