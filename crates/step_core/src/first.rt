//! A cluster before its first step.
ghost use Rattle.std.specs.Prelude.{◌≡◌, ℕ, ◌<◌, ◌≤◌, [], length, slice_index_or, IfOk, Vec};
ghost use Rattle.std.specs.Global.{Global};
ghost use Rattle.rc_base.specs.Cluster.Tiles.{tile_count};
ghost use Rattle.rc_base.specs.Formats.Within.{IsWithin, IsLayoutFor};
ghost use Rattle.rc_base.specs.declared.cluster.TilePart.{TilePart};
ghost use Rattle.rc_base.specs.declared.state.Parcel.{Parcel};
ghost use Rattle.tile_server.specs.declared.tile_core.TileCore.{TileCore};
ghost use Rattle.world_model.specs.World.{client_total};
ghost use Rattle.step_core.specs.Runnable.{IsDepth, IsNewTileCore, new_client};
ghost use Rattle.step_core.specs.Worlds.{AreClientsOf, AreLanesOf, ArePortsOf, AreRowsOf, IsPortRow};

use crate::landing::Landing;
use crate::port::Port;
use client_issue::ClientCore;
use rc_base::cluster::TilePart;
use rc_base::out_of_memory::OutOfMemory;
use rc_base::plain_lane::PlainLane;
use rc_base::scene::{Decl, Scene};
use rc_base::window::Layout;
use std::alloc::Global;
use tile_server::TileCore;

/// So many empty lanes.
pub(crate) fn new_lanes<T: Drop>(
    alloc: Global,
    count: usize,
    depth: usize,
) -> Result<Vec<PlainLane<T>>, OutOfMemory>
    requires { IsDepth depth }
    ensures { IfOk result (λ lanes. AreLanesOf depth count (λ i. []) lanes.items) }
{
    let mut lanes = Vec::new(alloc);
    for _ in 0..count {
        lanes.push(PlainLane::new(alloc, depth)?)?;
    }
    Ok(lanes)
}

/// So many empty lanes from clients.
fn new_landings(alloc: Global, count: usize, depth: usize) -> Result<Vec<Landing>, OutOfMemory>
    requires { IsDepth depth }
    ensures { IfOk result (λ lanes. AreLanesOf {T = Parcel} depth count (λ i. []) lanes.items) }
{
    let mut lanes = Vec::new(alloc);
    for _ in 0..count {
        lanes.push(Landing::new(alloc, depth)?)?;
    }
    Ok(lanes)
}

/// So many rows of them.
pub(crate) fn new_rows(
    alloc: Global,
    clients: usize,
    tiles: usize,
    depth: usize,
) -> Result<Vec<Vec<Landing>>, OutOfMemory>
    requires { IsDepth depth }
    ensures { IfOk result (λ rows. AreRowsOf depth clients tiles (λ client tile. []) rows.items) }
{
    let mut rows = Vec::new(alloc);
    for _ in 0..tiles {
        rows.push(new_landings(alloc, clients, depth)?)?;
    }
    Ok(rows)
}

/// So many empty ports.
fn new_port_row(alloc: Global, tiles: usize, depth: usize) -> Result<Vec<Port>, OutOfMemory>
    ensures { IfOk result (λ row. IsPortRow depth tiles (λ tile. []) row.items) }
{
    let mut row = Vec::new(alloc);
    for _ in 0..tiles {
        row.push(Port::new(depth))?;
    }
    Ok(row)
}

/// So many rows of empty ports.
pub(crate) fn new_ports(
    alloc: Global,
    clients: usize,
    tiles: usize,
    depth: usize,
) -> Result<Vec<Vec<Port>>, OutOfMemory>
    ensures { IfOk result (λ ports. ArePortsOf depth clients tiles (λ client tile. []) ports.items) }
{
    let mut ports = Vec::new(alloc);
    for _ in 0..clients {
        ports.push(new_port_row(alloc, tiles, depth)?)?;
    }
    Ok(ports)
}

/// So many empty lists of parts.
pub(crate) fn new_lists(alloc: Global, tiles: usize) -> Result<Vec<Vec<TilePart>>, OutOfMemory>
    ensures count { IfOk result (λ lists. length lists.items ≡ tiles) }
    ensures empty { IfOk result (λ lists. (i : ℕ) (d : Vec TilePart Global) → i < tiles → (slice_index_or lists.items i d).items ≡ []) }
{
    let mut lists = Vec::new(alloc);
    for _ in 0..tiles {
        lists.push(Vec::new(alloc))?;
    }
    Ok(lists)
}

/// The cores of a scene's clients.
pub(crate) fn new_clients(
    alloc: Global,
    scene: &Scene,
    layout: &Layout,
) -> Result<Vec<ClientCore>, OutOfMemory>
    requires within { IsWithin scene.now }
    requires fits { (depth : ℕ) × IsLayoutFor scene.now layout.now depth }
    requires few { client_total scene.now ≤ 8 }
    ensures { IfOk result (λ cores. AreClientsOf scene.now layout.now (new_client scene.now layout.now) cores.items) }
{
    let mut cores = Vec::new(alloc);
    for client in 0..scene.streams.len() {
        cores.push(ClientCore::new(alloc, scene, client as u8, layout)?)?;
    }
    Ok(cores)
}

/// The cores of a layout's first tiles.
pub(crate) fn new_tiles(
    alloc: Global,
    decl: &Decl,
    clients: u8,
    layout: &Layout,
    count: u8,
) -> Result<Vec<TileCore>, OutOfMemory>
    requires clients { clients ≤ 8 }
    requires count { count ≤ tile_count layout.now }
    ensures count { IfOk result (λ cores. length cores.items ≡ count) }
    ensures new { IfOk result (λ cores. (i : ℕ) (d : TileCore) → i < count → IsNewTileCore decl.now clients layout.now i (slice_index_or cores.items i d)) }
{
    let mut cores = Vec::new(alloc);
    for tile in 0..count {
        cores.push(TileCore::new(alloc, decl, clients, layout, tile)?)?;
    }
    Ok(cores)
}
