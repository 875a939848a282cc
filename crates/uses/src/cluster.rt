//! Parts of tiles, frames that are written, and what a cluster leaves.
ghost use Rattle.std.specs.Prelude.{◌≡◌, ◌<◌, false, List, IfOk, IfSome, length, slice_index_or};
ghost use Rattle.rc_base.specs.Cluster.Lanes.{Follows};
ghost use Rattle.rc_base.specs.Cluster.Tiles.{tile_count};
ghost use Rattle.rc_base.specs.Formats.Netpbm.{p6_texts};
ghost use Rattle.rc_base.specs.Formats.Within.{IsLayoutFor, IsWithin};
ghost use Rattle.rc_base.specs.Outside.Ends.{use_of, Took};
ghost use Rattle.rc_base.specs.declared.cluster.TilePart.{TilePart as AnyPart};
ghost use Rattle.rc_base.specs.declared.scene.Scene.{Scene as AnyScene};
ghost use Rattle.rc_base.specs.declared.window.Layout.{Layout as AnyLayout};
ghost use Rattle.assembler.specs.Assembled.{layout_of as layout_of_parts};
ghost use Rattle.assembler.specs.Assemblers.{image_in, layout_of};
ghost use Rattle.frame_out.specs.OnTheWay.{GaveFrames, IsOnTheWay};
ghost use Rattle.frame_out.specs.Writing.{AreWritable};
ghost use Rattle.run_record.specs.Gathering.{HaveSent};
ghost use Rattle.uses.specs.Cluster.{AreOver, CountEach, GiveOneAtMost, IsBlack, RanSoDeep};

use assembler::Assembler;
use client_issue::ClientCore;
use cluster_run::{Run, run_threads};
use frame_out::{FrameWriter, Written, write_frames};
use rc_base::cluster::TilePart;
use rc_base::gate::Gate;
use rc_base::image::Frames;
use rc_base::lane::Inlet;
use rc_base::out_of_memory::OutOfMemory;
use rc_base::outside::Sink;
use rc_base::plain_lane::PlainLane;
use rc_base::scene::{Decl, Scene};
use rc_base::window::Layout;
use run_record::{Collected, collect};
use std::alloc::Global;
use std::sync::Wait;
use std::thread::Threads;
use sync_manager::ManagerCore;
use tile_server::TileCore;
use worker_crew::{Crew, Task, Worker, run_to_end};

/// Puts parts together. Of each tile's lane the first part is taken, or none: no part is lost.
pub fn advanced(assembler: &mut Assembler, lanes: &mut [PlainLane<TilePart>]) -> bool
    requires { length lanes.old ≡ tile_count (layout_of assembler.old) }
    ensures { GiveOneAtMost lanes.old lanes.new }
{
    assembler.advance(lanes)
}

/// Makes an assembler, and takes parts once. Where they complete no frame its image is black all over.
pub fn begun(
    alloc: Global,
    layout: &Layout,
    lanes: &mut [PlainLane<TilePart>],
) -> Result<Option<Assembler>, OutOfMemory>
    requires columns { 0 < layout.now.columns }
    requires rows { 0 < layout.now.rows }
    requires lanes { length lanes.old ≡ tile_count layout.now }
    ensures { IfOk result (λ begun. IfSome begun (λ a. IsBlack (image_in a))) }
{
    let mut assembler = Assembler::new(alloc, layout)?;
    if assembler.advance(lanes) {
        return Ok(None);
    }
    Ok(Some(assembler))
}

/// What cores leave that have ended. The tally of a tile counts the parcels of each client.
pub fn collected(
    alloc: Global,
    decl: &Decl,
    clients: Vec<ClientCore>,
    manager: ManagerCore,
    tiles: Vec<TileCore>,
) -> Result<Collected, OutOfMemory>
    ensures { (scene : AnyScene) (l : AnyLayout) → HaveSent scene l clients.items
        → IfOk result (λ c. CountEach clients.items (length tiles.items) c.tallies) }
{
    collect(alloc, decl, clients, manager, tiles)
}

/// Writes frames. Where the image didn't fail, it was given the text of each of them.
pub fn written<K: Sink>(
    alloc: Global,
    image: &mut K,
    frames: Frames,
) -> Result<Written, OutOfMemory>
    requires { AreWritable frames }
    ensures { IfOk result (λ w. w.fault ≡ false
        → Took (use_of K.held K.faults image.old image.new) (p6_texts frames)) }
{
    write_frames(alloc, image, frames)
}

/// Takes parts for the next frame, and writes it where it is complete. What the image was given are the texts of the first frames.
pub fn served<I: Inlet<TilePart>, K: Sink>(
    writer: &mut FrameWriter,
    lanes: &mut [I],
    image: &mut K,
) -> bool
    requires lanes { length lanes.old ≡ tile_count (layout_of_parts writer.old.parts) }
    ensures { (taken : I → List AnyPart) (l : AnyLayout) (start : K) (d : I)
        → Follows I.gave I.same taken
        → IsOnTheWay l (use_of K.held K.faults start image.old)
        (λ tile. taken (slice_index_or lanes.old tile d)) writer.old
        → GaveFrames l (use_of K.held K.faults start image.new)
        (λ tile. taken (slice_index_or lanes.new tile d)) writer.new.written }
{
    writer.serve(lanes, image)
}

/// Runs a crew. At its end each client, the manager and each tile are over.
pub fn ended<A, B, C, G, R>(
    rt: R,
    alloc: Global,
    gate: &G,
    crew: Crew<A, B, C>,
) -> Result<Crew<Task<A>, Task<B>, Task<C>>, OutOfMemory>
where
    A: Worker + Drop + Send,
    B: Worker + Drop + Send,
    C: Worker + Drop + Send,
    G: Gate,
    R: Threads + Wait + Copy + Send,
    ensures { IfOk result (AreOver A.over B.over C.over) }
{
    run_to_end(rt, alloc, gate, crew)
}

/// Runs a scene on threads. Each lane from a client to a tile holds as many items as were asked for, and no fewer.
pub fn ran_so_deep<G: Gate, K: Sink, R>(
    rt: R,
    alloc: Global,
    scene: &Scene,
    layout: &Layout,
    depth: usize,
    gate: &G,
    image: &mut K,
) -> Result<Run, OutOfMemory>
where
    R: Threads + Wait + Copy + Send + Sync + Drop,
    requires within { IsWithin scene.now }
    requires layout { IsLayoutFor scene.now layout.now depth }
    ensures { IfOk result
        (λ r. RanSoDeep R scene.now layout.now depth r.kept r.tallies r.waiting r.faults) }
{
    run_threads(rt, alloc, scene, layout, depth, gate, image)
}
