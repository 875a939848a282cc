//! A run of the cluster on threads.
ghost use Rattle.std.specs.Prelude.{◌≡◌, ◌<◌, ◌≤◌, ℕ, false, List, length, vec_len, slice_index_or, IfOk, OnErr};
ghost use Rattle.rc_base.specs.Cluster.Tiles.{tile_count};
ghost use Rattle.rc_base.specs.Formats.Within.{IsWithin, IsLayoutFor};
ghost use Rattle.rc_base.specs.Outside.Ends.{use_of};
ghost use Rattle.rc_base.specs.declared.cluster.TilePart.{TilePart};
ghost use Rattle.rc_base.specs.declared.scene.Scene.{Scene};
ghost use Rattle.order_model.specs.Report.{image_text_of};
ghost use Rattle.run_record.specs.Closed.{AreClosed};
ghost use Rattle.run_record.specs.Collected.{AreCollected, IsWholeRun};
ghost use Rattle.run_record.specs.Told.{IsRun};
ghost use Rattle.frame_out.specs.Writing.{IsCounted, IsTextWritten};
ghost use Rattle.shown_frames.specs.Images.{GaveFrontOfRun, GaveShown};
ghost use Rattle.cluster_run.specs.Clusters.{LaneNames, IsEndedRun};
ghost use Rattle.cluster_run.specs.Rooms.{IsRoomFor};
ghost use Rattle.cluster_run.specs.Serving.{IsSince, shown_by_tasks};
ghost use Rattle.cluster_run.specs.Workers.{AreOrderly, IsLeftBy, IsRunOfWorkers};

use crate::cores::{Cores, Room, cores_of};
use crate::crew::{NewCrew, new_crew};
use crate::laws::clusters_end;
use crate::on_the_way::OnTheWay;
use crate::writing::{Tasks, abandon, finish, run_crew};
use client_issue::ClientCore;
use command_store::StoredScene;
use frame_out::Written;
use frame_out::laws::{frames_of_scenes_are_writable, new_writers_are_on_the_way};
use order_model::laws::scenes_within_limits;
use order_model::record::Record;
use rc_base::cluster::{FaultLists, Tallies, TilePart};
use rc_base::gate::Gate;
use rc_base::out_of_memory::OutOfMemory;
use rc_base::outside::Sink;
use rc_base::scene::{Decl, Scene};
use rc_base::sync::Waiting;
use rc_base::window::Layout;
use run_record::laws::{closed_runs_are_lawful, whole_runs_are_written};
use run_record::{Collected, collect};
use shown_frames::laws::{
    shown_frames_are_of_the_run, shown_parts_begin_a_whole_run, tiles_go_on_showing,
    unfinished_runs_go_on,
};
use std::alloc::Global;
use std::sync::Wait;
use std::thread::Threads;
use sync_manager::ManagerCore;
use tile_queues::named_ends_are_paired;
use tile_server::TileCore;

/// What a run leaves: its record, how much was sent to each tile, who waits for ever, the refused commands of each client, and how much of the frames'
/// text the image took.
#[derive(Debug, Drop)]
pub struct Run {
    pub kept: Record,
    pub tallies: Tallies,
    pub waiting: Option<Waiting>,
    pub faults: FaultLists,
    pub written: Written,
}

/// What cores leave that have ended, and whose lanes are closed.
fn gather(
    alloc: Global,
    decl: &Decl,
    layout: &Layout,
    clients: Vec<ClientCore>,
    manager: ManagerCore,
    tiles: Vec<TileCore>,
) -> Result<Collected, OutOfMemory>
    ensures whole { (scene : Scene) (shown : ℕ → List TilePart) → IsWithin scene → decl.now ≡ scene.decl
        → AreClosed scene layout.now clients.items manager tiles.items shown
        → IfOk result (λ c. IsWholeRun scene layout.now c.kept c.tallies c.waiting c.faults shown) }
    ensures collected { IfOk result (λ c. AreCollected decl.now clients.items manager tiles.items c.kept c.tallies c.waiting c.faults) }
{
    scenes_within_limits();
    closed_runs_are_lawful();
    collect(alloc, decl, clients, manager, tiles)
}

/// Closes the lanes of a crew that has ended, writes what is left of its frames, and tells of the run. Where memory lacked in a worker there is nothing to
/// tell, and no more is written.
fn complete<K: Sink, R: Wait + Copy>(
    rt: &R,
    alloc: Global,
    decl: &Decl,
    layout: &Layout,
    ended: Tasks<R>,
    room: Room<R>,
    frames: OnTheWay<R>,
    image: &mut K,
) -> Result<Run, OutOfMemory>
    requires some { (0 < vec_len ended.clients) × (0 < vec_len ended.tiles) }
    requires room { IsRoomFor (vec_len ended.clients) (vec_len ended.tiles) room }
    requires ended { (scene : Scene) × (names : LaneNames) × IsEndedRun scene decl.now layout.now names ended frames.lanes.items }
    ensures run { (scene : Scene) (names : LaneNames) → IsEndedRun scene decl.now layout.now names ended frames.lanes.items
        → IfOk result (λ r. IsRun scene layout.now r.kept r.tallies r.waiting r.faults) }
    ensures written { (scene : Scene) (names : LaneNames) (start : K) → IsEndedRun scene decl.now layout.now names ended frames.lanes.items
        → IsSince K.held K.faults layout.now start frames image.old
        → IfOk result (λ r. IsCounted (use_of K.held K.faults start image.new) (image_text_of scene layout.now r.kept) r.written) }
    ensures shown { (start : K) → IsSince K.held K.faults layout.now start frames image.old
        → GaveShown layout.now (shown_by_tasks ended) (use_of K.held K.faults start image.new) }
    ensures later { K.faults image.old ≤ K.faults image.new }
    ensures orderly { (scene : Scene) (names : LaneNames) → IsEndedRun scene decl.now layout.now names ended frames.lanes.items
        → AreOrderly (length scene.streams) (tile_count layout.now) ended }
    ensures left { IfOk result (λ r. IsLeftBy decl.now ended r.kept r.tallies r.waiting r.faults) }
{
    named_ends_are_paired::<TilePart, R>();
    frames_of_scenes_are_writable();
    whole_runs_are_written();
    let Room {
        clients: client_room,
        tiles: tile_room,
        rests,
    } = room;
    let Cores {
        clients,
        manager,
        tiles,
        parts,
        short,
    } = cores_of(client_room, tile_room, ended);
    if short {
        abandon(frames, parts, image);
        return Err(OutOfMemory);
    }
    let written = finish(rt, frames, parts, rests, image)?;
    let Collected {
        kept,
        tallies,
        waiting,
        faults,
    } = gather(alloc, decl, layout, clients, manager, tiles)?;
    Ok(Run {
        kept,
        tallies,
        waiting,
        faults,
        written,
    })
}

/// Runs the scene on the tiles of a layout over lanes that hold `depth` items: each client, the manager and each tile is a worker in a thread of its own,
/// or, where none could be made for it, is stepped by the caller. Meanwhile the caller writes the text of each frame to the image once all tiles have
/// shown their parts of it, up to the image's first fault. Where memory lacks somewhere in the run, the image was given a front of what a whole run of the
/// scene is due: each tile's pixels of each frame that it was given are those of one serial renderer in an order that the run's journal permits, once the
/// run goes on from there.
pub fn run_stored<G: Gate, K: Sink, R>(
    rt: R,
    alloc: Global,
    scene: StoredScene,
    layout: &Layout,
    depth: usize,
    gate: &G,
    image: &mut K,
) -> Result<Run, OutOfMemory>
where
    R: Threads + Wait + Copy + Send + Sync + Drop,
    requires within { IsWithin scene }
    requires layout { IsLayoutFor scene layout.now depth }
    ensures run { IfOk result (λ r. IsRun scene layout.now r.kept r.tallies r.waiting r.faults) }
    ensures written { IfOk result (λ r. IsTextWritten (use_of K.held K.faults image.old image.new) (image_text_of scene layout.now r.kept) r.written) }
    ensures counted { IfOk result (λ r. r.written.fault ≡ false → r.written.bytes ≡ length (image_text_of scene layout.now r.kept)) }
    ensures front { OnErr result (GaveFrontOfRun scene layout.now (use_of K.held K.faults image.old image.new)) }
    ensures later { K.faults image.old ≤ K.faults image.new }
    ensures workers { IfOk result (λ r. IsRunOfWorkers R scene layout.now depth r.kept r.tallies r.waiting r.faults) }
{
    scenes_within_limits();
    clusters_end::<R>();
    new_writers_are_on_the_way();
    tiles_go_on_showing();
    shown_parts_begin_a_whole_run();
    shown_frames_are_of_the_run();
    unfinished_runs_go_on();
    let NewCrew { crew, parts, decl } = new_crew(rt, alloc, scene, layout, depth)?;
    let room = Room::new(alloc, crew.clients.len(), crew.tiles.len())?;
    let mut frames = OnTheWay::new(alloc, layout, parts)?;
    let ended = run_crew(rt, alloc, gate, crew, &mut frames, image)?;
    complete(&rt, alloc, &decl, layout, ended, room, frames, image)
}

/// Runs a copy of the scene, as `run_stored` runs it.
pub fn run_threads<G: Gate, K: Sink, R>(
    rt: R,
    alloc: Global,
    scene: &Scene,
    layout: &Layout,
    depth: usize,
    gate: &G,
    image: &mut K,
) -> Result<Run, OutOfMemory>
where
    R: Threads + Wait + Copy + Send + Sync + Drop,
    requires within { IsWithin scene.now }
    requires layout { IsLayoutFor scene.now layout.now depth }
    ensures run { IfOk result (λ r. IsRun scene.now layout.now r.kept r.tallies r.waiting r.faults) }
    ensures written { IfOk result (λ r. IsTextWritten (use_of K.held K.faults image.old image.new) (image_text_of scene.now layout.now r.kept) r.written) }
    ensures counted { IfOk result (λ r. r.written.fault ≡ false → r.written.bytes ≡ length (image_text_of scene.now layout.now r.kept)) }
    ensures front { OnErr result (GaveFrontOfRun scene.now layout.now (use_of K.held K.faults image.old image.new)) }
    ensures later { K.faults image.old ≤ K.faults image.new }
    ensures workers { IfOk result (λ r. IsRunOfWorkers R scene.now layout.now depth r.kept r.tallies r.waiting r.faults) }
{
    scenes_within_limits();
    unfinished_runs_go_on();
    let stored = StoredScene::of(alloc, scene)?;
    run_stored(rt, alloc, stored, layout, depth, gate, image)
}
