//! Runs of a cluster, stepped and on threads.
ghost use Rattle.std.specs.Prelude.{◌≡◌, ℕ, ◌+◌, ◌*◌, ◌<◌, false, length, slice_index, EachIndex, IfOk};
ghost use Rattle.rc_base.specs.Cluster.Tiles.{tile_count};
ghost use Rattle.rc_base.specs.Formats.Within.{IsLayoutFor, IsWithin};
ghost use Rattle.rc_base.specs.Outside.Ends.{use_of, Took};
ghost use Rattle.order_model.specs.Report.{frame_count, image_text_of};
ghost use Rattle.step_core.specs.Schedules.{picks_of};
ghost use Rattle.uses.specs.Runs.{CountsWaits};

use cluster_run::{Run, run_threads};
use rc_base::gate::Gate;
use rc_base::out_of_memory::OutOfMemory;
use rc_base::outside::Sink;
use rc_base::scene::Scene;
use rc_base::window::Layout;
use std::alloc::Global;
use std::sync::Wait;
use std::thread::Threads;
use step_core::{CoreRun, World, finish, run_schedule};

/// A cluster behind some picks. Its moves are those of the actors that were picked, one after the other.
pub fn stepped(
    alloc: Global,
    scene: &Scene,
    layout: &Layout,
    depth: usize,
    picks: &[u32],
) -> Result<World, OutOfMemory>
    requires within { IsWithin scene.now }
    requires layout { IsLayoutFor scene.now layout.now depth }
    requires picks { EachIndex picks.now
        (λ k. slice_index picks.now k < length scene.now.streams + 1 + tile_count layout.now) }
    ensures { IfOk result (λ world. picks_of world ≡ picks.now) }
{
    run_schedule(alloc, scene, layout, depth, picks)
}

/// Brings a cluster to its end. Each frame of the run that it leaves has a part of each tile: a run in which memory lacked isn't handed out.
pub fn finished(alloc: Global, world: World) -> Result<CoreRun, OutOfMemory>
    ensures { IfOk result (λ run. length run.parts
        ≡ frame_count run.kept.journal * tile_count world.layout) }
{
    finish(alloc, world)
}

/// Runs a scene on threads. Where no fault of the image is told, it was given the text of each frame of the run.
pub fn shown<G: Gate, K: Sink, R>(
    rt: R,
    alloc: Global,
    scene: &Scene,
    layout: &Layout,
    depth: usize,
    gate: &G,
    image: &mut K,
) -> Result<Run, OutOfMemory>
where
    R: Threads + Wait + Copy + Send + Sync + Drop,
    requires within { IsWithin scene.now }
    requires layout { IsLayoutFor scene.now layout.now depth }
    ensures { IfOk result (λ r. r.written.fault ≡ false
        → Took (use_of K.held K.faults image.old image.new)
        (image_text_of scene.now layout.now r.kept)) }
{
    run_threads(rt, alloc, scene, layout, depth, gate, image)
}

/// Runs a scene on threads. No part of a frame is lost between its tile and the image: where no fault of this is told, as many bytes went out as the frames
/// of the run have.
pub fn counted<G: Gate, K: Sink, R>(
    rt: R,
    alloc: Global,
    scene: &Scene,
    layout: &Layout,
    depth: usize,
    gate: &G,
    image: &mut K,
) -> Result<Run, OutOfMemory>
where
    R: Threads + Wait + Copy + Send + Sync + Drop,
    requires within { IsWithin scene.now }
    requires layout { IsLayoutFor scene.now layout.now depth }
    ensures { IfOk result (λ r. r.written.fault ≡ false
        → r.written.bytes ≡ length (image_text_of scene.now layout.now r.kept)) }
{
    run_threads(rt, alloc, scene, layout, depth, gate, image)
}

/// Runs a scene on threads. Each time that a part had to wait, since its tile's lane to the caller was full, the lane's end has counted that.
pub fn waited<G: Gate, K: Sink, R>(
    rt: R,
    alloc: Global,
    scene: &Scene,
    layout: &Layout,
    depth: usize,
    gate: &G,
    image: &mut K,
) -> Result<Run, OutOfMemory>
where
    R: Threads + Wait + Copy + Send + Sync + Drop,
    requires within { IsWithin scene.now }
    requires layout { IsLayoutFor scene.now layout.now depth }
    ensures { IfOk result
        (λ r. CountsWaits R scene.now layout.now depth r.kept r.tallies r.waiting r.faults) }
{
    run_threads(rt, alloc, scene, layout, depth, gate, image)
}
