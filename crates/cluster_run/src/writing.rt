//! The frames of a run: written while the workers run, and what is left of them when all have ended.
ghost use Rattle.std.specs.Prelude.{◌≡◌, ◌<◌, ◌≤◌, false, length, vec_len, IfOk, OnErr};
ghost use Rattle.rc_base.specs.Cluster.Tiles.{tile_count};
ghost use Rattle.rc_base.specs.Lists.{ArePaired};
ghost use Rattle.rc_base.specs.Outside.Ends.{use_of};
ghost use Rattle.assembler.specs.Assembled.{layout_of, short_of};
ghost use Rattle.frame_out.specs.OnTheWay.{IsMissing};
ghost use Rattle.tile_queues.specs.Ends.{lane_in, lane_out, sent_in, taken_in};
ghost use Rattle.rc_base.specs.declared.window.Layout.{Layout};
ghost use Rattle.shown_frames.specs.Images.{GaveShown};
ghost use Rattle.cluster_run.specs.Apart.{HasRoom};
ghost use Rattle.cluster_run.specs.Clusters.{HasRun};
ghost use Rattle.cluster_run.specs.Serving.{HasAdvanced, HasAdvancedByRests, HasFinished, IsServed, IsSince, KeepsServed, shown_in_lanes};
ghost use Rattle.cluster_run.specs.Workers.{HaveGoneOn};

use crate::on_the_way::OnTheWay;
use crate::workers::{ClientWorker, ManagerWorker, TileWorker};
use frame_out::{FrameWriter, Written};
use rc_base::cluster::TilePart;
use rc_base::gate::Gate;
use rc_base::out_of_memory::OutOfMemory;
use rc_base::outside::Sink;
use std::alloc::Global;
use std::sync::Wait;
use std::thread::Threads;
use tile_queues::{LaneIn, Rest, close_list, join_list};
use worker_crew::{Crew, Foreground, Task, run_beside};

/// The workers of a cluster before their first step.
pub(crate) type Workers<R> = Crew<ClientWorker<R>, ManagerWorker<R>, TileWorker<R>>;

/// The workers of a cluster at their ends.
pub(crate) type Tasks<R> = Crew<Task<ClientWorker<R>>, Task<ManagerWorker<R>>, Task<TileWorker<R>>>;

impl<R: Wait> OnTheWay<R> {
    /// Takes at most one part of each tile, and writes the frame that it completes. Whether it completed one.
    fn serve<K: Sink>(&mut self, image: &mut K) -> bool
        ensures served { IsServed K.held K.faults self.old image.old self.new image.new }
        ensures completed { HasAdvanced self.old.writer self.old.lanes.items result self.new.writer self.new.lanes.items }
    {
        self.writer.serve(&mut self.lanes, image)
    }
}

/// What the caller does while the workers run: it writes the frames that their parts complete.
#[derive(Drop)]
pub(crate) struct Writing<'a, 'b, 'c, K, R> {
    frames: &'a mut OnTheWay<R>,
    image: &'b mut K,
    kept: &'c mut Option<Tasks<R>>,
}

impl<'a, 'b, 'c, K: Sink, R: Wait + Drop> Foreground<Tasks<R>> for Writing<'a, 'b, 'c, K, R> {
    ghost use Rattle.std.specs.Prelude.{◌≡◌, Some};
    ghost use Rattle.std.proofs.Common.{refl, ◌∙◌};
    ghost use Rattle.cluster_run.specs.Serving.{StaysServed};

    ghost served = { λ a b. (b.frames.ghost_name ≡ a.frames.ghost_name) × (b.image.ghost_name ≡ a.image.ghost_name) × (b.kept.ghost_name ≡ a.kept.ghost_name)
        × StaysServed K.held K.faults a.frames.now a.image.now b.frames.now b.image.now };

    ghost keeps = { λ a k b. (b.frames ≡ a.frames) × (b.image ≡ a.image) × (b.kept.ghost_name ≡ a.kept.ghost_name) × (b.kept.now ≡ Some k) };

    ghost unserved = { λ a. (refl, refl, refl, λ frames image h. h) };

    ghost goes_on = { λ a b c f g. (g.0 ∙ f.0, g.1 ∙ f.1, g.2 ∙ f.2, λ frames image h. g.3 frames image (f.3 frames image h)) };

    fn serve(&mut self) -> bool {
        self.frames.serve(self.image)
    }

    fn keep(&mut self, kept: Tasks<R>) {
        *self.kept = Some(kept);
    }
}

/// Runs a crew to its end, each worker in a thread of its own where one can be made, and writes the frames meanwhile.
pub(crate) fn run_crew<G: Gate, K: Sink, R>(
    rt: R,
    alloc: Global,
    gate: &G,
    crew: Workers<R>,
    frames: &mut OnTheWay<R>,
    image: &mut K,
) -> Result<Tasks<R>, OutOfMemory>
where
    R: Threads + Wait + Copy + Send + Sync + Drop,
    ensures ended { IfOk result (λ tasks. HasRun crew tasks) }
    ensures turned { IfOk result (λ tasks. HaveGoneOn crew tasks) }
    ensures served { IsServed K.held K.faults frames.old image.old frames.new image.new }
    ensures untouched { OnErr result (image.new ≡ image.old) }
{
    let mut kept = None;
    let mut writing = Writing {
        frames,
        image,
        kept: &mut kept,
    };
    run_beside(rt, alloc, gate, crew, &mut writing)?;
    match kept {
        Some(tasks) => Ok(tasks),
        None => unreachable!(),
    }
}

/// Takes at most one part of what is left of each lane, and writes the frame that it completes. Whether it completed one.
fn serve_rest<K: Sink, R: Wait>(
    writer: &mut FrameWriter,
    rests: &mut Vec<Rest<TilePart, R>>,
    image: &mut K,
) -> bool
    requires { length rests.old.items ≡ tile_count (layout_of writer.old.parts) }
    ensures room { length rests.new.items ≡ tile_count (layout_of writer.new.parts) }
    ensures served { KeepsServed sent_in taken_in K.held K.faults writer.old rests.old.items image.old writer.new rests.new.items image.new }
    ensures missing { result ≡ false → short_of writer.new.parts ≡ false → IsMissing (λ r. taken_in r ≡ sent_in r) writer.new rests.new.items }
    ensures completed { HasAdvancedByRests writer.old rests.old.items result writer.new rests.new.items }
{
    writer.serve(rests, image)
}

/// Writes the frames that what is left of the lanes completes, until a tile's part is missing.
fn write_rest<K: Sink, R: Wait>(
    rt: &R,
    writer: &mut FrameWriter,
    rests: &mut Vec<Rest<TilePart, R>>,
    image: &mut K,
)
    requires { length rests.old.items ≡ tile_count (layout_of writer.old.parts) }
    ensures served { KeepsServed sent_in taken_in K.held K.faults writer.old rests.old.items image.old writer.new rests.new.items image.new }
    ensures missing { short_of writer.new.parts ≡ false → IsMissing (λ r. taken_in r ≡ sent_in r) writer.new rests.new.items }
{
    for _ in rt.forever() {
        if !serve_rest(writer, rests, image) {
            break;
        }
    }
}

/// Brings the ends of the lanes of parts together, and writes what is left in them. Memory lacks where a tile was short.
pub(crate) fn finish<K: Sink, R: Wait + Copy>(
    rt: &R,
    frames: OnTheWay<R>,
    parts: Vec<LaneIn<TilePart, R>>,
    rests: Vec<Rest<TilePart, R>>,
    image: &mut K,
) -> Result<Written, OutOfMemory>
    requires some { 0 < length parts.items }
    requires paired { ArePaired (λ i a b. lane_out b ≡ lane_in a) parts.items frames.lanes.items }
    requires room { HasRoom (vec_len parts) rests }
    ensures shown { (l : Layout) (start : K) → IsSince K.held K.faults l start frames image.old
        → GaveShown l (shown_in_lanes parts.items) (use_of K.held K.faults start image.new) }
    ensures finished { (l : Layout) (start : K) → IsSince K.held K.faults l start frames image.old
        → IfOk result (HasFinished l (shown_in_lanes parts.items) (use_of K.held K.faults start image.new)) }
    ensures later { K.faults image.old ≤ K.faults image.new }
{
    let OnTheWay { mut writer, lanes } = frames;
    let mut rests = join_list(parts, lanes, rests);
    write_rest(rt, &mut writer, &mut rests, image);
    if writer.lacks() {
        return Err(OutOfMemory);
    }
    Ok(writer.written())
}

/// Closes the lanes of parts. What is left in them isn't written.
pub(crate) fn abandon<K: Sink, R: Copy>(
    frames: OnTheWay<R>,
    parts: Vec<LaneIn<TilePart, R>>,
    image: &K,
)
    requires some { 0 < length parts.items }
    requires paired { ArePaired (λ i a b. lane_out b ≡ lane_in a) parts.items frames.lanes.items }
    ensures { (l : Layout) (start : K) → IsSince K.held K.faults l start frames image.now
        → GaveShown l (shown_in_lanes parts.items) (use_of K.held K.faults start image.now) }
{
    let OnTheWay { mut lanes, .. } = frames;
    close_list(parts, &mut lanes);
}
