//! The steps of a task: its scene, what the filters make of it, what is due for that, the image.
ghost use Rattle.std.specs.Prelude.{◌≡◌, ◌≤◌, ◌⊎◌, true, false, None, Some, length, map, OnErr, IfOk, IfErr, MatchResult};
ghost use Rattle.rc_base.specs.Formats.Limits.{limit_of};
ghost use Rattle.rc_base.specs.Formats.Within.{IsWithin};
ghost use Rattle.rc_base.specs.Outside.Ends.{Used, use_of};
ghost use Rattle.rc_base.specs.declared.window.Layout.{Layout as AnyLayout};
ghost use Rattle.order_model.specs.Report.{image_text_of};
ghost use Rattle.run_record.specs.Told.{IsRun};
ghost use Rattle.frame_out.specs.Writing.{IsTextWritten};
ghost use Rattle.shown_frames.specs.Images.{GaveFrontOfRun};
ghost use Rattle.render_core.specs.Carried.{IsSoundWork, IsWritableDue, Obtains, Performs};
ghost use Rattle.render_core.specs.Due.{ending_by, report_due};
ghost use Rattle.render_core.specs.Stored.{IsAnySoundWork, work_in};
ghost use Rattle.run_words.specs.Jobs.{Reads, Task as AnyTask, origin_of, starts_threads, threads_of};
ghost use Rattle.render_core.specs.Outcomes.{IsDue, PartlyWritten};
ghost use Rattle.render_core.specs.Refusals.{outcome_of, AreReady, Came, IsBlank, IsEarlyRefusal, IsLateRefusal, IsWritable, IsCaused, IsRefusedFor, IsPerformed, IsToldOf, IsUntold};
ghost use Rattle.run_words.specs.Statuses.{refusal_status};
ghost use Rattle.run_words.specs.Asked.{IsWell, cluster_limit, layout_for};
ghost use Rattle.run_words.specs.declared.work.Work.{Work as WorkOn};
ghost use Rattle.render_core.specs.Runs.{IsSmallRun};
ghost use Rattle.run_words.specs.declared.job.Job.TheVariants.{Last as ToLast};

use crate::cluster::{Account, account_with};
use crate::due::Due;
use crate::generated::scene_of_seed;
use crate::input::{meaning_of, plain};
use crate::reader::{Alone, Beside, SceneReader};
use crate::stored::{due_for_any, last_for, reads_stored, stored_tiles, stored_work_for};
use crate::work::{AnyWork, Meaning, work_behind};
use crate::writing::{told_of, untold, write_due};
use cluster_run::{Run, run_stored, run_threads};
use order_model::laws::{records_of_scenes, scene_lists_are_well_formed};
use rc_base::command::Bytes;
use rc_base::gate::Gate;
use rc_base::out_of_memory::OutOfMemory;
use rc_base::outside::{Sink, Source};
use rc_base::transfer::read_all;
use run_words::job::{Cluster, Job, Origin};
use run_words::refusal::{DueRefusal, ImageRefusal, Refusal, Refused};
use run_words::{Told, Work, tiles_of};
use spu_chain::Spu;
use std::alloc::Global;
use std::sync::Wait;
use std::thread::Threads;

fn without_record(refusal: Refusal) -> Refused
    ensures refusal { result.refusal ≡ refusal }
    ensures kept { result.kept ≡ None }
{
    Refused {
        refusal,
        kept: None,
    }
}

// What the job's scene means, by where it comes from.
fn meaning_for<B: SceneReader, S: Source>(
    reader: &B,
    alloc: Global,
    job: Job,
    source: &mut S,
) -> Result<Meaning, Refusal>
    ensures came { IfOk result (Came job (use_of S.left S.faults source.old source.new)) }
    ensures well { IfOk result (λ x. IsWell (origin_of job) x.scene) }
    ensures within { IfOk result (λ x. limit_of x.scene ≡ None) }
    ensures few { IfOk result (λ x. length x.faults ≤ 8) }
    ensures refused { IfErr result (IsRefusedFor job (use_of S.left S.faults source.old source.new)) }
    ensures early { IfErr result IsEarlyRefusal }
    ensures unread { (Reads job → ⊥) → source.new ≡ source.old }
    ensures later { S.faults source.old ≤ S.faults source.new }
{
    match job.origin() {
        Origin::Read(form) => {
            let input = read_all(alloc, source)?;
            Ok(meaning_of(reader, alloc, form, input)?)
        }
        Origin::Generated { seed, size } => match scene_of_seed(alloc, job, seed, size) {
            Ok(scene) => Ok(plain(alloc, scene)),
            Err(refusal) => Err(Refusal::Undue(refusal)),
        },
    }
}

// What the task works on: its scene, which came from the source, behind the filters.
fn work_for<B: SceneReader, S: Source>(
    reader: &B,
    alloc: Global,
    chain: &mut Vec<Box<dyn Spu>>,
    job: Job,
    source: &mut S,
) -> Result<Work, Refusal>
    requires ready { AreReady (map (λ b. meaning b) chain.old.items) }
    ensures { Obtains S.left S.faults job
        (map (λ b. meaning b) chain.old.items) (map (λ b. meaning b) chain.new.items)
        source.old source.new IsSoundWork result }
{
    match meaning_for(reader, alloc, job, source) {
        Ok(meant) => work_behind(alloc, chain, job, meant),
        Err(refusal) => Err(refusal),
    }
}

// What the task works on, stored in little room where it can be.
fn any_work_for<B: SceneReader, S: Source>(
    reader: &B,
    alloc: Global,
    chain: &mut Vec<Box<dyn Spu>>,
    job: Job,
    source: &mut S,
) -> Result<AnyWork, Refusal>
    requires ready { AreReady (map (λ b. meaning b) chain.old.items) }
    ensures { Obtains S.left S.faults job
        (map (λ b. meaning b) chain.old.items) (map (λ b. meaning b) chain.new.items)
        source.old source.new IsAnySoundWork result }
{
    if chain.is_empty() && reads_stored(job) {
        return stored_work_for(reader, alloc, chain, job, source);
    }
    match work_for(reader, alloc, chain, job, source) {
        Ok(work) => Ok(AnyWork::Whole(work)),
        Err(refusal) => Err(refusal),
    }
}

// What is due for the task's work.
fn due_of_source<S: Source>(
    alloc: Global,
    chain: &mut Vec<Box<dyn Spu>>,
    job: Job,
    source: &mut S,
) -> Result<Due, Refusal>
    requires alone { starts_threads job ≡ false }
    requires ready { AreReady (map (λ b. meaning b) chain.old.items) }
    ensures { Obtains S.left S.faults job
        (map (λ b. meaning b) chain.old.items) (map (λ b. meaning b) chain.new.items)
        source.old source.new IsWritableDue result }
{
    let work = any_work_for(&Alone, alloc, chain, job, source)?;
    match due_for_any(alloc, job, &work) {
        Ok(due) => Ok(due),
        Err(refusal) => Err(Refusal::Undue(refusal)),
    }
}

// What is due for the scene of the source where its clients are drawn apart.
fn due_apart<S: Source>(
    rt: &(impl Threads + Sync),
    alloc: Global,
    chain: &mut Vec<Box<dyn Spu>>,
    job: Job,
    source: &mut S,
) -> Result<Due, Refusal>
    requires apart { job ≡ ToLast }
    requires ready { AreReady (map (λ b. meaning b) chain.old.items) }
    ensures { Obtains S.left S.faults job
        (map (λ b. meaning b) chain.old.items) (map (λ b. meaning b) chain.new.items)
        source.old source.new IsWritableDue result }
{
    let work = any_work_for(&Beside(rt), alloc, chain, job, source)?;
    match last_for(rt, alloc, work) {
        Ok(due) => Ok(due),
        Err(refusal) => Err(Refusal::Undue(refusal)),
    }
}

// Gives the image what is due for a task's work, whatever the task. The answer is what is left to tell.
fn show<K: Sink>(alloc: Global, image: &mut K, due: Due) -> Result<Told, Refused>
    requires writable { IsWritable due.image }
    ensures done { (task : AnyTask) (source : Used) → IsDue task source (outcome_of due)
        → IfOk result (IsPerformed task source (use_of K.held K.faults image.old image.new)) }
    ensures refused { (task : AnyTask) (source : Used) → IsDue task source (outcome_of due)
        → IfErr result (λ r. IsCaused task source (use_of K.held K.faults image.old image.new) r.refusal r.kept) }
    ensures part { (task : AnyTask) (source : Used) → IsDue task source (outcome_of due)
        → OnErr result (PartlyWritten task source (use_of K.held K.faults image.old image.new)) }
    ensures blank { IsBlank due.image → image.new ≡ image.old }
    ensures late { IfErr result IsLateRefusal }
    ensures later { K.faults image.old ≤ K.faults image.new }
{
    let Due {
        image: text,
        notes,
        ending,
        kept,
    } = due;
    match write_due(alloc, image, text) {
        Ok(written) => told_of(alloc, notes, ending, kept, written),
        Err(OutOfMemory) => Err(without_record(Refusal::Image(ImageRefusal::OutOfMemory))),
    }
}

/// Carries out a job that starts no thread: its scene, what is due for it, the image. The answer is what is left to tell.
pub(crate) fn perform<S: Source, K: Sink>(
    alloc: Global,
    chain: &mut Vec<Box<dyn Spu>>,
    job: Job,
    source: &mut S,
    image: &mut K,
) -> Result<Told, Refused>
    requires alone { starts_threads job ≡ false }
    requires ready { AreReady (map (λ b. meaning b) chain.old.items) }
    ensures { Performs S.left S.faults K.held K.faults job
        (map (λ b. meaning b) chain.old.items) (map (λ b. meaning b) chain.new.items)
        source.old source.new image.old image.new result }
{
    match due_of_source(alloc, chain, job, source) {
        Ok(due) => show(alloc, image, due),
        Err(refusal) => Err(without_record(refusal)),
    }
}

// Carries out the job that draws clients apart.
fn perform_apart<S: Source, K: Sink>(
    rt: &(impl Threads + Sync),
    alloc: Global,
    chain: &mut Vec<Box<dyn Spu>>,
    job: Job,
    source: &mut S,
    image: &mut K,
) -> Result<Told, Refused>
    requires apart { job ≡ ToLast }
    requires ready { AreReady (map (λ b. meaning b) chain.old.items) }
    ensures { Performs S.left S.faults K.held K.faults job
        (map (λ b. meaning b) chain.old.items) (map (λ b. meaning b) chain.new.items)
        source.old source.new image.old image.new result }
{
    match due_apart(rt, alloc, chain, job, source) {
        Ok(due) => show(alloc, image, due),
        Err(refusal) => Err(without_record(refusal)),
    }
}

// A run, and the lines of what was refused before it and of what filters counted.
#[derive(Drop)]
struct TaskRun {
    run: Run,
    refused: Bytes,
    counted: Bytes,
}

// What is left to tell of a cluster's run that has written its image.
fn told_run(alloc: Global, ended: TaskRun, orders: bool) -> Result<Told, Refused>
    requires { IsSmallRun ended.run.kept ended.run.tallies ended.run.waiting ended.run.faults }
    ensures told { (work : WorkOn) (l : AnyLayout) → ended.refused ≡ work.refused → ended.counted ≡ work.counted
        → IsRun work.scene l ended.run.kept ended.run.tallies ended.run.waiting ended.run.faults
        → MatchResult result
        (IsToldOf (report_due work l ended.run.kept orders) (ending_by work.scene ended.run.kept.journal) (Some ended.run.kept) ended.run.written)
        (IsUntold (ending_by work.scene ended.run.kept.journal) (Some ended.run.kept) ended.run.written) }
{
    let TaskRun {
        run: Run {
            kept,
            tallies,
            waiting,
            faults,
            written,
        },
        refused,
        counted,
    } = ended;
    match account_with(
        alloc, &refused, &counted, &kept, &tallies, &waiting, &faults, orders,
    ) {
        Ok(Account { notes, ending }) => told_of(alloc, notes, ending, Some(kept), written),
        Err(OutOfMemory) => Err(untold(ImageRefusal::OutOfMemory, Some(kept))),
    }
}

// Runs what a task works on, however its scene is stored, on a cluster of these tiles, each of whose actors is a thread of its own.
fn run_work<K: Sink, G: Gate, R>(
    rt: R,
    alloc: Global,
    work: AnyWork,
    cluster: Cluster,
    gate: &G,
    image: &mut K,
) -> Result<TaskRun, OutOfMemory>
where
    R: Threads + Wait + Copy + Send + Sync + Drop,
    requires tiles { cluster_limit cluster (work_in work).scene ≡ None }
    requires within { IsWithin (work_in work).scene }
    ensures run { IfOk result (λ r. IsRun (work_in work).scene (layout_for cluster (work_in work).scene) r.run.kept r.run.tallies r.run.waiting r.run.faults) }
    ensures written { IfOk result (λ r. IsTextWritten (use_of K.held K.faults image.old image.new)
        (image_text_of (work_in work).scene (layout_for cluster (work_in work).scene) r.run.kept) r.run.written) }
    ensures front { OnErr result (GaveFrontOfRun (work_in work).scene (layout_for cluster (work_in work).scene) (use_of K.held K.faults image.old image.new)) }
    ensures later { K.faults image.old ≤ K.faults image.new }
    ensures refused { IfOk result (λ r. r.refused ≡ (work_in work).refused) }
    ensures counted { IfOk result (λ r. r.counted ≡ (work_in work).counted) }
{
    let depth = cluster.depth as usize;
    match work {
        AnyWork::Whole(
            Work {
                scene,
                refused,
                counted,
            },
        ) => {
            let layout = tiles_of(&scene, cluster);
            let run = run_threads(rt, alloc, &scene, &layout, depth, gate, image)?;
            Ok(TaskRun {
                run,
                refused,
                counted,
            })
        }
        AnyWork::Stored { scene, refused } => {
            let layout = stored_tiles(&scene, cluster);
            let run = run_stored(rt, alloc, scene, &layout, depth, gate, image)?;
            Ok(TaskRun {
                run,
                refused,
                counted: Bytes::new(alloc),
            })
        }
    }
}

// Carries out a job on a cluster of these tiles, each of whose actors is a thread of its own.
fn perform_on_cluster<S: Source, K: Sink, G: Gate, R>(
    rt: R,
    alloc: Global,
    chain: &mut Vec<Box<dyn Spu>>,
    job: Job,
    cluster: Cluster,
    source: &mut S,
    image: &mut K,
    gate: &G,
) -> Result<Told, Refused>
where
    R: Threads + Wait + Copy + Send + Sync + Drop,
    requires threads { threads_of job ≡ Some cluster }
    requires ready { AreReady (map (λ b. meaning b) chain.old.items) }
    ensures { Performs S.left S.faults K.held K.faults job
        (map (λ b. meaning b) chain.old.items) (map (λ b. meaning b) chain.new.items)
        source.old source.new image.old image.new result }
{
    scene_lists_are_well_formed();
    records_of_scenes();
    let work = match any_work_for(&Beside(&rt), alloc, chain, job, source) {
        Ok(work) => work,
        Err(refusal) => return Err(without_record(refusal)),
    };
    match run_work(rt, alloc, work, cluster, gate, image) {
        Ok(ended) => told_run(alloc, ended, cluster.orders),
        Err(OutOfMemory) => Err(without_record(Refusal::Image(ImageRefusal::OutOfMemory))),
    }
}

/// Carries out a job that starts threads: on a cluster each of whose actors is a thread of its own, or by drawing clients apart. The answer is what is
/// left to tell.
pub(crate) fn perform_in_threads<S: Source, K: Sink, G: Gate, R>(
    rt: R,
    alloc: Global,
    chain: &mut Vec<Box<dyn Spu>>,
    job: Job,
    source: &mut S,
    image: &mut K,
    gate: &G,
) -> Result<Told, Refused>
where
    R: Threads + Wait + Copy + Send + Sync + Drop,
    requires threaded { starts_threads job ≡ true }
    requires ready { AreReady (map (λ b. meaning b) chain.old.items) }
    ensures { Performs S.left S.faults K.held K.faults job
        (map (λ b. meaning b) chain.old.items) (map (λ b. meaning b) chain.new.items)
        source.old source.new image.old image.new result }
{
    match job.threads() {
        Some(cluster) => perform_on_cluster(rt, alloc, chain, job, cluster, source, image, gate),
        None => perform_apart(&rt, alloc, chain, job, source, image),
    }
}

/// Carries out any job. The answer is what is left to tell.
pub(crate) fn perform_any<S: Source, K: Sink, G: Gate, R>(
    rt: R,
    alloc: Global,
    chain: &mut Vec<Box<dyn Spu>>,
    job: Job,
    source: &mut S,
    image: &mut K,
    gate: &G,
) -> Result<Told, Refused>
where
    R: Threads + Wait + Copy + Send + Sync + Drop,
    requires ready { AreReady (map (λ b. meaning b) chain.old.items) }
    ensures { Performs S.left S.faults K.held K.faults job
        (map (λ b. meaning b) chain.old.items) (map (λ b. meaning b) chain.new.items)
        source.old source.new image.old image.new result }
{
    if job.starts_threads() {
        perform_in_threads(rt, alloc, chain, job, source, image, gate)
    } else {
        perform(alloc, chain, job, source, image)
    }
}
