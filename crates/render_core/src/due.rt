//! What is due, job by job, for what a task works on, where no cluster runs in threads.
ghost use Rattle.std.specs.Prelude.{◌≡◌, ◌≤◌, [], false, Some, None, is_some, length, IfOk, IfErr, MatchResult, if◌then◌else◌};
ghost use Rattle.rc_base.specs.Formats.Limits.{limit_of};
ghost use Rattle.rc_base.specs.declared.scene.Scene.{Scene as AnyScene};
ghost use Rattle.render_core.specs.Due.{IsPacked, IsUnpacked, found_by, journal_of, short_due, shown_alone, work_on};
ghost use Rattle.run_words.specs.Jobs.{ShowsNothing, origin_of, starts_threads};
ghost use Rattle.run_words.specs.Asked.{HasTiles, cluster_limit, IsWell};
ghost use Rattle.render_core.specs.Scenes.{IsFor, IsReadWithin};
ghost use Rattle.render_core.specs.Refusals.{IsBlank, IsMadeFor, IsWritable, MakesDue, outcome_of, refusal_of, IsNoOutcome};
ghost use Rattle.render_core.specs.Runs.{IsDefault};
ghost use Rattle.run_words.specs.Reports.{Yields};
ghost use Rattle.run_words.specs.declared.job.Form.TheVariants.{Bytes as OfBytes, PlainBytes as OfPlainBytes, Text as OfText};
ghost use Rattle.run_words.specs.declared.job.Job.TheVariants.{Simulate as ToSimulate, Serial as ToSerial, Last as ToLast, Check as ToCheck, Race as ToRace};
ghost use Rattle.run_words.specs.declared.told.Ending.TheVariants.{Complete as Whole, Stuck as IsStuck};
ghost use Rattle.run_words.specs.declared.refusal.DueRefusal.TheVariants.{OutOfMemory as NoMemory};

use crate::cluster::cluster_due;
use crate::picks::{actor_count, picks_of};
use command_store::StoredScene;
use frame_out::laws::frames_of_scenes_are_writable;
use order_model::laws::{
    default_journal_is_maximal, default_orders_are_permitted, scene_lists_are_well_formed,
};
use order_model::record::Record;
use race_check::{Verdict, check_scene_races};
use rc_base::cluster::FaultLists;
use rc_base::command::Bytes;
use rc_base::image::Frames;
use rc_base::out_of_memory::OutOfMemory;
use rc_base::scene::Scene;
use rc_base::sync::{Journal, Name, SyncLists, Waiting};
use run_words::job::{Cluster, Job};
use run_words::refusal::DueRefusal;
use run_words::{Ending, Work, race_line, short_report, tiles_of};
use scene_file::write_scene;
use scene_text::print_scene;
use serial_render::{RunOrder, RunTurns, Survey, render_runs, survey_scene, turns_in_runs};
use sort_last::{LastFault, LastSurvey, render_judged, survey_last};
use std::alloc::Global;
use std::thread::Threads;
use stream_replay::SceneStore;

/// What is due to the image.
#[derive(Drop)]
pub(crate) enum DueImage {
    /// The text of each frame, one after the other.
    Frames(Frames),
    /// One text.
    OneText(Bytes),
}

/// What is due for a scene.
#[derive(Drop)]
pub(crate) struct Due {
    /// To the image.
    pub(crate) image: DueImage,
    /// To the notes, behind the image.
    pub(crate) notes: Bytes,
    pub(crate) ending: Ending,
    /// The record of a cluster.
    pub(crate) kept: Option<Record>,
}

/// What is due for what a job that starts no thread works on.
#[tactic(auto, unfolding(crate::specs::Due::IsOutcome))]
pub(crate) fn due_for(alloc: Global, job: Job, work: &Work) -> Result<Due, DueRefusal>
    requires alone { starts_threads job ≡ false }
    requires well { IsWell (origin_of job) work.now.scene }
    requires within { limit_of work.now.scene ≡ None }
    requires tiles { HasTiles job work.now.scene }
    ensures due { MakesDue (IsMadeFor job work.now) result }
    ensures suits { IfOk result (λ due. IsFor job work.now.scene) }
    ensures blank { IfOk result (λ due. ShowsNothing job → IsBlank due.image) }
{
    match job {
        Job::Render(_) | Job::Demo { .. } | Job::Last => unreachable!(),
        Job::Simulate { seed, cluster } => simulate(alloc, work, seed, cluster),
        Job::Serial => serial_of(alloc, work),
        Job::Check => check_of(alloc, work),
        Job::Race => race_of(alloc, work),
        Job::Pack => pack(alloc, &work.scene),
        Job::Unpack => unpack(alloc, &work.scene),
        Job::Gen { .. } => pack(alloc, &work.scene),
    }
}

// The cluster by a seed.
fn simulate(alloc: Global, work: &Work, seed: u64, cluster: Cluster) -> Result<Due, DueRefusal>
    requires read { IsReadWithin OfBytes work.now.scene }
    requires tiles { cluster_limit cluster work.now.scene ≡ None }
    ensures { MakesDue (IsMadeFor (ToSimulate seed cluster) work.now) result }
{
    let layout = tiles_of(&work.scene, cluster);
    let picks = picks_of(alloc, seed, actor_count(&work.scene, &layout))?;
    cluster_due(alloc, work, &layout, cluster, picks.as_slice())
}

// The default journal and order of a scene, its refused commands, and who is left waiting.
#[derive(Drop)]
struct DefaultRun {
    syncs: SyncLists,
    journal: Journal,
    order: RunOrder,
    faults: FaultLists,
    waiting: Option<Waiting>,
}

/// A client that waits makes a run stuck.
pub(crate) fn ending_of(waiting: &Option<Waiting>) -> Ending
    ensures { result ≡ (if is_some waiting.now then IsStuck else Whole) }
{
    match waiting {
        Some(_) => Ending::Stuck,
        None => Ending::Complete,
    }
}

// The default journal and order of a scene.
fn default_of<S: SceneStore>(alloc: Global, scene: &S) -> Result<DefaultRun, DueRefusal>
    requires { IsReadWithin OfBytes (S.scene scene.now) }
    ensures default { IfOk result (IsDefault (S.scene scene.now)) }
    ensures refused { IfErr result (λ refusal. refusal ≡ NoMemory) }
{
    scene_lists_are_well_formed();
    default_journal_is_maximal();
    default_orders_are_permitted();
    let Survey { syncs, faults } = survey_scene(alloc, scene)?;
    let RunTurns {
        journal,
        order,
        waiting,
    } = turns_in_runs(alloc, &syncs)?;
    Ok(DefaultRun {
        syncs,
        journal,
        order,
        faults,
        waiting,
    })
}

// The short report of the default run of a scene, with the lines that it has besides, and these before those of who waits.
fn report_of(
    alloc: Global,
    refused: &[u8],
    counted: &[u8],
    run: &DefaultRun,
    told: &[u8],
) -> Result<Bytes, OutOfMemory>
    requires { length run.now.faults ≤ 8 }
    ensures { (scene : AnyScene) → IsDefault scene run.now
        → Yields (short_due (work_on scene refused.now counted.now) told.now (journal_of scene))
        result }
{
    Ok(short_report(
        alloc,
        refused,
        counted,
        run.faults.as_slice(),
        run.journal.as_slice(),
        told,
        &run.waiting,
    )?)
}

/// The frames of the default order, and the short report.
pub(crate) fn serial<S: SceneStore>(
    alloc: Global,
    scene: &S,
    refused: &[u8],
    counted: &[u8],
) -> Result<Due, DueRefusal>
    requires { IsReadWithin OfBytes (S.scene scene.now) }
    ensures { MakesDue (IsMadeFor ToSerial (work_on (S.scene scene.now) refused.now counted.now)) result }
{
    frames_of_scenes_are_writable();
    let run = default_of(alloc, scene)?;
    let notes = report_of(alloc, refused, counted, &run, b"")?;
    let frames = render_runs(alloc, scene, &run.journal, &run.order)?;
    Ok(Due {
        image: DueImage::Frames(frames),
        notes,
        ending: ending_of(&run.waiting),
        kept: None,
    })
}

// The same of what a task works on.
fn serial_of(alloc: Global, work: &Work) -> Result<Due, DueRefusal>
    requires { IsReadWithin OfBytes work.now.scene }
    ensures { MakesDue (IsMadeFor ToSerial work.now) result }
{
    serial(
        alloc,
        &work.scene,
        work.refused.as_slice(),
        work.counted.as_slice(),
    )
}

// Why clients weren't drawn apart.
fn undue(fault: LastFault) -> DueRefusal
    ensures { result ≡ refusal_of fault }
{
    match fault {
        LastFault::NotLast { client, place } => DueRefusal::NotLast(Name { client, place }),
        LastFault::OutOfMemory => DueRefusal::OutOfMemory,
    }
}

/// The same frames, put together by depth of clients that are drawn apart, and the short report. A scene whose clients can't be drawn apart is refused.
pub(crate) fn last(
    rt: &(impl Threads + Sync),
    alloc: Global,
    scene: &StoredScene,
    refused: &[u8],
    counted: &[u8],
) -> Result<Due, DueRefusal>
    requires { IsReadWithin OfBytes scene.now }
    ensures outcome { IfOk result (IsMadeFor ToLast (work_on scene.now refused.now counted.now)) }
    ensures suits { IfOk result (λ due. IsFor ToLast scene.now) }
    ensures writable { IfOk result (λ due. IsWritable due.image) }
    ensures refused { IfErr result (IsNoOutcome ToLast scene.now) }
{
    scene_lists_are_well_formed();
    default_journal_is_maximal();
    frames_of_scenes_are_writable();
    let LastSurvey {
        survey: Survey { syncs, faults },
        offence,
    } = survey_last(rt, alloc, scene)?;
    let run = match render_judged(rt, alloc, scene, &syncs, offence) {
        Ok(run) => run,
        Err(fault) => return Err(undue(fault)),
    };
    let notes = short_report(
        alloc,
        refused,
        counted,
        faults.as_slice(),
        run.journal.as_slice(),
        b"",
        &run.waiting,
    )?;
    let ending = ending_of(&run.waiting);
    Ok(Due {
        image: DueImage::Frames(run.frames),
        notes,
        ending,
        kept: None,
    })
}

/// The short report alone.
pub(crate) fn check<S: SceneStore>(
    alloc: Global,
    scene: &S,
    refused: &[u8],
    counted: &[u8],
) -> Result<Due, DueRefusal>
    requires { IsReadWithin OfBytes (S.scene scene.now) }
    ensures due { MakesDue (IsMadeFor ToCheck (work_on (S.scene scene.now) refused.now counted.now)) result }
    ensures blank { IfOk result (λ due. IsBlank due.image) }
{
    let run = default_of(alloc, scene)?;
    let notes = report_of(alloc, refused, counted, &run, b"")?;
    Ok(Due {
        image: DueImage::OneText(Bytes::new(alloc)),
        notes,
        ending: ending_of(&run.waiting),
        kept: None,
    })
}

// The same of what a task works on.
fn check_of(alloc: Global, work: &Work) -> Result<Due, DueRefusal>
    requires { IsReadWithin OfBytes work.now.scene }
    ensures due { MakesDue (IsMadeFor ToCheck work.now) result }
    ensures blank { IfOk result (λ due. IsBlank due.image) }
{
    check(
        alloc,
        &work.scene,
        work.refused.as_slice(),
        work.counted.as_slice(),
    )
}

// How a job ends that asks for races, where nobody waits.
fn found_by(verdict: &Verdict) -> Ending
    ensures { result ≡ found_by verdict.now }
{
    match verdict {
        Verdict::Ordered => Ending::Complete,
        Verdict::Race { .. } => Ending::RaceFound,
    }
}

// How it ends: with the race that was found, unless a client waits.
fn race_ending(waiting: &Option<Waiting>, verdict: &Verdict) -> Ending
    ensures { result ≡ (if is_some waiting.now then IsStuck else found_by verdict.now) }
{
    if waiting.is_some() {
        Ending::Stuck
    } else {
        found_by(verdict)
    }
}

/// The short report, with what synchronisation leaves unordered.
pub(crate) fn race<S: SceneStore>(
    alloc: Global,
    scene: &S,
    refused: &[u8],
    counted: &[u8],
) -> Result<Due, DueRefusal>
    requires { IsReadWithin OfBytes (S.scene scene.now) }
    ensures due { MakesDue
        (IsMadeFor ToRace (work_on (S.scene scene.now) refused.now counted.now)) result }
    ensures blank { IfOk result (λ due. IsBlank due.image) }
{
    let run = default_of(alloc, scene)?;
    let order = run.order.to_order(alloc)?;
    let verdict = check_scene_races(alloc, scene, &run.journal, &order, &run.syncs)?;
    let line = race_line(alloc, &verdict)?;
    let notes = report_of(alloc, refused, counted, &run, line.as_bytes())?;
    Ok(Due {
        image: DueImage::OneText(Bytes::new(alloc)),
        notes,
        ending: race_ending(&run.waiting, &verdict),
        kept: None,
    })
}

// The same of what a task works on.
fn race_of(alloc: Global, work: &Work) -> Result<Due, DueRefusal>
    requires { IsReadWithin OfBytes work.now.scene }
    ensures due { MakesDue (IsMadeFor ToRace work.now) result }
    ensures blank { IfOk result (λ due. IsBlank due.image) }
{
    race(
        alloc,
        &work.scene,
        work.refused.as_slice(),
        work.counted.as_slice(),
    )
}

// A text for the image, and nothing for the notes.
fn text_alone(alloc: Global, text: Bytes) -> Due
    ensures outcome { outcome_of result ≡ shown_alone text }
    ensures writable { IsWritable result.image }
{
    Due {
        image: DueImage::OneText(text),
        notes: Bytes::new(alloc),
        ending: Ending::Complete,
        kept: None,
    }
}

// The scene's bytes.
fn pack(alloc: Global, scene: &Scene) -> Result<Due, DueRefusal>
    requires { IsReadWithin OfText scene.now }
    ensures { MakesDue (λ due. IsPacked scene.now (outcome_of due)) result }
{
    let bytes = write_scene(alloc, scene)?;
    Ok(text_alone(alloc, bytes))
}

// The scene's text.
fn unpack(alloc: Global, scene: &Scene) -> Result<Due, DueRefusal>
    requires { IsReadWithin OfPlainBytes scene.now }
    ensures { MakesDue (λ due. IsUnpacked scene.now (outcome_of due)) result }
{
    let text = print_scene(alloc, scene)?;
    Ok(text_alone(alloc, text))
}
