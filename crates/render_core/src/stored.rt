//! The scenes of jobs that take no whole commands: where no filter is asked for, they are stored in little room.
ghost use Rattle.std.specs.Prelude.{◌≡◌, ◌≤◌, [], map, length, None, IfOk, IfErr, true, false};
ghost use Rattle.rc_base.specs.Formats.Limits.{limit_of};
ghost use Rattle.rc_base.specs.Formats.Within.{IsWithin};
ghost use Rattle.rc_base.specs.Outside.Ends.{use_of};
ghost use Rattle.rc_base.specs.Outside.Transfer.{byte_limit};
ghost use Rattle.run_words.specs.Asked.{HasTiles, IsWell, IsWellRead, cluster_limit, layout_for, word_limit};
ghost use Rattle.run_words.specs.Jobs.{ShowsNothing, origin_of, starts_threads};
ghost use Rattle.run_words.specs.declared.job.Form.TheVariants.{Bytes as OfBytes};
ghost use Rattle.run_words.specs.declared.job.Job.TheVariants.{Last as ToLast};
ghost use Rattle.render_core.specs.Carried.{Obtains};
ghost use Rattle.render_core.specs.Due.{work_on};
ghost use Rattle.render_core.specs.Refusals.{AreReady, Came, IsBlank, IsEarlyRefusal, IsMadeFor, IsRead, IsRefusedFor, IsNoOutcome, IsRefusedInput, IsWritable, MakesDue};
ghost use Rattle.render_core.specs.Scenes.{IsFor, IsReadWithin};
ghost use Rattle.render_core.specs.Stored.{IsAnySoundWork, IsStoredFor, meaning_in, reads_stored, work_in};

use crate::due::{Due, check, due_for, last, race, serial};
use crate::input::{meaning_of_lists, stored_plain};
use crate::reader::SceneReader;
use crate::work::{AnyWork, StoredMeaning};
use command_store::StoredScene;
use rc_base::command::Bytes;
use rc_base::out_of_memory::OutOfMemory;
use rc_base::outside::Source;
use rc_base::scene::{Limit, Scene};
use rc_base::transfer::read_all;
use rc_base::window::Layout;
use run_words::job::{Cluster, Job};
use run_words::refusal::{DueRefusal, InputRefusal, Refusal};
use run_words::{Work, list_fault_lines, tiles_asked};
use scene_file::{begins_with_lists, check_held_stored};
use spu_chain::Spu;
use spu_chain::laws::{chains_follow, filtered_scenes_stay, members_follow};
use std::alloc::{AllocError, Global};
use std::thread::Threads;

/// The job reads its scene into little room.
pub(crate) fn reads_stored(job: Job) -> bool
    ensures { result ≡ reads_stored job }
{
    matches!(
        job,
        Job::Serial | Job::Last | Job::Check | Job::Race | Job::Render(_)
    )
}

// What the bytes of a scene mean, with call lists or without. The input is let go once the scene stands.
fn stored_meaning_of<B: SceneReader>(
    reader: &B,
    alloc: Global,
    input: Bytes,
) -> Result<StoredMeaning, InputRefusal>
    requires { length input ≤ byte_limit }
    ensures read { IfOk result (λ x. IsRead OfBytes input (meaning_in x)) }
    ensures well { IfOk result (λ x. IsWellRead OfBytes (meaning_in x).scene) }
    ensures within { IfOk result (λ x. limit_of (meaning_in x).scene ≡ None) }
    ensures refused { IfErr result (IsRefusedInput OfBytes input) }
{
    let bytes = input.as_slice();
    if begins_with_lists(bytes) {
        return meaning_of_lists(alloc, bytes);
    }
    match reader.stored_of_bytes(alloc, bytes) {
        Ok(scene) => Ok(stored_plain(alloc, scene)),
        Err(refusal) => Err(refusal),
    }
}

// What the bytes of the source mean.
fn stored_meaning_for<B: SceneReader, S: Source>(
    reader: &B,
    alloc: Global,
    job: Job,
    source: &mut S,
) -> Result<StoredMeaning, Refusal>
    requires { reads_stored job ≡ true }
    ensures came { IfOk result (λ x. Came job (use_of S.left S.faults source.old source.new) (meaning_in x)) }
    ensures well { IfOk result (λ x. IsWell (origin_of job) (meaning_in x).scene) }
    ensures within { IfOk result (λ x. limit_of (meaning_in x).scene ≡ None) }
    ensures few { IfOk result (λ x. length (meaning_in x).faults ≤ 8) }
    ensures refused { IfErr result (IsRefusedFor job (use_of S.left S.faults source.old source.new)) }
    ensures early { IfErr result IsEarlyRefusal }
    ensures later { S.faults source.old ≤ S.faults source.new }
{
    let input = read_all(alloc, source)?;
    match stored_meaning_of(reader, alloc, input) {
        Ok(meant) => Ok(meant),
        Err(refusal) => Err(Refusal::Input(refusal)),
    }
}

// The first quantity of the words of a cluster that is outside its range.
fn tiles_past(scene: &StoredScene, cluster: Cluster) -> Option<Limit>
    ensures { result ≡ cluster_limit cluster scene.now }
{
    match tiles_asked(scene.decl(), cluster) {
        Ok(_) => None,
        Err(limit) => Some(limit),
    }
}

/// The tiles of the scene's window, where they are known to be within their ranges.
pub(crate) fn stored_tiles(scene: &StoredScene, cluster: Cluster) -> Layout
    requires { cluster_limit cluster scene.now ≡ None }
    ensures { result ≡ layout_for cluster scene.now }
{
    match tiles_asked(scene.decl(), cluster) {
        Ok(layout) => layout,
        Err(_) => unreachable!(),
    }
}

// The first quantity outside its range of what such a job asks for: its tiles, or the pixels of all frames, where it holds them all at once.
fn past_of(job: Job, scene: &StoredScene) -> Option<Limit>
    requires stored { reads_stored job ≡ true }
    requires within { limit_of scene.now ≡ None }
    ensures { result ≡ word_limit job scene.now }
{
    match job {
        Job::Serial | Job::Last => match check_held_stored(scene) {
            Ok(()) => None,
            Err(limit) => Some(limit),
        },
        Job::Render(cluster) => tiles_past(scene, cluster),
        Job::Check | Job::Race => None,
        _ => unreachable!(),
    }
}

/// What the task of such a job works on, behind no filter.
pub(crate) fn stored_work_for<B: SceneReader, S: Source>(
    reader: &B,
    alloc: Global,
    chain: &mut Vec<Box<dyn Spu>>,
    job: Job,
    source: &mut S,
) -> Result<AnyWork, Refusal>
    requires stored { reads_stored job ≡ true }
    requires bare { chain.old.items ≡ [] }
    requires ready { AreReady (map (λ b. meaning b) chain.old.items) }
    ensures { Obtains S.left S.faults job
        (map (λ b. meaning b) chain.old.items) (map (λ b. meaning b) chain.new.items)
        source.old source.new IsAnySoundWork result }
{
    members_follow();
    chains_follow();
    filtered_scenes_stay();
    let meant = match stored_meaning_for(reader, alloc, job, source) {
        Ok(meant) => meant,
        Err(refusal) => return Err(refusal),
    };
    match past_of(job, &meant.scene) {
        Some(limit) => Err(Refusal::Undue(DueRefusal::PastLimit(limit))),
        None => match list_fault_lines(alloc, meant.faults.as_slice()) {
            Ok(refused) => Ok(AnyWork::Stored {
                scene: meant.scene,
                refused,
            }),
            Err(AllocError) => Err(Refusal::Undue(DueRefusal::OutOfMemory)),
        },
    }
}

// What is due for the scene of such a job that starts no thread, where its call lists have these lines.
fn due_in_turn(
    alloc: Global,
    job: Job,
    scene: &StoredScene,
    refused: &[u8],
) -> Result<Due, DueRefusal>
    requires alone { starts_threads job ≡ false }
    requires stored { reads_stored job ≡ true }
    requires within { IsReadWithin OfBytes scene.now }
    ensures due { MakesDue (IsMadeFor job (work_on scene.now refused.now [])) result }
    ensures suits { IfOk result (λ due. IsFor job scene.now) }
    ensures blank { IfOk result (λ due. ShowsNothing job → IsBlank due.image) }
{
    match job {
        Job::Serial => serial(alloc, scene, refused, b""),
        Job::Check => check(alloc, scene, refused, b""),
        Job::Race => race(alloc, scene, refused, b""),
        _ => unreachable!(),
    }
}

/// What is due for what a job that starts no thread works on, however its scene is stored.
pub(crate) fn due_for_any(alloc: Global, job: Job, work: &AnyWork) -> Result<Due, DueRefusal>
    requires alone { starts_threads job ≡ false }
    requires form { IsStoredFor job work.now }
    requires well { IsWell (origin_of job) (work_in work.now).scene }
    requires within { limit_of (work_in work.now).scene ≡ None }
    requires tiles { HasTiles job (work_in work.now).scene }
    ensures due { MakesDue (IsMadeFor job (work_in work.now)) result }
    ensures suits { IfOk result (λ due. IsFor job (work_in work.now).scene) }
    ensures blank { IfOk result (λ due. ShowsNothing job → IsBlank due.image) }
{
    match work {
        AnyWork::Whole(work) => due_for(alloc, job, work),
        AnyWork::Stored { scene, refused } => due_in_turn(alloc, job, scene, refused.as_slice()),
    }
}

// A scene in little room. The one that it was made of is let go.
fn stored_of(alloc: Global, scene: Scene) -> Result<StoredScene, OutOfMemory>
    requires { IsWithin scene }
    ensures { IfOk result (λ s. s ≡ scene) }
{
    StoredScene::of(alloc, &scene)
}

/// What is due for the scene of such a job where its clients are drawn apart.
pub(crate) fn last_for(
    rt: &(impl Threads + Sync),
    alloc: Global,
    work: AnyWork,
) -> Result<Due, DueRefusal>
    requires { IsReadWithin OfBytes (work_in work).scene }
    ensures outcome { IfOk result (IsMadeFor ToLast (work_in work)) }
    ensures suits { IfOk result (λ due. IsFor ToLast (work_in work).scene) }
    ensures writable { IfOk result (λ due. IsWritable due.image) }
    ensures refused { IfErr result (IsNoOutcome ToLast (work_in work).scene) }
{
    match work {
        AnyWork::Whole(
            Work {
                scene,
                refused,
                counted,
            },
        ) => {
            let stored = stored_of(alloc, scene)?;
            last(rt, alloc, &stored, refused.as_slice(), counted.as_slice())
        }
        AnyWork::Stored { scene, refused } => last(rt, alloc, &scene, refused.as_slice(), b""),
    }
}
