//! What is due for a scene by the stepped cluster, and what is told of any cluster's run.
ghost use Rattle.std.specs.Prelude.{◌≡◌, ◌<◌, ℕ, None, length, slice_index_or, IfOk, IfErr};
ghost use Rattle.rc_base.specs.Formats.Limits.{limit_of};
ghost use Rattle.rc_base.specs.declared.window.Layout.{Layout as AnyLayout};
ghost use Rattle.run_record.specs.Told.{IsRun};
ghost use Rattle.render_core.specs.Due.{IsStepped};
ghost use Rattle.render_core.specs.Scenes.{ArePicks, actors_for};
ghost use Rattle.run_words.specs.Asked.{cluster_limit, layout_for, IsWellRead};
ghost use Rattle.render_core.specs.Refusals.{IsWritable, outcome_of};
ghost use Rattle.render_core.specs.Runs.{IsAccount, IsSmallRun};
ghost use Rattle.run_words.specs.declared.refusal.DueRefusal.TheVariants.{OutOfMemory as NoMemory};
ghost use Rattle.run_words.specs.declared.job.Form.TheVariants.{Bytes as OfBytes};
ghost use Rattle.run_words.specs.declared.work.Work.{Work as AnyWork};

use crate::due::{Due, DueImage, ending_of};
use frame_out::frames_of;
use frame_out::laws::frames_of_scenes_are_writable;
use order_model::laws::{records_of_scenes, scene_lists_are_well_formed};
use order_model::record::Record;
use rc_base::cluster::{FaultLists, Tallies};
use rc_base::command::Bytes;
use rc_base::out_of_memory::OutOfMemory;
use rc_base::sync::Waiting;
use rc_base::window::Layout;
use run_record::laws::whole_runs_show_frames;
use run_words::job::Cluster;
use run_words::refusal::DueRefusal;
use run_words::{Ending, Work, cluster_report, cluster_report_with};
use std::alloc::Global;
use step_core::{CoreRun, finish, run_schedule};

/// What is told of a cluster's run.
#[derive(Drop)]
pub(crate) struct Account {
    /// The report.
    pub(crate) notes: Bytes,
    pub(crate) ending: Ending,
}

/// The account of what a run leaves, whoever picked its actors' turns; with the recorded orders where they are asked for.
pub(crate) fn account_of(
    alloc: Global,
    work: &Work,
    kept: &Record,
    tallies: &Tallies,
    waiting: &Option<Waiting>,
    faults: &FaultLists,
    orders: bool,
) -> Result<Account, OutOfMemory>
    requires { IsSmallRun kept.now tallies.now waiting.now faults.now }
    ensures { (l : AnyLayout) → IsRun work.now.scene l kept.now tallies.now waiting.now faults.now → IfOk result (IsAccount work.now l kept.now orders) }
{
    let notes = cluster_report(
        alloc,
        work,
        faults.as_slice(),
        tallies.as_slice(),
        kept,
        waiting,
        orders,
    )?;
    Ok(Account {
        notes,
        ending: ending_of(waiting),
    })
}

/// The same of what is known by its lines: of what was refused before the run, and of what filters counted.
pub(crate) fn account_with(
    alloc: Global,
    refused: &Bytes,
    counted: &Bytes,
    kept: &Record,
    tallies: &Tallies,
    waiting: &Option<Waiting>,
    faults: &FaultLists,
    orders: bool,
) -> Result<Account, OutOfMemory>
    requires { IsSmallRun kept.now tallies.now waiting.now faults.now }
    ensures { (work : AnyWork) (l : AnyLayout) → refused.now ≡ work.refused → counted.now ≡ work.counted
        → IsRun work.scene l kept.now tallies.now waiting.now faults.now → IfOk result (IsAccount work l kept.now orders) }
{
    let notes = cluster_report_with(
        alloc,
        refused.as_slice(),
        counted.as_slice(),
        faults.as_slice(),
        tallies.as_slice(),
        kept,
        waiting,
        orders,
    )?;
    Ok(Account {
        notes,
        ending: ending_of(waiting),
    })
}

/// What is due for the scene by a cluster of these tiles: one step of each picked actor in turn, and then rounds of all actors to their end.
pub(crate) fn cluster_due(
    alloc: Global,
    work: &Work,
    layout: &Layout,
    cluster: Cluster,
    picks: &[u32],
) -> Result<Due, DueRefusal>
    requires well { IsWellRead OfBytes work.now.scene }
    requires within { limit_of work.now.scene ≡ None }
    requires asked { cluster_limit cluster work.now.scene ≡ None }
    requires tiles { layout.now ≡ layout_for cluster work.now.scene }
    requires picks { ArePicks picks.now (actors_for cluster work.now.scene) }
    ensures outcome { IfOk result (λ due. IsStepped cluster picks.now work.now (outcome_of due)) }
    ensures writable { IfOk result (λ due. IsWritable due.image) }
    ensures refused { IfErr result (λ refusal. refusal ≡ NoMemory) }
{
    scene_lists_are_well_formed();
    records_of_scenes();
    whole_runs_show_frames();
    frames_of_scenes_are_writable();
    let world = run_schedule(alloc, &work.scene, layout, cluster.depth as usize, picks)?;
    let CoreRun {
        kept,
        mut parts,
        tallies,
        waiting,
        faults,
    } = finish(alloc, world)?;
    let frames = frames_of(alloc, layout, parts.as_mut_slice())?;
    let Account { notes, ending } = account_of(
        alloc,
        work,
        &kept,
        &tallies,
        &waiting,
        &faults,
        cluster.orders,
    )?;
    Ok(Due {
        image: DueImage::Frames(frames),
        notes,
        ending,
        kept: Some(kept),
    })
}
