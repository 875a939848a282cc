//! What a task works on: the scene that its input means, behind the filters, and the lines that its report has besides the scene's own.
ghost use Rattle.std.specs.Prelude.{◌≡◌, ◌≤◌, ◌⊎◌, None, map, length, IfOk, OnOk, OnErr};
ghost use Rattle.std.specs.List.{flat_map};
ghost use Rattle.rc_base.specs.Formats.Limits.{commands_in, limit_of};
ghost use Rattle.spu_chain.specs.Filter.{AreReached, HaveRoom};
ghost use Rattle.spu_chain.specs.Scenes.{counts_from, rules_after_all, scene_by};
ghost use Rattle.rc_base.specs.Outside.Ends.{Used};
ghost use Rattle.run_words.specs.Asked.{IsWell};
ghost use Rattle.run_words.specs.Jobs.{origin_of, task_of};
ghost use Rattle.run_words.specs.Lines.{filter_lines as lines_of_filters};
ghost use Rattle.render_core.specs.Carried.{IsSoundWork, IsWorkBehind};
ghost use Rattle.render_core.specs.Refusals.{AreReady, Came, HaveSeenSome};
ghost use Rattle.render_core.specs.Scenes.{is_filtered, rules_for, work_with};

use command_store::StoredScene;
use rc_base::cluster::FaultLists;
use rc_base::command::Bytes;
use rc_base::out_of_memory::OutOfMemory;
use rc_base::scene::Scene;
use run_words::job::{Form, Job, Origin};
use run_words::refusal::{DueRefusal, Refusal};
use run_words::{Work, asked_past, filter_lines, list_fault_lines};
use spu_chain::laws::filtered_scenes_stay;
use spu_chain::{Spu, filter_scene, rules_of};
use std::alloc::Global;

/// What an input means.
#[derive(Drop)]
pub(crate) struct Meaning {
    /// With call lists the scene of their expansions.
    pub(crate) scene: Scene,
    /// Each client's commands that are refused among its call lists, with their places in the stream that was read.
    pub(crate) faults: FaultLists,
}

/// The same, with the scene stored in little room.
#[derive(Drop)]
pub(crate) struct StoredMeaning {
    pub(crate) scene: StoredScene,
    pub(crate) faults: FaultLists,
}

/// What a task works on, and the form in which its scene is stored.
#[derive(Drop)]
pub(crate) enum AnyWork {
    Whole(Work),
    /// Behind no filter: the report has these lines of call lists before the scene's own, and none of filters.
    Stored { scene: StoredScene, refused: Bytes },
}

// A scene that comes so goes through the filters.
fn is_filtered(origin: Origin) -> bool
    ensures { result ≡ is_filtered origin }
{
    match origin {
        Origin::Read(Form::Bytes) => true,
        Origin::Read(Form::PlainBytes | Form::Text) | Origin::Generated { .. } => false,
    }
}

// What the members of the chain make of a scene.
fn filtered(
    alloc: Global,
    chain: &mut Vec<Box<dyn Spu>>,
    scene: Scene,
    refused: Bytes,
) -> Result<Work, OutOfMemory>
    requires { HaveRoom (commands_in scene.streams) (map (λ b. meaning b) chain.old.items) }
    ensures work { IfOk result (λ work. work ≡ record {
      scene = scene_by (map (λ b. meaning b) chain.old.items) scene;
      refused = refused;
      counted = lines_of_filters (counts_from 0 (rules_after_all (map (λ b. meaning b) chain.old.items) scene.streams));
    }) }
    ensures rules { OnOk result (map (λ b. meaning b) chain.new.items ≡ rules_after_all (map (λ b. meaning b) chain.old.items) scene.streams) }
    ensures short { OnErr result ((map (λ b. meaning b) chain.new.items ≡ rules_after_all (map (λ b. meaning b) chain.old.items) scene.streams)
        ⊎ AreReached (map (λ b. meaning b) chain.old.items) (flat_map (λ stream. stream) scene.streams) (map (λ b. meaning b) chain.new.items)) }
{
    let scene = filter_scene(alloc, chain, scene)?;
    let rules = rules_of(alloc, chain)?;
    let counted = filter_lines(alloc, rules.as_slice())?;
    Ok(Work {
        scene,
        refused,
        counted,
    })
}

// What the job works on, where this is meant: the chain's members are given the scene's commands.
fn work_of(
    alloc: Global,
    chain: &mut Vec<Box<dyn Spu>>,
    job: Job,
    meant: Meaning,
) -> Result<Work, OutOfMemory>
    requires ready { AreReady (map (λ b. meaning b) chain.old.items) }
    requires within { limit_of meant.scene ≡ None }
    requires few { length meant.faults ≤ 8 }
    ensures work { IfOk result (λ work. work ≡ work_with (task_of (map (λ b. meaning b) chain.old.items) job) meant.scene meant.faults) }
    ensures rules { OnOk result (map (λ b. meaning b) chain.new.items ≡ rules_for (task_of (map (λ b. meaning b) chain.old.items) job) meant.scene) }
    ensures short { OnErr result (HaveSeenSome (task_of (map (λ b. meaning b) chain.old.items) job) meant.scene (map (λ b. meaning b) chain.new.items)) }
{
    let Meaning { scene, faults } = meant;
    let refused = list_fault_lines(alloc, faults.as_slice())?;
    if is_filtered(job.origin()) {
        return filtered(alloc, chain, scene, refused);
    }
    Ok(Work {
        scene,
        refused,
        counted: Bytes::new(alloc),
    })
}

/// What the task works on where its scene means this: what the filters make of it.
pub(crate) fn work_behind(
    alloc: Global,
    chain: &mut Vec<Box<dyn Spu>>,
    job: Job,
    meant: Meaning,
) -> Result<Work, Refusal>
    requires ready { AreReady (map (λ b. meaning b) chain.old.items) }
    requires well { IsWell (origin_of job) meant.scene }
    requires within { limit_of meant.scene ≡ None }
    requires few { length meant.faults ≤ 8 }
    ensures { (source : Used) → Came job source meant → IsWorkBehind job
        (map (λ b. meaning b) chain.old.items) (map (λ b. meaning b) chain.new.items)
        source IsSoundWork result }
{
    filtered_scenes_stay();
    match asked_past(job, &meant.scene) {
        Some(limit) => Err(Refusal::Undue(DueRefusal::PastLimit(limit))),
        None => match work_of(alloc, chain, job, meant) {
            Ok(work) => Ok(work),
            Err(OutOfMemory) => Err(Refusal::Undue(DueRefusal::OutOfMemory)),
        },
    }
}
