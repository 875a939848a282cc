//! The frames of a scene, each client's part drawn apart.
ghost use Rattle.std.specs.Prelude.{◌≡◌, IfOk, IfErr};
ghost use Rattle.rc_base.specs.Formats.Within.{IsWithin};
ghost use Rattle.rc_base.specs.Orders.Order.{default_journal};
ghost use Rattle.rc_base.specs.Orders.Sync.{sync_lists_of};
ghost use Rattle.serial_render.specs.Waits.{TellsStuck, HasWaits};
ghost use Rattle.sort_last.specs.Offends.{IsComposable, IsFirstOffenceIfAny};
ghost use Rattle.sort_last.specs.Runs.{frames_by, serial_frames, IsLastFault};
ghost use Rattle.sort_last.specs.declared.last.LastFault.TheVariants as fault;

use crate::compose::draw_frames;
use crate::survey::{LastSurvey, survey_last};
use command_store::StoredScene;
use rc_base::image::Frames;
use rc_base::out_of_memory::OutOfMemory;
use rc_base::scene::Scene;
use rc_base::sync::{Journal, Name, SyncLists, Waiting};
use serial_render::{Survey, Turns, swap_count, turns_of};
use std::alloc::Global;
use std::thread::Threads;

/// Why a scene has no frames: a command keeps its clients from being drawn apart, the first such one, or there was no memory.
#[derive(Clone, Copy, Debug, PartialEq, Eq)]
pub enum LastFault {
    NotLast { client: u8, place: u32 },
    OutOfMemory,
}

impl From<OutOfMemory> for LastFault {
    ghost from_gives = { λ _ e. e ≡ fault.OutOfMemory };

    fn from(_: OutOfMemory) -> LastFault {
        LastFault::OutOfMemory
    }
}

/// The default journal, a frame for each of its Swaps, and where each client is left waiting, if one is.
#[derive(Drop)]
pub struct LastRun {
    pub journal: Journal,
    pub frames: Frames,
    pub waiting: Option<Waiting>,
}

// The run of a scene whose clients can be drawn apart, by what its streams say of synchronisation.
fn run(
    rt: &(impl Threads + Sync),
    alloc: Global,
    scene: &StoredScene,
    syncs: &SyncLists,
) -> Result<LastRun, OutOfMemory>
    requires within { IsWithin scene.now }
    requires syncs { syncs.now ≡ sync_lists_of scene.now }
    requires composable { IsComposable scene.now }
    ensures journal { IfOk result (λ r. r.journal ≡ default_journal syncs.now) }
    ensures frames { IfOk result (λ r. r.frames ≡ frames_by scene.now syncs.now r.journal) }
    ensures waiting { IfOk result (λ r. TellsStuck syncs.now r.journal r.waiting) }
    ensures at { IfOk result (λ r. HasWaits syncs.now r.journal r.waiting) }
{
    let Turns {
        journal,
        waiting,
        ..
    } = turns_of(alloc, syncs)?;
    let count = swap_count(journal.as_slice());
    let frames = draw_frames(rt, alloc, scene, syncs, count)?;
    Ok(LastRun {
        journal,
        frames,
        waiting,
    })
}

/// The same as `render_last` of a scene whose streams were surveyed and judged, with the first command that offends.
pub fn render_judged(
    rt: &(impl Threads + Sync),
    alloc: Global,
    scene: &StoredScene,
    syncs: &SyncLists,
    offence: Option<Name>,
) -> Result<LastRun, LastFault>
    requires within { IsWithin scene.now }
    requires syncs { syncs.now ≡ sync_lists_of scene.now }
    requires offence { IsFirstOffenceIfAny scene.now offence }
    ensures class { IfOk result (λ r. IsComposable scene.now) }
    ensures fault { IfErr result (λ f. IsLastFault scene.now f) }
    ensures journal { IfOk result (λ r. r.journal ≡ default_journal syncs.now) }
    ensures frames { IfOk result (λ r. r.frames ≡ frames_by scene.now syncs.now r.journal) }
    ensures waiting { IfOk result (λ r. TellsStuck syncs.now r.journal r.waiting) }
    ensures at { IfOk result (λ r. HasWaits syncs.now r.journal r.waiting) }
{
    if let Some(name) = offence {
        return Err(LastFault::NotLast {
            client: name.client,
            place: name.place,
        });
    }
    let run = run(rt, alloc, scene, syncs)?;
    Ok(run)
}

/// The same as `render_last` of a scene whose streams were surveyed.
pub fn render_surveyed(
    rt: &(impl Threads + Sync),
    alloc: Global,
    scene: &StoredScene,
    syncs: &SyncLists,
) -> Result<LastRun, LastFault>
    requires within { IsWithin scene.now }
    requires syncs { syncs.now ≡ sync_lists_of scene.now }
    ensures class { IfOk result (λ r. IsComposable scene.now) }
    ensures fault { IfErr result (λ f. IsLastFault scene.now f) }
    ensures journal { IfOk result (λ r. r.journal ≡ default_journal syncs.now) }
    ensures frames { IfOk result (λ r. r.frames ≡ frames_by scene.now syncs.now r.journal) }
    ensures waiting { IfOk result (λ r. TellsStuck syncs.now r.journal r.waiting) }
    ensures at { IfOk result (λ r. HasWaits syncs.now r.journal r.waiting) }
{
    let LastSurvey { offence, .. } = survey_last(rt, alloc, scene)?;
    render_judged(rt, alloc, scene, syncs, offence)
}

/// Each client draws each frame alone into a layer, in as many threads as there are processors, and the layers are put together by depth. The frames
/// are those that the serial renderer shows in the default order.
pub fn render_last(
    rt: &(impl Threads + Sync),
    alloc: Global,
    scene: &Scene,
) -> Result<LastRun, LastFault>
    requires { IsWithin scene.now }
    ensures class { IfOk result (λ r. IsComposable scene.now) }
    ensures fault { IfErr result (λ f. IsLastFault scene.now f) }
    ensures journal { IfOk result (λ r. r.journal ≡ default_journal (sync_lists_of scene.now)) }
    ensures frames { IfOk result (λ r. r.frames ≡ serial_frames scene.now r.journal) }
    ensures waiting { IfOk result (λ r. TellsStuck (sync_lists_of scene.now) r.journal r.waiting) }
    ensures at { IfOk result (λ r. HasWaits (sync_lists_of scene.now) r.journal r.waiting) }
{
    let stored = StoredScene::of(alloc, scene)?;
    let LastSurvey { survey, offence } = survey_last(rt, alloc, &stored)?;
    let Survey { syncs, .. } = survey;
    render_judged(rt, alloc, &stored, &syncs, offence)
}
