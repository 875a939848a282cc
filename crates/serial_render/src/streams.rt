//! What a scene's streams say of synchronisation, and which of their commands are refused.
ghost use Rattle.std.specs.Prelude.{◌≡◌, ◌<◌, length, IfOk};
ghost use Rattle.rc_base.specs.Formats.Within.{IsWithin};
ghost use Rattle.rc_base.specs.Contexts.Issue.{faults_of};
ghost use Rattle.rc_base.specs.Orders.Sync.{sync_row_of, sync_lists_of};
ghost use Rattle.serial_render.specs.Surveyed.{AreSurveyed, AreFaultLists};
ghost use Rattle.serial_render.specs.Turns.{CanTakeTurns};

use crate::client_survey::ClientSurvey;
use crate::lists::Survey;
use rc_base::cluster::{FaultList, FaultLists};
use rc_base::items::Items;
use rc_base::out_of_memory::OutOfMemory;
use rc_base::scene::Scene;
use rc_base::sync::{SyncLists, SyncRow, SyncRows};
use std::alloc::Global;
use stream_replay::SceneStore;

// A client's operations of synchronisation, and its refused commands.
fn survey_client<S: SceneStore>(
    alloc: Global,
    scene: &S,
    client: usize,
) -> Result<(SyncRow, FaultList), OutOfMemory>
    requires within { IsWithin (S.scene scene.now) }
    requires client { client < length (S.scene scene.now).streams }
    ensures row { IfOk result (λ p. p.0 ≡ sync_row_of (S.scene scene.now) client) }
    ensures faults { IfOk result (λ p. p.1 ≡ faults_of (S.scene scene.now) client) }
{
    let mut survey = ClientSurvey::new(alloc, scene)?;
    for place in 0..scene.stream_length(client) {
        survey.issue(scene, client, place)?;
    }
    Ok(survey.finish(scene, client))
}

/// The survey of a scene whose clients were surveyed, one by one.
pub fn survey_of_clients<S: SceneStore>(
    alloc: Global,
    scene: &S,
    rows: SyncRows,
    faults: FaultLists,
) -> Result<Survey, OutOfMemory>
    requires within { IsWithin (S.scene scene.now) }
    requires surveyed { AreSurveyed
        (S.scene scene.now) (length (S.scene scene.now).streams) rows faults }
    ensures syncs { IfOk result (λ s. s.syncs ≡ sync_lists_of (S.scene scene.now)) }
    ensures clients { IfOk result (λ s. length s.faults ≡ length (S.scene scene.now).streams) }
    ensures faults { IfOk result (λ s. AreFaultLists (S.scene scene.now) s.faults) }
    ensures turns { IfOk result (λ s. CanTakeTurns s.syncs) }
{
    let syncs = SyncLists {
        clients: rows,
        counts: Items::from_slice(alloc, scene.decl().barriers.as_slice())?,
        units: Items::from_slice(alloc, scene.decl().semaphores.as_slice())?,
    };
    Ok(Survey { syncs, faults })
}

/// The accepted operations of synchronisation and the refused commands of a scene's whole streams. Each command is issued once.
pub fn survey(alloc: Global, scene: &Scene) -> Result<Survey, OutOfMemory>
    requires { IsWithin scene.now }
    ensures syncs { IfOk result (λ s. s.syncs ≡ sync_lists_of scene.now) }
    ensures clients { IfOk result (λ s. length s.faults ≡ length scene.now.streams) }
    ensures faults { IfOk result (λ s. AreFaultLists scene.now s.faults) }
    ensures turns { IfOk result (λ s. CanTakeTurns s.syncs) }
{
    survey_scene(alloc, scene)
}

/// The same of a scene however it is stored.
pub fn survey_scene<S: SceneStore>(alloc: Global, scene: &S) -> Result<Survey, OutOfMemory>
    requires { IsWithin (S.scene scene.now) }
    ensures syncs { IfOk result (λ s. s.syncs ≡ sync_lists_of (S.scene scene.now)) }
    ensures clients { IfOk result (λ s. length s.faults ≡ length (S.scene scene.now).streams) }
    ensures faults { IfOk result (λ s. AreFaultLists (S.scene scene.now) s.faults) }
    ensures turns { IfOk result (λ s. CanTakeTurns s.syncs) }
{
    let mut rows = SyncRows::new(alloc);
    let mut faults = FaultLists::new(alloc);
    for client in 0..scene.client_count() {
        let (row, refused) = survey_client(alloc, scene, client)?;
        rows.push(row)?;
        faults.push(refused)?;
    }
    survey_of_clients(alloc, scene, rows, faults)
}

/// The accepted operations of synchronisation of a scene's whole streams, the barriers' counts and the semaphores' first units.
pub fn sync_lists(alloc: Global, scene: &Scene) -> Result<SyncLists, OutOfMemory>
    requires { IsWithin scene.now }
    ensures lists { IfOk result (λ s. s ≡ sync_lists_of scene.now) }
    ensures turns { IfOk result CanTakeTurns }
{
    let Survey { syncs, .. } = survey(alloc, scene)?;
    Ok(syncs)
}
