//! The clients' streams, surveyed beside each other, and the first command that keeps the scene from being drawn client by client.
ghost use Rattle.std.specs.Prelude.{◌≡◌, ◌<◌, ◌^◌, length, IfOk};
ghost use Rattle.rc_base.specs.Formats.Within.{IsWithin};
ghost use Rattle.rc_base.specs.Orders.Sync.{sync_lists_of};
ghost use Rattle.serial_render.specs.Surveyed.{AreFaultLists};
ghost use Rattle.serial_render.specs.Turns.{CanTakeTurns};
ghost use Rattle.sort_last.specs.Offends.{IsFirstOffenceIfAny};
ghost use Rattle.sort_last.specs.Runs.{name_or, IsSurveyedClient, AreSurveyedApart};

use crate::offence::{SurveyedClient, survey_client};
use command_store::StoredScene;
use rc_base::cluster::FaultLists;
use rc_base::out_of_memory::OutOfMemory;
use rc_base::sync::{Name, SyncRows};
use serial_render::{Survey, survey_of_clients};
use std::alloc::Global;
use std::thread;
use std::thread::Threads;

/// What one issue of each command of a scene tells of its streams, and whether its clients can be drawn apart.
#[derive(Drop)]
pub struct LastSurvey {
    /// The operations of synchronisation and the refused commands.
    pub survey: Survey,
    /// The first command that offends, clients rising, places rising.
    pub offence: Option<Name>,
}

// Each client's stream is surveyed in a thread of its own, where one can be made.
fn survey_apart(
    rt: &(impl Threads + Sync),
    alloc: Global,
    scene: &StoredScene,
) -> Result<Vec<Result<SurveyedClient, OutOfMemory>>, OutOfMemory>
    requires { IsWithin scene.now }
    ensures { IfOk result (λ v. AreSurveyedApart scene.now v.items) }
{
    let survey = |client: usize| -> Result<SurveyedClient, OutOfMemory>
        requires { IsWithin scene.now × (client < length scene.now.streams) }
        ensures { IfOk result (λ s. IsSurveyedClient scene.entry.now client s) }
    { survey_client(alloc, scene, client) };
    Ok(thread::map_indices(rt, alloc, scene.streams().len(), &survey)?)
}

// The name that was found, or else that of the client's first command that offends.
fn name_or(found: Option<Name>, client: usize, first: Option<u32>) -> Option<Name>
    requires { client < 2 ^ 8 }
    ensures { result ≡ name_or found client first }
{
    match (found, first) {
        (None, Some(place)) => Some(Name {
            client: client as u8,
            place,
        }),
        _ => found,
    }
}

// Puts together what was found of each client. Where memory lacked for one of them, it lacks here.
fn gathered(
    alloc: Global,
    scene: &StoredScene,
    found: Vec<Result<SurveyedClient, OutOfMemory>>,
) -> Result<LastSurvey, OutOfMemory>
    requires within { IsWithin scene.now }
    requires found { AreSurveyedApart scene.now found.items }
    ensures syncs { IfOk result (λ s. s.survey.syncs ≡ sync_lists_of scene.now) }
    ensures clients { IfOk result (λ s. length s.survey.faults ≡ length scene.now.streams) }
    ensures faults { IfOk result (λ s. AreFaultLists scene.now s.survey.faults) }
    ensures turns { IfOk result (λ s. CanTakeTurns s.survey.syncs) }
    ensures offence { IfOk result (λ s. IsFirstOffenceIfAny scene.now s.offence) }
{
    let mut rows = SyncRows::new(alloc);
    let mut faults = FaultLists::new(alloc);
    let mut offence = None;
    for one in found {
        let client = one?;
        offence = name_or(offence, rows.len(), client.first);
        rows.push(client.row)?;
        faults.push(client.faults)?;
    }
    let survey = survey_of_clients(alloc, scene, rows, faults)?;
    Ok(LastSurvey { survey, offence })
}

/// Surveys each client's whole stream, in threads beside each other, and finds the first command that keeps the clients from being drawn apart. Each
/// command is issued once.
pub fn survey_last(
    rt: &(impl Threads + Sync),
    alloc: Global,
    scene: &StoredScene,
) -> Result<LastSurvey, OutOfMemory>
    requires { IsWithin scene.now }
    ensures syncs { IfOk result (λ s. s.survey.syncs ≡ sync_lists_of scene.now) }
    ensures clients { IfOk result (λ s. length s.survey.faults ≡ length scene.now.streams) }
    ensures faults { IfOk result (λ s. AreFaultLists scene.now s.survey.faults) }
    ensures turns { IfOk result (λ s. CanTakeTurns s.survey.syncs) }
    ensures offence { IfOk result (λ s. IsFirstOffenceIfAny scene.now s.offence) }
{
    gathered(alloc, scene, survey_apart(rt, alloc, scene)?)
}
