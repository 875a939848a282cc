//! One client's stream, surveyed, and its first command that keeps the scene from being drawn client by client.
ghost use Rattle.std.specs.Prelude.{◌≡◌, ◌<◌, length, IfOk};
ghost use Rattle.rc_base.specs.Formats.Within.{IsWithin};
ghost use Rattle.rc_base.specs.Contexts.Issue.{stream_of};
ghost use Rattle.sort_last.specs.Offends.{keeps_nearest};
ghost use Rattle.sort_last.specs.Runs.{kind_offends, kind_drawn, place_or, IsSurveyedClient};

use command_store::StoredScene;
use gl_context::EffectKind;
use rc_base::cluster::FaultList;
use rc_base::out_of_memory::OutOfMemory;
use rc_base::state::State;
use rc_base::sync::{SyncOp, SyncRow};
use serial_render::ClientSurvey;
use std::alloc::Global;
use stream_replay::SceneStore;

// Of the fragments that are drawn at a pixel in this state the nearest stays whole, and of equally near ones the first.
#[tactic(auto, unfolding(crate::specs::Offends::keeps_nearest))]
fn keeps_nearest(state: &State) -> bool
    ensures { result ≡ keeps_nearest state.now }
{
    let [red, green, blue, opacity] = state.color_mask;
    (state.depth_on && state.depth_mask)
        && (state.depth_func == 1 && (!state.blend_on && ((red && green) && (blue && opacity))))
}

fn is_offence(kind: EffectKind, keeps: bool, client: usize, drawn: bool) -> bool
    ensures { result ≡ kind_offends keeps client drawn kind }
{
    match kind {
        EffectKind::Quiet | EffectKind::Refused => false,
        EffectKind::Block => !keeps,
        EffectKind::Clear => client != 0 || drawn,
        EffectKind::Shared => true,
        EffectKind::Sync(op) => !matches!(op, SyncOp::Swap),
    }
}

fn drawn_after(kind: EffectKind, drawn: bool) -> bool
    ensures { result ≡ kind_drawn kind drawn }
{
    match kind {
        EffectKind::Block => true,
        EffectKind::Sync(op) => !matches!(op, SyncOp::Swap) && drawn,
        _ => drawn,
    }
}

// The place that was found, or else this one, where its command offends.
fn place_or(found: Option<u32>, place: u32, offends: bool) -> Option<u32>
    ensures { result ≡ place_or found place offends }
{
    match found {
        Some(_) => found,
        None => { if offends { Some(place) } else { None } }
    }
}

/// What one issue of each command of a client tells.
#[derive(Drop)]
pub(crate) struct SurveyedClient {
    /// Its accepted operations of synchronisation.
    pub row: SyncRow,
    /// Its refused commands.
    pub faults: FaultList,
    /// The place of its first command that offends.
    pub first: Option<u32>,
}

/// Surveys a client's stream: each command is issued once, and judged by the state before it.
pub(crate) fn survey_client(
    alloc: Global,
    scene: &StoredScene,
    client: usize,
) -> Result<SurveyedClient, OutOfMemory>
    requires within { IsWithin scene.now }
    requires client { client < length scene.now.streams }
    ensures { IfOk result (λ s. IsSurveyedClient scene.now client s) }
{
    let mut survey = ClientSurvey::new(alloc, scene)?;
    let mut drawn = false;
    let mut first = None;
    let length = scene.stream_length(client);
    for place in 0..length {
        let keeps = keeps_nearest(survey.context.outside.state());
        let kind = survey.issue(scene, client, place)?;
        first = place_or(first, place as u32, is_offence(kind, keeps, client, drawn));
        drawn = drawn_after(kind, drawn);
    }
    let (row, faults) = survey.finish(scene, client);
    Ok(SurveyedClient { row, faults, first })
}
