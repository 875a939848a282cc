//! One client's stream, surveyed command by command.
ghost use Rattle.std.specs.Prelude.{◌≡◌, ℕ, ◌+◌, ◌<◌, ◌++◌, length, IfOk, OnOk};
ghost use Rattle.rc_base.specs.Formats.Within.{IsWithin};
ghost use Rattle.rc_base.specs.Contexts.Issue.{stream_of, effect_at, faults_of};
ghost use Rattle.rc_base.specs.Orders.Sync.{sync_row_of};
ghost use Rattle.gl_context.specs.Counted.{kind_of};
ghost use Rattle.serial_render.specs.Surveyed.{survey_after, waits_at};

use gl_context::{CountingContext, EffectKind};
use rc_base::cluster::FaultList;
use rc_base::out_of_memory::OutOfMemory;
use rc_base::sync::{SyncOps, SyncRow, WaitAt};
use std::alloc::Global;
use stream_replay::{SceneStore, count_at, count_quiet_at};

/// What one issue of each of a client's first commands tells.
#[derive(Drop)]
pub struct ClientSurvey {
    /// The context behind them, an open block of which is only counted. It has the refused commands.
    pub context: CountingContext,
    /// The accepted operations of synchronisation.
    pub ops: SyncOps,
}

// Adds the operation of synchronisation that a command is.
#[inline(always)]
fn add_operation(ops: &mut SyncOps, place: u32, kind: EffectKind) -> Result<(), OutOfMemory>
    ensures { OnOk result (ops.new ≡ ops.old ++ waits_at place kind) }
{
    if let EffectKind::Sync(op) = kind {
        ops.push(WaitAt { place, op })?;
    }
    Ok(())
}

impl ClientSurvey {
    /// Of a client before its first command.
    pub fn new<S: SceneStore>(alloc: Global, scene: &S) -> Result<ClientSurvey, OutOfMemory>
        ensures { IfOk result (λ s. (client : ℕ) → s ≡ survey_after (S.scene scene.now) client 0) }
    {
        Ok(ClientSurvey {
            context: CountingContext::new(alloc, scene.decl())?,
            ops: SyncOps::new(alloc),
        })
    }

    /// Issues the client's next command, and gives the kind of its effect. Where memory is wanting, the context may have the command whose operation
    /// is missing.
    #[inline(always)]
    pub fn issue<S: SceneStore>(
        &mut self,
        scene: &S,
        client: usize,
        place: usize,
    ) -> Result<EffectKind, OutOfMemory>
        requires within { IsWithin (S.scene scene.now) }
        requires inside { place < length (stream_of (S.scene scene.now) client) }
        requires before { self.old ≡ survey_after (S.scene scene.now) client place }
        ensures after { OnOk result
            (self.new ≡ survey_after (S.scene scene.now) client (place + 1)) }
        ensures kind { IfOk result (λ k. k ≡ kind_of (effect_at (S.scene scene.now) client place)) }
    {
        if count_quiet_at(&mut self.context, scene, client, place) {
            return Ok(EffectKind::Quiet);
        }
        let kind = count_at(&mut self.context, scene, client, place)?;
        add_operation(&mut self.ops, place as u32, kind)?;
        Ok(kind)
    }

    /// The client's operations of synchronisation and its refused commands, where all of its commands were issued.
    pub fn finish<S: SceneStore>(self, scene: &S, client: usize) -> (SyncRow, FaultList)
        requires within { IsWithin (S.scene scene.now) }
        requires client { client < length (S.scene scene.now).streams }
        requires whole { self ≡ survey_after (S.scene scene.now) client
            (length (stream_of (S.scene scene.now) client)) }
        ensures row { result.0 ≡ sync_row_of (S.scene scene.now) client }
        ensures faults { result.1 ≡ faults_of (S.scene scene.now) client }
    {
        let length = scene.stream_length(client);
        let row = SyncRow {
            ops: self.ops,
            length: length as u32,
        };
        (row, self.context.into_faults())
    }
}
