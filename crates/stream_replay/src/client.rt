//! What is kept of a client while an order is carried out.
ghost use Rattle.std.specs.Prelude.{◌≡◌, ℕ, ◌+◌, ◌<◌, length, slice_get, slice_set, Some, IfOk, OnOk, OnErr};
ghost use Rattle.rc_base.specs.Contexts.Issue.{effect_at};
ghost use Rattle.rc_base.specs.Drawing.Serial.{is_swap_effect};
ghost use Rattle.stream_replay.specs.Blocks.{ClientIsBehind, ClientsAreBehind, is_of_block_at, was_issued};
ghost use Rattle.stream_replay.specs.Clients.{AreCommandsOf, IsNextName, IsNextOfClient, client_after, first_clients, issued_by};
ghost use Rattle.stream_replay.specs.Runs.{IsGatheredRun};

use crate::in_block::InBlock;
use crate::replay::{gather_at, issue_at, issue_in_block_at};
use crate::scene_store::SceneStore;
use gl_context::Context;
use rc_base::out_of_memory::OutOfMemory;
use rc_base::state::Effect;
use rc_base::sync::{Name, SyncOp};
use std::alloc::Global;

/// A client's context, and how many of its Swaps were accepted.
#[derive(Drop)]
pub struct Client {
    /// The context behind the client's commands so far.
    pub context: Context,
    /// How many Swaps among them were accepted.
    pub swaps: usize,
}

fn is_swap(effect: &Effect) -> bool
    ensures { result ≡ is_swap_effect effect.now }
{
    matches!(effect, Effect::Sync(SyncOp::Swap))
}

impl Client {
    /// A client before its first command.
    fn new<S: SceneStore>(alloc: Global, scene: &S) -> Result<Client, OutOfMemory>
        ensures { IfOk result (λ x. (client : ℕ) → x ≡ client_after (S.scene scene.now) client 0) }
    {
        Ok(Client {
            context: Context::new(alloc, scene.decl())?,
            swaps: 0,
        })
    }

    /// Issues the client's next command.
    #[inline(always)]
    fn issue<S: SceneStore>(
        &mut self,
        scene: &S,
        client: usize,
        place: usize,
    ) -> Result<Effect, OutOfMemory>
        requires { IsNextOfClient (S.scene scene.now) client place self.old }
        ensures client { OnOk result
            (self.new ≡ client_after (S.scene scene.now) client (place + 1)) }
        ensures effect { IfOk result (λ e. e ≡ effect_at (S.scene scene.now) client place) }
        ensures err { OnErr result (self.new ≡ self.old) }
    {
        let effect = issue_at(&mut self.context, scene, client, place)?;
        self.swaps += usize::from(is_swap(&effect));
        Ok(effect)
    }

    /// Issues the client's next command, where it is one of a block.
    #[inline(always)]
    fn issue_in_block<S: SceneStore>(
        &mut self,
        scene: &S,
        client: usize,
        place: usize,
    ) -> Result<InBlock, OutOfMemory>
        requires { IsNextOfClient (S.scene scene.now) client place self.old }
        ensures issued { IfOk result
            (ClientIsBehind (S.scene scene.now) client place self.old self.new) }
        ensures exact { IfOk result
            (λ r. was_issued r ≡ is_of_block_at (S.scene scene.now) client place) }
    {
        issue_in_block_at(&mut self.context, scene, client, place)
    }

    /// Issues the client's next commands below a place, up to the first that is not gathered, whose place is given, or the end.
    #[inline(always)]
    fn gather<S: SceneStore>(
        &mut self,
        scene: &S,
        client: usize,
        from: usize,
        to: usize,
    ) -> Result<usize, OutOfMemory>
        requires commands { AreCommandsOf (S.scene scene.now) client from to }
        requires before { self.old ≡ client_after (S.scene scene.now) client from }
        ensures client { IfOk result
            (λ place. self.new ≡ client_after (S.scene scene.now) client place) }
        ensures run { IfOk result (IsGatheredRun (S.scene scene.now) client from to) }
    {
        gather_at(&mut self.context, scene, client, from, to)
    }

    #[inline(always)]
    fn take_back(&mut self, effect: Effect)
        ensures { self.new ≡ self.old }
    {
        self.context.take_back(effect);
    }
}

/// The clients of a scene before their first commands.
pub fn clients_of<S: SceneStore>(alloc: Global, scene: &S) -> Result<Vec<Client>, OutOfMemory>
    ensures { IfOk result (λ v. v.items ≡ first_clients (S.scene scene.now)) }
{
    let mut clients = Vec::new(alloc);
    for _ in 0..scene.client_count() {
        clients.push(Client::new(alloc, scene)?)?;
    }
    Ok(clients)
}

/// Issues the command of a name, the next one of its client.
#[inline(always)]
pub fn issue_name<S: SceneStore>(
    clients: &mut Vec<Client>,
    scene: &S,
    name: Name,
) -> Result<Effect, OutOfMemory>
    requires { IsNextName (S.scene scene.now) clients.old.items name }
    ensures clients { OnOk result
        (clients.new.items ≡ issued_by (S.scene scene.now) clients.old.items name) }
    ensures effect { IfOk result (λ e. e ≡ effect_at (S.scene scene.now) name.client name.place) }
    ensures err { OnErr result (clients.new.items ≡ clients.old.items) }
{
    clients[usize::from(name.client)].issue(scene, usize::from(name.client), name.place as usize)
}

/// Issues the command of a name, the next one of its client, where it is one of a block: a Vertex, a Color, a TexCoord, and a Begin or an End that breaks
/// no rule, which leave the client's state as it is. Another command is left alone.
#[inline(always)]
pub fn issue_in_block<S: SceneStore>(
    clients: &mut Vec<Client>,
    scene: &S,
    name: Name,
) -> Result<InBlock, OutOfMemory>
    requires { IsNextName (S.scene scene.now) clients.old.items name }
    ensures issued { IfOk result
        (ClientsAreBehind (S.scene scene.now) name clients.old.items clients.new.items) }
    ensures exact { IfOk result
        (λ r. was_issued r ≡ is_of_block_at (S.scene scene.now) name.client name.place) }
{
    clients[usize::from(name.client)].issue_in_block(
        scene,
        usize::from(name.client),
        name.place as usize,
    )
}

/// Issues a client's commands from a place on, the next one of it, below another place, up to the first that is no Vertex, no Color, no TexCoord and no
/// Begin that breaks no rule: so none of them does anything beyond its context. The place of that first one is given, or the end.
#[inline(always)]
pub fn gather<S: SceneStore>(
    clients: &mut Vec<Client>,
    scene: &S,
    client: u8,
    from: usize,
    to: usize,
) -> Result<usize, OutOfMemory>
    requires commands { AreCommandsOf (S.scene scene.now) client from to }
    requires before { slice_get clients.old.items client
        ≡ Some (client_after (S.scene scene.now) client from) }
    ensures clients { IfOk result (λ place. clients.new.items
        ≡ slice_set clients.old.items client (client_after (S.scene scene.now) client place)) }
    ensures run { IfOk result (IsGatheredRun (S.scene scene.now) client from to) }
{
    clients[usize::from(client)].gather(scene, usize::from(client), from, to)
}

/// Gives a client back what one of its commands did and is done with, so that its next block has the room of this one.
#[inline(always)]
pub fn take_back(clients: &mut Vec<Client>, client: usize, effect: Effect)
    requires { client < length clients.old.items }
    ensures { clients.new.items ≡ clients.old.items }
{
    clients[client].take_back(effect);
}
