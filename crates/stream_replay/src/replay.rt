//! Commands of a scene, issued by client and place.
ghost use Rattle.std.specs.Prelude.{◌≡◌, ◌+◌, ◌<◌, ◌≤◌, length, false, Some, IsTrue, IsFalse, IfOk, OnOk, OnErr};
ghost use Rattle.std.specs.Option.{option_map_or};
ghost use Rattle.rc_base.specs.Formats.Within.{IsWithin};
ghost use Rattle.rc_base.specs.Contexts.Issue.{stream_of, command_at, context_after, effect_at};
ghost use Rattle.gl_context.specs.Counted.{kind_of};
ghost use Rattle.gl_context.specs.declared.counting.EffectKind.TheVariants as kind;
ghost use Rattle.rc_base.specs.declared.command.Command.TheVariants as cmd;
ghost use Rattle.stream_replay.specs.Blocks.{IsIssuedInBlock, is_of_block_at, was_issued};
ghost use Rattle.stream_replay.specs.Clients.{AreCommandsOf, IsNextCommand};
ghost use Rattle.stream_replay.specs.Counts.{counted_after, is_counted};
ghost use Rattle.stream_replay.specs.Runs.{IsBehindRun, is_gathered_at};

use crate::in_block::InBlock;
use crate::scene_store::SceneStore;
use command_store::CommandForm;
use gl_context::{Context, CountingContext, EffectKind};
use rc_base::command::Command;
use rc_base::out_of_memory::OutOfMemory;
use rc_base::state::Effect;

/// Issues the command of a client at a place, where its commands before it were issued.
#[inline(always)]
pub fn issue_at<S: SceneStore>(
    context: &mut Context,
    scene: &S,
    client: usize,
    place: usize,
) -> Result<Effect, OutOfMemory>
    requires within { IsWithin (S.scene scene.now) }
    requires inside { place < length (stream_of (S.scene scene.now) client) }
    requires before { context.old ≡ context_after (S.scene scene.now) client place }
    ensures context { OnOk result
        (context.new ≡ context_after (S.scene scene.now) client (place + 1)) }
    ensures effect { IfOk result (λ e. e ≡ effect_at (S.scene scene.now) client place) }
    ensures err { OnErr result (context.new ≡ context.old) }
{
    let stored = scene.command_at(client, place);
    let command: &Command = &stored;
    context.issue(place as u32, command)
}

// A Begin, issued where it breaks no rule.
#[inline(always)]
fn begun<S: SceneStore>(
    context: &mut Context,
    scene: &S,
    client: usize,
    place: usize,
    mode: u8,
) -> InBlock
    requires at { command_at (S.scene scene.now) client place ≡ Some (cmd.Begin mode) }
    requires before { context.old ≡ context_after (S.scene scene.now) client place }
    ensures issued { IsIssuedInBlock (S.scene scene.now) client place context.new result }
    ensures exact { was_issued result ≡ is_of_block_at (S.scene scene.now) client place }
{
    let _scene = scene;
    let _client = client;
    let _place = place;
    if context.begin(mode) {
        InBlock::Quiet
    } else {
        InBlock::Left
    }
}

// An End, issued where a block is open.
#[inline(always)]
fn ended<S: SceneStore>(context: &mut Context, scene: &S, client: usize, place: usize) -> InBlock
    requires at { command_at (S.scene scene.now) client place ≡ Some cmd.End }
    requires before { context.old ≡ context_after (S.scene scene.now) client place }
    ensures issued { IsIssuedInBlock (S.scene scene.now) client place context.new result }
    ensures exact { was_issued result ≡ is_of_block_at (S.scene scene.now) client place }
{
    let _scene = scene;
    let _client = client;
    let _place = place;
    match context.end() {
        Some(block) => InBlock::Draws(block),
        None => InBlock::Left,
    }
}

/// The same of a command of a block: a Vertex, a Color, a TexCoord, and a Begin or an End that breaks no rule, which leave the state as it is. Another
/// command is left alone.
#[inline(always)]
pub(crate) fn issue_in_block_at<S: SceneStore>(
    context: &mut Context,
    scene: &S,
    client: usize,
    place: usize,
) -> Result<InBlock, OutOfMemory>
    requires { IsNextCommand (S.scene scene.now) client place context.old }
    ensures issued { IfOk result (IsIssuedInBlock (S.scene scene.now) client place context.new) }
    ensures exact { IfOk result
        (λ r. was_issued r ≡ is_of_block_at (S.scene scene.now) client place) }
{
    match scene.form_at(client, place) {
        CommandForm::Vertex(pos) => {
            context.vertex(place as u32, *pos)?;
            Ok(InBlock::Quiet)
        }
        CommandForm::Color(color) => {
            context.color(*color);
            Ok(InBlock::Quiet)
        }
        CommandForm::TexCoord { s, t } => {
            context.tex_coord(*s, *t);
            Ok(InBlock::Quiet)
        }
        CommandForm::Begin(mode) => Ok(begun(context, scene, client, place, *mode)),
        CommandForm::End => Ok(ended(context, scene, client, place)),
        CommandForm::Other(_) => Ok(InBlock::Left),
    }
}

// Issues the command of a client at a place, where it is a Vertex, a Color, a TexCoord or a Begin that breaks no rule. Whether it was issued; another command
// is left alone.
#[inline(always)]
fn gather_one<S: SceneStore>(
    context: &mut Context,
    scene: &S,
    client: usize,
    place: usize,
) -> Result<bool, OutOfMemory>
    requires { IsNextCommand (S.scene scene.now) client place context.old }
    ensures issued { IfOk result
        (λ r. IsTrue r → context.new ≡ context_after (S.scene scene.now) client (place + 1)) }
    ensures left { IfOk result (λ r. IsFalse r → context.new ≡ context.old) }
    ensures exact { IfOk result (λ r. r ≡ is_gathered_at (S.scene scene.now) client place) }
{
    match scene.form_at(client, place) {
        CommandForm::Vertex(pos) => {
            context.vertex(place as u32, *pos)?;
            Ok(true)
        }
        CommandForm::Color(color) => {
            context.color(*color);
            Ok(true)
        }
        CommandForm::TexCoord { s, t } => {
            context.tex_coord(*s, *t);
            Ok(true)
        }
        CommandForm::Begin(mode) => Ok(context.begin(*mode)),
        CommandForm::End => Ok(false),
        CommandForm::Other(_) => Ok(false),
    }
}

/// Issues a client's commands from a place on, below another one, up to the first that is no Vertex, no Color, no TexCoord and no Begin that breaks no
/// rule: so none of them does anything beyond its context. The place of that first one is given, or the end.
#[inline(always)]
pub(crate) fn gather_at<S: SceneStore>(
    context: &mut Context,
    scene: &S,
    client: usize,
    from: usize,
    to: usize,
) -> Result<usize, OutOfMemory>
    requires commands { AreCommandsOf (S.scene scene.now) client from to }
    requires before { context.old ≡ context_after (S.scene scene.now) client from }
    ensures { IfOk result (IsBehindRun (S.scene scene.now) client from to context.new) }
{
    for place in from..to {
        let gathered = gather_one(context, scene, client, place)?;
        if !gathered {
            return Ok(place);
        }
    }
    Ok(to)
}

/// Issues the command of a client at a place in a context whose open block is only counted: it gives the kind of the command's effect.
#[inline(always)]
pub fn count_at<S: SceneStore>(
    counting: &mut CountingContext,
    scene: &S,
    client: usize,
    place: usize,
) -> Result<EffectKind, OutOfMemory>
    requires within { IsWithin (S.scene scene.now) }
    requires inside { place < length (stream_of (S.scene scene.now) client) }
    requires before { counting.old ≡ counted_after (S.scene scene.now) client place }
    ensures context { OnOk result
        (counting.new ≡ counted_after (S.scene scene.now) client (place + 1)) }
    ensures kind { IfOk result (λ k. k ≡ kind_of (effect_at (S.scene scene.now) client place)) }
    ensures err { OnErr result (counting.new ≡ counting.old) }
{
    let stored = scene.command_at(client, place);
    let command: &Command = &stored;
    counting.issue(place as u32, command)
}

/// The same of a Vertex, a Color or a TexCoord of an open block, or a Begin outside one, which breaks no rule. Whether it was issued; another command is
/// left alone.
#[inline(always)]
pub fn count_quiet_at<S: SceneStore>(
    counting: &mut CountingContext,
    scene: &S,
    client: usize,
    place: usize,
) -> bool
    requires inside { place < length (stream_of (S.scene scene.now) client) }
    requires before { counting.old ≡ counted_after (S.scene scene.now) client place }
    ensures context { IsTrue result
        → counting.new ≡ counted_after (S.scene scene.now) client (place + 1) }
    ensures kind { IsTrue result
        → kind.Quiet ≡ kind_of (effect_at (S.scene scene.now) client place) }
    ensures left { IsFalse result → counting.new ≡ counting.old }
    ensures exact { result ≡ option_map_or
        (is_counted counting.old) (command_at (S.scene scene.now) client place) false }
{
    match scene.form_at(client, place) {
        CommandForm::Vertex(pos) => counting.count_quiet(&Command::Vertex { pos: *pos }),
        CommandForm::Color(color) => counting.count_quiet(&Command::Color(*color)),
        CommandForm::TexCoord { s, t } => {
            counting.count_quiet(&Command::TexCoord { s: *s, t: *t })
        }
        CommandForm::Begin(mode) => counting.count_begin(&Command::Begin { mode: *mode }),
        _ => false,
    }
}
