//! Who reads the bytes of a scene without call lists: the caller's thread, or threads side by side.
ghost use Rattle.std.specs.Prelude.{◌≡◌, ◌≤◌, length, IfOk, IfErr, None};
ghost use Rattle.rc_base.specs.Formats.Limits.{limit_of};
ghost use Rattle.rc_base.specs.Formats.Spelling.{SpellsScene};
ghost use Rattle.rc_base.specs.Outside.Transfer.{byte_limit};
ghost use Rattle.run_words.specs.Asked.{IsWellRead};
ghost use Rattle.render_core.specs.Refusals.{BeginPlain, IsRefusedBytes, IsRefusedInput, refusal_of_scene};
ghost use Rattle.run_words.specs.declared.job.Form.TheVariants.{PlainBytes as OfPlainBytes};

use command_store::StoredScene;
use rc_base::scene::{Limit, Scene};
use run_words::refusal::InputRefusal;
use scene_file::{
    SceneFault, read_scene, read_scene_beside, read_stored_scene, read_stored_scene_beside,
};
use std::alloc::Global;
use std::thread::Threads;

/// Why bytes spell no scene within the limits.
pub(crate) fn refusal_of(fault: SceneFault) -> InputRefusal
    ensures { result ≡ refusal_of_scene fault }
{
    match fault {
        SceneFault::Malformed { kind, at } => InputRefusal::MalformedScene { kind, at },
        SceneFault::Limit { what, value } => InputRefusal::PastLimit(Limit { what, value }),
        SceneFault::OutOfMemory => InputRefusal::OutOfMemory,
    }
}

/// Reads scenes without call lists.
pub(crate) trait SceneReader {
    /// The scene without call lists that the bytes spell.
    fn scene_of_bytes(&self, alloc: Global, input: &[u8]) -> Result<Scene, InputRefusal>
        requires { length input.now ≤ byte_limit }
        ensures read { IfOk result (λ scene. SpellsScene input.now scene × (limit_of scene ≡ None)) }
        ensures well { IfOk result (IsWellRead OfPlainBytes) }
        ensures refused { IfErr result (IsRefusedInput OfPlainBytes input.now) }
        ensures refused_bytes { BeginPlain input.now → IfErr result (IsRefusedBytes input.now) };

    /// The same, stored in little room.
    fn stored_of_bytes(&self, alloc: Global, input: &[u8]) -> Result<StoredScene, InputRefusal>
        requires { length input.now ≤ byte_limit }
        ensures read { IfOk result (λ scene. SpellsScene input.now scene × (limit_of scene ≡ None)) }
        ensures well { IfOk result (IsWellRead OfPlainBytes) }
        ensures refused_bytes { BeginPlain input.now → IfErr result (IsRefusedBytes input.now) };
}

/// The caller's thread.
#[derive(Drop)]
pub(crate) struct Alone;

/// Threads, one for each client.
#[derive(Drop)]
pub(crate) struct Beside<'a, R>(pub(crate) &'a R);

fn scene_alone(alloc: Global, input: &[u8]) -> Result<Scene, InputRefusal>
    requires { length input.now ≤ byte_limit }
    ensures read { IfOk result (λ scene. SpellsScene input.now scene × (limit_of scene ≡ None)) }
    ensures well { IfOk result (IsWellRead OfPlainBytes) }
    ensures refused { IfErr result (IsRefusedInput OfPlainBytes input.now) }
    ensures refused_bytes { BeginPlain input.now → IfErr result (IsRefusedBytes input.now) }
{
    match read_scene(alloc, input) {
        Ok(scene) => Ok(scene),
        Err(fault) => Err(refusal_of(fault)),
    }
}

fn stored_alone(alloc: Global, input: &[u8]) -> Result<StoredScene, InputRefusal>
    requires { length input.now ≤ byte_limit }
    ensures read { IfOk result (λ scene. SpellsScene input.now scene × (limit_of scene ≡ None)) }
    ensures well { IfOk result (IsWellRead OfPlainBytes) }
    ensures refused_bytes { BeginPlain input.now → IfErr result (IsRefusedBytes input.now) }
{
    match read_stored_scene(alloc, input) {
        Ok(scene) => Ok(scene),
        Err(fault) => Err(refusal_of(fault)),
    }
}

fn scene_beside<R: Threads>(rt: &R, alloc: Global, input: &[u8]) -> Result<Scene, InputRefusal>
    requires { length input.now ≤ byte_limit }
    ensures read { IfOk result (λ scene. SpellsScene input.now scene × (limit_of scene ≡ None)) }
    ensures well { IfOk result (IsWellRead OfPlainBytes) }
    ensures refused { IfErr result (IsRefusedInput OfPlainBytes input.now) }
    ensures refused_bytes { BeginPlain input.now → IfErr result (IsRefusedBytes input.now) }
{
    match read_scene_beside(rt, alloc, input) {
        Ok(scene) => Ok(scene),
        Err(fault) => Err(refusal_of(fault)),
    }
}

fn stored_beside<R: Threads>(
    rt: &R,
    alloc: Global,
    input: &[u8],
) -> Result<StoredScene, InputRefusal>
    requires { length input.now ≤ byte_limit }
    ensures read { IfOk result (λ scene. SpellsScene input.now scene × (limit_of scene ≡ None)) }
    ensures well { IfOk result (IsWellRead OfPlainBytes) }
    ensures refused_bytes { BeginPlain input.now → IfErr result (IsRefusedBytes input.now) }
{
    match read_stored_scene_beside(rt, alloc, input) {
        Ok(scene) => Ok(scene),
        Err(fault) => Err(refusal_of(fault)),
    }
}

impl SceneReader for Alone {
    fn scene_of_bytes(&self, alloc: Global, input: &[u8]) -> Result<Scene, InputRefusal> {
        scene_alone(alloc, input)
    }

    fn stored_of_bytes(&self, alloc: Global, input: &[u8]) -> Result<StoredScene, InputRefusal> {
        stored_alone(alloc, input)
    }
}

impl<'a, R: Threads> SceneReader for Beside<'a, R> {
    fn scene_of_bytes(&self, alloc: Global, input: &[u8]) -> Result<Scene, InputRefusal> {
        scene_beside(self.0, alloc, input)
    }

    fn stored_of_bytes(&self, alloc: Global, input: &[u8]) -> Result<StoredScene, InputRefusal> {
        stored_beside(self.0, alloc, input)
    }
}
