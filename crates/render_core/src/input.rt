//! The scene that an input spells, and what it means.
ghost use Rattle.std.specs.Prelude.{◌≡◌, ◌≤◌, [], length, IfOk, IfErr, None};
ghost use Rattle.rc_base.specs.Formats.Limits.{limit_of, read_limit};
ghost use Rattle.rc_base.specs.Formats.Spelling.{SpellsScene};
ghost use Rattle.scene_text.specs.Text.Read.{SpellsText};
ghost use Rattle.rc_base.specs.Outside.Transfer.{byte_limit};
ghost use Rattle.scene_file.specs.Letters.{BeginWithLists};
ghost use Rattle.render_core.specs.Refusals.{IsExpanded, IsPast, IsRead, IsRefusedInput};
ghost use Rattle.render_core.specs.Stored.{meaning_in};
ghost use Rattle.run_words.specs.Asked.{IsWellRead};
ghost use Rattle.run_words.specs.declared.refusal.InputRefusal.TheVariants.{OutOfMemory as NoMemory};
ghost use Rattle.run_words.specs.declared.job.Form.TheVariants.{Bytes as OfBytes, PlainBytes as OfPlainBytes, Text as OfText};

use crate::reader::{SceneReader, refusal_of};
use crate::whole::whole;
use crate::work::{Meaning, StoredMeaning};
use call_lists::laws::{costs_are_told, expansions_are_whole, expansions_stay_in_range};
use call_lists::{ExpandFault, Expansions, expand_all};
use command_store::StoredScene;
use rc_base::cluster::FaultLists;
use rc_base::command::Bytes;
use rc_base::out_of_memory::OutOfMemory;
use rc_base::scene::{Limit, Scene};
use run_words::job::Form;
use run_words::refusal::InputRefusal;
use scene_file::{ListScene, begins_with_lists, check_streams, read_list_scene};
use scene_text::{TextSceneFault, parse_scene};
use std::alloc::Global;

// The scene that the text spells.
fn scene_of_text(alloc: Global, input: &[u8]) -> Result<Scene, InputRefusal>
    requires { length input.now ≤ byte_limit }
    ensures read { IfOk result (λ scene. SpellsText input.now scene × (limit_of scene ≡ None)) }
    ensures well { IfOk result (IsWellRead OfText) }
    ensures refused { IfErr result (IsRefusedInput OfText input.now) }
{
    match parse_scene(alloc, input) {
        Ok(scene) => Ok(scene),
        Err(TextSceneFault::Text { line, kind }) => Err(InputRefusal::MalformedText { kind, line }),
        Err(TextSceneFault::Limit { what, value }) => {
            Err(InputRefusal::PastLimit(Limit { what, value }))
        }
        Err(TextSceneFault::OutOfMemory) => Err(InputRefusal::OutOfMemory),
    }
}

/// A scene without call lists means itself, and none of its commands is refused before it is issued.
pub(crate) fn stored_plain(alloc: Global, scene: StoredScene) -> StoredMeaning
    ensures scene { result.scene ≡ scene }
    ensures faults { result.faults ≡ [] }
{
    StoredMeaning {
        scene,
        faults: FaultLists::new(alloc),
    }
}

/// The same, with whole commands.
pub(crate) fn plain(alloc: Global, scene: Scene) -> Meaning
    ensures scene { result.scene ≡ scene }
    ensures faults { result.faults ≡ [] }
{
    Meaning {
        scene,
        faults: FaultLists::new(alloc),
    }
}

// What a scene with call lists means, or the first quantity of its expansion that is outside its range.
fn expanded(alloc: Global, scene: ListScene) -> Result<StoredMeaning, InputRefusal>
    requires { read_limit scene.decl scene.streams ≡ None }
    ensures means { IfOk result (λ x. IsExpanded scene (meaning_in x)) }
    ensures past { IfErr result (IsPast scene) }
{
    costs_are_told();
    expansions_are_whole();
    let ListScene { decl, streams } = scene;
    match expand_all(alloc, &streams) {
        Ok(
            Expansions {
                streams,
                count,
                faults,
                ..
            },
        ) => {
            let scene = StoredScene::new(decl, streams);
            match check_streams(&scene, count) {
                Ok(()) => Ok(StoredMeaning { scene, faults }),
                Err(limit) => Err(InputRefusal::PastLimit(limit)),
            }
        }
        Err(ExpandFault::TooLong { spent }) => Err(InputRefusal::PastLimit(Limit {
            what: 20,
            value: spent,
        })),
        Err(ExpandFault::OutOfMemory) => Err(InputRefusal::OutOfMemory),
    }
}

/// What bytes mean that begin as those of a scene with call lists.
pub(crate) fn meaning_of_lists(alloc: Global, input: &[u8]) -> Result<StoredMeaning, InputRefusal>
    requires short { length input.now ≤ byte_limit }
    requires lists { BeginWithLists input.now }
    ensures read { IfOk result (λ x. IsRead OfBytes input.now (meaning_in x)) }
    ensures well { IfOk result (λ x. IsWellRead OfBytes x.scene) }
    ensures within { IfOk result (λ x. limit_of x.scene ≡ None) }
    ensures refused { IfErr result (IsRefusedInput OfBytes input.now) }
{
    expansions_stay_in_range();
    match read_list_scene(alloc, input) {
        Ok(scene) => expanded(alloc, scene),
        Err(fault) => Err(refusal_of(fault)),
    }
}

// The same meaning with whole commands.
fn whole_meaning(alloc: Global, meant: StoredMeaning) -> Result<Meaning, InputRefusal>
    ensures means { IfOk result (λ x. x ≡ meaning_in meant) }
    ensures short { IfErr result (λ refusal. refusal ≡ NoMemory) }
{
    match whole(alloc, meant.scene) {
        Ok(scene) => Ok(Meaning {
            scene,
            faults: meant.faults,
        }),
        Err(OutOfMemory) => Err(InputRefusal::OutOfMemory),
    }
}

// What the bytes of a scene mean, with call lists or without.
fn meaning_of_bytes<B: SceneReader>(
    reader: &B,
    alloc: Global,
    input: &[u8],
) -> Result<Meaning, InputRefusal>
    requires { length input.now ≤ byte_limit }
    ensures read { IfOk result (IsRead OfBytes input.now) }
    ensures well { IfOk result (λ x. IsWellRead OfBytes x.scene) }
    ensures within { IfOk result (λ x. limit_of x.scene ≡ None) }
    ensures refused { IfErr result (IsRefusedInput OfBytes input.now) }
{
    if begins_with_lists(input) {
        return match meaning_of_lists(alloc, input) {
            Ok(meant) => whole_meaning(alloc, meant),
            Err(refusal) => Err(refusal),
        };
    }
    match reader.scene_of_bytes(alloc, input) {
        Ok(scene) => Ok(plain(alloc, scene)),
        Err(refusal) => Err(refusal),
    }
}

/// What the input means that spells a scene in this form. The input is let go once the scene stands.
pub(crate) fn meaning_of<B: SceneReader>(
    reader: &B,
    alloc: Global,
    form: Form,
    input: Bytes,
) -> Result<Meaning, InputRefusal>
    requires { length input ≤ byte_limit }
    ensures read { IfOk result (IsRead form input) }
    ensures well { IfOk result (λ x. IsWellRead form x.scene) }
    ensures within { IfOk result (λ x. limit_of x.scene ≡ None) }
    ensures refused { IfErr result (IsRefusedInput form input) }
{
    match form {
        Form::Bytes => meaning_of_bytes(reader, alloc, input.as_slice()),
        Form::PlainBytes => Ok(plain(alloc, reader.scene_of_bytes(alloc, input.as_slice())?)),
        Form::Text => Ok(plain(alloc, scene_of_text(alloc, input.as_slice())?)),
    }
}
