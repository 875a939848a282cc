//! Bytes and texts that are read.
ghost use Rattle.std.specs.Prelude.{◌≡◌, ◌≢◌, ℕ, ◌++◌, ◌∷◌, [], ◌<◌, ◌^◌, ◌⊎◌, List, Err, IfOk, IsErr, length, sum_by};
ghost use Rattle.rc_base.specs.Formats.Spelling.{half, SpellsScene};
ghost use Rattle.rc_base.specs.declared.command.Command.{Command as AnyCommand};
ghost use Rattle.rc_base.specs.declared.scene.Scene.{Scene as AnyScene};
ghost use Rattle.rc_base.specs.declared.scene.SceneKind.TheVariants.{Trailing};
ghost use Rattle.rc_base.specs.declared.scene.TextKind.TheVariants.{UnknownWord};
ghost use Rattle.rc_base.specs.declared.state.Parcel.{Parcel as AnyParcel};
ghost use Rattle.parcel_bytes.specs.Spelling.{SpellsParcel};
ghost use Rattle.scene_file.specs.Faults.{SpellsListScene};
ghost use Rattle.scene_file.specs.declared.list_scene.ListScene.{ListScene as AnyListScene};
ghost use Rattle.uses.specs.Formats.{recorded_anew, BeginsNoImage};

use call_lists::{ExpandFault, Expansion, expand};
use packet_bytes::laws::{faults_are_one, faults_spell_nothing};
use packet_bytes::{PackFault, decode};
use parcel_bytes::laws::{faults_spell_no_parcel, parcel_faults_are_one};
use parcel_bytes::{ParcelFault, decode_parcel};
use ppm_out::{PpmFault, read_ppm};
use rc_base::command::Commands;
use rc_base::image::Image;
use rc_base::list_command::ListCommands;
use rc_base::scene::Scene;
use rc_base::state::Parcel;
use scene_file::laws::{bytes_spell_one_list_scene, bytes_spell_one_scene};
use scene_file::{ListScene, SceneFault, read_list_scene, read_scene, read_scene_beside};
use scene_text::{TextSceneFault, parse_scene};
use std::alloc::Global;
use std::thread::Threads;

/// The commands of a stream. One that begins with a packet of no commands is refused there, whatever follows.
pub fn commands_of(alloc: Global, bytes: &[u8]) -> Result<Commands, PackFault>
    ensures { (rest : List ℕ) → bytes.now ≡ half 0 ++ rest
        → (result ≡ Err (PackFault.BadCount 0)) ⊎ (result ≡ Err PackFault.OutOfMemory) }
{
    faults_are_one();
    faults_spell_nothing();
    decode(alloc, bytes)
}

/// A parcel from its bytes. Where more bytes stand behind those of a parcel, it is refused at the first of them.
pub fn parcel_of(alloc: Global, bytes: &[u8]) -> Result<Parcel, ParcelFault>
    ensures { (front rest : List ℕ) (p : AnyParcel) → bytes.now ≡ front ++ rest → 0 < length rest
        → SpellsParcel front p
        → (result ≡ Err (ParcelFault.Trailing (length front)))
        ⊎ (result ≡ Err ParcelFault.OutOfMemory) }
{
    faults_spell_no_parcel();
    parcel_faults_are_one();
    decode_parcel(alloc, bytes)
}

/// The image at the front of some bytes, and how many bytes it takes. Where none stands there, memory isn't wanting.
pub fn image_of(alloc: Global, bytes: &[u8]) -> Result<(Image, usize), PpmFault>
    ensures { BeginsNoImage bytes.now → result ≢ Err PpmFault.OutOfMemory }
{
    read_ppm(alloc, bytes)
}

/// The scene of a text whose one line is a word that no line begins with: its fault is the word, and not that no words follow it.
pub fn unknown_word(alloc: Global) -> Result<Scene, TextSceneFault>
    ensures { (result ≡ Err (TextSceneFault.Text 1 UnknownWord))
        ⊎ (result ≡ Err TextSceneFault.OutOfMemory) }
{
    parse_scene(alloc, b"swop\n")
}

/// What a stream means that records a list which calls another one, and then records that one anew: the call gives what was recorded last.
pub fn called_anew(alloc: Global, stream: &ListCommands) -> Result<Expansion, ExpandFault>
    requires places { length stream.now < 2 ^ 32 }
    ensures { (first last : AnyCommand) → stream.now ≡ recorded_anew first last
        → IfOk result (λ x. x.commands ≡ last ∷ []) }
{
    expand(alloc, stream, 0)
}

/// A scene from its bytes. Where more bytes stand behind those of a scene, it is refused at the first of them.
pub fn scene_of(alloc: Global, bytes: &[u8]) -> Result<Scene, SceneFault>
    ensures { (front rest : List ℕ) (s : AnyScene) → bytes.now ≡ front ++ rest → 0 < length rest
        → SpellsScene front s
        → (result ≡ Err (SceneFault.Malformed Trailing (length front)))
        ⊎ (result ≡ Err SceneFault.OutOfMemory) }
{
    read_scene(alloc, bytes)
}

/// A scene with call lists from its bytes. Where these spell more commands than a scene may have, none is read.
pub fn list_scene_of(alloc: Global, bytes: &[u8]) -> Result<ListScene, SceneFault>
    ensures { (s : AnyListScene) → SpellsListScene bytes.now s → 1048576 < sum_by length s.streams
        → IsErr result }
{
    bytes_spell_one_list_scene();
    read_list_scene(alloc, bytes)
}

/// The scene of some bytes, whose streams are decoded side by side. It is the one that the bytes spell: no stream is kept in part.
pub fn scene_beside<R: Threads>(rt: &R, alloc: Global, bytes: &[u8]) -> Result<Scene, SceneFault>
    ensures { (s : AnyScene) → SpellsScene bytes.now s → IfOk result (λ x. x ≡ s) }
{
    bytes_spell_one_scene();
    read_scene_beside(rt, alloc, bytes)
}
