//! The forms in which the commands of a stream are kept, and the scenes of such streams.
ghost use Rattle.std.specs.Prelude.{◌≡◌, List, map, IfOk, IfErr};
ghost use Rattle.rc_base.specs.declared.command.Command.{Command};
ghost use Rattle.rc_base.specs.declared.scene.Scene.{Scene as AnyScene};
ghost use Rattle.rc_base.specs.Formats.Limits.{is_swap_command};
ghost use Rattle.rc_base.specs.Formats.Spelling.{plain_form};
ghost use Rattle.packet_bytes.specs.Packets.{Decodes, decoded_as};
ghost use Rattle.scene_file.specs.Counting.{SpellsCounted, counted_as};
ghost use Rattle.scene_file.specs.Faults.{SceneFailsBy};
ghost use Rattle.scene_file.specs.Letters.{plain_letters};

use crate::fault::Broken;
use crate::reading::{Counted, read_spelled};
use command_store::{CommandStore, StoreWriter, StoredScene};
use packet_bytes::PackFault;
use packet_bytes::packets::{DecodedOf, decode_of};
use rc_base::command::{Command, Commands};
use rc_base::items::Items;
use rc_base::scene::{Decl, Scene};
use std::alloc::Global;

/// The commands of a stream, in a form in which they are kept.
pub(crate) trait KeptStream: Sized + Drop {
    /// A scene whose streams are kept so.
    type Scene: Drop;

    /// Its commands.
    ghost commands: { Self → List Command };

    /// The scene.
    ghost scene: { Self.Scene → AnyScene };

    /// The scene with a declaration and the streams of its clients.
    fn scene_of(decl: Decl, streams: Items<Self>) -> Self::Scene
        ensures decl { (scene result).decl ≡ decl }
        ensures streams { (scene result).streams ≡ map commands streams };

    /// What the bytes of a stream spell, stored where there is room for its commands.
    fn decode(alloc: Global, room: usize, text: &[u8]) -> Result<DecodedOf<Self>, PackFault>
        ensures { IfOk result (λ x. Decodes text.now room (decoded_as commands x)) };

    /// The scene that bytes spell, whatever its quantities.
    fn read_spelled(alloc: Global, bytes: &[u8]) -> Result<Counted<Self>, Broken>
        ensures found { IfOk result (λ x. SpellsCounted plain_form is_swap_command bytes.now
            (counted_as commands x)) }
        ensures fails { IfErr result (SceneFailsBy plain_form plain_letters.all bytes.now) };
}

impl KeptStream for Commands {
    type Scene = Scene;

    ghost commands = { λ s. s };

    ghost scene = { λ s. s };

    fn scene_of(decl: Decl, streams: Items<Commands>) -> Scene
        ensures decl { result.decl ≡ decl }
        ensures streams { result.streams ≡ map (λ s. s) streams }
    {
        Scene { decl, streams }
    }

    fn decode(alloc: Global, room: usize, text: &[u8]) -> Result<DecodedOf<Commands>, PackFault> {
        decode_of::<Vec<Command>>(alloc, room, text)
    }

    fn read_spelled(alloc: Global, bytes: &[u8]) -> Result<Counted<Commands>, Broken> {
        read_spelled::<Vec<Command>>(alloc, bytes)
    }
}

impl KeptStream for CommandStore {
    type Scene = StoredScene;

    ghost commands = { λ s. s };

    ghost scene = { λ s. s };

    fn scene_of(decl: Decl, streams: Items<CommandStore>) -> StoredScene
        ensures decl { result.decl ≡ decl }
        ensures streams { result.streams ≡ map (λ s. s) streams }
    {
        StoredScene::new(decl, streams)
    }

    fn decode(
        alloc: Global,
        room: usize,
        text: &[u8],
    ) -> Result<DecodedOf<CommandStore>, PackFault> {
        decode_of::<StoreWriter>(alloc, room, text)
    }

    fn read_spelled(alloc: Global, bytes: &[u8]) -> Result<Counted<CommandStore>, Broken> {
        read_spelled::<StoreWriter>(alloc, bytes)
    }
}
