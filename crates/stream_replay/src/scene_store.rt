//! Scenes whose commands are told by client and place, however they are stored.
ghost use Rattle.std.specs.Prelude.{◌≡◌, ◌<◌, length, Some};
ghost use Rattle.std.specs.Cow.{cow_value};
ghost use Rattle.rc_base.specs.Contexts.Issue.{stream_of, command_at};
ghost use Rattle.rc_base.specs.declared.scene.Scene.{Scene};
ghost use Rattle.stream_replay.specs.Forms.{IsFormAt};

use command_store::CommandForm;
use rc_base::command::Command;
use rc_base::scene::Decl;
use std::borrow::Cow;

/// A scene, however its commands are stored.
pub trait SceneStore {
    /// The scene that is stored.
    ghost scene: { Self → Scene };

    /// The declaration.
    fn decl(&self) -> &Decl
        ensures { result.now ≡ (scene self.now).decl };

    /// How many clients there are.
    fn client_count(&self) -> usize
        ensures { result ≡ length (scene self.now).streams };

    /// How many commands a client's stream has.
    fn stream_length(&self, client: usize) -> usize
        requires { client < length (scene self.now).streams }
        ensures { result ≡ length (stream_of (scene self.now) client) };

    /// The command of a client at a place.
    fn command_at(&self, client: usize, place: usize) -> Cow<'_, Command>
        requires { place < length (stream_of (scene self.now) client) }
        ensures { command_at (scene self.now) client place ≡ Some (cow_value result) };

    /// The command of a client at a place where it is stored: the fields of one that stands in blocks, or another one whole.
    fn form_at(&self, client: usize, place: usize) -> CommandForm<'_>
        requires { place < length (stream_of (scene self.now) client) }
        ensures { IsFormAt (scene self.now) client place result };
}
