//! Scenes whose commands are stored in less room.
ghost use Rattle.std.specs.Prelude.{◌≡◌, ◌<◌, length};
ghost use Rattle.rc_base.specs.Contexts.Issue.{stream_of};

use crate::forms::form_of;
use crate::scene_store::SceneStore;
use command_store::{CommandForm, CommandStore, StoredScene};
use rc_base::command::Command;
use rc_base::scene::Decl;
use std::borrow::Cow;

// The stream of a client.
#[inline(always)]
fn stored_stream(scene: &StoredScene, client: usize) -> &CommandStore
    requires { client < length scene.now.streams }
    ensures { result.now ≡ stream_of scene.now client }
{
    &scene.streams()[client]
}

impl SceneStore for StoredScene {
    ghost scene = { λ s. s };

    fn decl(&self) -> &Decl {
        StoredScene::decl(self)
    }

    fn client_count(&self) -> usize {
        self.streams().len()
    }

    fn stream_length(&self, client: usize) -> usize {
        stored_stream(self, client).len()
    }

    #[inline(always)]
    fn command_at(&self, client: usize, place: usize) -> Cow<'_, Command> {
        stored_stream(self, client).at(place)
    }

    #[inline(always)]
    fn form_at(&self, client: usize, place: usize) -> CommandForm<'_> {
        match stored_stream(self, client).borrowed(place) {
            CommandForm::Other(command) => form_of(command),
            form => form,
        }
    }
}
