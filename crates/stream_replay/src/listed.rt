//! Scenes whose commands stand in lists.
ghost use Rattle.std.specs.Prelude.{◌≡◌, ◌<◌, length, Some};
ghost use Rattle.rc_base.specs.Contexts.Issue.{stream_of, command_at};

use crate::forms::form_of;
use crate::scene_store::SceneStore;
use command_store::CommandForm;
use rc_base::command::Command;
use rc_base::scene::{Decl, Scene, stream_length};
use std::borrow::Cow;

// The command of a client at a place.
#[inline(always)]
fn listed_at(scene: &Scene, client: usize, place: usize) -> &Command
    requires { place < length (stream_of scene.now client) }
    ensures { command_at scene.now client place ≡ Some result.now }
{
    let commands = scene.streams.as_slice()[client].as_slice();
    &commands[place]
}

impl SceneStore for Scene {
    ghost scene = { λ s. s };

    fn decl(&self) -> &Decl {
        &self.decl
    }

    fn client_count(&self) -> usize {
        self.streams.len()
    }

    fn stream_length(&self, client: usize) -> usize {
        stream_length(self, client)
    }

    #[inline(always)]
    fn command_at(&self, client: usize, place: usize) -> Cow<'_, Command> {
        Cow::Borrowed(listed_at(self, client, place))
    }

    #[inline(always)]
    fn form_at(&self, client: usize, place: usize) -> CommandForm<'_> {
        form_of(listed_at(self, client, place))
    }
}
