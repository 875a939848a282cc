//! Scenes whose streams are lists of whole commands, as the filters and the stepped cluster take them, of scenes that are stored in little room.
ghost use Rattle.std.specs.Prelude.{◌≡◌, ◌<◌, IfOk, length, slice_index_or};

use command_store::{CommandStore, StoredScene};
use rc_base::command::{Command, Commands};
use rc_base::out_of_memory::OutOfMemory;
use rc_base::scene::{Scene, Streams};
use std::alloc::Global;
use std::borrow::Cow;

// The command at a place of a stream. One that is kept whole is copied.
fn whole_command(stream: &CommandStore, place: usize) -> Result<Command, OutOfMemory>
    requires { place < length stream.now }
    ensures { IfOk result (λ command. command ≡ slice_index_or stream.now place command) }
{
    match stream.at(place) {
        Cow::Borrowed(command) => Ok(command.clone()?),
        Cow::Owned(command) => Ok(command),
    }
}

// The commands of a stream.
fn whole_stream(alloc: Global, stream: &CommandStore) -> Result<Commands, OutOfMemory>
    ensures { IfOk result (λ commands. commands ≡ stream.now) }
{
    let mut commands = Commands::with_capacity(alloc, stream.len())?;
    for place in 0..stream.len() {
        commands.push(whole_command(stream, place)?)?;
    }
    Ok(commands)
}

/// The scene with whole commands. What is stored of a stream is let go once its commands stand.
pub(crate) fn whole(alloc: Global, scene: StoredScene) -> Result<Scene, OutOfMemory>
    ensures { IfOk result (λ s. s ≡ scene) }
{
    let (decl, stored) = scene.into_parts();
    let mut streams = Streams::with_capacity(alloc, stored.len())?;
    for stream in stored.into_vec() {
        streams.push(whole_stream(alloc, &stream)?)?;
    }
    Ok(Scene { decl, streams })
}
