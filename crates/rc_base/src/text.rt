//! The words of a scene's text: what a line is about.
use crate::command::Opcode;

/// What the first word of a line names: a part of the declaration, the begin of a client's stream, or a command.
#[derive(Clone, Copy, Debug, PartialEq, Eq)]
pub enum LineName {
    /// Version, width and height of the window.
    Scene,
    /// Width and height of a shared texture.
    Shared,
    /// How many clients meet at a barrier.
    Barrier,
    /// The units of a semaphore.
    Semaphore,
    Client,
    Command(Opcode),
}
