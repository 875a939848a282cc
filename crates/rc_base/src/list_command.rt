//! The commands of a stream with call lists.
use crate::command::{Command, Opcode};
use crate::items::Items;

/// A command of a stream with call lists: one that draws, or one of the three that make lists and call them. Names are raw, and whether they are
/// in range (1 to 64) is judged where the stream is expanded.
#[derive(Clone, Debug, PartialEq, Drop)]
pub enum ListCommand {
    Plain(Command),
    /// Begins to record the list of this name.
    NewList(u8),
    /// Ends the recording, which is then the list.
    EndList,
    /// Means the commands of a list.
    CallList(u8),
}

/// The kind of a command of a stream with call lists.
#[derive(Clone, Copy, Debug, PartialEq, Eq)]
pub enum ListOpcode {
    Plain(Opcode),
    NewList,
    EndList,
    CallList,
}

/// The commands of one client, those that make and call lists among them.
pub type ListCommands = Items<ListCommand>;

/// One list of commands for each client, clients rising.
pub type ListStreams = Items<ListCommands>;
