//! Scenes with call lists.
use rc_base::list_command::ListStreams;
use rc_base::scene::Decl;

/// A scene with call lists: its declaration, which draws as version 2, and the stream of each client as it stands, with the commands that make lists
/// and call them.
#[derive(Clone, Debug, PartialEq, Drop)]
pub struct ListScene {
    pub decl: Decl,
    pub streams: ListStreams,
}
