//! The record of a run.
use rc_base::items::Items;
use rc_base::sync::{Journal, SyncLists};

/// A line of a tile's log: it carried out the command at this place of this client, or the journal's next entry.
#[derive(Clone, Copy, Debug, PartialEq, Eq)]
pub enum LogEntry {
    Took { client: u8, place: u32 },
    Performed,
}

/// What a tile did, in its sequence.
pub type Log = Items<LogEntry>;

/// One log for each tile, tiles rising.
pub type Logs = Items<Log>;

/// What is kept of a run: the journal, each tile's log, and what the scene says of synchronisation.
#[derive(Clone, Debug, PartialEq, Drop)]
pub struct Record {
    pub journal: Journal,
    pub logs: Logs,
    pub syncs: SyncLists,
}
