//! Records of runs, and the orders that they record.
//!
//! A run keeps the journal of synchronisation and, for each tile, a log of what the tile carried out in which sequence. `specs/` says when such a
//! record is right and which order of all commands a log records. `tile_order` makes that order, `reach` says how far each client's commands are carried
//! out, and `is_permitted` checks any order against a journal. The laws above these definitions, and above those of journals and orders in
//! `rc_base`, stand in `laws`.
#![tactic(auto)]

pub mod laws;
mod parted;
mod permitted;
pub mod record;
mod recorded;
mod spots;
mod units;
pub mod walk;

pub use permitted::is_permitted;
pub use record::{Log, LogEntry, Logs, Record};
pub use recorded::tile_order;
pub use walk::reach;
