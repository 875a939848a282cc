//! The cluster on threads.
//!
//! Each client, the manager and each tile is a worker: a core that owns its data, with its own ends of lanes. What is said of a worker, its clause
//! (`specs/Clients`, `specs/Managers`, `specs/Tiles`), is about its core and the lists of its own ends alone, so no thread's proof asks what another
//! thread does: one step of the core keeps the clause, hence any number of steps does. What joins them is the name of a lane, which its two ends
//! share. Where all have ended, each worker meets its clause with the lists of its own ends (`specs/Clusters`); closing a lane shows that what was
//! taken of it is a front of what was sent to it, and from these fronts and the clauses `run_record` has the whole run. The turns that each worker took
//! (`specs/Steps`) are told of it alone too, as a list from its beginning to its end (`specs/Workers`).
//!
//! The parts of frames go from each tile to the caller, through a lane of their own; the caller writes each frame once all tiles have shown it, while the
//! workers run (`specs/Serving`).
//!
//! This crate stands on the cores (`client_issue`, `sync_manager`, `tile_server`), on `tile_queues` for the lanes, on `worker_crew` for
//! the threads, on `run_record` for the record, and on `frame_out` for its frames.
#![tactic(auto)]

mod client;
mod clients;
mod cores;
mod crew;
pub mod laws;
mod manager;
mod on_the_way;
mod run;
mod tile;
mod tiles;
mod workers;
mod writing;

pub use frame_out::Written;
pub use run::{Run, run_stored, run_threads};
