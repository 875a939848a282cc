//! The stepped cluster: its worlds, the moves that lead from one to the next, and what is true of them over every schedule; and the cluster that runs on
//! threads, as turns of such a world with lanes of parts and a caller who takes them.
//!
//! The definitions in `specs/` stand above those of the clients' sequences (`client_issue`), of the manager's deeds (`sync_manager`), of the
//! tiles' items (`tile_model`) and of an assembler's calls (`assembler`). The laws above them stand in `laws`. The cores' run is built over the
//! definitions of the stepped cluster, and keeps its moves.
#![tactic(auto)]

pub mod laws;
mod moves;

pub use moves::{Move, TileAnswer};
