//! Callers of the crates' public calls, each of which leans on one clause: it says of a call what a wrong body would break, and is proved by the call's
//! contract alone. So no body that meets that contract does it.
#![tactic(auto)]

pub mod boxes;
pub mod cluster;
pub mod contexts;
pub mod cores;
pub mod drawing;
pub mod exits;
pub mod formats;
pub mod jobs;
pub mod lanes;
pub mod layers;
pub mod orders;
pub mod program;
pub mod runs;
