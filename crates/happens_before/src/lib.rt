//! Which commands are before which, whatever order is taken: the happens-before relation of a journal (Lamport), and vector clocks that tell it (Mattern,
//! Fidge).
//!
//! `specs/Before` has the relation, the transitive closure of what permitted orders are made of. `clocks_of` reads a journal once and keeps, for each
//! client, the places from which on its names have more before them; `Timelines::before` looks a name up. The clocks are exact: they tell all
//! that is before a name, and nothing else. Stands on order_model.
#![tactic(auto)]

pub mod laws;
mod semaphores;
mod timelines;
mod walk;

pub use timelines::{Change, Timelines};
pub use walk::clocks_of;
