//! The cluster on one thread: its actors take single steps, in the sequence of a schedule, over lanes that are plain bounded lists.
//!
//! A cluster is seen as a world of `world_model`: each step of an actor is one turn of it, and one move where no memory lacks. This crate stands on
//! the cores of clients, manager and tiles.
#![tactic(auto)]

mod actor;
mod carry;
mod clients;
mod cluster;
mod first;
mod gather;
mod landing;
mod port;
mod round;
mod rounds;
mod schedule;
mod settle;
mod steps;
mod tiles;
mod world;

pub use rounds::{CoreRun, finish};
pub use schedule::run_schedule;
pub use world::World;
