//! The manager of synchronisation.
//!
//! A book keeps what clients wait for, grants entries one by one, and says when it is over and who is stuck.
//! The manager's core reads requests off the clients' lanes into its book, and appends what the book grants to the tiles' lanes.
#![tactic(auto)]

pub mod book;
mod deed;
pub mod laws;
pub mod manager;
mod search;
mod unit;

pub use book::Book;
pub use manager::ManagerCore;
