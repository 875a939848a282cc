//! Workers in threads of their own.
//!
//! A worker is an actor of a cluster that is stepped until it has ended: by a thread, or, where no thread could be made for it, by the caller, in
//! rotation with the others that came back. What each step of a worker keeps is known of it at its end, and it is known that it has ended; so what
//! was said of each worker before the threads began is said of it after they were joined. Until the last of the threads has ended the caller has work
//! of its own, the foreground. A crew's workers are its clients, its manager and its tiles, so that whom a step may have to wake is known; what they do
//! is not. This crate stands on rc_base.
#![tactic(auto)]

mod crew;
mod crowd;
mod foreground;
mod owed;
mod patience;
mod ready;
mod row;
mod run;
mod scope;
mod seat;
mod start;
mod task;
mod waits;
mod waking;
mod watch;
mod worker;

pub use crew::Crew;
pub use foreground::Foreground;
pub use ready::{Ready, prepare};
pub use run::{run_beside, run_to_end};
pub use scope::run_in_scope;
pub use seat::Seats;
pub use task::Task;
pub use worker::{Attempt, Peer, Worker};
