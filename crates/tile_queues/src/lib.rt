//! Lanes between threads: bounded queues, each with one sender and one receiver.
//!
//! A lane is `crossbeam_queue`'s ruled bounded queue under one rule, which `specs/Rule.antt` states with its six kinds of step: what was sent is
//! what was taken, and then what the lane holds. `LaneIn` is an `Outlet` and `LaneOut` an `Inlet` of `rc_base::lane`. `close` brings the two ends
//! together, and hands out the rest, which is an `Inlet` too.
//!
//! A grid has a row of sending ends for each of several senders and a column of receiving ends for each of several receivers. `lane_grid` makes one, and
//! `close_all` closes it when its ends are back in one thread: what each receiver took of a lane is then a front of what its sender sent. `close_list` does
//! the same for two lists of ends, one of a lane each, and `join_list` hands out what is left in them. Ends that were named by their lanes in the meantime
//! make a grid, or two such lists, again (`laws`). This crate stands on rc_base.
#![tactic(auto)]

mod closing;
pub mod ends;
pub mod lanes;
pub mod laws;
mod making;
pub mod rule;

pub use closing::{close_all, close_list, join_list};
pub use ends::{LaneIn, LaneOut, Rest};
pub use lanes::{close, lane};
pub use laws::{named_ends_are_paired, named_rows_and_columns_are_a_grid};
pub use making::{Grid, lane_grid};
