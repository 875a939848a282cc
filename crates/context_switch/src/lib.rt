//! The differences of two states, and the switch from one client's state to another's.
//!
//! A state's elements, and when two values of one are the same, are those of `rc_base::specs::Contexts::Elements`. No call takes memory. This
//! crate stands on element_table.
#![tactic(auto)]

mod states;

pub use states::switch;
