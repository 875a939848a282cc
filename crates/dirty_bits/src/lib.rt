//! Hierarchical dirty bits: which elements changed since a server last looked, with a bit for each server on three levels, of an element, of its
//! group, and of all; and a count of the looks at them. (Buck, Humphreys and Hanrahan's tracking of state, for many servers at once.)
//!
//! Elements, and their groups, are those of `rc_base::specs::Contexts::Elements`. No call takes memory. This crate stands on
//! rc_base and element_table.
#![tactic(auto)]

mod bits;
mod dirty;
mod looks;

pub use dirty::Dirty;
pub use looks::Looks;
