//! The first frames of a longer show.
//!
//! `specs/` says what the first n frames of a scene are, and of a record of it: what stands up to each client's n-th accepted Swap. The laws above these
//! definitions stand in `laws`: they are the frames of the show that is cut there, in one renderer and in a cluster, and nobody is left waiting where
//! they come. A show can be tried in pieces, and a stuck one shown up to where it stands. It stands on the definitions and lemmas of `order_model`.
#![tactic(auto)]

pub mod laws;
