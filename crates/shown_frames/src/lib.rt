//! What a cluster has shown so far is the beginning of what some whole run shows.
//!
//! Whatever tiles have carried out of a legal journal goes on to a whole run of the scene, which the definitions of `order_model` alone give (`specs/Unfinished`).
#![tactic(auto)]

pub mod laws;
