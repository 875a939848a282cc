//! The definitions, checked against worked examples: each function's contract is an example that was computed by hand, and its proof is the
//! computation of the definition. This crate has no code.
#![tactic(auto)]

pub mod drawing;
pub mod faults;
pub mod fragments;
pub mod limits;
pub mod matrices;
pub mod orders;
pub mod reports;
pub mod spelling;
pub mod texts;
pub mod textures;
pub mod tiles;
pub mod triangles;
