//! What a client's commands make of its context, and which of them are refused.
//!
//! A context is that of `rc_base::specs::Contexts::Context`, each command does what `Contexts::Issue` says, and is refused by the rules of
//! `Contexts::Faults`. Where only refused commands and kinds of effects are asked for, a `CountingContext` keeps no vertices. This crate stands on element_table, fixed_math and textures.
#![tactic(auto)]

mod block_commands;
mod context;
mod counting;
mod elements;
pub mod laws;
mod open_block;
mod rules;
mod stacks;
mod state;

pub use context::Context;
pub use counting::{CountingContext, EffectKind};
pub use elements::marks;
