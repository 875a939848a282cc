//! Filters on streams of commands: boxed members, each with a rule, that pass every command on, changed or not, or give none, as the stream
//! processing units of Chromium (Humphreys and others, 2002) do.
//!
//! `run_chain` gives what a chain makes of a list, by the definition of a filter in `specs/Filter`, and leaves each member with the rule that it
//! has then. `laws` says that a chain is its members applied one after the other to the whole list. The crate stands on rc_base, on the table of
//! commands, and on the product of two colours of fragment_ops.
#![tactic(auto)]

mod chain;
pub mod laws;
mod members;
mod rule;
mod scenes;
mod spu;

pub use chain::{has_room, run_chain};
pub use members::{CountSpu, CullSpu, DropSpu, RecolourSpu};
pub use rule::{Rules, SpuRule};
pub use scenes::{filter_scene, rules_of};
pub use spu::Spu;
