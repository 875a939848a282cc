//! Clients' streams replayed: the context of each client behind the commands that an order has carried out.
//!
//! A `SceneStore` is a scene, however its commands are stored. `issue_at` issues one command of one client and `issue_name` the command of a name, and each
//! gives exactly the effect that `rc_base`'s definition of a stream gives at that place. `gather` issues a run of commands that do nothing beyond their
//! client's context, and `count_at` one where only the refused commands and the kinds of effects are asked for. Whatever goes along an order of a scene's
//! commands stands on this crate: the serial renderer draws what it gives, and the race checker looks at what it touches. It stands on gl_context and
//! command_store.
#![tactic(auto)]

mod client;
mod forms;
mod in_block;
mod listed;
mod replay;
mod scene_store;
mod stored;

pub use client::{Client, clients_of, gather, issue_in_block, issue_name, take_back};
pub use in_block::InBlock;
pub use replay::{count_at, count_quiet_at, issue_at};
pub use scene_store::SceneStore;
