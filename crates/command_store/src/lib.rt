//! Lists of commands in less room than a `Vec` of them takes, and scenes whose streams are kept so.
//!
//! Contracts see a `CommandStore` as the list of its commands and a `StoredScene` as the scene, so what is proved of a scene is said of a stored one in
//! the same words.
#![tactic(auto)]

mod command;
mod form;
mod scene;
mod store;
mod writer;

pub use form::CommandForm;
pub use scene::StoredScene;
pub use store::{CommandStore, copy_of};
pub use writer::StoreWriter;
