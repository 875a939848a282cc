//! Call lists: the plain commands that a stream means whose commands are recorded in lists and called, as with the display lists of OpenGL.
//!
//! `specs/Expansion.antt` says which commands are met in a stream, in their order; what the stream gives, what it costs and where its costs pass
//! their limit are read off from that list. `expand` goes along a stream once and gives these without the list, and `expand_all` does so for the
//! streams of all clients, whose commands it keeps in the room of a `CommandStore`. Stands on rc_base and command_store.
#![tactic(auto)]

mod answer;
mod body;
mod calls;
mod expanding;
mod given;
mod kept;
pub mod laws;
mod lists;
mod meeting;
mod record;
mod sizes;
mod standing;
pub mod streams;
mod taking;

pub use answer::{ExpandFault, Expansion};
pub use expanding::expand;
pub use streams::{Expansions, expand_all};
