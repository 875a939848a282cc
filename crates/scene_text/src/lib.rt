//! The text of a scene: what a person writes and reads.
//!
//! `print_scene` writes the one text that `printed` names, and `parse_scene` reads every text that spells a scene (`SpellsText`). The
//! definitions stand in `specs/Text`. What a command has comes from command_table, which the packets are read over too.
#![tactic(auto)]

mod arguments;
mod declared;
mod digits;
mod draft;
mod hex;
mod laws;
mod lines;
mod names;
mod numerals;
mod parse;
mod print;
mod tally;
mod words;

pub use laws::{
    printed_texts_spell_their_scene, spelled_texts_have_no_fault, texts_spell_one_scene,
    texts_spell_whole_pictures,
};
pub use parse::{TextSceneFault, parse_scene};
pub use print::print_scene;
