//! The program's words: filters, a job, and then its options in any order.
//!
//! `filters` gives the rules of the filters that the words begin with, and how many words these take (`NamesChain`).
//! `command_line` gives what words ask for, exactly where they are a command line (`IsCommandLine`). The words are tested first, one
//! after another: each is the name of the job, the exact name of an option that the job takes and that wasn't given before, or that option's value.
//! Then `clap` reads the options' words, which all are words that it takes, and the values are those of its matches. The crate stands on rc_base,
//! on the names of commands, on the rules of filters, and on `clap`.
#![tactic(auto)]

mod job;
mod laws;
mod leading;
mod line;
mod matches;
mod number;
mod option;
mod seen;
mod values;

pub use job::{JobName, OptionName};
pub use laws::{
    leading_words_have_one_reading, lines_begin_no_filter, lines_have_one_reading,
    named_rules_begin,
};
pub use leading::filters;
pub use line::{CommandLine, command_line};
pub use values::Settings;
