//! What the program does with the words that its process is given: `run_process` reads them, carries out their job on a reader and two writers, and
//! gives an `Exit`, which is the program's status with these three as they are then. `run_with_filters` does so on any source and sinks, of words that
//! are given.
//!
//! An `Exit` names the types of its ends and is made by `run_process` alone, so a `main` that has one of standard input, output and error has run on those
//! three, and ends with the status that the call gave. The words of each crate's `main` are the order of the ends. Stands on the top call of the product
//! (`render_core`), with a member of its chain for each filter.
#![tactic(auto)]

mod exit;
mod filtered;
mod process;
mod status;

pub use exit::Exit;
pub use filtered::{Filtered, run_with_filters};
pub use process::run_process;
