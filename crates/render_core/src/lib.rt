//! The top call of the product: words, a source, an image and notes in, a status out.
//!
//! `run` is one pipeline for all jobs: the words name the job, its scene is read or made, what is due for the scene is made, the image is written, and
//! then the notes. For `render` and `demo` each client, the manager and each tile is a thread of its own (`cluster_run`), and each passes the gate before each attempt
//! of a step: what is due is then that of the record of what really happened. For `last` threads draw the clients apart (`sort_last`). All other jobs are carried out by `run_alone`, which starts no thread
//! and waits for nobody. What is due for a job is one case in `due` and in `specs/Due`. `specs/` says what a job may find in its input, what is due for a
//! scene, and how a run ends. The crate stands on the words of a run (`run_words`), on the readers and writers of scenes, on the cluster, stepped and on
//! threads, on the serial renderer, and on the writer of frames.
#![tactic(auto)]

mod cluster;
mod due;
mod generated;
mod input;
pub mod job;
pub mod laws;
mod picks;
mod reader;
pub mod refusal;
mod run_job;
mod steps;
mod stored;
mod whole;
mod work;
mod writing;

pub use command_line::filters;
pub use run_job::{Finish, run, run_alone, run_filtered};
