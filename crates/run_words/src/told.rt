//! How a job ends that is carried out, and what is left to tell of it.
use order_model::record::Record;
use rc_base::command::Bytes;

/// How a job ends that is carried out.
#[derive(Clone, Copy)]
pub enum Ending {
    /// All commands were carried out.
    Complete,
    /// A client waits for ever.
    Stuck,
    /// Nobody waits, and two commands race.
    RaceFound,
}

/// What is left to tell of a job that is carried out.
#[derive(Drop)]
pub struct Told {
    /// To the notes.
    pub lines: Bytes,
    pub ending: Ending,
    /// The record of a cluster.
    pub kept: Option<Record>,
}
