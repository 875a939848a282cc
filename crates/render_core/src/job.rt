//! The jobs, and the words that name them.
pub use run_words::job::{Cluster, Job, job_of};
