//! Why a job is refused.
pub use run_words::refusal::{DueRefusal, ImageRefusal, InputRefusal, Refusal};
