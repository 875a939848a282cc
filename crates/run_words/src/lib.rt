//! The words of a run: jobs, refusals, the lines of reports, and what the notes are told.
//!
//! `job_of` gives the job that words ask for (`IsJob`), and `asked_past` the first of its quantities that is outside its range. `Refusal` has each way to
//! be refused, with its status and its line (`specs/Statuses`), `short_report` and `cluster_report` give what is told of a run (`specs/Reports`), and
//! `note_refusal` and `conclude` tell it to the notes. No call here knows how a scene is drawn. The crate stands on the words of command lines, on what
//! orders and races are told by, and on the limits of scenes and tiles.
#![tactic(auto)]

mod asked;
pub mod job;
mod notes;
pub mod refusal;
mod report;
mod told;
mod work;

pub use asked::{asked_past, tiles_asked, tiles_of};
pub use notes::{conclude, note, note_refusal};
pub use report::{
    cluster_report, cluster_report_with, filter_lines, list_fault_lines, race_line, short_report,
};
pub use told::{Ending, Told};
pub use work::Work;
