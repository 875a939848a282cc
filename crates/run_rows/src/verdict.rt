//! Whether a run left what its row says, and where not.
ghost use Rattle.std.specs.Prelude.{◌≡◌, ◌↔◌, IsTrue, IfSome};
ghost use Rattle.run_rows.specs.Due.{IsAsDue};

use crate::row::{Counted, Due};
use crate::trial::Left;
use rc_base::command::Bytes;

/// Whether bytes are those that are due, where some are.
pub(crate) fn are_due(due: &Option<Bytes>, bytes: &[u8]) -> bool
    ensures { IsTrue result ↔ IfSome due.now (λ them. bytes.now ≡ them) }
{
    match due {
        Some(due) => due.as_slice() == bytes,
        None => true,
    }
}

/// Whether filters have counted what is due, where something is.
pub(crate) fn are_counts_due(due: &Option<Counted>, counts: &[u64]) -> bool
    ensures { IsTrue result ↔ IfSome due.now (λ them. counts.now ≡ them) }
{
    match due {
        Some(due) => due.as_slice() == counts,
        None => true,
    }
}

/// Whether a record is kept where one is due, and none where none is due.
pub(crate) fn is_record_due(due: Option<bool>, has_record: bool) -> bool
    ensures { IsTrue result ↔ IfSome due (λ it. has_record ≡ it) }
{
    match due {
        Some(due) => due == has_record,
        None => true,
    }
}

/// Whether a run left what is due.
pub(crate) fn is_as_due(due: &Due, left: &Left) -> bool
    ensures { IsTrue result ↔ IsAsDue due.now left.now.status left.now.has_record left.now.counts left.now.ends.image.held left.now.ends.notes.held }
{
    left.status == due.status
        && is_record_due(due.has_record, left.has_record)
        && are_counts_due(&due.counts, left.counts.as_slice())
        && are_due(&due.image, left.ends.image.bytes())
        && are_due(&due.notes, left.ends.notes.bytes())
}
