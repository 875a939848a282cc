//! Runs of the call that starts no thread.
ghost use Rattle.std.specs.Prelude.{IsTrue};
ghost use Rattle.run_words.specs.Jobs.{IsThreaded};

use super::{Host, Left, run_on, whole_ends, words};
use render_core::run_alone;
use std::alloc::Global;
use test_scenes::{RED_CLEAR, RED_FRAME};

// The first word is that of the job `serial`, which starts no thread.
fn are_serial(words: &[String]) -> bool
    ensures { IsTrue result → IsThreaded words.now → ⊥ }
{
    match words.first() {
        Some(word) => word.as_str() == "serial",
        None => false,
    }
}

// What `serial` leaves of these bytes, carried out alone.
fn serial_on(rt: &impl Host, alloc: Global, input: &[u8]) -> Left {
    let mut left = whole_ends(rt, alloc, input);
    let words = words(rt, alloc, &["serial"]);
    assert!(rt; are_serial(words.as_slice()));
    let finish = run_alone(
        alloc,
        words.as_slice(),
        &mut left.source,
        &mut left.image,
        &mut left.notes,
    );
    left.status = finish.status;
    left.has_record = finish.kept.is_some();
    left
}

// What is given, and the status, image and notes that are left.
type Row = (&'static [u8], u8, &'static [u8], &'static str);

const ROWS: [Row; 2] = [
    (&RED_CLEAR, 0, RED_FRAME, "journal 1\nframes 1\n"),
    (b"RCS", 3, b"", "rc: malformed Truncated at 3\n"),
];

// Whether this is left, and no record.
fn leaves_alone(rt: &impl Host, alloc: Global, row: &Row) -> bool {
    let (input, status, image, notes) = *row;
    let left = serial_on(rt, alloc, input);
    left.is(status, image, notes.as_bytes()) && !left.has_record
}

#[test]
fn one_renderer_runs_alone(rt: HostRuntime) {
    for row in &ROWS {
        assert!(rt; leaves_alone(&rt, rt.alloc(), row));
    }
}

// A run without a chain knows no filter.
#[test]
fn filters_are_no_words_of_a_plain_run(rt: HostRuntime) {
    assert!(rt;
        run_on(&rt, rt.alloc(), &["count", "check"], &RED_CLEAR).is(1, b"", b"rc: usage\n")
    );
}
