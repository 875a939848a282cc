//! Ends that fail: at each take of the source, at each put of the image and at each put of the notes in turn, and several of them in one run; and
//! inputs that announce what doesn't come.
//!
//! By one byte a call the red clear is 27 takes, of which the last one finds the end, its frame is 23 puts, and its report 52.
ghost use Rattle.std.specs.Prelude.{◌<◌};

use super::{Host, Left, ends_of, has_left, left_on, sink};
use rc_base::in_memory::MemSource;
use rc_base::transfer::read_all;
use std::alloc::Global;
use test_scenes::{RED_CLEAR, RED_CLEAR_TEXT, RED_FRAME};

// A frame of one white pixel.
const WHITE_PIXEL: &[u8] = b"P6\n1 1\n255\n\xff\xff\xff";

// A job, its input, and the image and the notes that it leaves where no end fails.
#[derive(Clone, Copy)]
struct Row {
    job: &'static [&'static str],
    input: &'static [u8],
    image: &'static [u8],
    notes: &'static [u8],
}

// The red clear without Swap.
const CLEAR_ALONE: [u8; 25] = [
    0x52, 0x43, 0x53, 0x31, 2, 0, 2, 0, 1, 0, 0, 0, 9, 0, 0, 0, 2, 0, 0x16, 0x18, 255, 0, 0, 255, 1,
];

const RED_REPORT: &[u8] = b"tile 0 parcels 3 sets 1 looks 15\njournal 1\nframes 1\n";

const ROWS: [Row; 7] = [
    Row {
        job: &["render"],
        input: &RED_CLEAR,
        image: RED_FRAME,
        notes: RED_REPORT,
    },
    Row {
        job: &["simulate", "--seed", "1"],
        input: &RED_CLEAR,
        image: RED_FRAME,
        notes: RED_REPORT,
    },
    Row {
        job: &["serial"],
        input: &RED_CLEAR,
        image: RED_FRAME,
        notes: b"journal 1\nframes 1\n",
    },
    Row {
        job: &["check"],
        input: &RED_CLEAR,
        image: b"",
        notes: b"journal 1\nframes 1\n",
    },
    Row {
        job: &["pack"],
        input: RED_CLEAR_TEXT,
        image: &RED_CLEAR,
        notes: b"",
    },
    Row {
        job: &["unpack"],
        input: &RED_CLEAR,
        image: RED_CLEAR_TEXT,
        notes: b"",
    },
    Row {
        job: &["render"],
        input: &CLEAR_ALONE,
        image: b"",
        notes: b"tile 0 parcels 2 sets 1 looks 15\njournal 0\nframes 0\n",
    },
];

// The numbers of the take, of the put of the image and of the put of the notes that fail; 0 where none does.
type Fails = (u64, u64, u64);

// The number of the call that comes behind so many.
fn next(calls: usize) -> u64 {
    (calls as u64).saturating_add(1)
}

// What a run leaves whose ends carry at most so many bytes a call, and fail so.
fn left_by(
    rt: &impl Host,
    alloc: Global,
    job: &[&str],
    input: &[u8],
    step: usize,
    fails: Fails,
) -> Left
    requires { 0 < step }
{
    let (take, image, notes) = fails;
    let ends = ends_of(
        MemSource::new(alloc, input, step, &[take]).expect(rt, "memory"),
        sink(rt, alloc, step, &[image]),
        sink(rt, alloc, step, &[notes]),
    );
    left_on(rt, alloc, job, ends)
}

// Whether a source that fails behind so many takes ends its run, with nothing put to the image, and keeps what it didn't give.
fn ends_reading(rt: &impl Host, alloc: Global, row: &Row, step: usize, takes: usize) -> bool
    requires { 0 < step }
{
    let given = takes.saturating_mul(step).min(row.input.len());
    let fails = (next(takes), 0, 0);
    let mut left = left_by(rt, alloc, row.job, row.input, step, fails);
    left.is(2, b"", b"rc: read fault\n") && has_left(alloc, &mut left.source, &row.input[given..])
}

// Whether notes tell that the image failed behind so many bytes.
fn tells_of(rt: &impl Host, alloc: Global, notes: &[u8], done: usize) -> bool {
    let line = format!(in alloc; "rc: image fault after {done} bytes\n").expect(rt, "memory");
    notes == line.as_bytes()
}

// Whether an image that fails behind so many puts has what they took, and the notes tell alone how much that is.
fn cuts_the_image(rt: &impl Host, alloc: Global, row: &Row, step: usize, puts: usize) -> bool
    requires { 0 < step }
{
    let done = puts.saturating_mul(step).min(row.image.len());
    let fails = (0, next(puts), 0);
    let mut left = left_by(rt, alloc, row.job, row.input, step, fails);
    left.status == 6
        && left.image.bytes() == &row.image[..done]
        && tells_of(rt, alloc, left.notes.bytes(), done)
        && has_left(alloc, &mut left.source, b"")
}

// Whether notes that fail behind so many puts have what they took, and the image is whole.
fn cuts_the_notes(rt: &impl Host, alloc: Global, row: &Row, step: usize, puts: usize) -> bool
    requires { 0 < step }
{
    let done = puts.saturating_mul(step).min(row.notes.len());
    let fails = (0, 0, next(puts));
    let mut left = left_by(rt, alloc, row.job, row.input, step, fails);
    left.is(8, row.image, &row.notes[..done]) && has_left(alloc, &mut left.source, b"")
}

// An end of a run.
#[derive(Clone, Copy)]
enum End {
    Source,
    Image,
    Notes,
}

// How many calls of an end are due: those that carry its bytes, and of the source the one that finds its end.
fn calls_of(row: &Row, end: End, step: usize) -> usize
    requires { 0 < step }
{
    match end {
        End::Source => row.input.len().div_ceil(step).saturating_add(1),
        End::Image => row.image.len().div_ceil(step),
        End::Notes => row.notes.len().div_ceil(step),
    }
}

// Whether the run ends as it has to where this end fails, at each call that is due, by so many bytes a call.
fn may_fail_by(rt: &impl Host, alloc: Global, row: &Row, end: End, step: usize) -> bool
    requires { 0 < step }
{
    for calls in 0..calls_of(row, end, step) {
        let is_right = match end {
            End::Source => ends_reading(rt, alloc, row, step, calls),
            End::Image => cuts_the_image(rt, alloc, row, step, calls),
            End::Notes => cuts_the_notes(rt, alloc, row, step, calls),
        };
        if !is_right {
            return false;
        }
    }
    true
}

// The same by one byte a call, by some, and by so many that each text is one call.
fn may_fail(rt: &impl Host, alloc: Global, row: &Row, end: End) -> bool {
    may_fail_by(rt, alloc, row, end, 1)
        && may_fail_by(rt, alloc, row, end, 4)
        && may_fail_by(rt, alloc, row, end, 64)
}

#[test]
fn a_source_may_fail_at_each_take(rt: HostRuntime) {
    for row in &ROWS {
        assert!(rt; may_fail(&rt, rt.alloc(), row, End::Source));
    }
}

#[test]
fn an_image_may_fail_at_each_put(rt: HostRuntime) {
    for row in &ROWS {
        assert!(rt; may_fail(&rt, rt.alloc(), row, End::Image));
    }
}

#[test]
fn notes_may_fail_at_each_put(rt: HostRuntime) {
    for row in &ROWS {
        assert!(rt; may_fail(&rt, rt.alloc(), row, End::Notes));
    }
}

// Whether a run is whole where each end fails at the call behind the last one that is due. That call of the source is left to whoever takes next.
fn is_whole(rt: &impl Host, alloc: Global, row: &Row, step: usize) -> bool
    requires { 0 < step }
{
    let fails = (
        next(calls_of(row, End::Source, step)),
        next(calls_of(row, End::Image, step)),
        next(calls_of(row, End::Notes, step)),
    );
    let mut left = left_by(rt, alloc, row.job, row.input, step, fails);
    left.is(0, row.image, row.notes) && read_all(alloc, &mut left.source).is_err()
}

#[test]
fn no_call_is_made_behind_the_last(rt: HostRuntime) {
    for row in &ROWS {
        assert!(rt; is_whole(&rt, rt.alloc(), row, 1));
        assert!(rt; is_whole(&rt, rt.alloc(), row, 4));
        assert!(rt; is_whole(&rt, rt.alloc(), row, 64));
    }
}

// A window of 1 by 1, and a semaphore of 0: `ClearColor 255 255 255 255; Clear 1; Swap; SemP 1; Swap`. A white frame, and then a unit that nobody
// gives.
const NO_UNIT: &[u8] =
    b"RCS1\x01\0\x01\0\x01\0\0\x01\0\0\x0d\0\0\0\x05\0\x16\x18\x24\x22\x24\xff\xff\xff\xff\x01\x01";

// A window of 1 by 1: `Swap; Swap`.
const TWO_FRAMES: &[u8] = b"RCS1\x01\0\x01\0\x01\0\0\0\x04\0\0\0\x02\0\x24\x24";

// The red clear, whose stream has 4,294,967,295 bytes by its length.
const LONG_STREAM: &[u8] =
    b"RCS1\x02\0\x02\0\x01\0\0\0\xff\xff\xff\xff\x03\0\x16\x18\x24\xff\0\0\xff\x01";

// A window of 1 by 1: `SharedImage 1 0 0 65535 65535`, without texels.
const NO_TEXELS: &[u8] =
    b"RCS1\x01\0\x01\0\x01\0\0\0\x0c\0\0\0\x01\0\x20\x01\0\0\0\0\xff\xff\xff\xff";

// A window of 1 by 1, and eight clients that do nothing.
const EIGHT_SILENT: &[u8] =
    b"RCS1\x01\0\x01\0\x08\0\0\0\0\0\0\0\0\0\0\0\0\0\0\0\0\0\0\0\0\0\0\0\0\0\0\0\0\0\0\0\0\0\0\0";

// A job, its input, the calls that fail, and what is left by ends of one byte a call: the status, image and notes, and how much of the input was
// taken.
type Case = (
    &'static str,
    &'static [u8],
    Fails,
    u8,
    &'static [u8],
    &'static [u8],
    usize,
);

// Refusals come in one sequence: words, reading, the input, the image, the notes. What fails behind the first one changes nothing but what the notes
// took of it.
const CASES: [Case; 18] = [
    ("draw", &RED_CLEAR, (0, 1, 0), 1, b"", b"rc: usage\n", 0),
    ("draw", &RED_CLEAR, (0, 1, 5), 1, b"", b"rc: ", 0),
    ("render", &RED_CLEAR, (9, 1, 1), 2, b"", b"", 8),
    ("pack", &RED_CLEAR, (27, 1, 9), 2, b"", b"rc: read", 26),
    (
        "render",
        LONG_STREAM,
        (0, 1, 0),
        3,
        b"",
        b"rc: malformed Truncated at 26\n",
        26,
    ),
    (
        "render",
        NO_TEXELS,
        (0, 1, 0),
        3,
        b"",
        b"rc: malformed Truncated at 28\n",
        28,
    ),
    ("unpack", NO_TEXELS, (28, 1, 1), 2, b"", b"", 27),
    (
        "unpack",
        NO_TEXELS,
        (0, 1, 14),
        3,
        b"",
        b"rc: malformed",
        28,
    ),
    ("render", &RED_CLEAR, (0, 9, 1), 6, b"P6\n2 2\n2", b"", 26),
    (
        "unpack",
        &RED_CLEAR,
        (0, 9, 10),
        6,
        b"scene 1 ",
        b"rc: image",
        26,
    ),
    (
        "render",
        TWO_FRAMES,
        (0, 20, 0),
        6,
        b"P6\n1 1\n255\n\0\0\0P6\n1 ",
        b"rc: image fault after 19 bytes\n",
        20,
    ),
    (
        "render",
        NO_UNIT,
        (0, 1, 0),
        5,
        b"",
        b"tile 0 parcels 5 sets 1 looks 15\njournal 1\nframes 1\nstuck client 0 at 3 SemP 1\nrc: stuck\nrc: image fault after 0 bytes\n",
        31,
    ),
    (
        "serial",
        NO_UNIT,
        (0, 9, 0),
        5,
        b"P6\n1 1\n2",
        b"journal 1\nframes 1\nstuck client 0 at 3 SemP 1\nrc: stuck\nrc: image fault after 8 bytes\n",
        31,
    ),
    ("render", NO_UNIT, (0, 0, 1), 5, WHITE_PIXEL, b"", 31),
    ("serial", NO_UNIT, (0, 2, 1), 5, b"P", b"", 31),
    ("check", NO_UNIT, (0, 1, 5), 5, b"", b"jour", 31),
    (
        "render",
        EIGHT_SILENT,
        (0, 1, 0),
        0,
        b"",
        b"tile 0 parcels 8 sets 0 looks 0\njournal 0\nframes 0\n",
        44,
    ),
    ("render", EIGHT_SILENT, (0, 1, 1), 8, b"", b"", 44),
];

// Whether the case's run leaves what it says.
fn is_left(rt: &impl Host, alloc: Global, case: &Case) -> bool {
    let (job, input, fails, status, image, notes, taken) = *case;
    let mut left = left_by(rt, alloc, &[job], input, 1, fails);
    left.is(status, image, notes)
        && has_left(alloc, &mut left.source, &input[taken.min(input.len())..])
}

#[test]
fn the_first_refusal_is_told(rt: HostRuntime) {
    for case in &CASES {
        assert!(rt; is_left(&rt, rt.alloc(), case));
    }
}
