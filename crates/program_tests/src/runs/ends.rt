//! What no clause sees of a run: which calls of its ends it makes, and in which sequence.
ghost use Rattle.std.specs.Prelude.{None};

use super::{Host, finish_by, finish_on, has_left, sink, source_of, whole_ends};
use rc_base::gate::{Actor, Gate};
use rc_base::in_memory::QuietSource;
use rc_base::outside::{Failed, Sink, Source};
use std::alloc::Global;
use std::sync::atomic::{AtomicU64, Ordering};
use test_scenes::{RED_CLEAR, RED_CLEAR_TEXT, RED_FRAME};

// A gate that counts its passes.
#[derive(Drop)]
struct CountingGate {
    passes: AtomicU64,
}

impl Gate for CountingGate {
    fn pass(&self, _who: Actor, _turn: u64) {
        self.passes.fetch_add(1, Ordering::SeqCst);
    }
}

// How often a job passes its gate.
fn passes(rt: &impl Host, alloc: Global, job: &[&str], input: &[u8]) -> u64 {
    let gate = CountingGate {
        passes: AtomicU64::new(0),
    };
    let mut left = whole_ends(rt, alloc, input);
    let _ = finish_by(
        rt,
        alloc,
        job,
        &mut left.source,
        &mut left.image,
        &mut left.notes,
        &gate,
    );
    gate.passes.load(Ordering::SeqCst)
}

const WITHOUT_THREADS: [(&[&str], &[u8]); 6] = [
    (&["simulate", "--seed", "1"], &RED_CLEAR),
    (&["serial"], &RED_CLEAR),
    (&["check"], &RED_CLEAR),
    (&["pack"], RED_CLEAR_TEXT),
    (&["unpack"], &RED_CLEAR),
    (&["draw"], &RED_CLEAR),
];

#[test]
fn jobs_without_threads_pass_no_gate(rt: HostRuntime) {
    for (job, input) in &WITHOUT_THREADS {
        assert!(rt; passes(&rt, rt.alloc(), *job, *input) == 0);
    }
}

// A source that ends, and goes on behind its end, as a terminal does. So it can't tell its bytes.
#[derive(Drop)]
struct Terminal {
    before: QuietSource,
    behind: QuietSource,
    has_ended: bool,
}

impl Source for Terminal {
    ghost left = { λ _. None };

    ghost faults = { λ _. 0 };

    fn take(&mut self, into: &mut [u8]) -> Result<usize, Failed> {
        if self.has_ended {
            return self.behind.take(into);
        }
        let count = self.before.take(into)?;
        self.has_ended = count == 0;
        Ok(count)
    }
}

// A job, what its source gives before its end and behind it, and the status, image and notes that are left.
type Row = (
    &'static [&'static str],
    &'static [u8],
    &'static [u8],
    u8,
    &'static [u8],
    &'static [u8],
);

// The red clear without its last byte, and that byte.
const FRONT: &[u8] = b"RCS1\x02\0\x02\0\x01\0\0\0\x0a\0\0\0\x03\0\x16\x18\x24\xff\0\0\xff";

const LAST: &[u8] = b"\x01";

const CUT: &[u8] = b"rc: malformed Truncated at 25\n";

const REPORT: &[u8] = b"tile 0 parcels 3 sets 1 looks 15\njournal 1\nframes 1\n";

const SHORT_REPORT: &[u8] = b"journal 1\nframes 1\n";

// With what comes behind it each of these inputs would be another one: two scenes, a whole scene, two swaps.
const ROWS: [Row; 10] = [
    (&["render"], &RED_CLEAR, &RED_CLEAR, 0, RED_FRAME, REPORT),
    (&["render"], FRONT, LAST, 3, b"", CUT),
    (
        &["simulate", "--seed", "1"],
        &RED_CLEAR,
        &RED_CLEAR,
        0,
        RED_FRAME,
        REPORT,
    ),
    (
        &["serial"],
        &RED_CLEAR,
        &RED_CLEAR,
        0,
        RED_FRAME,
        SHORT_REPORT,
    ),
    (&["check"], &RED_CLEAR, &RED_CLEAR, 0, b"", SHORT_REPORT),
    (
        &["check"],
        b"",
        &RED_CLEAR,
        3,
        b"",
        b"rc: malformed Truncated at 0\n",
    ),
    (&["pack"], RED_CLEAR_TEXT, b"Swap\n", 0, &RED_CLEAR, b""),
    (
        &["pack"],
        b"",
        RED_CLEAR_TEXT,
        3,
        b"",
        b"rc: malformed NoScene at 1\n",
    ),
    (&["unpack"], &RED_CLEAR, b"\0", 0, RED_CLEAR_TEXT, b""),
    (&["unpack"], FRONT, LAST, 3, b"", CUT),
];

// Whether a run leaves this, and all that its source has behind the end.
fn stops_at_the_end(rt: &impl Host, alloc: Global, row: &Row) -> bool {
    let (job, before, behind, status, image, notes) = *row;
    let mut source = Terminal {
        before: QuietSource::new(alloc, before, 1).expect(rt, "memory"),
        behind: QuietSource::new(alloc, behind, 64).expect(rt, "memory"),
        has_ended: false,
    };
    let mut given = sink(rt, alloc, 1, &[]);
    let mut told = sink(rt, alloc, 1, &[]);
    let finish = finish_on(rt, alloc, job, &mut source, &mut given, &mut told);
    finish.status == status
        && given.bytes() == image
        && told.bytes() == notes
        && source.has_ended
        && has_left(alloc, &mut source.behind, behind)
}

#[test]
fn an_input_ends_at_its_first_end(rt: HostRuntime) {
    for row in &ROWS {
        assert!(rt; stops_at_the_end(&rt, rt.alloc(), row));
    }
}

// An image that takes one byte a put, and counts them where the notes see it.
#[derive(Drop)]
struct CountingImage<'a> {
    taken: &'a AtomicU64,
}

impl<'a> Sink for CountingImage<'a> {
    ghost held = { λ _. None };

    ghost faults = { λ _. 0 };

    fn put(&mut self, piece: &[u8]) -> Result<usize, Failed> {
        self.taken.fetch_add(1, Ordering::SeqCst);
        Ok(piece.len().min(1))
    }
}

// Notes that remember how much the image had taken when they were first called.
#[derive(Drop)]
struct WatchingNotes<'a> {
    image: &'a AtomicU64,
    begun: Option<u64>,
}

impl<'a> Sink for WatchingNotes<'a> {
    ghost held = { λ _. None };

    ghost faults = { λ _. 0 };

    fn put(&mut self, piece: &[u8]) -> Result<usize, Failed> {
        if self.begun == None {
            self.begun = Some(self.image.load(Ordering::SeqCst));
        }
        Ok(piece.len())
    }
}

// How much the image had taken when the notes were first called, and how much it took in all.
fn taken(rt: &impl Host, alloc: Global, job: &[&str], input: &[u8]) -> (Option<u64>, u64) {
    let count = AtomicU64::new(0);
    let mut source = source_of(rt, alloc, input, &[]);
    let mut image = CountingImage { taken: &count };
    let mut notes = WatchingNotes {
        image: &count,
        begun: None,
    };
    let _ = finish_on(rt, alloc, job, &mut source, &mut image, &mut notes);
    (notes.begun, count.load(Ordering::SeqCst))
}

// A job, its input, and how much the image has taken when the notes begin and in all.
const BEGUN: [(&[&str], &[u8], Option<u64>, u64); 7] = [
    (&["render"], &RED_CLEAR, Some(23), 23),
    (&["simulate", "--seed", "1"], &RED_CLEAR, Some(23), 23),
    (&["serial"], &RED_CLEAR, Some(23), 23),
    (&["check"], &RED_CLEAR, Some(0), 0),
    (&["pack"], RED_CLEAR_TEXT, None, 26),
    (&["unpack"], &RED_CLEAR, None, 55),
    (&["unpack"], RED_CLEAR_TEXT, Some(0), 0),
];

#[test]
fn notes_begin_behind_the_whole_image(rt: HostRuntime) {
    for (job, input, begun, whole) in &BEGUN {
        assert!(rt; taken(&rt, rt.alloc(), *job, *input) == (*begun, *whole));
    }
}
