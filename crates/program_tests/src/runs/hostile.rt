//! Inputs made to be hard: of just the most bytes and of one more, of endless lines, and of frames that fill what may be held.
use super::{Host, finish_on, sink};
use rc_base::in_memory::{QuietSink, QuietSource};
use std::alloc::Global;
use std::process::Abort;

// So many bytes of one value.
fn filled(rt: &impl Abort, alloc: Global, len: usize, byte: u8) -> Vec<u8> {
    let mut bytes = Vec::new(alloc);
    bytes.resize(len, byte).expect(rt, "memory");
    bytes
}

// A text, and then a word so many times.
fn repeated(rt: &impl Abort, alloc: Global, front: &[u8], word: &[u8], times: usize) -> Vec<u8> {
    let mut text = Vec::from_slice(alloc, front).expect(rt, "memory");
    for _ in 0..times {
        text.extend_from_slice(word).expect(rt, "memory");
    }
    text
}

// A run with these words that ends with this status and notes these lines, and whose image stays empty.
fn notes(
    rt: &impl Host,
    alloc: Global,
    job: &[&str],
    input: &[u8],
    status: u8,
    lines: &str,
) -> bool {
    let mut source = QuietSource::new(alloc, input, 1048576).expect(rt, "memory");
    let mut image = sink(rt, alloc, 64, &[]);
    let mut notes = sink(rt, alloc, 64, &[]);
    let finish = finish_on(rt, alloc, job, &mut source, &mut image, &mut notes);
    finish.status == status && image.bytes().is_empty() && notes.bytes() == lines.as_bytes()
}

// Whether each of these jobs refuses so many bytes of one value with its status and line.
fn refuse_filled(
    rt: &impl Host,
    alloc: Global,
    len: usize,
    byte: u8,
    rows: &[(&str, u8, &str)],
) -> bool {
    let bytes = filled(rt, alloc, len, byte);
    for (job, status, line) in rows {
        if !notes(rt, alloc, &[*job], bytes.as_slice(), *status, *line) {
            return false;
        }
    }
    true
}

const PAST: &str = "rc: limit scene bytes 33554433\n";

const NO_MAGIC: &str = "rc: malformed BadMagic at 0\n";

const AT_THE_LIMIT: [(usize, u8, &[(&str, u8, &str)]); 3] = [
    (
        33554433,
        0,
        &[("render", 4, PAST), ("pack", 4, PAST), ("unpack", 4, PAST)],
    ),
    (
        33554432,
        0,
        &[
            ("render", 3, NO_MAGIC),
            ("unpack", 3, NO_MAGIC),
            ("pack", 3, "rc: malformed NotText at 1\n"),
        ],
    ),
    (
        33554432,
        b' ',
        &[("pack", 3, "rc: malformed NoScene at 1\n")],
    ),
];

#[test]
fn inputs_end_at_the_limit(rt: HostRuntime) {
    for (len, byte, jobs) in &AT_THE_LIMIT {
        assert!(rt; refuse_filled(&rt, rt.alloc(), *len, *byte, *jobs));
    }
}

// A text with a word a million times that is refused with this line.
fn refuses_words(rt: &impl Host, alloc: Global, front: &[u8], word: &[u8], line: &str) -> bool {
    let text = repeated(rt, alloc, front, word, 1000000);
    notes(rt, alloc, &["pack"], text.as_slice(), 3, line)
}

const WRONG_COUNT: &str = "rc: malformed WrongCount at 3\n";

const MILLIONS: [(&[u8], &[u8], &str); 4] = [
    (b"scene 1 1 1\nclient\nClear", b" 1", WRONG_COUNT),
    (b"scene 1 1 1\nclient\n", b"Swap ", WRONG_COUNT),
    (b"", b"a ", "rc: malformed UnknownWord at 1\n"),
    (b"", b"#\n", "rc: malformed NoScene at 1\n"),
];

#[test]
fn lines_of_a_million_words_are_told(rt: HostRuntime) {
    for (front, word, line) in &MILLIONS {
        assert!(rt; refuses_words(&rt, rt.alloc(), *front, *word, *line));
    }
}

// The scene of so many Swaps in a window of 2048 by 2048.
fn swaps(rt: &impl Abort, alloc: Global, count: u16) -> Vec<u8> {
    let front = b"RCS1\x00\x08\x00\x08\x01\x00\x00\x00";
    let mut bytes = Vec::from_slice(alloc, front).expect(rt, "memory");
    let length = u32::from(count).saturating_add(2);
    bytes
        .extend_from_slice(&length.to_le_bytes())
        .expect(rt, "memory");
    bytes
        .extend_from_slice(&count.to_le_bytes())
        .expect(rt, "memory");
    for _ in 0..count {
        bytes.push(0x24).expect(rt, "memory");
    }
    bytes
}

// The status and the notes of `render` on the scene of so many Swaps, whose frames go where nothing is kept.
fn renders_swaps(rt: &impl Host, alloc: Global, count: u16, lines: &str) -> bool {
    let scene = swaps(rt, alloc, count);
    let mut source = QuietSource::new(alloc, scene.as_slice(), 1048576).expect(rt, "memory");
    let mut image = QuietSink::new();
    let mut notes = sink(rt, alloc, 64, &[]);
    let finish = finish_on(rt, alloc, &["render"], &mut source, &mut image, &mut notes);
    finish.status == 0 && notes.bytes() == lines.as_bytes()
}

// `render` writes each frame once it is shown, and may show more of the largest window than may be held.
#[test]
fn nine_frames_of_the_largest_window_are_rendered(rt: HostRuntime) {
    let lines = "tile 0 parcels 10 sets 0 looks 0\njournal 9\nframes 9\n";
    assert!(rt; renders_swaps(&rt, rt.alloc(), 9, lines));
}
