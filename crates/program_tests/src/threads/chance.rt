//! Scenes by chance in a window of 16 by 8, and the frames of their images.
use std::process::Abort;

pub(super) const WIDTH: usize = 16;

pub(super) const HEIGHT: usize = 8;

// The next number of a simple generator.
pub(super) fn next(state: u32) -> u32 {
    state.wrapping_mul(1_664_525).wrapping_add(1_013_904_223)
}

// A coordinate between -1.5 and 1.5.
pub(super) fn coordinate(state: u32) -> i64 {
    (state >> 8) as i64 % 196_608 - 98_304
}

pub(super) fn add(rt: &impl Abort, text: &mut Vec<u8>, line: &[u8]) {
    text.extend_from_slice(line).expect(rt, "memory");
}

// The r, g, b bytes of a frame in the text of all.
pub(super) fn shown_in(image: &[u8], frame: usize) -> &[u8] {
    let header = b"P6\n16 8\n255\n".len();
    let size = 3 * WIDTH * HEIGHT;
    let first = frame % 8 * (header + size) + header;
    match image.get(first..first + size) {
        Some(bytes) => bytes,
        None => &[],
    }
}
