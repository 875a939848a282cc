//! Scenes with call lists, each against the scene of version 2 that it stands for.
mod cases;
mod meanings;
mod random;
mod replaced;
mod spelled;

use super::Left;

// The six jobs that read and draw or judge a scene.
const JOBS: [&[&str]; 6] = [
    &["render"],
    &["simulate", "--seed", "3"],
    &["serial"],
    &["check"],
    &["race"],
    &["last"],
];

// Whether the text is these pieces, one behind the other.
fn is_joined(text: &[u8], pieces: &[&[u8]]) -> bool {
    let mut rest = text;
    for piece in pieces {
        match rest.strip_prefix(*piece) {
            Some(behind) => rest = behind,
            None => return false,
        }
    }
    rest.is_empty()
}

// What is left of a scene with call lists is what the other run leaves of its meaning, behind the lines of refused list commands, which a scene that isn't
// for `last` doesn't tell.
fn is_alike(left: &Left, other: &Left, refused: &[u8]) -> bool {
    let front: &[u8] = if other.status == 12 { b"" } else { refused };
    left.status == other.status
        && left.image.bytes() == other.image.bytes()
        && is_joined(left.notes.bytes(), &[front, other.notes.bytes()])
}
