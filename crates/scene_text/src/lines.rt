//! The lines of a text, one after the other, and the tests on a whole line.
ghost use Rattle.std.specs.Prelude.{◌≡◌, ◌<◌, ◌∷◌, length};
ghost use Rattle.std.specs.Str.Lines.{lines, strip_carriage_return};
ghost use Rattle.scene_text.specs.Text.Read.{is_text, is_skipped, is_comment, has_no_word, words_of};

use crate::words::{find_byte, next_word};

/// A line without a carriage return at its end.
fn without_return(line: &[u8]) -> &[u8]
    ensures { result.now ≡ strip_carriage_return line.now }
{
    if line.len() > 0 && line[line.len() - 1] == b'\r' {
        &line[..line.len() - 1]
    } else {
        line
    }
}

/// The first line of a text and what follows it.
#[tactic(auto, using(crate::proofs::CutLinesAndWords::line_before, crate::proofs::CutLinesAndWords::line_last))]
pub(crate) fn first_line(text: &[u8]) -> (&[u8], &[u8])
    requires { 0 < length text.now }
    ensures first { lines text.now ≡ result.0.now ∷ lines result.1.now }
    ensures shorter { length result.1.now < length text.now }
{
    match find_byte(text, b'\n') {
        Some(end) => (without_return(&text[..end]), &text[end + 1..]),
        None => (text, &text[text.len()..]),
    }
}

/// Each byte is a printing character of ASCII or a space.
pub(crate) fn is_text(line: &[u8]) -> bool
    ensures { result ≡ is_text line.now }
{
    line.iter().all(|b| 32 <= *b && *b <= 126)
}

/// The line begins with `#` or has no word.
pub(crate) fn is_skipped(line: &[u8]) -> bool
    ensures { result ≡ is_skipped line.now }
{
    is_comment(line) || has_no_word(line)
}

fn is_comment(line: &[u8]) -> bool
    ensures { result ≡ is_comment line.now }
{
    line.len() > 0 && line[0] == b'#'
}

fn has_no_word(line: &[u8]) -> bool
    ensures { result ≡ has_no_word (words_of line.now) }
{
    next_word(line).is_none()
}
