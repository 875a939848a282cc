//! The words of a line, one after the other.
ghost use Rattle.std.specs.Prelude.{◌≡◌, ℕ, ◌+◌, ◌-◌, ◌<◌, ◌≤◌, ◌∷◌, [], false, length, drop, slice_index, IfSome, MatchOption, position, ◌==◌};
ghost use Rattle.scene_text.specs.Text.Read.{words_of, is_space};

/// The first place of a byte.
pub(crate) fn find_byte(bytes: &[u8], byte: u8) -> Option<usize>
    ensures { result ≡ position (λ b. b == byte) bytes.now }
{
    bytes.iter().position(|b| *b == byte)
}

/// A line without the spaces at its front.
fn skip_spaces(line: &[u8]) -> &[u8]
    ensures words { words_of result.now ≡ words_of line.now }
    ensures word { 0 < length result.now → is_space (slice_index result.now 0) ≡ false }
    ensures shorter { length result.now ≤ length line.now }
{
    let mut rest = line;
    while let [b' ', after @ ..] = rest {
        rest = after;
    }
    rest
}

/// The first word and what follows it.
#[tactic(auto, using(crate::proofs::CutLinesAndWords::word_before, crate::proofs::CutLinesAndWords::word_last))]
pub(crate) fn next_word(line: &[u8]) -> Option<(&[u8], &[u8])>
    ensures words { MatchOption result (words_of line.now ≡ []) (λ x. words_of line.now ≡ x.0.now ∷ words_of x.1.now) }
    ensures shorter { IfSome result (λ x. length x.1.now < length line.now) }
{
    let from = skip_spaces(line);
    if from.len() == 0 {
        return None;
    }
    match find_byte(from, b' ') {
        Some(end) => Some((&from[..end], &from[end + 1..])),
        None => Some((from, &from[from.len()..])),
    }
}

/// How many words a line has.
pub(crate) fn count_words(line: &[u8]) -> usize
    ensures { result ≡ length (words_of line.now) }
{
    let mut count = 0;
    let mut rest = line;
    while let Some((_, after)) = next_word(rest) {
        count += 1;
        rest = after;
    }
    count
}

/// What follows so many words.
pub(crate) fn skip_words(line: &[u8], count: usize) -> &[u8]
    ensures { words_of result.now ≡ drop count (words_of line.now) }
{
    let mut rest = line;
    for skipped in 0..count {
        match next_word(rest) {
            None => return rest,
            Some((_, after)) => rest = after,
        }
    }
    rest
}
