//! The numbers of a line.
ghost use Rattle.std.specs.Prelude.{◌≡◌, ℕ, ◌+◌, ◌^◌, ◌<◌, ◌≤◌, true, length, take, drop, IfSome, MatchOption, Some, None, FitsSigned};
ghost use Rattle.std.specs.Int.{w32};
ghost use Rattle.scene_text.specs.Reading.{first_number};
ghost use Rattle.std.specs.Str.{all_ascii_digits};
ghost use Rattle.std.specs.Str.Parse.{digits_value};
ghost use Rattle.rc_base.specs.Formats.Commands.{is_in_range};
ghost use Rattle.scene_text.specs.Text.Read.{magnitude_of, spelled_number, is_negative, reads_as, numbers_of, words_of};

use crate::words::next_word;
use rc_base::command::NumberRange;

fn all_digits(bytes: &[u8]) -> bool
    ensures { result ≡ all_ascii_digits bytes.now }
{
    for byte in bytes {
        if !byte.is_ascii_digit() {
            return false;
        }
    }
    true
}

fn digits_value(digits: &[u8]) -> u64
    requires digits { all_ascii_digits digits.now ≡ true }
    requires short { length digits.now ≤ 10 }
    ensures value { result ≡ digits_value 10 digits.now }
    ensures small { result < 10 ^ 10 }
{
    let mut value = 0;
    for digit in digits {
        value = value * 10 + u64::from(*digit - b'0');
    }
    value
}

/// The number of 1 to 10 digits.
fn magnitude_of(digits: &[u8]) -> Option<u64>
    ensures value { result ≡ magnitude_of digits.now }
    ensures small { IfSome result (λ n. n < 10 ^ 10) }
{
    if 1 <= digits.len() && digits.len() <= 10 && all_digits(digits) {
        Some(digits_value(digits))
    } else {
        None
    }
}

fn is_negative(word: &[u8]) -> bool
    ensures { result ≡ is_negative word.now }
{
    word.len() > 0 && word[0] == b'-'
}

/// The number of a word: digits, behind a minus or not.
fn spelled_number(word: &[u8]) -> Option<i64>
    ensures { result ≡ spelled_number word.now }
{
    if is_negative(word) {
        match magnitude_of(&word[1..]) {
            Some(number) => Some(-(number as i64)),
            None => None,
        }
    } else {
        match magnitude_of(word) {
            Some(number) => Some(number as i64),
            None => None,
        }
    }
}

fn is_in_range(range: NumberRange, number: i64) -> bool
    ensures { result ≡ is_in_range range number }
{
    match range {
        NumberRange::Byte => 0 <= number && number <= 255,
        NumberRange::Half => 0 <= number && number <= 65535,
        NumberRange::Word => -2147483648 <= number && number <= 2147483647,
    }
}

/// The number of a word, where it lies in the range.
fn reads_as(range: NumberRange, word: &[u8]) -> Option<i32>
    ensures { result ≡ reads_as range word.now }
{
    match spelled_number(word) {
        Some(number) => {
            if is_in_range(range, number) {
                Some(number as i32)
            } else {
                None
            }
        }
        None => None,
    }
}

/// The first number of a line, in the range, and what follows it.
fn read_number(range: NumberRange, words: &[u8]) -> Option<(i32, &[u8])>
    ensures number { MatchOption result (first_number range (words_of words.now) ≡ None)
        (λ x. (first_number range (words_of words.now) ≡ Some x.0) × (words_of x.1.now ≡ drop 1 (words_of words.now))) }
    ensures fits { IfSome result (λ x. FitsSigned w32 x.0) }
{
    match next_word(words) {
        None => None,
        Some((word, rest)) => match reads_as(range, word) {
            None => None,
            Some(number) => Some((number, rest)),
        },
    }
}

/// Reads a number of each range into `numbers`, and gives what follows them.
pub(crate) fn read_numbers<'a>(
    ranges: &[NumberRange],
    words: &'a [u8],
    numbers: &mut [i32],
) -> Option<&'a [u8]>
    requires { length ranges.now ≤ length numbers.old }
    ensures { MatchOption result (numbers_of ranges.now (take (length ranges.now) (words_of words.now)) ≡ None)
        (λ rest. (numbers_of ranges.now (take (length ranges.now) (words_of words.now)) ≡ Some (take (length ranges.now) numbers.new))
        × (words_of rest.now ≡ drop (length ranges.now) (words_of words.now))) }
{
    let mut rest = words;
    for (i, range) in ranges.iter().enumerate() {
        match read_number(*range, rest) {
            None => return None,
            Some((number, after)) => {
                numbers[i] = number;
                rest = after;
            }
        }
    }
    Some(rest)
}
