//! The values of options: numbers and pairs of numbers.
ghost use Rattle.std.specs.Prelude.{◌≡◌, ℕ, ◌<◌, ◌^◌, ◌++◌, codes, MatchOption};
ghost use Rattle.std.specs.Str.{all_ascii_digits};
ghost use Rattle.std.specs.Fmt.{decimal};
ghost use Rattle.command_line.specs.Values.{is_plain};

fn all_digits(bytes: &[u8]) -> bool
    ensures { result ≡ all_ascii_digits bytes.now }
{
    for byte in bytes {
        if !byte.is_ascii_digit() {
            return false;
        }
    }
    true
}

fn is_plain(bytes: &[u8]) -> bool
    ensures { result ≡ is_plain bytes.now }
{
    match bytes {
        [] => false,
        [first, rest @ ..] => all_digits(bytes) && (*first != b'0' || rest.len() == 0),
    }
}

/// The number below 2^64 that the text spells: `0`, or digits without a leading zero.
pub(crate) fn number(text: &str) -> Option<u64>
    ensures { MatchOption result ((n : ℕ) → n < 2 ^ 64 → text.now ≡ decimal n → ⊥)
        (λ n. text.now ≡ decimal n) }
{
    if !is_plain(text.as_bytes()) {
        return None;
    }
    text.parse::<u64>().ok()
}

/// The columns and rows of tiles that the text spells: two numbers parted by `x`.
pub(crate) fn tiles(text: &str) -> Option<(u64, u64)>
    ensures { MatchOption result
        ((c r : ℕ) → c < 2 ^ 64 → r < 2 ^ 64 → text.now ≡ decimal c ++ (codes "x" ++ decimal r) → ⊥)
        (λ t. text.now ≡ decimal t.0 ++ (codes "x" ++ decimal t.1)) }
{
    let (columns, rows) = text.split_once('x')?;
    let columns = number(columns)?;
    let rows = number(rows)?;
    Some((columns, rows))
}
