//! Texels of a line, two hexadecimal digits for each byte.
ghost use Rattle.std.specs.Prelude.{◌≡◌, ◌*◌, ◌^◌, ◌<◌, ◌≤◌, length, IfOk, IfSome, Some, None, if◌then◌else◌};
ghost use Rattle.scene_text.specs.Text.Read.{hex_value, hex_pair, hex_bytes, spelled_texels};

use rc_base::command::Texels;
use rc_base::out_of_memory::OutOfMemory;
use std::alloc::Global;

/// The value of a digit of either case.
fn hex_value(digit: u8) -> Option<u8>
    ensures value { result ≡ hex_value digit }
    ensures small { IfSome result (λ v. v < 16) }
{
    if 48 <= digit && digit <= 57 {
        Some(digit - 48)
    } else if 97 <= digit && digit <= 102 {
        Some(digit - 87)
    } else if 65 <= digit && digit <= 70 {
        Some(digit - 55)
    } else {
        None
    }
}

fn hex_pair(high: u8, low: u8) -> Option<u8>
    ensures { result ≡ hex_pair (hex_value high) (hex_value low) }
{
    match (hex_value(high), hex_value(low)) {
        (Some(high), Some(low)) => Some(high * 16 + low),
        _ => None,
    }
}

/// The bytes of a word of digits.
fn hex_bytes(alloc: Global, word: &[u8]) -> Result<Option<Texels>, OutOfMemory>
    ensures { IfOk result (λ texels. texels ≡ hex_bytes word.now) }
{
    let mut bytes = Texels::new(alloc);
    let mut digits = word;
    while let [high, low, rest @ ..] = digits {
        match hex_pair(*high, *low) {
            None => return Ok(None),
            Some(byte) => bytes.push(byte)?,
        }
        digits = rest;
    }
    if digits.len() == 0 {
        Ok(Some(bytes))
    } else {
        Ok(None)
    }
}

/// The texels of a picture of so many texels, in a word of 8 digits for each.
pub(crate) fn spelled_texels(
    alloc: Global,
    area: u64,
    word: &[u8],
) -> Result<Option<Texels>, OutOfMemory>
    ensures { IfOk result (λ texels. texels ≡ spelled_texels area word.now) }
{
    let length = word.len() as u64;
    if length / 8 == area && length % 8 == 0 {
        hex_bytes(alloc, word)
    } else {
        Ok(None)
    }
}
