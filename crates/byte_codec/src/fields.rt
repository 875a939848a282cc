//! Readers of single fields: each takes what it needs from the front and gives the bytes behind it. Numbers have their low byte first.
ghost use Rattle.std.specs.Prelude.{◌≡◌};
ghost use Rattle.std.specs.Int.{w16, w32};
ghost use Rattle.byte_codec.specs.Reading.{Reads, read_byte, read_unsigned, read_word, take_bytes};

use crate::fault::Form;

/// A number of 8 bits.
pub fn read_byte(bytes: &[u8]) -> Result<(u8, &[u8]), Form>
    ensures { Reads (λ x. (x.0, x.1.now)) result (read_byte bytes.now) }
{
    match bytes {
        [] => Err(Form::Truncated),
        [first, rest @ ..] => Ok((*first, rest)),
    }
}

/// A number of 16 bits.
pub fn read_half(bytes: &[u8]) -> Result<(u16, &[u8]), Form>
    ensures { Reads (λ x. (x.0, x.1.now)) result (read_unsigned w16 bytes.now) }
{
    if bytes.len() < 2 {
        return Err(Form::Truncated);
    }
    let (front, rest) = bytes.split_at(2);
    Ok((u16::from_le_bytes([front[0], front[1]]), rest))
}

/// A number of 32 bits.
pub fn read_long(bytes: &[u8]) -> Result<(u32, &[u8]), Form>
    ensures { Reads (λ x. (x.0, x.1.now)) result (read_unsigned w32 bytes.now) }
{
    if bytes.len() < 4 {
        return Err(Form::Truncated);
    }
    let (front, rest) = bytes.split_at(4);
    let number = u32::from_le_bytes([front[0], front[1], front[2], front[3]]);
    Ok((number, rest))
}

/// A signed number of 32 bits, in two's complement.
pub fn read_word(bytes: &[u8]) -> Result<(i32, &[u8]), Form>
    ensures { Reads (λ x. (x.0, x.1.now)) result (read_word bytes.now) }
{
    if bytes.len() < 4 {
        return Err(Form::Truncated);
    }
    let (front, rest) = bytes.split_at(4);
    let number = i32::from_le_bytes([front[0], front[1], front[2], front[3]]);
    Ok((number, rest))
}

/// So many bytes, as they stand.
pub fn take_bytes(count: usize, bytes: &[u8]) -> Result<(&[u8], &[u8]), Form>
    ensures { Reads (λ x. (x.0.now, x.1.now)) result (take_bytes count bytes.now) }
{
    if bytes.len() < count {
        return Err(Form::Truncated);
    }
    Ok(bytes.split_at(count))
}
