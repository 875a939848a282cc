//! The bytes that lines of contents spell.
use crate::refusal::Refusal;
use crate::table::{Form, Line};
use rc_base::command::Bytes;
use std::alloc::Global;

/// That a line is malformed.
pub(crate) fn malformed(line: &Line, why: &'static str) -> Refusal {
    Refusal::Malformed {
        line: line.number,
        why,
    }
}

// Adds the bytes of these digits so many times.
fn add_bytes(
    alloc: Global,
    bytes: &mut Bytes,
    line: &Line,
    digits: &str,
    times: u64,
) -> Result<(), Refusal> {
    let Ok(piece) = hex::decode(alloc, digits) else {
        return Err(malformed(line, "it wants pairs of hexadecimal digits"));
    };
    for _ in 0..times {
        bytes.extend_from_slice(piece.as_slice())?;
    }
    Ok(())
}

// Adds the bytes of a line `x HEX` or `x HEX * N`.
fn add_spelt(alloc: Global, bytes: &mut Bytes, line: &Line) -> Result<(), Refusal> {
    let Some((digits, times)) = line.rest.split_once(" * ") else {
        return add_bytes(alloc, bytes, line, line.rest, 1);
    };
    match times.parse::<u64>() {
        Ok(times) => add_bytes(alloc, bytes, line, digits, times),
        Err(_) => Err(malformed(line, "it wants a number behind *")),
    }
}

/// What the lines of contents at the front spell.
pub(crate) fn contents_of(alloc: Global, lines: &[Line]) -> Result<Bytes, Refusal> {
    let mut bytes = Bytes::new(alloc);
    for line in lines {
        match line.form {
            Form::Text => {
                bytes.extend_from_slice(line.rest.as_bytes())?;
                bytes.push(b'\n')?;
            }
            Form::Bytes => add_spelt(alloc, &mut bytes, line)?,
            _ => break,
        }
    }
    Ok(bytes)
}
