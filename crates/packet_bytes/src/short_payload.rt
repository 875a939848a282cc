//! The payloads of the commands that blocks are made of, which are most of a stream: read field by field, and not by the table.
ghost use Rattle.std.specs.Prelude.{◌≡◌, IfSome};
ghost use Rattle.rc_base.specs.declared.command.Opcode.TheVariants as op;
ghost use Rattle.byte_codec.specs.Reading.{Reads};
ghost use Rattle.packet_bytes.specs.Packets.{read_command};

use byte_codec::fault::Form;
use byte_codec::fields::{read_byte, read_word};
use rc_base::command::{Command, Opcode, Rgba};

#[inline(always)]
fn read_begin(bytes: &[u8]) -> Result<(Command, &[u8]), Form>
    ensures { Reads (λ x. (x.0, x.1.now)) result (read_command op.Begin bytes.now) }
{
    let (mode, rest) = read_byte(bytes)?;
    Ok((Command::Begin { mode }, rest))
}

#[inline(always)]
fn read_vertex(bytes: &[u8]) -> Result<(Command, &[u8]), Form>
    ensures { Reads (λ x. (x.0, x.1.now)) result (read_command op.Vertex bytes.now) }
{
    let (x, rest) = read_word(bytes)?;
    let (y, rest) = read_word(rest)?;
    let (z, rest) = read_word(rest)?;
    let (w, rest) = read_word(rest)?;
    let pos = [x, y, z, w];
    Ok((Command::Vertex { pos }, rest))
}

#[inline(always)]
fn read_color(bytes: &[u8]) -> Result<(Command, &[u8]), Form>
    ensures { Reads (λ x. (x.0, x.1.now)) result (read_command op.Color bytes.now) }
{
    let (r, rest) = read_byte(bytes)?;
    let (g, rest) = read_byte(rest)?;
    let (b, rest) = read_byte(rest)?;
    let (a, rest) = read_byte(rest)?;
    Ok((Command::Color(Rgba { r, g, b, a }), rest))
}

#[inline(always)]
fn read_coordinate(bytes: &[u8]) -> Result<(Command, &[u8]), Form>
    ensures { Reads (λ x. (x.0, x.1.now)) result (read_command op.TexCoord bytes.now) }
{
    let (s, rest) = read_word(bytes)?;
    let (t, rest) = read_word(rest)?;
    Ok((Command::TexCoord { s, t }, rest))
}

#[inline(always)]
fn read_end(bytes: &[u8]) -> Result<(Command, &[u8]), Form>
    ensures { Reads (λ x. (x.0, x.1.now)) result (read_command op.End bytes.now) }
{
    Ok((Command::End, bytes))
}

/// The command of an opcode whose payload stands at the front, where it is one of a block, and the bytes behind it. It is inlined where the opcode is
/// known.
#[inline(always)]
pub(crate) fn read_short(opcode: Opcode, bytes: &[u8]) -> Option<Result<(Command, &[u8]), Form>>
    ensures { IfSome result (λ r. Reads (λ x. (x.0, x.1.now)) r (read_command opcode bytes.now)) }
{
    match opcode {
        Opcode::Begin => Some(read_begin(bytes)),
        Opcode::End => Some(read_end(bytes)),
        Opcode::Vertex => Some(read_vertex(bytes)),
        Opcode::Color => Some(read_color(bytes)),
        Opcode::TexCoord => Some(read_coordinate(bytes)),
        _ => None,
    }
}
