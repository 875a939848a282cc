//! The reader of payloads: the numbers of a command, each as its range says, and then the texels of its picture.
ghost use Rattle.std.specs.Prelude.{◌≤◌, ◌<◌, length, take};
ghost use Rattle.rc_base.specs.Formats.Commands.{ranges_of, has_picture};
ghost use Rattle.command_table.specs.Ranges.{AreIn};
ghost use Rattle.packet_bytes.specs.Parts.{read_number, read_numbers, texel_count};
ghost use Rattle.byte_codec.specs.Reading.{Gives, Reads, take_bytes};
ghost use Rattle.packet_bytes.specs.Packets.{IsAdded, IsAddedOrNone, read_command};

use crate::packets::HoldsCommands;
use crate::short_payload::read_short;
use byte_codec::fault::{Form, ReadError};
use byte_codec::fields::{read_byte, read_half, read_word, take_bytes};
use command_table::parts::Numbers;
use command_table::{command_of, has_picture, picture_area, ranges_of};
use rc_base::command::{Command, NumberRange, Opcode, Texels};
use std::alloc::Global;

// The bytes of the longest payload of a block's command, a Vertex: of so many, each of them is read without a look at how many are left.
const LONGEST: usize = 16;

#[inline(always)]
fn read_number(range: NumberRange, bytes: &[u8]) -> Result<(i32, &[u8]), Form>
    ensures { Reads (λ x. (x.0, x.1.now)) result (read_number range bytes.now) }
{
    match range {
        NumberRange::Byte => {
            let (number, rest) = read_byte(bytes)?;
            Ok((i32::from(number), rest))
        }
        NumberRange::Half => {
            let (number, rest) = read_half(bytes)?;
            Ok((i32::from(number), rest))
        }
        NumberRange::Word => read_word(bytes),
    }
}

/// Puts the numbers of these ranges to the front of the room.
#[inline(always)]
fn read_numbers<'a>(
    ranges: &[NumberRange],
    room: &mut Numbers,
    bytes: &'a [u8],
) -> Result<&'a [u8], Form>
    requires { length ranges.now ≤ 16 }
    ensures { Reads (λ rest. (take (length ranges.now) room.new, rest.now)) result (read_numbers ranges.now bytes.now) }
{
    let mut rest = bytes;
    for i in 0..ranges.len() {
        let (number, after) = read_number(ranges[i], rest)?;
        room[i] = number;
        rest = after;
    }
    Ok(rest)
}

/// The texels of a command's picture, whose sides are its last two numbers: four bytes each, and none where it has no picture.
fn read_texels<'a>(
    alloc: Global,
    opcode: Opcode,
    numbers: &[i32],
    bytes: &'a [u8],
) -> Result<(Texels, &'a [u8]), ReadError>
    requires { AreIn (ranges_of opcode) numbers.now }
    ensures { Gives (λ x. (x.0, x.1.now)) result (take_bytes (texel_count (has_picture opcode) numbers.now) bytes.now) }
{
    if !has_picture(opcode) {
        return Ok((Texels::new(alloc), bytes));
    }
    let (texels, rest) = take_bytes(4 * picture_area(numbers) as usize, bytes)?;
    Ok((Texels::from_slice(alloc, texels)?, rest))
}

/// Adds a command that is one of a block: where it gives nothing, nothing is added. It is inlined where the opcode is known.
#[inline(always)]
fn add_known<'a, L: HoldsCommands>(
    commands: &mut L,
    opcode: Opcode,
    bytes: &'a [u8],
) -> Option<&'a [u8]>
    requires { 0 < L.room commands.old }
    ensures { IsAddedOrNone L.items L.room L.held (λ rest. rest.now) commands.old commands.new
        result (read_command opcode bytes.now) }
{
    match read_short(opcode, bytes) {
        Some(Ok((command, rest))) => match commands.add(command) {
            Ok(()) => Some(rest),
            Err(_) => None,
        },
        _ => None,
    }
}

/// Adds the command of an opcode whose payload stands at the front, where it is one of a block and its bytes aren't among the last ones, and gives the
/// bytes behind it; otherwise nothing is added. Each opcode has a branch of its own.
#[inline(always)]
pub(crate) fn add_short<'a, L: HoldsCommands>(
    commands: &mut L,
    opcode: Opcode,
    bytes: &'a [u8],
) -> Option<&'a [u8]>
    requires { 0 < L.room commands.old }
    ensures { IsAddedOrNone L.items L.room L.held (λ rest. rest.now) commands.old commands.new
        result (read_command opcode bytes.now) }
{
    if bytes.len() < LONGEST {
        return None;
    }
    match opcode {
        Opcode::Vertex => add_known::<L>(commands, Opcode::Vertex, bytes),
        Opcode::Color => add_known::<L>(commands, Opcode::Color, bytes),
        Opcode::TexCoord => add_known::<L>(commands, Opcode::TexCoord, bytes),
        Opcode::Begin => add_known::<L>(commands, Opcode::Begin, bytes),
        Opcode::End => add_known::<L>(commands, Opcode::End, bytes),
        _ => None,
    }
}

/// Adds the command of an opcode, by the table. It is inlined where the opcode is known, and there only this opcode's row is left of the table.
#[inline(always)]
fn add_any<'a, L: HoldsCommands>(
    commands: &mut L,
    alloc: Global,
    opcode: Opcode,
    bytes: &'a [u8],
) -> Result<&'a [u8], ReadError>
    requires { 0 < L.room commands.old }
    ensures { IsAdded L.items L.room L.held (λ rest. rest.now) commands.old commands.new
        result (read_command opcode bytes.now) }
{
    if let Some(read) = read_short(opcode, bytes) {
        let (command, rest) = read?;
        commands.add(command)?;
        return Ok(rest);
    }
    let ranges = ranges_of(opcode);
    let mut room = [0; 16];
    let rest = read_numbers(ranges, &mut room, bytes)?;
    let numbers = &room[..ranges.len()];
    let (texels, rest) = read_texels(alloc, opcode, numbers, rest)?;
    let command = command_of(opcode, numbers, texels);
    commands.add(command)?;
    Ok(rest)
}

/// Adds the command of an opcode whose payload stands at the front, and gives the bytes behind it. Each opcode that streams have much of has a branch of its
/// own, so its row of the table is read when this is compiled.
#[inline(always)]
pub fn add_command<'a, L: HoldsCommands>(
    commands: &mut L,
    alloc: Global,
    opcode: Opcode,
    bytes: &'a [u8],
) -> Result<&'a [u8], ReadError>
    requires { 0 < L.room commands.old }
    ensures { IsAdded L.items L.room L.held (λ rest. rest.now) commands.old commands.new
        result (read_command opcode bytes.now) }
{
    match opcode {
        Opcode::Begin => add_any::<L>(commands, alloc, Opcode::Begin, bytes),
        Opcode::End => add_any::<L>(commands, alloc, Opcode::End, bytes),
        Opcode::Vertex => add_any::<L>(commands, alloc, Opcode::Vertex, bytes),
        Opcode::Color => add_any::<L>(commands, alloc, Opcode::Color, bytes),
        Opcode::TexCoord => add_any::<L>(commands, alloc, Opcode::TexCoord, bytes),
        Opcode::Enable => add_any::<L>(commands, alloc, Opcode::Enable, bytes),
        Opcode::Disable => add_any::<L>(commands, alloc, Opcode::Disable, bytes),
        Opcode::LoadMatrix => add_any::<L>(commands, alloc, Opcode::LoadMatrix, bytes),
        Opcode::DepthFunc => add_any::<L>(commands, alloc, Opcode::DepthFunc, bytes),
        Opcode::BlendFunc => add_any::<L>(commands, alloc, Opcode::BlendFunc, bytes),
        Opcode::BindTexture => add_any::<L>(commands, alloc, Opcode::BindTexture, bytes),
        Opcode::Barrier => add_any::<L>(commands, alloc, Opcode::Barrier, bytes),
        Opcode::SemP => add_any::<L>(commands, alloc, Opcode::SemP, bytes),
        Opcode::SemV => add_any::<L>(commands, alloc, Opcode::SemV, bytes),
        Opcode::Swap => add_any::<L>(commands, alloc, Opcode::Swap, bytes),
        _ => add_any::<L>(commands, alloc, opcode, bytes),
    }
}
