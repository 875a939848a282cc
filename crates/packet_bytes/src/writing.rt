//! The writer of streams: packets of 1,024 commands.
ghost use Rattle.std.specs.Prelude.{◌≡◌, ◌<◌, ◌≤◌, ◌++◌, length, map, true, IfOk, OnOk};
ghost use Rattle.std.specs.List.{flat_map, AllByRecursion};
ghost use Rattle.rc_base.specs.Formats.Commands.{is_in_range};
ghost use Rattle.rc_base.specs.Numbers.{entry};
ghost use Rattle.rc_base.specs.Formats.Spelling.{payload, opcode_byte, packet, encoded, SpellsStream};
ghost use Rattle.command_table.specs.Ranges.{AreIn};
ghost use Rattle.packet_bytes.specs.Parts.{number_bytes, numbers_bytes};
ghost use Rattle.packet_bytes.specs.Texels.{HasType, IsWhole};

use byte_codec::writing::{write_bytes, write_half};
use command_table::making::{byte_at, half_at};
use command_table::{opcode_byte, opcode_of, parts_of, ranges_of};
use rc_base::command::{Bytes, Command, Commands, NumberRange};
use rc_base::out_of_memory::OutOfMemory;
use std::alloc::Global;

// Adds number i as the bytes of its range.
fn write_number(
    out: &mut Bytes,
    range: NumberRange,
    numbers: &[i32],
    i: usize,
) -> Result<(), OutOfMemory>
    requires inside { i < length numbers.now }
    requires range { is_in_range range (entry numbers.now i) ≡ true }
    ensures { OnOk result (out.new ≡ out.old ++ number_bytes range (entry numbers.now i)) }
{
    match range {
        NumberRange::Byte => write_bytes(out, &[byte_at(numbers, i)]),
        NumberRange::Half => write_half(out, half_at(numbers, i)),
        NumberRange::Word => write_bytes(out, &numbers[i].to_le_bytes()),
    }
}

fn write_numbers(
    out: &mut Bytes,
    ranges: &[NumberRange],
    numbers: &[i32],
) -> Result<(), OutOfMemory>
    requires { AreIn ranges.now numbers.now }
    ensures { OnOk result (out.new ≡ out.old ++ numbers_bytes ranges.now numbers.now) }
{
    for i in 0..ranges.len() {
        write_number(out, ranges[i], numbers, i)?;
    }
    Ok(())
}

/// Adds the payload of a command: its numbers, and the texels of its picture.
fn write_payload(out: &mut Bytes, command: &Command) -> Result<(), OutOfMemory>
    ensures added { OnOk result (out.new ≡ out.old ++ payload command.now) }
    ensures typed { OnOk result (HasType command.now) }
{
    let mut room = [0; 16];
    let (numbers, texels) = parts_of(command, &mut room);
    write_numbers(out, ranges_of(opcode_of(command)), numbers)?;
    write_bytes(out, texels)
}

fn write_opcodes(out: &mut Bytes, commands: &[Command]) -> Result<(), OutOfMemory>
    ensures added { OnOk result (out.new ≡ out.old ++ map opcode_byte commands.now) }
{
    for command in commands {
        write_bytes(out, &[opcode_byte(opcode_of(command))])?;
    }
    Ok(())
}

fn write_payloads(out: &mut Bytes, commands: &[Command]) -> Result<(), OutOfMemory>
    ensures added { OnOk result (out.new ≡ out.old ++ flat_map payload commands.now) }
    ensures typed { OnOk result (AllByRecursion HasType commands.now) }
{
    for command in commands {
        write_payload(out, command)?;
    }
    Ok(())
}

fn write_packet(out: &mut Bytes, commands: &[Command]) -> Result<(), OutOfMemory>
    requires { length commands.now ≤ 1024 }
    ensures added { OnOk result (out.new ≡ out.old ++ packet commands.now) }
    ensures typed { OnOk result (AllByRecursion HasType commands.now) }
{
    write_half(out, commands.len() as u16)?;
    write_opcodes(out, commands)?;
    write_payloads(out, commands)
}

/// The bytes of a list of commands: packets of 1,024, the last one shorter, and none for an empty list.
pub fn encode(alloc: Global, commands: &Commands) -> Result<Bytes, OutOfMemory>
    ensures exact { IfOk result (λ bytes. bytes ≡ encoded commands.now) }
    // Where each picture has four bytes for each texel, they are read again as these commands.
    ensures spelled { AllByRecursion IsWhole commands.now → IfOk result (λ bytes. SpellsStream bytes commands.now) }
{
    let mut bytes = Bytes::new(alloc);
    let mut rest = commands.as_slice();
    for _ in 0..rest.len().div_ceil(1024) {
        let (packet, after) = rest.split_at(rest.len().min(1024));
        write_packet(&mut bytes, packet)?;
        rest = after;
    }
    Ok(bytes)
}
