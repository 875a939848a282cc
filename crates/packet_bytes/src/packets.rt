//! Packets of the commands of a set: what a set of commands gives, and the reader of streams over it.
ghost use Rattle.std.specs.Prelude.{◌≡◌, ℕ, ◌+◌, ◌<◌, ◌≤◌, List, [], ◌∷◌, ◌++◌, count_by, IfOk, IfErr, OnOk, OnErr};
ghost use Rattle.rc_base.specs.declared.command.Command.{Command};
ghost use Rattle.rc_base.specs.Formats.Spelling.{CommandSet};
ghost use Rattle.byte_codec.specs.Reading.{Gives, Reads, with_front};
ghost use Rattle.packet_bytes.specs.Sets.{SetReader, Agrees};
ghost use Rattle.packet_bytes.specs.Packets.{IsAdded, IsAddedOrNone, read_opcode, read_opcodes, read_count, read_payloads, read_packet, Keeps, AddsPacket, Takes, DecodesOf, decoded_as};
ghost use Rattle.packet_bytes.specs.Faults.{FailsBy, FailsAsStreamOf, pack_fault};

use crate::fault::PackFault;
use byte_codec::fault::{Form, ReadError};
use byte_codec::fields::{read_byte, read_half};
use rc_base::command::Command;
use std::alloc::{AllocError, Global};

/// A list that holds commands of the table. Contracts see what it holds, and for how much more there is room.
pub trait HoldsCommands: Sized + Drop {
    /// What the list holds.
    type Item;

    /// What holds a command of the table.
    ghost held: { Command → Self.Item };

    /// What the list holds, in order.
    ghost items: { Self → List Self.Item };

    /// For how many more there is room.
    ghost room: { Self → ℕ };

    /// Adds a command in room that is there. Where there is no memory for it, nothing is added.
    fn add(&mut self, command: Command) -> Result<(), AllocError>
        requires { 0 < room self.old }
        ensures added { OnOk result (items self.new ≡ items self.old ++ held command ∷ []) }
        ensures room { OnOk result (room self.old ≡ room self.new + 1) }
        ensures same { OnErr result (items self.new ≡ items self.old) }
        ensures same_room { OnErr result (room self.new ≡ room self.old) };
}

/// A list of the commands of a set, into which packets are read: which byte stands for which opcode, and how the command behind an opcode is added.
pub trait PacketList: HoldsCommands {
    type Opcode: Copy;

    /// What the list becomes when all is read.
    type Kept: Drop;

    /// How the commands are spelled.
    ghost set: { CommandSet Self.Item Self.Opcode };

    /// How they are read.
    ghost reader: { SetReader Self.Item Self.Opcode };

    /// The commands that are kept.
    ghost kept: { Self.Kept → List Self.Item };

    /// An empty list, which takes no memory.
    fn empty(alloc: Global) -> Self
        ensures { Self.items result ≡ [] };

    /// Makes room for so many commands more.
    fn make_room(&mut self, count: usize) -> Result<(), AllocError>
        ensures items { Self.items self.new ≡ Self.items self.old }
        ensures room { OnOk result (count ≤ Self.room self.new) };

    /// The list when all is read.
    fn finish(self) -> Self::Kept
        ensures { kept result ≡ Self.items self };

    /// The opcode that a byte stands for.
    fn opcode_from(byte: u8) -> Option<Self::Opcode>
        ensures { result ≡ reader.named byte };

    /// Whether an opcode is that of a Swap.
    fn is_swap(opcode: Self::Opcode) -> bool
        ensures { result ≡ reader.is_swap opcode };

    /// Adds the command of an opcode whose payload stands at the front, in room that is there, and gives the bytes behind it.
    fn add_command<'a>(
        &mut self,
        alloc: Global,
        opcode: Self::Opcode,
        bytes: &'a [u8],
    ) -> Result<&'a [u8], ReadError>
        requires { 0 < Self.room self.old }
        ensures { IsAdded Self.items Self.room (λ c. c) (λ rest. rest.now) self.old self.new
            result (reader.read opcode bytes.now) };

    /// The same of some commands, which are soon read: where it gives nothing, nothing is added.
    fn add_short<'a>(&mut self, opcode: Self::Opcode, bytes: &'a [u8]) -> Option<&'a [u8]>
        requires { 0 < Self.room self.old }
        ensures { IsAddedOrNone Self.items Self.room (λ c. c) (λ rest. rest.now) self.old self.new
            result (reader.read opcode bytes.now) };

    /// They are read as they are spelled.
    ghost agrees: { Agrees set reader };
}

/// The commands of a stream, where there was room for them, how many they are, and how many of them are Swaps.
#[derive(Debug, Drop)]
pub struct DecodedOf<K> {
    /// All commands, where they are no more than there was room for, and else some of them.
    pub commands: K,
    pub count: usize,
    pub swaps: usize,
}

/// How many commands a packet has, and how many of them are Swaps.
#[derive(Clone, Copy, Debug)]
pub(crate) struct Counts {
    pub(crate) commands: usize,
    pub(crate) swaps: usize,
}

#[tactic(auto, unfolding(crate::specs::Packets::read_count))]
fn read_count(bytes: &[u8]) -> Result<(u16, &[u8]), Form>
    ensures { Reads (λ x. (x.0, x.1.now)) result (read_count bytes.now) }
{
    let (count, rest) = read_half(bytes)?;
    if count == 0 || count > 1024 {
        return Err(Form::BadCount { left: bytes.len() });
    }
    Ok((count, rest))
}

#[tactic(auto, unfolding(crate::specs::Packets::read_opcode))]
fn read_opcode<L: PacketList>(bytes: &[u8]) -> Result<(L::Opcode, &[u8]), Form>
    ensures { Reads (λ x. (x.0, x.1.now)) result (read_opcode L.reader bytes.now) }
{
    let (byte, rest) = read_byte(bytes)?;
    match L::opcode_from(byte) {
        Some(opcode) => Ok((opcode, rest)),
        None => Err(Form::Unknown { left: bytes.len() }),
    }
}

fn read_opcodes<L: PacketList>(
    alloc: Global,
    count: u16,
    bytes: &[u8],
) -> Result<(Vec<L::Opcode>, &[u8]), ReadError>
    ensures { Gives (λ x. (x.0.items, x.1.now)) result (read_opcodes L.reader count bytes.now) }
{
    let mut opcodes = Vec::with_capacity(alloc, count as usize)?;
    let mut rest = bytes;
    for _ in 0..count {
        let (opcode, after) = read_opcode::<L>(rest)?;
        opcodes.push(opcode)?;
        rest = after;
    }
    Ok((opcodes, rest))
}

fn count_swaps<L: PacketList>(opcodes: &[L::Opcode]) -> usize
    ensures { result ≡ count_by L.reader.is_swap opcodes.now }
{
    opcodes.iter().filter(|o| L::is_swap(**o)).count()
}

/// Adds the command of an opcode whose payload stands at the front, in room that is there, and gives the bytes behind it.
#[inline(always)]
fn add_next<'a, L: PacketList>(
    alloc: Global,
    commands: &mut L,
    opcode: L::Opcode,
    bytes: &'a [u8],
) -> Result<&'a [u8], ReadError>
    requires { 0 < L.room commands.old }
    ensures { IsAdded L.items L.room (λ c. c) (λ rest. rest.now) commands.old commands.new
        result (L.reader.read opcode bytes.now) }
{
    match commands.add_short(opcode, bytes) {
        Some(rest) => Ok(rest),
        None => commands.add_command(alloc, opcode, bytes),
    }
}

/// Adds the commands with these opcodes, whose payloads stand at the front.
fn read_payloads<'a, L: PacketList>(
    alloc: Global,
    commands: &mut L,
    opcodes: &[L::Opcode],
    bytes: &'a [u8],
) -> Result<&'a [u8], ReadError>
    ensures { Gives (λ rest. (L.items commands.new, rest.now)) result (with_front (L.items commands.old) (read_payloads L.reader opcodes.now bytes.now)) }
{
    commands.make_room(opcodes.len())?;
    let mut rest = bytes;
    for opcode in opcodes {
        rest = add_next::<L>(alloc, commands, *opcode, rest)?;
    }
    Ok(rest)
}

/// The same, where the commands are kept or only looked at.
fn keep_payloads<'a, L: PacketList>(
    alloc: Global,
    commands: &mut L,
    keep: bool,
    opcodes: &[L::Opcode],
    bytes: &'a [u8],
) -> Result<&'a [u8], ReadError>
    ensures { Keeps (λ rest. rest.now) keep (L.items commands.old) (L.items commands.new) result (read_payloads L.reader opcodes.now bytes.now) }
{
    if keep {
        return read_payloads::<L>(alloc, commands, opcodes, bytes);
    }
    let mut dropped = L::empty(alloc);
    read_payloads::<L>(alloc, &mut dropped, opcodes, bytes)
}

/// What the packet at the front has. Its commands are added where they are no more than there is room for.
fn add_packet<'a, L: PacketList>(
    alloc: Global,
    commands: &mut L,
    room: usize,
    bytes: &'a [u8],
) -> Result<(Counts, &'a [u8]), ReadError>
    ensures { AddsPacket L.reader.shows (λ x. (x.0, x.1.now)) room (L.items commands.old) (L.items commands.new) result (read_packet L.reader bytes.now) }
{
    let (count, rest) = read_count(bytes)?;
    let (opcodes, rest) = read_opcodes::<L>(alloc, count, rest)?;
    let opcodes = opcodes.as_slice();
    let count = count as usize;
    let swaps = count_swaps::<L>(opcodes);
    let rest = keep_payloads::<L>(alloc, commands, count <= room, opcodes, rest)?;
    let counts = Counts {
        commands: count,
        swaps,
    };
    Ok((counts, rest))
}

/// The same, by what the packet is.
fn read_packet<'a, L: PacketList>(
    alloc: Global,
    commands: &mut L,
    room: usize,
    bytes: &'a [u8],
) -> Result<(Counts, &'a [u8]), ReadError>
    ensures found { IfOk result (λ x. Takes L.set L.reader.shows bytes.now x.1.now room x.0 (L.items commands.old) (L.items commands.new)) }
    ensures fails { IfErr result (FailsBy L.set bytes.now) }
{
    add_packet::<L>(alloc, commands, room, bytes)
}

/// The fault with its place, in bytes of which there are so many.
fn fault_at(error: ReadError, len: usize) -> PackFault
    ensures { result ≡ pack_fault error len }
{
    match error {
        ReadError::Memory => PackFault::OutOfMemory,
        ReadError::Form(Form::BadCount { left }) => PackFault::BadCount {
            at: len.saturating_sub(left),
        },
        ReadError::Form(Form::Unknown { left }) => PackFault::UnknownOpcode {
            at: len.saturating_sub(left),
        },
        ReadError::Form(Form::Truncated) => PackFault::Truncated { at: len },
    }
}

/// The commands of a set that the bytes of a stream spell, where they are no more than there is room for, how many they are, and how many of them are
/// Swaps; or the first fault from the left with its place in the stream.
pub fn decode_of<L: PacketList>(
    alloc: Global,
    room: usize,
    bytes: &[u8],
) -> Result<DecodedOf<L::Kept>, PackFault>
    ensures found { IfOk result (λ x. DecodesOf L.set L.reader.shows bytes.now room (decoded_as L.kept x)) }
    ensures fails { IfErr result (FailsAsStreamOf L.set bytes.now) }
{
    let mut commands = L::empty(alloc);
    let mut count = 0;
    let mut swaps = 0;
    let mut rest = bytes;
    while !rest.is_empty() {
        match read_packet::<L>(alloc, &mut commands, room.saturating_sub(count), rest) {
            Ok((more, after)) => {
                count += more.commands;
                swaps += more.swaps;
                rest = after;
            }
            Err(error) => return Err(fault_at(error, bytes.len())),
        }
    }
    Ok(DecodedOf {
        commands: commands.finish(),
        count,
        swaps,
    })
}
