//! The reader of streams: packet by packet, with the first fault from the left.
ghost use Rattle.std.specs.Prelude.{◌≡◌, ◌-◌, List, IfOk, IfErr, Ok, Err, ◌⊎◌};
ghost use Rattle.std.specs.Vec.{vec_len, vec_capacity};
ghost use Rattle.rc_base.specs.declared.command.Command.{Command as AnyCommand};
ghost use Rattle.rc_base.specs.Formats.Spelling.{SpellsStream, plain_set};
ghost use Rattle.packet_bytes.specs.Packets.{is_swap_opcode, plain_reader, Decodes};
ghost use Rattle.packet_bytes.specs.PlainLaws.{plain_agrees};
ghost use Rattle.packet_bytes.specs.Faults.{FailsAsStream};

use crate::fault::PackFault;
use crate::packets::{DecodedOf, HoldsCommands, PacketList, decode_of};
use crate::payload::{add_command, add_short};
use byte_codec::fault::ReadError;
use command_store::{CommandStore, StoreWriter};
use command_table::opcode_from;
use rc_base::command::{Command, Commands, Opcode};
use rc_base::items::Items;
use std::alloc::{AllocError, Global};

/// The commands of a stream, where there was room for them, how many they are, and how many of them are Swaps.
pub type Decoded = DecodedOf<Commands>;

impl HoldsCommands for Vec<Command> {
    type Item = Command;

    ghost held = { λ c. c };

    ghost items = { λ v. v.items };

    ghost room = { λ v. vec_capacity v - vec_len v };

    #[inline(always)]
    fn add(&mut self, command: Command) -> Result<(), AllocError> {
        self.push_reserved(command);
        Ok(())
    }
}

impl PacketList for Vec<Command> {
    type Opcode = Opcode;

    type Kept = Commands;

    ghost set = { plain_set };

    ghost reader = { plain_reader };

    ghost kept = { λ v. v };

    fn empty(alloc: Global) -> Vec<Command> {
        Vec::new(alloc)
    }

    fn make_room(&mut self, count: usize) -> Result<(), AllocError> {
        self.reserve(count)
    }

    fn finish(self) -> Commands {
        Items::from_vec(self)
    }

    fn opcode_from(byte: u8) -> Option<Opcode> {
        opcode_from(byte)
    }

    fn is_swap(opcode: Opcode) -> bool {
        matches!(opcode, Opcode::Swap)
    }

    #[inline(always)]
    fn add_short<'a>(&mut self, opcode: Opcode, bytes: &'a [u8]) -> Option<&'a [u8]> {
        add_short::<Vec<Command>>(self, opcode, bytes)
    }

    #[inline(never)]
    fn add_command<'a>(
        &mut self,
        alloc: Global,
        opcode: Opcode,
        bytes: &'a [u8],
    ) -> Result<&'a [u8], ReadError> {
        add_command::<Vec<Command>>(self, alloc, opcode, bytes)
    }

    ghost agrees = { plain_agrees };
}

impl HoldsCommands for StoreWriter {
    type Item = Command;

    ghost held = { λ c. c };

    ghost items = { λ w. w.commands };

    ghost room = { λ w. w.room };

    #[inline(always)]
    fn add(&mut self, command: Command) -> Result<(), AllocError> {
        self.push(command)
    }
}

impl PacketList for StoreWriter {
    type Opcode = Opcode;

    type Kept = CommandStore;

    ghost set = { plain_set };

    ghost reader = { plain_reader };

    ghost kept = { λ s. s };

    fn empty(alloc: Global) -> StoreWriter {
        StoreWriter::new(alloc)
    }

    fn make_room(&mut self, count: usize) -> Result<(), AllocError> {
        self.reserve(count)
    }

    fn finish(self) -> CommandStore {
        StoreWriter::finish(self)
    }

    fn opcode_from(byte: u8) -> Option<Opcode> {
        opcode_from(byte)
    }

    fn is_swap(opcode: Opcode) -> bool {
        matches!(opcode, Opcode::Swap)
    }

    #[inline(always)]
    fn add_short<'a>(&mut self, opcode: Opcode, bytes: &'a [u8]) -> Option<&'a [u8]> {
        add_short::<StoreWriter>(self, opcode, bytes)
    }

    #[inline(never)]
    fn add_command<'a>(
        &mut self,
        alloc: Global,
        opcode: Opcode,
        bytes: &'a [u8],
    ) -> Result<&'a [u8], ReadError> {
        add_command::<StoreWriter>(self, alloc, opcode, bytes)
    }

    ghost agrees = { plain_agrees };
}

/// The commands that the bytes of a stream spell, where they are no more than there is room for, how many they are, and how many of them are
/// Swaps; or the first fault from the left with its place in the stream. Beyond the room no command is stored, so a stream that is too long takes
/// no more memory.
pub fn decode_within(alloc: Global, room: usize, bytes: &[u8]) -> Result<Decoded, PackFault>
    ensures found { IfOk result (Decodes bytes.now room) }
    ensures fails { IfErr result (FailsAsStream bytes.now) }
{
    decode_of::<Vec<Command>>(alloc, room, bytes)
}

/// The commands that the bytes of a stream spell, or the first fault from the left with its place in the stream.
pub fn decode(alloc: Global, bytes: &[u8]) -> Result<Commands, PackFault>
    // What is read is spelled so.
    ensures found { IfOk result (SpellsStream bytes.now) }
    // What is spelled so is read, unless memory runs out.
    ensures only { (commands : List AnyCommand) → SpellsStream bytes.now commands → (result ≡ Ok commands) ⊎ (result ≡ Err PackFault.OutOfMemory) }
    // The fault is the first one from the left.
    ensures fails { IfErr result (FailsAsStream bytes.now) }
{
    match decode_within(alloc, usize::MAX, bytes) {
        Ok(DecodedOf { commands, .. }) => Ok(commands),
        Err(fault) => Err(fault),
    }
}
