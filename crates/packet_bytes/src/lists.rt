//! The reader of streams with call lists.
ghost use Rattle.std.specs.Prelude.{◌≡◌, ◌-◌, List, IfOk, IfErr, Ok, Err, ◌⊎◌};
ghost use Rattle.std.specs.Vec.{vec_len, vec_capacity};
ghost use Rattle.rc_base.specs.declared.list_command.ListCommand.{ListCommand as AnyListCommand};
ghost use Rattle.rc_base.specs.declared.list_command.ListCommand.TheVariants as list;
ghost use Rattle.rc_base.specs.Formats.Spelling.{SpellsStreamOf, list_set};
ghost use Rattle.packet_bytes.specs.Packets.{DecodesOf};
ghost use Rattle.packet_bytes.specs.Lists.{is_list_swap, list_reader};
ghost use Rattle.packet_bytes.specs.ListLaws.{list_agrees};
ghost use Rattle.packet_bytes.specs.Faults.{FailsAsStreamOf};

use crate::fault::PackFault;
use crate::packets::{DecodedOf, HoldsCommands, PacketList, decode_of};
use crate::payload::{add_command, add_short};
use byte_codec::fault::ReadError;
use byte_codec::fields::read_byte;
use command_table::opcode_from;
use rc_base::command::{Command, Opcode};
use rc_base::items::Items;
use rc_base::list_command::{ListCommand, ListCommands, ListOpcode};
use std::alloc::{AllocError, Global};

impl HoldsCommands for Vec<ListCommand> {
    type Item = ListCommand;

    ghost held = { λ c. list.Plain c };

    ghost items = { λ v. v.items };

    ghost room = { λ v. vec_capacity v - vec_len v };

    #[inline(always)]
    fn add(&mut self, command: Command) -> Result<(), AllocError> {
        self.push_reserved(ListCommand::Plain(command));
        Ok(())
    }
}

impl PacketList for Vec<ListCommand> {
    type Opcode = ListOpcode;

    type Kept = ListCommands;

    ghost set = { list_set };

    ghost reader = { list_reader };

    ghost kept = { λ v. v };

    fn empty(alloc: Global) -> Vec<ListCommand> {
        Vec::new(alloc)
    }

    fn make_room(&mut self, count: usize) -> Result<(), AllocError> {
        self.reserve(count)
    }

    fn finish(self) -> ListCommands {
        Items::from_vec(self)
    }

    #[tactic(auto, unfolding(crate::specs::Lists::list_opcode_of_byte))]
    fn opcode_from(byte: u8) -> Option<ListOpcode> {
        match byte {
            0x25 => Some(ListOpcode::NewList),
            0x26 => Some(ListOpcode::EndList),
            0x27 => Some(ListOpcode::CallList),
            _ => match opcode_from(byte) {
                Some(opcode) => Some(ListOpcode::Plain(opcode)),
                None => None,
            },
        }
    }

    fn is_swap(opcode: ListOpcode) -> bool {
        matches!(opcode, ListOpcode::Plain(Opcode::Swap))
    }

    #[inline(always)]
    #[tactic(auto, unfolding(crate::specs::Lists::read_list_command))]
    fn add_short<'a>(&mut self, opcode: ListOpcode, bytes: &'a [u8]) -> Option<&'a [u8]> {
        match opcode {
            ListOpcode::Plain(plain) => add_short::<Vec<ListCommand>>(self, plain, bytes),
            _ => None,
        }
    }

    #[inline(never)]
    #[tactic(auto, unfolding(crate::specs::Lists::read_list_command))]
    fn add_command<'a>(
        &mut self,
        alloc: Global,
        opcode: ListOpcode,
        bytes: &'a [u8],
    ) -> Result<&'a [u8], ReadError> {
        match opcode {
            ListOpcode::Plain(plain) => add_command::<Vec<ListCommand>>(self, alloc, plain, bytes),
            ListOpcode::NewList => {
                let (name, rest) = read_byte(bytes)?;
                self.push_reserved(ListCommand::NewList(name));
                Ok(rest)
            }
            ListOpcode::EndList => {
                self.push_reserved(ListCommand::EndList);
                Ok(bytes)
            }
            ListOpcode::CallList => {
                let (name, rest) = read_byte(bytes)?;
                self.push_reserved(ListCommand::CallList(name));
                Ok(rest)
            }
        }
    }

    ghost agrees = { list_agrees };
}

/// The commands that the bytes of a stream with call lists spell, where they are no more than there is room for, how many they are, and how many
/// of them are Swaps; or the first fault from the left with its place in the stream. Beyond the room no command is stored.
pub fn decode_lists_within(
    alloc: Global,
    room: usize,
    bytes: &[u8],
) -> Result<DecodedOf<ListCommands>, PackFault>
    ensures found { IfOk result (DecodesOf list_set is_list_swap bytes.now room) }
    ensures fails { IfErr result (FailsAsStreamOf list_set bytes.now) }
{
    decode_of::<Vec<ListCommand>>(alloc, room, bytes)
}

/// The commands that the bytes of a stream with call lists spell, or the first fault from the left with its place in the stream.
pub fn decode_lists(alloc: Global, bytes: &[u8]) -> Result<ListCommands, PackFault>
    // What is read is spelled so.
    ensures found { IfOk result (SpellsStreamOf list_set bytes.now) }
    // What is spelled so is read, unless memory runs out.
    ensures only { (commands : List AnyListCommand) → SpellsStreamOf list_set bytes.now commands → (result ≡ Ok commands) ⊎ (result ≡ Err PackFault.OutOfMemory) }
    // The fault is the first one from the left.
    ensures fails { IfErr result (FailsAsStreamOf list_set bytes.now) }
{
    match decode_lists_within(alloc, usize::MAX, bytes) {
        Ok(DecodedOf { commands, .. }) => Ok(commands),
        Err(fault) => Err(fault),
    }
}
