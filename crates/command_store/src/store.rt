//! A list of commands, in less room than a `Vec` of them takes.
ghost use Rattle.std.specs.Prelude.{◌≡◌, ◌<◌, ◌^◌, [], IfOk, length, slice_index_or};
ghost use Rattle.std.specs.Cow.{cow_value};
ghost use Rattle.rc_base.specs.declared.command.Command.TheVariants as cmd;
ghost use Rattle.command_store.specs.Stores.{GrewByAtMostOne, IsBorrowedFrom, IsStoredAs};

use crate::command::StoredCommand;
use crate::form::CommandForm;
use rc_base::command::Command;
use rc_base::out_of_memory::OutOfMemory;
use std::alloc::Global;
use std::borrow::Cow;
use std::marker::Model;

/// Commands, which contracts see as the list of them. Those of blocks are most of a stream, and are kept small; each other one is kept whole beside
/// them.
#[derive(Debug, Drop)]
pub struct CommandStore {
    pub(crate) kept: Vec<StoredCommand>,
    pub(crate) others: Vec<Command>,
}

impl Model for CommandStore {
    ghost use Rattle.std.specs.Prelude.{List};
    ghost use Rattle.rc_base.specs.declared.command.Command.{Command};
    ghost use Rattle.command_store.specs.Stores.{AreStored, commands_in};

    ghost Value = { List Command };

    ghost view = { λ s. commands_in s.others.items s.kept.items };

    ghost invariant = { λ s. AreStored s.others.items s.kept.items };
}

impl CommandStore {
    /// No commands, which take no memory.
    pub fn new(alloc: Global) -> CommandStore
        ensures { result ≡ [] }
    {
        CommandStore {
            kept: Vec::new(alloc),
            others: Vec::new(alloc),
        }
    }

    /// A copy of commands.
    pub fn of(alloc: Global, commands: &[Command]) -> Result<CommandStore, OutOfMemory>
        requires { length commands.now < 2 ^ 32 }
        ensures { IfOk result (λ s. s ≡ commands.now) }
    {
        let mut kept = Vec::with_capacity(alloc, commands.len())?;
        let mut others = Vec::new(alloc);
        for command in commands {
            kept.push_reserved(kept_form(&mut others, command)?);
        }
        Ok(CommandStore { kept, others })
    }

    /// How many commands there are.
    #[inline(always)]
    pub fn len(&self) -> usize
        ensures { result ≡ length self.now }
    {
        self.kept.len()
    }

    /// The command at a place.
    pub fn at(&self, place: usize) -> Cow<'_, Command>
        requires { place < length self.now }
        ensures { cow_value result ≡ slice_index_or self.now place (cow_value result) }
    {
        match self.kept[place] {
            StoredCommand::Begin { mode } => Cow::Owned(Command::Begin { mode }),
            StoredCommand::End => Cow::Owned(Command::End),
            StoredCommand::Vertex { pos } => Cow::Owned(Command::Vertex { pos }),
            StoredCommand::Color(color) => Cow::Owned(Command::Color(color)),
            StoredCommand::TexCoord { s, t } => Cow::Owned(Command::TexCoord { s, t }),
            StoredCommand::Other(number) => Cow::Borrowed(&self.others[number as usize]),
        }
    }

    /// The command at a place, where it is kept.
    #[inline(always)]
    pub fn borrowed(&self, place: usize) -> CommandForm<'_>
        requires { place < length self.now }
        ensures { IsBorrowedFrom result (slice_index_or self.now place cmd.End) }
    {
        match &self.kept[place] {
            StoredCommand::Begin { mode } => CommandForm::Begin(mode),
            StoredCommand::End => CommandForm::End,
            StoredCommand::Vertex { pos } => CommandForm::Vertex(pos),
            StoredCommand::Color(color) => CommandForm::Color(color),
            StoredCommand::TexCoord { s, t } => CommandForm::TexCoord { s, t },
            StoredCommand::Other(number) => CommandForm::Other(&self.others[*number as usize]),
        }
    }
}

/// A command with the same fields. Only one with texels takes memory.
pub fn copy_of(command: &Command) -> Result<Command, OutOfMemory>
    ensures { IfOk result (λ c. c ≡ command.now) }
{
    Ok(command.clone()?)
}

// The form in which the command is kept, where it is one of a block; otherwise a copy of it is added to those that are kept whole.
fn kept_form(others: &mut Vec<Command>, command: &Command) -> Result<StoredCommand, OutOfMemory>
    requires few { length others.old.items < 2 ^ 32 }
    ensures grown { GrewByAtMostOne others.old.items others.new.items }
    ensures stored { IfOk result (λ s. IsStoredAs others.new.items s command.now) }
{
    match command {
        Command::Begin { mode } => Ok(StoredCommand::Begin { mode: *mode }),
        Command::End => Ok(StoredCommand::End),
        Command::Vertex { pos } => Ok(StoredCommand::Vertex { pos: *pos }),
        Command::Color(color) => Ok(StoredCommand::Color(*color)),
        Command::TexCoord { s, t } => Ok(StoredCommand::TexCoord { s: *s, t: *t }),
        _ => {
            let number = others.len() as u32;
            others.push(copy_of(command)?)?;
            Ok(StoredCommand::Other(number))
        }
    }
}
