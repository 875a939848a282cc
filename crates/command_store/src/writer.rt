//! Commands as they come, on their way to a store.
ghost use Rattle.std.specs.Prelude.{◌≡◌, ◌+◌, ◌≤◌, ◌<◌, [], ◌∷◌, ◌++◌, IfOk, OnOk, OnErr};
ghost use Rattle.command_store.specs.Stores.{GrewByAtMostOne, IsStoredAs};

use crate::command::StoredCommand;
use crate::store::CommandStore;
use rc_base::command::Command;
use std::alloc::{AllocError, Global};
use std::marker::Model;

/// Commands that are to be kept as a `CommandStore`. Contracts see them, and for how many more there is room.
#[derive(Debug, Drop)]
pub struct StoreWriter {
    kept: Vec<StoredCommand>,
    others: Vec<Command>,
}

impl Model for StoreWriter {
    ghost use Rattle.std.specs.Prelude.{◌-◌};
    ghost use Rattle.std.specs.Vec.{vec_len, vec_capacity};
    ghost use Rattle.command_store.specs.Stores.{AreStored, Written, commands_in};

    ghost Value = { Written };

    ghost view = { λ s. record { commands = commands_in s.others.items s.kept.items; room = vec_capacity s.kept - vec_len s.kept } };

    ghost invariant = { λ s. AreStored s.others.items s.kept.items };
}

impl StoreWriter {
    /// No commands, which take no memory.
    pub fn new(alloc: Global) -> StoreWriter
        ensures { result.commands ≡ [] }
    {
        StoreWriter {
            kept: Vec::new(alloc),
            others: Vec::new(alloc),
        }
    }

    /// Makes room for so many commands more.
    pub fn reserve(&mut self, count: usize) -> Result<(), AllocError>
        ensures commands { self.new.commands ≡ self.old.commands }
        ensures room { OnOk result (count ≤ self.new.room) }
    {
        self.kept.reserve(count)
    }

    /// Adds a command in room that is there. One of a block takes no memory; where there is none for another one, nothing is added.
    #[inline(always)]
    pub fn push(&mut self, command: Command) -> Result<(), AllocError>
        requires { 0 < self.old.room }
        ensures commands { OnOk result (self.new.commands ≡ self.old.commands ++ command ∷ []) }
        ensures room { OnOk result (self.old.room ≡ self.new.room + 1) }
        ensures same { OnErr result (self.new ≡ self.old) }
    {
        let stored = form_of(&mut self.others, command)?;
        self.kept.push_reserved(stored);
        Ok(())
    }

    /// The store of the commands.
    pub fn finish(self) -> CommandStore
        ensures { result ≡ self.commands }
    {
        let StoreWriter { kept, others } = self;
        CommandStore { kept, others }
    }
}

// Keeps a command whole, where there is a number for it.
#[inline(never)]
fn keep_other(others: &mut Vec<Command>, command: Command) -> Result<StoredCommand, AllocError>
    ensures grown { GrewByAtMostOne others.old.items others.new.items }
    ensures stored { IfOk result (λ s. IsStoredAs others.new.items s command) }
    ensures same { OnErr result (others.new.items ≡ others.old.items) }
{
    let number = others.len();
    if number > u32::MAX as usize {
        return Err(AllocError);
    }
    others.push(command)?;
    Ok(StoredCommand::Other(number as u32))
}

// The form in which the command is kept: it has one of a block, and another one is added to those that are kept whole.
#[inline(always)]
fn form_of(others: &mut Vec<Command>, command: Command) -> Result<StoredCommand, AllocError>
    ensures grown { GrewByAtMostOne others.old.items others.new.items }
    ensures stored { IfOk result (λ s. IsStoredAs others.new.items s command) }
    ensures same { OnErr result (others.new.items ≡ others.old.items) }
{
    match command {
        Command::Begin { mode } => Ok(StoredCommand::Begin { mode }),
        Command::End => Ok(StoredCommand::End),
        Command::Vertex { pos } => Ok(StoredCommand::Vertex { pos }),
        Command::Color(color) => Ok(StoredCommand::Color(color)),
        Command::TexCoord { s, t } => Ok(StoredCommand::TexCoord { s, t }),
        other => keep_other(others, other),
    }
}
