//! The commands that are kept of what a stream gives.
ghost use Rattle.std.specs.Prelude.{◌≡◌, [], ◌∷◌, ◌++◌, length, is_ok, IsTrue, IsFalse, if◌then◌else◌};

use rc_base::command::{Command, Commands};
use std::alloc::{AllocFailed, Global};
use std::marker::Model;

/// Commands, to which some are added where there is room at hand.
#[derive(Debug, Drop)]
pub struct Kept {
    commands: Vec<Command>,
}

impl Model for Kept {
    ghost use Rattle.std.specs.Prelude.{List};
    ghost use Rattle.rc_base.specs.declared.command.Command.{Command};

    ghost Value = { List Command };

    ghost view = { λ k. k.commands.items };
}

impl Kept {
    /// No commands, which takes no memory.
    pub fn new(alloc: Global) -> Kept
        ensures { result ≡ [] }
    {
        Kept {
            commands: Vec::new(alloc),
        }
    }

    /// How many commands there are.
    pub fn len(&self) -> usize
        ensures { result ≡ length self.now }
    {
        self.commands.len()
    }

    /// Adds a command at the end. Where there is no memory for it, nothing is changed.
    pub fn push(&mut self, command: Command) -> Result<(), AllocFailed<Command>>
        ensures items { self.new ≡ (if is_ok result then self.old ++ command ∷ [] else self.old) }
    {
        self.commands.push(command)
    }

    /// Adds a command at the end where there is room for it. Whether there was.
    #[inline(always)]
    pub fn put(&mut self, command: Command) -> bool
        ensures added { IsTrue result → self.new ≡ self.old ++ command ∷ [] }
        ensures left { IsFalse result → self.new ≡ self.old }
    {
        if self.commands.len() < self.commands.capacity() {
            self.commands.push_reserved(command);
            true
        } else {
            false
        }
    }

    /// The commands as a list.
    pub fn into_commands(self) -> Commands
        ensures { result ≡ self }
    {
        Commands::from_vec(self.commands)
    }
}
