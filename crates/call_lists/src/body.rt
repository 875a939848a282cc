//! Commands of a list, each of which stands in the stream.
ghost use Rattle.std.specs.Prelude.{◌≡◌, [], ◌∷◌, ◌++◌, ◌<◌, length, OnOk, slice_get, Some};

use rc_base::list_command::ListCommand;
use std::alloc::{AllocFailed, Global};
use std::marker::Model;

/// The commands of a list.
#[derive(Debug, Drop)]
pub struct Body<'a> {
    commands: Vec<&'a ListCommand>,
}

impl<'a> Model for Body<'a> {
    ghost use Rattle.std.specs.Prelude.{List, map};
    ghost use Rattle.rc_base.specs.declared.list_command.ListCommand.{ListCommand};

    ghost Value = { List ListCommand };

    ghost view = { λ b. map (λ c. c.now) b.commands.items };
}

impl<'a> Body<'a> {
    /// No commands, which takes no memory.
    pub fn new(alloc: Global) -> Body<'a>
        ensures { result ≡ [] }
    {
        Body {
            commands: Vec::new(alloc),
        }
    }

    /// How many commands there are.
    pub fn len(&self) -> usize
        ensures { result ≡ length self.now }
    {
        self.commands.len()
    }

    /// A command by its place.
    pub fn at(&self, i: usize) -> &'a ListCommand
        requires { i < length self.now }
        ensures { slice_get self.now i ≡ Some result.now }
    {
        self.commands[i]
    }

    /// Adds a command at the end.
    pub fn push(&mut self, command: &'a ListCommand) -> Result<(), AllocFailed<&'a ListCommand>>
        ensures { OnOk result (self.new ≡ self.old ++ command.now ∷ []) }
    {
        self.commands.push(command)
    }
}
