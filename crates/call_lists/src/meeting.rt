//! Commands that are met.
ghost use Rattle.std.specs.Prelude.{◌≡◌, ◌<◌, ◌≤◌, ◌+◌, ◌^◌, [], ◌∷◌, ◌++◌, length, IsTrue, IsFalse, OnOk};
ghost use Rattle.rc_base.specs.declared.list_command.ListCommand.TheVariants as list;
ghost use Rattle.call_lists.specs.Giving.{Adds, Meets};
ghost use Rattle.call_lists.specs.Expansion.{stored, plain_of, most_cost};

use crate::answer::ExpandFault;
use crate::given::Given;
use crate::kept::Kept;
use crate::sizes::{cost_of, payload_size};
use command_store::copy_of;
use rc_base::command::Command;
use rc_base::list_command::ListCommand;
use rc_base::out_of_memory::OutOfMemory;
use std::alloc::Global;

/// The most that all streams may cost.
const MOST_COST: u64 = 67_108_864;

/// As many commands of an expansion are stored, which is one more than a scene may have.
const MOST_GIVEN: usize = 1_048_577;

impl Given {
    /// Nothing was given, and so much was spent before.
    pub fn new(alloc: Global, spent: u64) -> Given
        requires { spent ≤ most_cost }
        ensures given { result.commands ≡ [] }
        ensures counted { result.count ≡ 0 }
        ensures spent { result.spent ≡ spent }
    {
        Given {
            commands: Kept::new(alloc),
            count: 0,
            spent,
        }
    }

    /// Adds a command, where there is room for it, and counts it.
    fn give(&mut self, command: &Command) -> Result<(), OutOfMemory>
        requires { self.old.count < self.old.spent }
        ensures given { OnOk result (self.new.commands
            ≡ stored (self.old.commands ++ command.now ∷ [])) }
        ensures counted { OnOk result (self.new.count ≡ self.old.count + 1) }
        ensures spent { OnOk result (self.new.spent ≡ self.old.spent) }
    {
        if self.commands.len() < MOST_GIVEN {
            self.commands.push(copy_of(command)?)?;
        }
        self.count += 1;
        Ok(())
    }

    /// Adds a command that was paid for, if it is a plain one.
    fn give_plain(&mut self, command: &ListCommand) -> Result<(), OutOfMemory>
        requires { self.old.count < self.old.spent }
        ensures given { OnOk result (self.new.commands
            ≡ stored (self.old.commands ++ plain_of command.now)) }
        ensures counted { OnOk result (self.new.count
            ≡ self.old.count + length (plain_of command.now)) }
        ensures spent { OnOk result (self.new.spent ≡ self.old.spent) }
    {
        match command {
            ListCommand::Plain(plain) => self.give(plain),
            ListCommand::NewList(_) => Ok(()),
            ListCommand::EndList => Ok(()),
            ListCommand::CallList(_) => Ok(()),
        }
    }

    // Adds a command that costs so much, where there is room at hand for it and the costs stay within their limit. Whether it was added.
    #[inline(always)]
    fn give_short(&mut self, cost: u64, command: Command) -> bool
        requires some { 0 < cost }
        requires fits { cost < 2 ^ 63 + 11 }
        ensures added { IsTrue result → self.new.commands ≡ self.old.commands ++ command ∷ [] }
        ensures few { IsTrue result → length self.old.commands < 1048577 }
        ensures counted { IsTrue result → self.new.count ≡ self.old.count + 1 }
        ensures spent { IsTrue result → self.new.spent ≡ self.old.spent + cost }
        ensures left { IsFalse result → self.new ≡ self.old }
    {
        let spent = self.spent + cost;
        if spent > MOST_COST || self.commands.len() >= MOST_GIVEN {
            return false;
        }
        if !self.commands.put(command) {
            return false;
        }
        self.spent = spent;
        self.count += 1;
        true
    }

    // Meets a command of the table, where it is one of a block, there is room at hand for it and the costs stay within their limit. Whether it was met.
    #[inline(always)]
    fn meet_short(&mut self, command: &Command) -> bool
        ensures met { IsTrue result → Adds self.old self.new (list.Plain command.now ∷ []) }
        ensures left { IsFalse result → self.new ≡ self.old }
    {
        match command {
            Command::Vertex { pos } => {
                let copy = Command::Vertex { pos: *pos };
                self.give_short(1 + payload_size(command), copy)
            }
            Command::Color(color) => {
                let copy = Command::Color(*color);
                self.give_short(1 + payload_size(command), copy)
            }
            Command::TexCoord { s, t } => {
                let copy = Command::TexCoord { s: *s, t: *t };
                self.give_short(1 + payload_size(command), copy)
            }
            Command::Begin { mode } => {
                let copy = Command::Begin { mode: *mode };
                self.give_short(1 + payload_size(command), copy)
            }
            Command::End => self.give_short(1 + payload_size(command), Command::End),
            _ => false,
        }
    }

    /// Meets a command.
    #[inline(always)]
    pub fn meet(&mut self, command: &ListCommand) -> Result<(), ExpandFault>
        ensures { Meets self.old self.new (command.now ∷ []) result }
    {
        if let ListCommand::Plain(plain) = command {
            if self.meet_short(plain) {
                return Ok(());
            }
        }
        self.meet_any(command)
    }

    // Meets a command, whether there is room at hand or not.
    #[inline(never)]
    fn meet_any(&mut self, command: &ListCommand) -> Result<(), ExpandFault>
        ensures { Meets self.old self.new (command.now ∷ []) result }
    {
        let spent = self.spent + cost_of(command);
        if spent > MOST_COST {
            return Err(ExpandFault::TooLong { spent });
        }
        self.spent = spent;
        self.give_plain(command)?;
        Ok(())
    }
}
