//! Where a stream stands.
ghost use Rattle.std.specs.Prelude.{◌≡◌, IfOk, OnOk, Some, None};
ghost use Rattle.call_lists.specs.Expansion.{first_state, list_fault, name_fault, state_with};
ghost use Rattle.call_lists.specs.Expansion.ListState.{Recording};
ghost use Rattle.call_lists.specs.Standing.{state_of};

use crate::body::Body;
use crate::lists::Lists;
use crate::record::Record;
use rc_base::list_command::ListCommand;
use rc_base::out_of_memory::OutOfMemory;
use rc_base::state::Fault;
use std::alloc::{AllocError, Global};

/// The lists, and the recording that is open.
#[derive(Debug, Drop)]
pub struct Standing<'a> {
    pub lists: Lists<'a>,
    pub recording: Option<Record<'a>>,
}

fn name_fault(name: u8) -> Option<Fault>
    ensures { result ≡ name_fault name }
{
    if name > 0 && name <= 64 {
        None
    } else {
        Some(Fault::InvalidValue)
    }
}

impl<'a> Standing<'a> {
    /// At a stream's begin.
    pub fn new(alloc: Global) -> Result<Standing<'a>, AllocError>
        ensures { IfOk result (λ s. state_of s ≡ first_state) }
    {
        let lists = Lists::new(alloc)?;
        Ok(Standing {
            lists,
            recording: None,
        })
    }

    /// The rule that a command breaks.
    pub fn fault_of(&self, command: &ListCommand) -> Option<Fault>
        ensures { result ≡ list_fault (state_of self.now) command.now }
    {
        match (&self.recording, command) {
            (_, ListCommand::Plain(_)) => None,
            (None, ListCommand::NewList(name)) => name_fault(*name),
            (Some(_), ListCommand::NewList(_)) => Some(Fault::InvalidOperation),
            (None, ListCommand::EndList) => Some(Fault::InvalidOperation),
            (Some(_), ListCommand::EndList) => None,
            (_, ListCommand::CallList(name)) => name_fault(*name),
        }
    }

    /// What an accepted command does outside a recording: it may begin one.
    fn begin(&mut self, alloc: Global, command: &'a ListCommand)
        requires outside { self.old.recording ≡ None }
        requires accepted { list_fault (state_of self.old) command.now ≡ None }
        ensures { state_of self.new ≡ state_with (state_of self.old) command.now }
    {
        match command {
            ListCommand::NewList(name) => {
                self.recording = Some(Record {
                    name: *name,
                    commands: Body::new(alloc),
                });
            }
            ListCommand::Plain(_) => {}
            ListCommand::EndList => {}
            ListCommand::CallList(_) => {}
        }
    }

    /// What an accepted command does within a recording: it ends it or is recorded.
    fn record(&mut self, begun: Record<'a>, command: &'a ListCommand) -> Result<(), OutOfMemory>
        ensures { OnOk result (state_of self.new ≡ state_with
            (Recording self.old.lists begun.entry.name begun.entry.commands) command.now) }
    {
        let Record { name, mut commands } = begun;
        match command {
            ListCommand::EndList => {
                self.lists.set(name, commands);
                self.recording = None;
                return Ok(());
            }
            ListCommand::Plain(_) => {}
            ListCommand::NewList(_) => {}
            ListCommand::CallList(_) => {}
        }
        commands.push(command)?;
        self.recording = Some(Record { name, commands });
        Ok(())
    }

    /// What an accepted command does. Where it lacks memory the recording is lost.
    pub fn accept(&mut self, alloc: Global, command: &'a ListCommand) -> Result<(), OutOfMemory>
        requires { list_fault (state_of self.old) command.now ≡ None }
        ensures { OnOk result (state_of self.new ≡ state_with (state_of self.old) command.now) }
    {
        match self.recording.take() {
            Some(record) => self.record(record, command),
            None => {
                self.begin(alloc, command);
                Ok(())
            }
        }
    }
}
