//! The commands of a stream, one after the other.
ghost use Rattle.std.specs.Prelude.{OnOk};
ghost use Rattle.call_lists.specs.Expansion.{met_at};
ghost use Rattle.call_lists.specs.Standing.{IsAfter, IsNoted, state_of};
ghost use Rattle.call_lists.specs.Taking.{IsTaken};
ghost use Rattle.call_lists.specs.Giving.{Meets};

use crate::answer::ExpandFault;
use crate::calls::meet_all;
use crate::given::Given;
use crate::standing::Standing;
use rc_base::cluster::FaultList;
use rc_base::list_command::ListCommand;
use rc_base::out_of_memory::OutOfMemory;
use std::alloc::Global;

/// How many lists deep a call is followed.
const MOST_LEVELS: u8 = 8;

/// Meets what is met where the stream has come to a command.
fn meet_at(
    standing: &Standing<'_>,
    command: &ListCommand,
    given: &mut Given,
) -> Result<(), ExpandFault>
    ensures { Meets given.old given.new (met_at (state_of standing.now) command.now) result }
{
    match (&standing.recording, command) {
        (None, _) => meet_all(&standing.lists, MOST_LEVELS, command, given),
        (Some(_), ListCommand::EndList) => given.meet(command),
        (Some(_), ListCommand::Plain(_)) => Ok(()),
        (Some(_), ListCommand::NewList(_)) => Ok(()),
        (Some(_), ListCommand::CallList(_)) => Ok(()),
    }
}

/// Notes a command's fault, or does what an accepted one does.
fn judge<'a>(
    alloc: Global,
    standing: &mut Standing<'a>,
    faults: &mut FaultList,
    place: u32,
    command: &'a ListCommand,
) -> Result<(), OutOfMemory>
    ensures state { OnOk result (IsAfter standing.old command.now standing.new) }
    ensures faults { OnOk result (IsNoted standing.old place command.now faults.old faults.new) }
{
    match standing.fault_of(command) {
        Some(fault) => Ok(faults.push((place, fault))?),
        None => standing.accept(alloc, command),
    }
}

// Takes any command of the stream.
#[inline(never)]
fn take_any<'a>(
    alloc: Global,
    standing: &mut Standing<'a>,
    faults: &mut FaultList,
    given: &mut Given,
    place: u32,
    command: &'a ListCommand,
) -> Result<(), ExpandFault>
    ensures { IsTaken place command.now standing.old standing.new faults.old faults.new
        given.old given.new result }
{
    meet_at(standing, command, given)?;
    Ok(judge(alloc, standing, faults, place, command)?)
}

/// Takes a command of the stream. A plain command outside a recording, as most are, is only met.
#[inline(always)]
pub fn take_command<'a>(
    alloc: Global,
    standing: &mut Standing<'a>,
    faults: &mut FaultList,
    given: &mut Given,
    place: u32,
    command: &'a ListCommand,
) -> Result<(), ExpandFault>
    ensures { IsTaken place command.now standing.old standing.new faults.old faults.new
        given.old given.new result }
{
    match (&standing.recording, command) {
        (None, ListCommand::Plain(_)) => given.meet(command),
        _ => take_any(alloc, standing, faults, given, place, command),
    }
}
