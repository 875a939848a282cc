//! Commands that are met, and the lists that they call.
ghost use Rattle.call_lists.specs.Expansion.{called, met_with};
ghost use Rattle.call_lists.specs.Giving.{Meets};

use crate::answer::ExpandFault;
use crate::given::Given;
use crate::lists::Lists;
use rc_base::list_command::ListCommand;

/// Meets the commands of a list, and of those that it calls, so many lists deep.
#[cycle(calls)]
fn meet_list(lists: &Lists<'_>, levels: u8, name: u8, given: &mut Given) -> Result<(), ExpandFault>
    ensures { Meets given.old given.new (called lists.now levels name) result }
{
    if levels == 0 {
        return Ok(());
    }
    if let Some(body) = lists.at(name) {
        for i in 0..body.len() {
            meet_all(lists, levels - 1, body.at(i), given)?;
        }
    }
    Ok(())
}

/// Meets a command, and where it calls a list what that gives, so many lists deep.
#[cycle(calls)]
#[inline(always)]
pub fn meet_all(
    lists: &Lists<'_>,
    levels: u8,
    command: &ListCommand,
    given: &mut Given,
) -> Result<(), ExpandFault>
    ensures { Meets given.old given.new (met_with (called lists.now levels) command.now) result }
{
    given.meet(command)?;
    match command {
        ListCommand::Plain(_) => Ok(()),
        ListCommand::NewList(_) => Ok(()),
        ListCommand::EndList => Ok(()),
        ListCommand::CallList(name) => meet_list(lists, levels, *name, given),
    }
}
