//! The expansion of a stream.
ghost use Rattle.std.specs.Prelude.{◌≡◌, ◌+◌, ◌≤◌, ◌<◌, ◌^◌, length, Ok, IfOk, IfErr};
ghost use Rattle.call_lists.specs.Expansion.{AnswersOrLacks, TellsEachSum, expansion_of, met, costs, most_cost, TellsTooLong};

use crate::answer::{ExpandFault, Expansion};
use crate::given::Given;
use crate::standing::Standing;
use crate::taking::take_command;
use rc_base::cluster::FaultList;
use rc_base::list_command::ListCommands;
use std::alloc::Global;

/// What a stream with call lists means, where so much was spent on the streams before it. A command that is met costs one, and one for each byte of
/// its payload. Calls are followed eight lists deep, so that a list which calls itself ends.
pub fn expand(alloc: Global, stream: &ListCommands, spent: u64) -> Result<Expansion, ExpandFault>
    requires spent { spent ≤ most_cost }
    requires places { length stream.now < 2 ^ 32 }
    // What is given is the stream's expansion.
    ensures expanded { IfOk result (λ x. x ≡ expansion_of stream.now spent) }
    // It is given only where the costs are within their limit.
    ensures within { IfOk result (λ x. spent + costs (met stream.now) ≤ most_cost) }
    // Where they are, it is given, unless memory runs out.
    ensures expanded_only { spent + costs (met stream.now) ≤ most_cost
        → AnswersOrLacks result (Ok (expansion_of stream.now spent)) }
    // Where it fails otherwise, the costs so far pass the limit at a command, and this is their sum there.
    ensures too_long { IfErr result (TellsTooLong spent (met stream.now)) }
    // Where they pass it with this sum, the answer is so, unless memory runs out.
    ensures too_long_only { TellsEachSum spent (met stream.now) result }
{
    let commands = stream.as_slice();
    let mut standing = Standing::new(alloc)?;
    let mut faults = FaultList::new(alloc);
    let mut given = Given::new(alloc, spent);
    for i in 0..commands.len() {
        let command = &commands[i];
        take_command(
            alloc,
            &mut standing,
            &mut faults,
            &mut given,
            i as u32,
            command,
        )?;
    }
    let Given {
        commands,
        count,
        spent,
    } = given;
    Ok(Expansion {
        commands: commands.into_commands(),
        count,
        faults,
        spent,
    })
}
