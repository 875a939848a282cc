//! The expansions of all clients' streams.
ghost use Rattle.std.specs.Prelude.{◌≡◌, ◌≤◌, ◌<◌, ◌^◌, ◌+◌, length, IfOk, IfErr, OnOk};
ghost use Rattle.std.specs.List.{AllByRecursion};
ghost use Rattle.call_lists.specs.Expansion.{TellsEachSum, met, costs, most_cost, TellsTooLong};
ghost use Rattle.call_lists.specs.Scenes.{met_in, IsShort, AreExpanded};
ghost use Rattle.call_lists.specs.Streams.{HasExpanded};

use crate::answer::{ExpandFault, Expansion};
use crate::expanding::expand;
use command_store::CommandStore;
use rc_base::cluster::FaultLists;
use rc_base::items::Items;
use rc_base::list_command::{ListCommands, ListStreams};
use std::alloc::Global;

/// What some streams mean.
#[derive(Debug, Drop)]
pub struct Expansions {
    /// The plain commands of each stream, each list as long as an `Expansion` stores it, in the room of a `CommandStore`.
    pub streams: Items<CommandStore>,
    /// How many commands all streams mean.
    pub count: u64,
    /// The refused list commands of each stream.
    pub faults: FaultLists,
    /// What all streams cost.
    pub spent: u64,
}

/// Expands one stream more. Its commands stand whole only until they are stored.
fn expand_next(
    alloc: Global,
    so_far: &mut Expansions,
    stream: &ListCommands,
) -> Result<(), ExpandFault>
    requires spent { so_far.old.spent ≤ most_cost }
    requires counted { so_far.old.count ≤ so_far.old.spent }
    requires places { length stream.now < 2 ^ 32 }
    ensures added { OnOk result (HasExpanded so_far.old so_far.new stream.now) }
    ensures too_long { IfErr result (TellsTooLong so_far.old.spent (met stream.now)) }
{
    let Expansion {
        commands,
        count,
        faults,
        spent,
    } = expand(alloc, stream, so_far.spent)?;
    let stored = CommandStore::of(alloc, commands.as_slice())?;
    drop(commands);
    so_far.streams.push(stored)?;
    so_far.faults.push(faults)?;
    so_far.count += count;
    so_far.spent = spent;
    Ok(())
}

/// What the streams of all clients mean, clients rising, the costs going from one to the next.
pub fn expand_all(alloc: Global, streams: &ListStreams) -> Result<Expansions, ExpandFault>
    requires { AllByRecursion IsShort streams.now }
    // What is given are the expansions of the streams.
    ensures expanded { IfOk result (AreExpanded streams.now) }
    // They are given only where all costs are within their limit.
    ensures within { IfOk result (λ x. x.spent ≤ most_cost) }
    // Where these are, nothing but memory can lack.
    ensures expanded_only { costs (met_in streams.now) ≤ most_cost
        → IfErr result (λ e. e ≡ ExpandFault.OutOfMemory) }
    // Where it fails otherwise, the costs so far pass the limit at a command of some client, and this is their sum there.
    ensures too_long { IfErr result (TellsTooLong 0 (met_in streams.now)) }
    // Where they pass it with this sum, the answer is so, unless memory runs out.
    ensures too_long_only { TellsEachSum 0 (met_in streams.now) result }
{
    let streams = streams.as_slice();
    let mut so_far = Expansions {
        streams: Items::new(alloc),
        count: 0,
        faults: FaultLists::new(alloc),
        spent: 0,
    };
    for i in 0..streams.len() {
        let stream = &streams[i];
        expand_next(alloc, &mut so_far, stream)?;
    }
    Ok(so_far)
}
