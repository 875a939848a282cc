//! Reading a scene with call lists.
ghost use Rattle.std.specs.Prelude.{◌≡◌, IfOk, IfErr, None};
ghost use Rattle.std.specs.List.{AllByRecursion};
ghost use Rattle.rc_base.specs.Formats.Spelling.{IsDeclOf, IsListCommand, list_form};
ghost use Rattle.packet_bytes.specs.Lists.{is_list_swap};
ghost use Rattle.scene_file.specs.declared.list_scene.ListScene.{ListScene as AnyListScene};
ghost use Rattle.scene_file.specs.Faults.{FailsAsListScene, ReadsEachBy, SpellsListScene, TellsEachFormBy, TellsEachLimitBy, TellsFormBy, IsBeyondBy, IsJudgedBy, IsReadBy, list_limit_of};
ghost use Rattle.scene_file.specs.Counting.{Counts};

use crate::fault::{SceneFault, fault_at};
use crate::limits::check_read;
use crate::list_scene::ListScene;
use crate::reading::{Counted, read_spelled};
use rc_base::list_command::{ListCommand, ListCommands};
use rc_base::scene::Limit;
use std::alloc::Global;

fn within_limits(counted: Counted<ListCommands>) -> Result<ListScene, SceneFault>
    ensures { (s : AnyListScene) → Counts is_list_swap counted s.decl s.streams
        → IsJudgedBy list_limit_of s result }
{
    let Counted {
        decl,
        streams,
        commands,
        ..
    } = counted;
    match check_read(&decl, streams.len(), commands as u64) {
        Ok(()) => Ok(ListScene { decl, streams }),
        Err(Limit { what, value }) => Err(SceneFault::Limit { what, value }),
    }
}

fn read_judged(alloc: Global, bytes: &[u8]) -> Result<ListScene, SceneFault>
    ensures { IsReadBy (λ s. s) SpellsListScene list_limit_of FailsAsListScene bytes.now result }
{
    match read_spelled::<Vec<ListCommand>>(alloc, bytes) {
        Ok(counted) => within_limits(counted),
        Err(broken) => Err(fault_at(broken, bytes.len())),
    }
}

/// The scene with call lists that the bytes spell, where the quantities of what is read are within their limits: those of its declaration, its streams,
/// and their commands as they stand.
pub fn read_list_scene(alloc: Global, bytes: &[u8]) -> Result<ListScene, SceneFault>
    // What is read is spelled so, and within the limits.
    ensures found { IfOk result (λ s. SpellsListScene bytes.now s × (list_limit_of s ≡ None)) }
    // Its fields are in their ranges, and it draws as version 2.
    ensures fields { IfOk result (λ s. IsDeclOf list_form s.decl
        × AllByRecursion (AllByRecursion IsListCommand) s.streams) }
    // What is spelled so and within the limits is read, unless memory runs out.
    ensures only { ReadsEachBy SpellsListScene list_limit_of bytes.now result }
    // Malformed bytes have this fault first from the left, at this place.
    ensures malformed { IfErr result (TellsFormBy FailsAsListScene bytes.now) }
    // Such bytes are answered so, unless memory runs out.
    ensures malformed_only { TellsEachFormBy FailsAsListScene bytes.now result }
    // The scene that is spelled has this quantity outside its range, the first in the order of the table.
    ensures limit { IfErr result (IsBeyondBy SpellsListScene list_limit_of bytes.now) }
    // Such a scene is answered so, unless memory runs out.
    ensures limit_only { TellsEachLimitBy SpellsListScene list_limit_of bytes.now result }
{
    read_judged(alloc, bytes)
}
