//! A chain applied to a list.
ghost use Rattle.std.specs.Prelude.{◌≡◌, ◌↔◌, IsTrue, length, map, IsOk, IfOk, OnOk, OnErr};
ghost use Rattle.spu_chain.specs.Filter.{HasRoom, HaveRoom, passed, rule_after, comes_out, rules_behind, filtered_by, rules_after, AreReached};

use crate::rule::SpuRule;
use crate::scenes::rule_of;
use crate::spu::Spu;
use rc_base::command::{Command, Commands};
use rc_base::out_of_memory::OutOfMemory;
use std::alloc::Global;
use std::mem;

// The largest count.
const MOST_COUNT: u64 = 9_223_372_036_854_775_808;

// Gives a command to one member.
fn give(member: &mut Box<dyn Spu>, command: Command) -> Option<Command>
    requires { HasRoom 1 (meaning member.old) }
    ensures given { result ≡ passed (meaning member.old) command }
    ensures rule { meaning member.new ≡ rule_after (meaning member.old) command }
{
    member.pass(command)
}

// Gives a command to the members in order, until one gives none.
fn pass_along(chain: &mut Vec<Box<dyn Spu>>, command: Command) -> Option<Command>
    requires { HaveRoom 1 (map (λ b. meaning b) chain.old.items) }
    ensures given { result ≡ comes_out (map (λ b. meaning b) chain.old.items) command }
    ensures rules { map (λ b. meaning b) chain.new.items ≡ rules_behind (map (λ b. meaning b) chain.old.items) command }
{
    let mut command = command;
    for i in 0..chain.len() {
        command = give(&mut chain[i], command)?;
    }
    Some(command)
}

// Gives the commands to the chain, one after the other. What comes out is put in front, in the places of those that were given already.
fn pass_all(chain: &mut Vec<Box<dyn Spu>>, commands: Commands) -> Commands
    requires { HaveRoom (length commands) (map (λ b. meaning b) chain.old.items) }
    ensures given { result ≡ filtered_by (map (λ b. meaning b) chain.old.items) commands }
    ensures rules { map (λ b. meaning b) chain.new.items ≡ rules_after (map (λ b. meaning b) chain.old.items) commands }
{
    let mut list = commands.into_vec();
    let mut count: usize = 0;
    for i in 0..list.len() {
        let command = mem::replace(&mut list[i], Command::End);
        if let Some(given) = pass_along(chain, command) {
            list[count] = given;
            count += 1;
        }
    }
    list.truncate(count);
    Commands::from_vec(list)
}

// The rule counts so many commands more.
fn rule_has_room(rule: SpuRule, more: usize) -> bool
    ensures { IsTrue result ↔ HasRoom more rule }
{
    match rule {
        SpuRule::Count(count) => match count.checked_add(more as u64) {
            Some(sum) => sum <= MOST_COUNT,
            None => false,
        },
        SpuRule::Recolour(_) | SpuRule::Cull | SpuRule::Drop(_) => true,
    }
}

/// Whether each member that counts can count so many commands more, to 2^63 at the most. It takes no memory.
pub fn has_room(chain: &Vec<Box<dyn Spu>>, more: usize) -> bool
    ensures { IsTrue result ↔ HaveRoom more (map (λ b. meaning b) chain.now.items) }
{
    for member in chain {
        if !rule_has_room(rule_of(member), more) {
            return false;
        }
    }
    true
}

/// What the chain makes of the commands: each one goes to the members in their order until one gives none, one command after the other. The members
/// have the rules that this leaves. A count stays below 2^63. The list is filtered in its own place, so no memory is taken.
pub fn run_chain(
    _alloc: Global,
    chain: &mut Vec<Box<dyn Spu>>,
    commands: Commands,
) -> Result<Commands, OutOfMemory>
    requires { HaveRoom (length commands) (map (λ b. meaning b) chain.old.items) }
    ensures given { IfOk result (λ given. given ≡ filtered_by (map (λ b. meaning b) chain.old.items) commands) }
    ensures rules { OnOk result (map (λ b. meaning b) chain.new.items ≡ rules_after (map (λ b. meaning b) chain.old.items) commands) }
    ensures short { OnErr result (AreReached (map (λ b. meaning b) chain.old.items) commands (map (λ b. meaning b) chain.new.items)) }
    ensures alone { length chain.old.items ≡ 0 → IsOk result }
{
    if chain.is_empty() {
        return Ok(commands);
    }
    Ok(pass_all(chain, commands))
}
