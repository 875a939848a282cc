//! The end of a text whose scene is too large already: its lines are read and counted, and nothing is stored.
ghost use Rattle.std.specs.Prelude.{◌≡◌, ◌+◌, ◌≤◌, ◌<◌, suc, length, true, Some, IfOk};
ghost use Rattle.scene_text.specs.Tally.{line_name, clients_by, commands_by, is_over, stored_commands, CountsRest, JudgesRest};
ghost use Rattle.rc_base.specs.declared.scene.Scene.{Scene as AnyScene};
ghost use Rattle.rc_base.specs.Formats.Limits.{commands_in, limit_of};

use crate::draft::{Draft, attended_draft};
use crate::lines::{first_line, is_skipped};
use crate::names::name_of;
use crate::parse::{TextSceneFault, line_fault, read_line};
use crate::words::next_word;
use rc_base::command::Commands;
use rc_base::out_of_memory::OutOfMemory;
use rc_base::scene::Limit;
use rc_base::text::LineName;
use scene_file::{clients_beyond, commands_beyond};
use std::alloc::Global;

/// How many clients and commands some lines add.
#[derive(Clone, Copy, Debug, PartialEq, Eq)]
pub(crate) struct Tally {
    pub(crate) clients: usize,
    pub(crate) commands: usize,
}

/// The name of a line that says something.
#[tactic(auto, unfolding(crate::specs::Tally::line_name))]
fn line_name(line: &[u8]) -> Option<LineName>
    ensures { result ≡ line_name line.now }
{
    if is_skipped(line) {
        return None;
    }
    match next_word(line) {
        None => None,
        Some((word, _)) => name_of(word),
    }
}

/// How many clients a line of this name adds.
fn clients_by(name: Option<LineName>) -> usize
    ensures value { result ≡ clients_by name }
    ensures small { result ≤ 1 }
{
    match name {
        Some(LineName::Client) => 1,
        _ => 0,
    }
}

/// How many commands a line of this name adds.
fn commands_by(name: Option<LineName>) -> usize
    ensures value { result ≡ commands_by name }
    ensures small { result ≤ 1 }
{
    match name {
        Some(LineName::Command(_)) => 1,
        _ => 0,
    }
}

/// What the rest of a text adds behind so many lines and a client, or its first fault.
fn count_rest(alloc: Global, text: &[u8], before: usize) -> Result<Tally, TextSceneFault>
    requires { before + length text.now < 18446744073709551616 }
    ensures { CountsRest before text.now result }
{
    let mut rest = text;
    let mut line = before;
    let mut clients = 0;
    let mut commands = 0;
    while rest.len() > 0 {
        let (first, after) = first_line(rest);
        line += 1;
        let mut draft = attended_draft(alloc);
        match read_line(alloc, &mut draft, first) {
            Ok(()) => {}
            Err(fault) => return Err(line_fault(fault, line)),
        }
        let name = line_name(first);
        clients += clients_by(name);
        commands += commands_by(name);
        rest = after;
    }
    Ok(Tally { clients, commands })
}

/// The commands of all these clients.
fn sum_commands(streams: &[Commands]) -> usize
    requires { length streams.now < 8 }
    ensures sum { result ≡ commands_in streams.now }
    ensures small { result ≤ 16140901064495857657 }
{
    let mut sum = 0;
    for stream in streams {
        sum += stream.as_slice().len();
    }
    sum
}

/// The commands of a draft.
fn stored_commands(draft: &Draft) -> usize
    requires { length draft.now.streams < 8 }
    ensures { result ≡ stored_commands draft.now }
{
    sum_commands(draft.streams.as_slice()) + draft.stream.as_slice().len()
}

/// The draft has more clients or commands than a scene may have.
pub(crate) fn is_over(draft: &Draft) -> bool
    ensures { result ≡ is_over draft.now }
{
    draft.rank == 5 && (8 <= draft.streams.len() || 1_048_576 < stored_commands(draft))
}

/// The sum, where it fits.
fn sum_of(a: usize, b: usize) -> Result<usize, OutOfMemory>
    ensures { IfOk result (λ n. n ≡ a + b) }
{
    match a.checked_add(b) {
        None => Err(OutOfMemory),
        Some(sum) => Ok(sum),
    }
}

/// The first quantity outside its range, where the draft is too large and so much is added to it.
fn judge_tally(draft: &Draft, tally: Tally) -> Result<Limit, OutOfMemory>
    requires { is_over draft.now ≡ true }
    ensures { IfOk result (λ l. (s : AnyScene) → s.decl ≡ draft.now.decl → length s.streams ≡ suc (length draft.now.streams) + tally.clients
        → commands_in s.streams ≡ stored_commands draft.now + tally.commands → limit_of s ≡ Some l) }
{
    let clients = sum_of(sum_of(draft.streams.len(), tally.clients)?, 1)?;
    if 8 < clients {
        return Ok(clients_beyond(&draft.decl, clients));
    }
    let commands = sum_of(stored_commands(draft), tally.commands)?;
    Ok(commands_beyond(&draft.decl, clients, commands as u64))
}

/// What is wrong with a text whose first lines made a draft that is too large, and that has these bytes left.
pub(crate) fn judge_rest(alloc: Global, draft: &Draft, rest: &[u8], line: usize) -> TextSceneFault
    requires over { is_over draft.now ≡ true }
    requires lines { line + length rest.now < 18446744073709551616 }
    ensures { JudgesRest draft.now line rest.now result }
{
    match count_rest(alloc, rest, line) {
        Err(fault) => fault,
        Ok(tally) => match judge_tally(draft, tally) {
            Err(OutOfMemory) => TextSceneFault::OutOfMemory,
            Ok(limit) => TextSceneFault::Limit {
                what: limit.what,
                value: limit.value,
            },
        },
    }
}
