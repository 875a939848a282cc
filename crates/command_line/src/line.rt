//! Whole lines.
ghost use Rattle.std.specs.Prelude.{◌≡◌, ◌↔◌, ℕ, List, IfOk, OnErr, IfNone, IfSome, MatchOption, map, string_bytes};
ghost use Rattle.command_line.specs.Words.{Setting as Spelled, IsCommandLine, IsNoLine, IsSomeLine};
ghost use Rattle.command_line.specs.Lines.{AreValues, IsLineOf};
ghost use Rattle.command_line.specs.Texts.{AreSettings, IsLack};

use crate::job::{JobName, job_named};
use crate::matches::option_matches;
use crate::seen::{Seen, has_due, read};
use crate::values::{Settings, settings_of};
use clap::Error;
use rc_base::out_of_memory::OutOfMemory;
use std::alloc::Global;

/// What the words ask for.
#[derive(Clone, Copy, Debug, PartialEq, Eq)]
pub struct CommandLine {
    /// The job.
    pub job: JobName,
    /// The values of its options.
    pub settings: Settings,
}

// The job of a line, and the words of its options.
fn job_of<'a>(words: &'a [String]) -> Option<(JobName, &'a [String])>
    ensures { MatchOption result (IsNoLine (map string_bytes words.now)) (λ r. (ss : List Spelled)
        × IsCommandLine (map string_bytes words.now) r.0 ss
        × AreSettings (map string_bytes r.1.now) ss) }
{
    match words {
        [] => None,
        [name, rest @ ..] => {
            let job = job_named(name.as_str())?;
            let nothing = Seen {
                tiles: false,
                depth: false,
                order: false,
                seed: false,
                size: false,
            };
            let seen = read(job, nothing, rest)?;
            if !has_due(seen, job) {
                return None;
            }
            Some((job, rest))
        }
    }
}

// Want of memory as `clap` tells it.
fn out_of_memory(error: Error) -> OutOfMemory
    requires { IsLack error }
{
    OutOfMemory
}

// The job with the values of its options.
fn with_options(alloc: Global, job: JobName, words: &[String]) -> Result<CommandLine, OutOfMemory>
    requires { (ss : List Spelled) × AreSettings (map string_bytes words.now) ss }
    ensures { (ss : List Spelled) → AreSettings (map string_bytes words.now) ss
        → IfOk result (λ c. (c.job ≡ job) × AreValues c.settings ss) }
{
    match option_matches(alloc, words) {
        Ok(matches) => Ok(CommandLine {
            job,
            settings: settings_of(&matches),
        }),
        Err(error) => Err(out_of_memory(error)),
    }
}

/// What the words ask for, where they are a command line: a job's name, and then options of the job in any order, each at most once, each that
/// the job must have, and each value in the next word. Every other list of words has none. The words are those after the program's own name.
pub fn command_line(alloc: Global, words: &[String]) -> Result<Option<CommandLine>, OutOfMemory>
    ensures none { IfOk result (λ r. IfNone r (IsNoLine (map string_bytes words.now))) }
    ensures some { IfOk result (λ r. IfSome r (IsLineOf (map string_bytes words.now))) }
    // Memory lacks for command lines alone.
    ensures lacked { OnErr result (IsSomeLine (map string_bytes words.now)) }
{
    match job_of(words) {
        None => Ok(None),
        Some((job, rest)) => {
            let line = with_options(alloc, job, rest)?;
            Ok(Some(line))
        }
    }
}
