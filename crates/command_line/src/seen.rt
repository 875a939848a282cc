//! The words of a line's options, one option after another.
ghost use Rattle.std.specs.Prelude.{◌≡◌, ◌↔◌, ℕ, List, true, false, IsTrue, MatchOption, map, string_bytes};
ghost use Rattle.rc_base.specs.Lists.{IsIn};
ghost use Rattle.command_line.specs.declared.job.OptionName.{OptionName as SpelledOption};
ghost use Rattle.command_line.specs.declared.seen.Seen.{Seen as SeenOptions};
ghost use Rattle.command_line.specs.Words.{Setting as Spelled, options_due};
ghost use Rattle.command_line.specs.Reads.{ReadsOptions, IsFree, has, with_option};

use crate::job::{JobName, OptionName, is_taken};
use crate::option::first_option;

/// The options that the words had so far.
#[derive(Clone, Copy)]
pub(crate) struct Seen {
    pub tiles: bool,
    pub depth: bool,
    pub order: bool,
    pub seed: bool,
    pub size: bool,
}

fn is_seen(seen: Seen, option: OptionName) -> bool
    ensures { result ≡ has seen option }
{
    match option {
        OptionName::Tiles => seen.tiles,
        OptionName::Depth => seen.depth,
        OptionName::Order => seen.order,
        OptionName::Seed => seen.seed,
        OptionName::Size => seen.size,
    }
}

// The job takes the option, which wasn't seen yet.
fn is_free(job: JobName, seen: Seen, option: OptionName) -> bool
    ensures { IsTrue result ↔ IsFree job seen option }
{
    is_taken(job, option) && !is_seen(seen, option)
}

fn with_option(seen: Seen, option: OptionName) -> Seen
    ensures { result ≡ with_option seen option }
{
    match option {
        OptionName::Tiles => Seen {
            tiles: true,
            ..seen
        },
        OptionName::Depth => Seen {
            depth: true,
            ..seen
        },
        OptionName::Order => Seen {
            order: true,
            ..seen
        },
        OptionName::Seed => Seen { seed: true, ..seen },
        OptionName::Size => Seen { size: true, ..seen },
    }
}

/// The options that the job must have were seen.
pub(crate) fn has_due(seen: Seen, job: JobName) -> bool
    ensures { IsTrue result ↔ ((o : SpelledOption) → IsIn o (options_due job) → has seen o ≡ true) }
{
    match job {
        JobName::Simulate => seen.seed,
        JobName::Gen => seen.seed && seen.size,
        JobName::Demo => seen.seed && seen.size,
        _ => true,
    }
}

/// Reads the words of a job's options, each of which it takes and wasn't seen before, and gives the options that were seen in the end.
pub(crate) fn read(job: JobName, seen: Seen, words: &[String]) -> Option<Seen>
    ensures { MatchOption result
        ((ss : List Spelled) (last : SeenOptions)
        → ReadsOptions job seen (map string_bytes words.now) ss last → ⊥)
        (λ last. (ss : List Spelled) × ReadsOptions job seen (map string_bytes words.now) ss last) }
{
    if words.is_empty() {
        return Some(seen);
    }
    let (option, rest) = first_option(words)?;
    if !is_free(job, seen, option) {
        return None;
    }
    read(job, with_option(seen, option), rest)
}
