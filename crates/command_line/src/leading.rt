//! The filters that a command line begins with.
ghost use Rattle.std.specs.Prelude.{◌≡◌, ◌↔◌, ℕ, ◌<◌, List, ◌∷◌, ◌++◌, IsTrue, IsNone, IsOk, IfOk, IfSome, MatchOption, map, string_bytes};
ghost use Rattle.std.specs.Fmt.{decimal};
ghost use Rattle.rc_base.specs.Formats.Commands.{table_row};
ghost use Rattle.rc_base.specs.declared.command.Opcode.{Opcode as NamedOpcode};
ghost use Rattle.rc_base.specs.declared.command.Rgba.{Rgba as Tint};
ghost use Rattle.spu_chain.specs.Filter.{IsTint};
ghost use Rattle.command_line.specs.Filters.{Filter, filter_word, tint_words, BeginsFilter, BeginsWithRule, NamesChain, NamesNone, NoFilter};

use crate::number::number;
use command_table::{opcode_byte, opcode_named};
use rc_base::command::{Opcode, Rgba};
use rc_base::out_of_memory::OutOfMemory;
use spu_chain::{Rules, SpuRule};
use std::alloc::Global;

// So many filters may stand in a line.
const MOST_FILTERS: usize = 16;

// The largest channel of a tint.
const LAST_CHANNEL: u64 = 255;

// The number from 0 to 255 at the front, and the words behind it.
fn first_channel<'a>(words: &'a [String]) -> Option<(u8, &'a [String])>
    ensures { MatchOption result
        ((n : ℕ) (more : List (List ℕ)) → n < 256
        → map string_bytes words.now ≡ decimal n ∷ more → ⊥)
        (λ r. map string_bytes words.now ≡ decimal r.0 ∷ map string_bytes r.1.now) }
{
    match words {
        [] => None,
        [word, rest @ ..] => {
            let value = number(word.as_str())?;
            if value > LAST_CHANNEL {
                return None;
            }
            Some((value as u8, rest))
        }
    }
}

// The tint at the front, four numbers from 0 to 255, and the words behind it.
fn first_tint<'a>(words: &'a [String]) -> Option<(Rgba, &'a [String])>
    ensures { MatchOption result
        ((tint : Tint) (more : List (List ℕ)) → IsTint tint
        → map string_bytes words.now ≡ tint_words tint ++ more → ⊥)
        (λ r. map string_bytes words.now ≡ tint_words r.0 ++ map string_bytes r.1.now) }
{
    let (r, words) = first_channel(words)?;
    let (g, words) = first_channel(words)?;
    let (b, words) = first_channel(words)?;
    let (a, words) = first_channel(words)?;
    Some((Rgba { r, g, b, a }, words))
}

// The command's name at the front, and the words behind it.
fn first_command<'a>(words: &'a [String]) -> Option<(Opcode, &'a [String])>
    ensures { MatchOption result
        ((o : NamedOpcode) (more : List (List ℕ))
        → map string_bytes words.now ≡ (table_row o).name ∷ more → ⊥)
        (λ r. map string_bytes words.now ≡ (table_row r.0).name ∷ map string_bytes r.1.now) }
{
    match words {
        [] => None,
        [word, rest @ ..] => {
            let opcode = opcode_named(word.as_bytes())?;
            Some((opcode, rest))
        }
    }
}

// The word is one that a filter begins with.
fn is_filter_word(word: &str) -> bool
    ensures { IsTrue result ↔ ((f : Filter) × (word.now ≡ filter_word f)) }
{
    match word {
        "recolour" => true,
        "cull" => true,
        "drop" => true,
        "count" => true,
        _ => false,
    }
}

// The first word is one that a filter begins with.
fn begins_filter(words: &[String]) -> bool
    ensures { IsTrue result ↔ BeginsFilter (map string_bytes words.now) }
{
    match words {
        [] => false,
        [word, ..] => is_filter_word(word.as_str()),
    }
}

// The rule of the filter of this word, whose other words stand at the front, and the words behind it.
fn rule_behind<'a>(word: &str, words: &'a [String]) -> Option<(SpuRule, &'a [String])>
    ensures { MatchOption result (NoFilter (word.now ∷ map string_bytes words.now))
        (λ r. BeginsWithRule (word.now ∷ map string_bytes words.now) r.0 (map string_bytes r.1.now)) }
{
    match word {
        "recolour" => {
            let (tint, rest) = first_tint(words)?;
            Some((SpuRule::Recolour(tint), rest))
        }
        "cull" => Some((SpuRule::Cull, words)),
        "drop" => {
            let (opcode, rest) = first_command(words)?;
            Some((SpuRule::Drop(opcode_byte(opcode)), rest))
        }
        "count" => Some((SpuRule::Count(0), words)),
        _ => None,
    }
}

// The rule of the filter at the front, and the words behind it.
fn first_rule<'a>(words: &'a [String]) -> Option<(SpuRule, &'a [String])>
    ensures { MatchOption result (NoFilter (map string_bytes words.now))
        (λ r. BeginsWithRule (map string_bytes words.now) r.0 (map string_bytes r.1.now)) }
{
    match words {
        [] => None,
        [word, rest @ ..] => rule_behind(word.as_str(), rest),
    }
}

/// The rules of the filters that the words begin with, and how many words they take. A filter is `recolour R G B A` with numbers from 0 to 255,
/// `cull`, `drop NAME` with the name of a command, or `count`, whose count begins at 0. There are none where a filter's word stands without the words
/// that are due behind it, or where more than 16 filters stand there.
pub fn filters(alloc: Global, words: &[String]) -> Result<Option<(Rules, usize)>, OutOfMemory>
    ensures none { IfOk result (λ r. IsNone r ↔ NamesNone (map string_bytes words.now)) }
    ensures some { IfOk result (λ r. IfSome r
        (λ chain. NamesChain (map string_bytes words.now) chain.0 chain.1)) }
    // Words that begin with no filter's word lack no memory: nothing is kept of them.
    ensures alone { (BeginsFilter (map string_bytes words.now) → ⊥) → IsOk result }
{
    let mut rules = Rules::new(alloc);
    let mut rest = words;
    while begins_filter(rest) {
        match first_rule(rest) {
            None => return Ok(None),
            Some((rule, behind)) => {
                if rules.len() == MOST_FILTERS {
                    return Ok(None);
                }
                rules.push(rule)?;
                rest = behind;
            }
        }
    }
    Ok(Some((rules, words.len() - rest.len())))
}
