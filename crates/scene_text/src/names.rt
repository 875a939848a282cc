//! The words that begin a line.
ghost use Rattle.std.specs.Prelude.{◌≡◌, ◌≤◌, length};
ghost use Rattle.scene_text.specs.Text.Statements.{word_of, line_ranges, line_has_picture};
ghost use Rattle.scene_text.specs.Text.Read.{name_of, has_name};
ghost use Rattle.std.specs.List.{find};

use command_table::opcode_named;
use rc_base::command::NumberRange;
use rc_base::text::LineName;

/// The first word of a line.
pub(crate) fn word_of(name: LineName) -> &'static [u8]
    ensures { result.now ≡ word_of name }
{
    match name {
        LineName::Scene => b"scene",
        LineName::Shared => b"shared",
        LineName::Barrier => b"barrier",
        LineName::Semaphore => b"semaphore",
        LineName::Client => b"client",
        LineName::Command(opcode) => command_table::name_of(opcode),
    }
}

/// The ranges of a line's numbers, of which there are at most 16.
pub(crate) fn line_ranges(name: LineName) -> &'static [NumberRange]
    ensures { result.now ≡ line_ranges name }
{
    match name {
        LineName::Scene => &[NumberRange::Byte, NumberRange::Half, NumberRange::Half],
        LineName::Shared => &[NumberRange::Half, NumberRange::Half],
        LineName::Barrier => &[NumberRange::Byte],
        LineName::Semaphore => &[NumberRange::Half],
        LineName::Client => &[],
        LineName::Command(opcode) => command_table::ranges_of(opcode),
    }
}

/// A line of this name ends in the sides and the texels of a picture.
pub(crate) fn line_has_picture(name: LineName) -> bool
    ensures { result ≡ line_has_picture name }
{
    match name {
        LineName::Command(opcode) => command_table::has_picture(opcode),
        LineName::Scene
        | LineName::Shared
        | LineName::Barrier
        | LineName::Semaphore
        | LineName::Client => false,
    }
}

/// The names that are no command's.
const DECLARED_NAMES: [LineName; 5] = [
    LineName::Scene,
    LineName::Shared,
    LineName::Barrier,
    LineName::Semaphore,
    LineName::Client,
];

/// The first of the names that a word spells.
#[tactic(auto, using(command_table::proofs::Search::find_here, command_table::proofs::Search::find_later))]
fn find_name(names: &[LineName], word: &[u8]) -> Option<LineName>
    ensures { result ≡ find (has_name word.now) names.now }
{
    for name in names {
        if word_of(*name) == word {
            return Some(*name);
        }
    }
    None
}

/// The name that a word spells.
pub(crate) fn name_of(word: &[u8]) -> Option<LineName>
    ensures { result ≡ name_of word.now }
{
    match opcode_named(word) {
        Some(opcode) => Some(LineName::Command(opcode)),
        None => find_name(&DECLARED_NAMES, word),
    }
}
