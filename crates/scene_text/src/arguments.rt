//! What a name and the words after it say.
ghost use Rattle.std.specs.Prelude.{◌≡◌, ◌≤◌, ◌∷◌, [], length, take, false, IfOk};
ghost use Rattle.rc_base.specs.Formats.Commands.{picture_area};
ghost use Rattle.scene_text.specs.Text.Statements.{line_ranges, line_has_picture};
ghost use Rattle.scene_text.specs.Text.Read.{is_counted, is_rest_count, words_of, numbers_of, has_version, with_texels, arguments_say};
ghost use Rattle.rc_base.specs.declared.text.LineName.{LineName as AnyLineName};
ghost use Rattle.command_table.specs.Ranges.{AreIn};
ghost use Rattle.scene_text.specs.Drafts.{IsOpenTo, ReadsStatement, TexelsRead};

use crate::draft::{Draft, add_line};
use crate::hex::spelled_texels;
use crate::names::{line_has_picture, line_ranges};
use crate::numerals::read_numbers;
use crate::parse::LineFault;
use crate::words::{count_words, next_word, skip_words};
use command_table::picture_area;
use rc_base::command::{NumberRange, Texels};
use rc_base::out_of_memory::OutOfMemory;
use rc_base::scene::TextKind;
use rc_base::text::LineName;
use std::alloc::Global;

/// So many words after the numbers are right.
fn is_rest_count(sides: &[u8], rest: usize) -> bool
    ensures { result ≡ is_rest_count (numbers_of (NumberRange.Half ∷ NumberRange.Half ∷ []) (take 2 (words_of sides.now))) rest }
{
    let mut numbers = [0; 2];
    match read_numbers(&[NumberRange::Half, NumberRange::Half], sides, &mut numbers) {
        Some(_) => {
            if picture_area(&numbers) == 0 {
                rest == 0
            } else {
                rest == 1
            }
        }
        None => rest <= 1,
    }
}

/// As many words follow the name as it wants.
fn is_counted(name: LineName, words: &[u8]) -> bool
    ensures { result ≡ is_counted name (words_of words.now) }
{
    let count = line_ranges(name).len();
    let length = count_words(words);
    if length < count {
        false
    } else if line_has_picture(name) {
        is_rest_count(skip_words(words, count - 2), length - count)
    } else {
        length == count
    }
}

/// The version of a scene's line is the one of this format.
fn has_version(name: LineName, numbers: &[i32]) -> bool
    requires { AreIn (line_ranges name) numbers.now }
    ensures { result ≡ has_version name numbers.now }
{
    match name {
        LineName::Scene => 1 <= numbers[0] && numbers[0] <= 2,
        LineName::Shared
        | LineName::Barrier
        | LineName::Semaphore
        | LineName::Client
        | LineName::Command(_) => true,
    }
}

/// The texels in the words after the numbers, of which the last two are the sides of a picture where a word follows.
fn read_texels(alloc: Global, numbers: &[i32], rest: &[u8]) -> Result<Texels, LineFault>
    requires { (words_of rest.now ≡ [] → ⊥) → 2 ≤ length numbers.now }
    ensures read { (name : AnyLineName) → TexelsRead name (words_of rest.now) numbers.now result }
    ensures none { words_of rest.now ≡ [] → IfOk result (λ texels. texels ≡ []) }
{
    match next_word(rest) {
        None => Ok(Texels::new(alloc)),
        Some((word, _)) => match spelled_texels(alloc, picture_area(numbers), word)? {
            Some(texels) => Ok(texels),
            None => Err(LineFault::Text(TextKind::BadHex)),
        },
    }
}

/// Reads what follows a name into the draft.
#[tactic(auto, unfolding(crate::specs::Text::Read::arguments_say))]
pub(crate) fn read_arguments(
    alloc: Global,
    draft: &mut Draft,
    name: LineName,
    words: &[u8],
) -> Result<(), LineFault>
    requires { IsOpenTo name draft.old }
    ensures { ReadsStatement draft.old draft.new result (arguments_say name (words_of words.now)) }
{
    if !is_counted(name, words) {
        return Err(LineFault::Text(TextKind::WrongCount));
    }
    let ranges = line_ranges(name);
    let mut numbers = [0; 16];
    match read_numbers(ranges, words, &mut numbers) {
        None => Err(LineFault::Text(TextKind::BadNumber)),
        Some(rest) => {
            let numbers = &numbers[..ranges.len()];
            if !has_version(name, numbers) {
                return Err(LineFault::Text(TextKind::BadNumber));
            }
            read_statement(alloc, draft, name, numbers, rest)
        }
    }
}

/// Reads what follows the numbers of a line into the draft.
fn read_statement(
    alloc: Global,
    draft: &mut Draft,
    name: LineName,
    numbers: &[i32],
    rest: &[u8],
) -> Result<(), LineFault>
    requires place { IsOpenTo name draft.old }
    requires numbers { AreIn (line_ranges name) numbers.now }
    requires rest { line_has_picture name ≡ false → words_of rest.now ≡ [] }
    ensures { ReadsStatement draft.old draft.new result (with_texels name (words_of rest.now) numbers.now) }
{
    match read_texels(alloc, numbers, rest) {
        Ok(texels) => match add_line(alloc, draft, name, numbers, texels) {
            Ok(()) => Ok(()),
            Err(OutOfMemory) => Err(LineFault::OutOfMemory),
        },
        Err(fault) => Err(fault),
    }
}
