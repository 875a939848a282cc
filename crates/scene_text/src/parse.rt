//! A scene from its text, line by line.
ghost use Rattle.std.specs.Prelude.{◌≡◌, ◌⊎◌, ℕ, Some, None, Ok, Err, IfOk, IfErr, false};
ghost use Rattle.rc_base.specs.Formats.Spelling.{IsVersion};
ghost use Rattle.rc_base.specs.declared.scene.Limit.{Limit as AnyLimit};
ghost use Rattle.rc_base.specs.declared.scene.Scene.{Scene as AnyScene};
ghost use Rattle.rc_base.specs.declared.scene.TextKind.{TextKind as AnyKind};
ghost use Rattle.std.specs.List.{AllByRecursion};
ghost use Rattle.rc_base.specs.Formats.Limits.{limit_of};
ghost use Rattle.scene_text.specs.Text.Read.{SpellsText, words_of, has_no_word};
ghost use Rattle.scene_text.specs.Text.Faults.{may_stand, text_fault};
ghost use Rattle.scene_file.specs.Written.{AreWhole};
ghost use Rattle.scene_text.specs.Drafts.{IsDraft, ReadsNamed, ReadsWords, ReadsLine, IsTextFault, line_fault_of};

use crate::arguments::read_arguments;
use crate::draft::{Draft, empty_draft, finish};
use crate::lines::{first_line, is_skipped, is_text};
use crate::names::name_of;
use crate::tally::{is_over, judge_rest};
use crate::words::next_word;
use rc_base::out_of_memory::OutOfMemory;
use rc_base::scene::{Scene, TextKind};
use rc_base::text::LineName;
use scene_file::check_limits;
use std::alloc::Global;
use thiserror::Error;

/// Why a text gives no scene.
#[derive(Clone, Copy, Debug, PartialEq, Eq, Error)]
pub enum TextSceneFault {
    /// The first faulty line, counted from 1, and what is wrong with it.
    #[error("malformed {kind:?} in line {line}")]
    Text { line: usize, kind: TextKind },
    /// The text spells a scene, and the quantity of this number is outside its range.
    #[error("quantity {what} is {value}")]
    Limit { what: u8, value: u64 },
    #[error("out of memory")]
    OutOfMemory,
}

/// Why a line was not read.
#[derive(Clone, Copy, Debug, PartialEq, Eq)]
pub(crate) enum LineFault {
    Text(TextKind),
    OutOfMemory,
}

impl From<OutOfMemory> for LineFault {
    ghost use Rattle.scene_text.specs.declared.parse.LineFault.TheVariants.{OutOfMemory};
    ghost use Rattle.std.specs.Prelude.{◌≡◌};

    ghost from_gives = { λ _ e. e ≡ OutOfMemory };

    fn from(_: OutOfMemory) -> LineFault {
        LineFault::OutOfMemory
    }
}

impl From<OutOfMemory> for TextSceneFault {
    ghost use Rattle.scene_text.specs.declared.parse.TextSceneFault.TheVariants.{OutOfMemory};
    ghost use Rattle.std.specs.Prelude.{◌≡◌};

    ghost from_gives = { λ _ e. e ≡ OutOfMemory };

    fn from(_: OutOfMemory) -> TextSceneFault {
        TextSceneFault::OutOfMemory
    }
}

/// A line of this name may stand behind the lines so far.
fn may_stand(before: u8, name: LineName) -> bool
    ensures { result ≡ may_stand before name }
{
    match name {
        LineName::Scene => before == 0,
        LineName::Shared => 1 <= before && before <= 2,
        LineName::Barrier => 1 <= before && before <= 3,
        LineName::Semaphore => 1 <= before && before <= 4,
        LineName::Client => 1 <= before && before <= 5,
        LineName::Command(_) => 5 <= before && before <= 5,
    }
}

fn read_named(
    alloc: Global,
    draft: &mut Draft,
    name: LineName,
    words: &[u8],
) -> Result<(), LineFault>
    requires { IsDraft draft.old }
    ensures { ReadsNamed draft.old draft.new result name (words_of words.now) }
{
    if !may_stand(draft.rank, name) {
        return Err(LineFault::Text(TextKind::OutOfPlace));
    }
    match read_arguments(alloc, draft, name, words) {
        Ok(()) => Ok(()),
        Err(fault) => Err(fault),
    }
}

fn read_words(alloc: Global, draft: &mut Draft, line: &[u8]) -> Result<(), LineFault>
    requires draft { IsDraft draft.old }
    requires words { has_no_word (words_of line.now) ≡ false }
    ensures { ReadsWords draft.old draft.new result (words_of line.now) }
{
    match next_word(line) {
        None => Ok(()),
        Some((word, rest)) => match name_of(word) {
            None => Err(LineFault::Text(TextKind::UnknownWord)),
            Some(name) => read_named(alloc, draft, name, rest),
        },
    }
}

#[tactic(auto, unfolding(crate::specs::Text::Faults::fault_of_line, crate::specs::Text::Faults::rank_after))]
pub(crate) fn read_line(alloc: Global, draft: &mut Draft, line: &[u8]) -> Result<(), LineFault>
    requires { IsDraft draft.old }
    ensures { ReadsLine draft.old draft.new result line.now }
{
    if !is_text(line) {
        return Err(LineFault::Text(TextKind::NotText));
    }
    if is_skipped(line) {
        return Ok(());
    }
    read_words(alloc, draft, line)
}

pub(crate) fn line_fault(fault: LineFault, line: usize) -> TextSceneFault
    ensures { result ≡ line_fault_of line fault }
{
    match fault {
        LineFault::Text(kind) => TextSceneFault::Text { line, kind },
        LineFault::OutOfMemory => TextSceneFault::OutOfMemory,
    }
}

/// The scene that the lines of a text say. From a draft on that is too large, the lines are counted only, and the answer is a limit.
fn read_lines(alloc: Global, text: &[u8]) -> Result<Scene, TextSceneFault>
    ensures found { IfOk result (SpellsText text.now) }
    ensures fails { IfErr result (IsTextFault text.now) }
{
    let mut draft = empty_draft(alloc);
    let mut rest = text;
    let mut line = 0;
    while rest.len() > 0 {
        let (first, after) = first_line(rest);
        line += 1;
        match read_line(alloc, &mut draft, first) {
            Ok(()) => {}
            Err(fault) => return Err(line_fault(fault, line)),
        }
        rest = after;
        if is_over(&draft) {
            return Err(judge_rest(alloc, &draft, rest, line));
        }
    }
    if draft.rank == 0 {
        return Err(TextSceneFault::Text {
            line: 1,
            kind: TextKind::NoScene,
        });
    }
    match finish(draft) {
        Ok(scene) => Ok(scene),
        Err(OutOfMemory) => Err(TextSceneFault::OutOfMemory),
    }
}

fn parse_within(alloc: Global, text: &[u8]) -> Result<Scene, TextSceneFault>
    ensures found { IfOk result (λ s. SpellsText text.now s × (limit_of s ≡ None)) }
    ensures fails { IfErr result (IsTextFault text.now) }
{
    match read_lines(alloc, text) {
        Err(fault) => Err(fault),
        Ok(scene) => match check_limits(&scene) {
            Ok(()) => Ok(scene),
            Err(limit) => Err(TextSceneFault::Limit {
                what: limit.what,
                value: limit.value,
            }),
        },
    }
}

/// The scene that a text spells, where its quantities are within their ranges. A text that spells none has its first faulty line told, counted
/// from 1, and one whose scene is too large the first quantity that is.
pub fn parse_scene(alloc: Global, text: &[u8]) -> Result<Scene, TextSceneFault>
    ensures found { IfOk result (λ s. SpellsText text.now s × (limit_of s ≡ None)) }
    // It can be written as bytes that spell it.
    ensures whole { IfOk result (λ s. IsVersion s.decl.version × AllByRecursion AreWhole s.streams) }
    ensures fails { IfErr result (IsTextFault text.now) }
    ensures only { (s : AnyScene) → SpellsText text.now s → limit_of s ≡ None → (result ≡ Ok s) ⊎ (result ≡ Err TextSceneFault.OutOfMemory) }
    ensures told { (line : ℕ) (k : AnyKind) → text_fault text.now ≡ Some (line, k) → (result ≡ Err (TextSceneFault.Text line k)) ⊎ (result ≡ Err TextSceneFault.OutOfMemory) }
    ensures limited { (s : AnyScene) (limit : AnyLimit) → SpellsText text.now s → limit_of s ≡ Some limit
        → (result ≡ Err (TextSceneFault.Limit limit.what limit.value)) ⊎ (result ≡ Err TextSceneFault.OutOfMemory) }
{
    parse_within(alloc, text)
}
