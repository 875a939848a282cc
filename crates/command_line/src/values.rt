//! The values of a line's options.
ghost use Rattle.std.specs.Prelude.{◌≡◌, ℕ, ◌<◌, ◌^◌, ◌++◌, List, None, Some, codes, option_map};
ghost use Rattle.std.specs.Fmt.{decimal};
ghost use Rattle.std.specs.List.{AllByRecursion};
ghost use Rattle.command_line.specs.Words.{Setting, IsSetting};
ghost use Rattle.command_line.specs.Lines.{AreValues};
ghost use Rattle.command_line.specs.Texts.{HasTexts};

use crate::number::{number, tiles};
use clap::ArgMatches;

/// The values of a line's options, and the defaults of those that it doesn't have.
#[derive(Clone, Copy, Debug, PartialEq, Eq)]
pub struct Settings {
    /// The columns of tiles, 1 where the line has no tiles.
    pub columns: u64,
    /// The rows of tiles, 1 where the line has no tiles.
    pub rows: u64,
    /// The depth of the lanes, 8 where the line has none.
    pub depth: u64,
    /// The report names the order of each tile.
    pub order: bool,
    /// The seed, 0 where the line has none.
    pub seed: u64,
    /// The size of the generated scene, 0 where the line has none.
    pub size: u64,
}

// The number of the text, or the default where there is none.
fn number_or(text: Option<&str>, default: u64) -> u64
    ensures none { option_map (λ t. t.now) text.entry ≡ None → result ≡ default }
    ensures some { (m : ℕ) → m < 2 ^ 64 → option_map (λ t. t.now) text.entry ≡ Some (decimal m)
        → result ≡ m }
{
    match text {
        None => default,
        Some(text) => number(text).unwrap_or(default),
    }
}

// The columns and rows of the text, or one tile where there is none.
fn tiles_or_one(text: Option<&str>) -> (u64, u64)
    ensures none { option_map (λ t. t.now) text.entry ≡ None → result ≡ (1, 1) }
    ensures some { (c r : ℕ) → c < 2 ^ 64 → r < 2 ^ 64 → option_map (λ t. t.now) text.entry
        ≡ Some (decimal c ++ (codes "x" ++ decimal r)) → result ≡ (c, r) }
{
    match text {
        None => (1, 1),
        Some(text) => tiles(text).unwrap_or((1, 1)),
    }
}

/// The values that the matches of a line's options have.
pub(crate) fn settings_of(matches: &ArgMatches) -> Settings
    ensures { (ss : List Setting) → AllByRecursion IsSetting ss → HasTexts matches.now ss
        → AreValues result ss }
{
    let (columns, rows) = tiles_or_one(matches.get_str("tiles"));
    Settings {
        columns,
        rows,
        depth: number_or(matches.get_str("depth"), 8),
        order: matches.get_flag("order"),
        seed: number_or(matches.get_str("seed"), 0),
        size: number_or(matches.get_str("size"), 0),
    }
}
