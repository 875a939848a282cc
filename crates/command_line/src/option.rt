//! An option and its value, by their words.
ghost use Rattle.std.specs.Prelude.{◌≡◌, ℕ, List, ◌∷◌, [], MatchOption, map, string_bytes};
ghost use Rattle.command_line.specs.Words.{Setting, IsSetting, setting_words};
ghost use Rattle.command_line.specs.Begins.{Begins, BeginsWith, IsSettingOf};

use crate::job::OptionName;
use crate::number::{number, tiles};

// The option of this name, which has this value.
fn option_with(name: &str, value: &str) -> Option<OptionName>
    ensures { MatchOption result
        ((s : Setting) → IsSetting s → setting_words s ≡ name.now ∷ value.now ∷ [] → ⊥)
        (λ o. IsSettingOf o (name.now ∷ value.now ∷ [])) }
{
    match name {
        "--tiles" => {
            tiles(value)?;
            Some(OptionName::Tiles)
        }
        "--depth" => {
            number(value)?;
            Some(OptionName::Depth)
        }
        "--seed" => {
            number(value)?;
            Some(OptionName::Seed)
        }
        "--size" => {
            number(value)?;
            Some(OptionName::Size)
        }
        _ => None,
    }
}

/// The option at the front of the words, and the words behind it and its value.
pub(crate) fn first_option<'a>(words: &'a [String]) -> Option<(OptionName, &'a [String])>
    ensures { MatchOption result
        ((s : Setting) (rest : List (List ℕ)) → Begins (map string_bytes words.now) s rest → ⊥)
        (λ r. BeginsWith r.0 (map string_bytes words.now) (map string_bytes r.1.now)) }
{
    match words {
        [] => None,
        [name, rest @ ..] => {
            if name.as_str() == "--order" {
                return Some((OptionName::Order, rest));
            }
            match rest {
                [] => None,
                [value, rest @ ..] => {
                    let option = option_with(name.as_str(), value.as_str())?;
                    Some((option, rest))
                }
            }
        }
    }
}
