//! Quantities outside their ranges.
ghost use Rattle.std.specs.Prelude.{◌≡◌, [], ◌∷◌, replicate};
ghost use Rattle.rc_base.specs.Formats.Limits.{limit_of, held_limit};
ghost use Rattle.worked_examples.specs.Scenes.{largest_swapped, scene_of};
ghost use Rattle.rc_base.specs.declared.command.Command.TheVariants as cmd;

/// The first quantity outside its range is named, by the numbers of the table of limits.
pub fn quantities_are_judged_by_their_numbers()
    ensures width { limit_of (scene_of 0 0 ([] ∷ [])) ≡ Some (record { what = 2; value = 0 }) }
    ensures clients { limit_of (scene_of 1 1 []) ≡ Some (record { what = 4; value = 0 }) }
    ensures pixels { limit_of (largest_swapped 513) ≡ Some (record { what = 13; value = 2151677952 }) }
    ensures fits { limit_of (largest_swapped 512) ≡ None }
    ensures held { held_limit (largest_swapped 9) ≡ Some (record { what = 19; value = 37748736 }) }
    ensures held_fits { held_limit (largest_swapped 8) ≡ None }
    ensures least { limit_of (scene_of 2048 2048 (replicate 9 cmd.Swap ∷ [] ∷ [])) ≡ None }
{}
