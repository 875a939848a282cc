//! How a scene is spelled.
ghost use Rattle.rc_base.specs.Formats.Spelling.{SpellsScene};
ghost use Rattle.worked_examples.specs.Scenes.{red_clear, red_clear_bytes};

/// 26 bytes spell a window of 2 by 2 and one client's clear to red and swap.
pub fn twenty_six_bytes_spell_the_red_clear()
    ensures { SpellsScene red_clear_bytes red_clear }
{}
