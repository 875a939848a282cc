//! Laws on texts that spell scenes.
ghost use Rattle.scene_text.specs.Laws.{OneScene, NoFault, NoFaultSpells, PrintedSpells, WholePictures};

/// No text spells two scenes.
pub fn texts_spell_one_scene()
    ensures { OneScene }
{}

/// A text spells a scene exactly where it has no faulty line.
pub fn spelled_texts_have_no_fault()
    ensures none { NoFault }
    ensures only { NoFaultSpells }
{}

/// The printed text of a scene whose fields are in their ranges spells that scene.
pub fn printed_texts_spell_their_scene()
    ensures { PrintedSpells }
{}

/// A scene that a text spells is of version 1 or 2 and has four bytes (r, g, b, a) for each texel of its pictures. Of all that bytes must meet to spell a
/// scene, these are what the type of a scene leaves open.
pub fn texts_spell_whole_pictures()
    ensures { WholePictures }
{}
