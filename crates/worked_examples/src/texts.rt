//! Which texts spell no scene: the first faulty line, and what is wrong with it.
ghost use Rattle.std.specs.Prelude.{◌≡◌, ◌++◌, [], ◌∷◌, codes, None, Some};
ghost use Rattle.scene_text.specs.Text.Faults.{text_fault};
ghost use Rattle.worked_examples.specs.Scenes.{client_text, crlf};
ghost use Rattle.rc_base.specs.declared.scene.TextKind.TheVariants.{BadHex, BadNumber, NotText, NoScene, OutOfPlace, UnknownWord, WrongCount};

/// A comment begins with `#`; behind a space `#` is a word that no line has.
pub fn words_are_known_by_their_lines()
    ensures fine { text_fault (codes "# red\n\nscene 1 2 2\nclient\n  Clear   1\nSwap") ≡ None }
    ensures unknown { text_fault (client_text (codes "Clear 1\nSwop\n")) ≡ Some (4, UnknownWord) }
    ensures no_comment { text_fault (codes "scene 1 2 2\n # red\n") ≡ Some (2, UnknownWord) }
{}

/// The window comes first and once, and a client before its commands.
pub fn lines_have_their_places()
    ensures first { text_fault (codes "client\nscene 1 2 2\n") ≡ Some (1, OutOfPlace) }
    ensures once { text_fault (codes "scene 1 2 2\nscene 1 2 2\n") ≡ Some (2, OutOfPlace) }
    ensures client { text_fault (codes "scene 1 2 2\nSwap\n") ≡ Some (2, OutOfPlace) }
    ensures shared_first { text_fault (codes "scene 1 2 2\nbarrier 2\nshared 1 1\n") ≡ Some (3, OutOfPlace) }
{}

/// Words are counted before they are read. A version other than 1 or 2 and a side of 65536 are no numbers of their fields. A picture of no texel has
/// no word of texels.
pub fn lines_have_their_numbers()
    ensures few { text_fault (codes "scene 2 2\n") ≡ Some (1, WrongCount) }
    ensures version { text_fault (codes "scene 3 1 1\n") ≡ Some (1, BadNumber) }
    ensures side { text_fault (codes "scene 1 1 65536\n") ≡ Some (1, BadNumber) }
    ensures minus { text_fault (client_text (codes "Clear -1\n")) ≡ Some (3, BadNumber) }
    ensures leading_zero { text_fault (codes "scene 01 1 1\n") ≡ None }
    ensures no_texels { text_fault (client_text (codes "TexPart 1 0 0 1 0 00\n")) ≡ Some (3, WrongCount) }
{}

/// A texel is eight hexadecimal digits of either case.
pub fn texels_are_hexadecimal()
    ensures fine { text_fault (client_text (codes "TexImage 1 1 1 00fF00Ff\n")) ≡ None }
    ensures digit { text_fault (client_text (codes "TexImage 1 1 1 00ff00fg\n")) ≡ Some (3, BadHex) }
    ensures short { text_fault (client_text (codes "TexImage 1 1 1 00ff00\n")) ≡ Some (3, BadHex) }
{}

/// A tab is no text. A carriage return counts for nothing right before the end of a line, and is no text elsewhere.
pub fn lines_are_printing_characters()
    ensures tab { text_fault (codes "scene" ++ 9 ∷ codes "1 1 1\n") ≡ Some (1, NotText) }
    ensures carriage_return { text_fault (codes "scene 1 1 1" ++ crlf ++ codes "client" ++ crlf) ≡ None }
    ensures return_alone { text_fault (codes "scene 1 1 1" ++ 13 ∷ []) ≡ Some (1, NotText) }
{}

/// Lines that say nothing are no scene.
pub fn a_scene_has_a_window()
    ensures empty { text_fault [] ≡ Some (1, NoScene) }
    ensures comments { text_fault (codes "# nothing\n\n  \n") ≡ Some (1, NoScene) }
{}
