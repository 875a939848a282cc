//! Laws on the definitions, in the words of the format. Each function does nothing: its contract is the law.
ghost use Rattle.rc_base.specs.Formats.Spelling.{list_set};
ghost use Rattle.packet_bytes.specs.Laws.{EncodedIsRead, SpellsOneList, SpellsOneListOf, PlainStreamsSpellThemselves, PayloadLength};
ghost use Rattle.packet_bytes.specs.Faults.{FaultsSpellNothing, FaultsAreOne, SpellsOrFails, FaultsSpellNothingOf, FaultsAreOneOf, SpellsOrFailsOf};

/// What is encoded is read again.
pub fn encoded_is_read()
    ensures law { EncodedIsRead }
{}

/// No bytes spell two lists.
pub fn spells_one_list()
    ensures law { SpellsOneList }
    // With call lists.
    ensures lists { SpellsOneListOf list_set }
{}

/// Bytes with a fault spell no list.
pub fn faults_spell_nothing()
    ensures law { FaultsSpellNothing }
    // With call lists.
    ensures lists { FaultsSpellNothingOf list_set }
{}

/// Bytes have one fault at most, at one place.
pub fn faults_are_one()
    ensures law { FaultsAreOne }
    // With call lists.
    ensures lists { FaultsAreOneOf list_set }
{}

/// Bytes spell a list, or they have a fault.
pub fn bytes_spell_or_fail()
    ensures law { SpellsOrFails }
    // With call lists.
    ensures lists { SpellsOrFailsOf list_set }
{}

/// A stream without call lists is read alike with them: its bytes spell its own commands.
pub fn plain_streams_spell_themselves()
    ensures law { PlainStreamsSpellThemselves }
{}

/// The length of a payload is that of its row, and four bytes more for each texel of its picture.
pub fn payload_length()
    ensures law { PayloadLength }
{}
