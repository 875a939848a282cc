//! Laws on filters. Each function does nothing: its contract is the law.
ghost use Rattle.spu_chain.specs.Laws.{MembersFollow, ChainsFollow, ListsFollow, CountsWhatComes, FilteredStaysWithin, FilteredStaysWell, FilteredKeepsClients};

/// A chain is its members' meanings, one after the other: each makes of the whole list that the one before makes what it would make of it alone. A
/// tint multiplies each colour, culling switched off is switched on, an opcode's commands are left out, and a count leaves the list as it is.
pub fn members_follow()
    ensures { MembersFollow }
{}

/// Two chains, one behind the other, are the second applied to what the first gives of the whole list.
pub fn chains_follow()
    ensures { ChainsFollow }
{}

/// Of two lists, one behind the other, the second meets the rules that the first leaves.
pub fn lists_follow()
    ensures { ListsFollow }
{}

/// A counting member counts the commands that come out of the members before it.
pub fn counts_what_comes()
    ensures { CountsWhatComes }
{}

/// What a chain makes of a scene is a scene for the jobs that take that one: it stays within the limits, where that is, its commands have fields in their
/// ranges, where those have and the tints are of bytes, and it has the same declaration and as many clients.
pub fn filtered_scenes_stay()
    ensures within { FilteredStaysWithin }
    ensures well { FilteredStaysWell }
    ensures clients { FilteredKeepsClients }
{}
