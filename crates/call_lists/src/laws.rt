//! Laws of expansions. Each function's contract is a law, and its body is empty.
ghost use Rattle.call_lists.specs.Laws.{PlainStreamsMeanThemselves, RecordingsMakeLists, CallsMeanTheirLists, CallsEndAtTheEighthList, RefusedCommandsAreLeftOut, LimitsArePassedOnce, CostsAreTold, ExpansionsStayInRange, ExpansionsAreWhole};

/// A stream that makes and calls no list means itself.
pub fn plain_streams_mean_themselves()
    ensures { PlainStreamsMeanThemselves }
{}

/// A recording makes the list of its name, and gives nothing.
pub fn recordings_make_lists()
    ensures { RecordingsMakeLists }
{}

/// A call means the commands of its list in its place.
pub fn calls_mean_their_lists()
    ensures { CallsMeanTheirLists }
{}

/// A list that calls itself at its end gives its other commands eight times.
pub fn calls_end_at_the_eighth_list()
    ensures { CallsEndAtTheEighthList }
{}

/// A refused command gives nothing and changes nothing, and is noted.
pub fn refused_commands_are_left_out()
    ensures { RefusedCommandsAreLeftOut }
{}

/// The costs pass their limit exactly where all of them do, at one command.
pub fn limits_are_passed_once()
    ensures { LimitsArePassedOnce }
{}

/// The sum that is told of costs is that of all, or where they pass their limit that of the command that passed it.
pub fn costs_are_told()
    ensures { CostsAreTold }
{}

/// Expanded commands have their fields in range where those of the stream have.
pub fn expansions_stay_in_range()
    ensures { ExpansionsStayInRange }
{}

/// An expansion is stored whole where there is room for it.
pub fn expansions_are_whole()
    ensures { ExpansionsAreWhole }
{}
