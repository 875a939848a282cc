//! Laws of the stepped cluster. Each function's contract is a law, and its body calls the laws that it follows from: there is nothing to compute.
ghost use Rattle.world_model.specs.Laws.{NewWorldsAreSound, MovesKeepWorldsSound, SchedulesKeepWorldsSound, SteppedRunsAreSound};
ghost use Rattle.world_model.specs.Laws.{RunsGoOn, OneScheduleHasOneRun, SoundWorldsHaveLegalLogs, RestChangesNothing};
ghost use Rattle.world_model.specs.Laws.{EndedWorldsAreOver, EndedWorldsAreLawful, EndedWorldsShowFrames, EndedWorldsWaitAlike, EndedWorldsTallyAll};
ghost use Rattle.world_model.specs.Laws.{FinishedRunsAreWhole, FinishedRunsAreOne, FinishedRunsLeaveOneRecord, RoundsMoveSomebody, NoRunStandsStill};
ghost use Rattle.world_model.specs.Laws.{RestsChangeNothing, EndedWorldsRest, LastRoundsTell};
ghost use Rattle.world_model.specs.Laws.{NewWorldsFlow, TurnsKeepWorldsFlowing, RoundsKeepWorldsFlowing, SteppedRunsFlow};
ghost use Rattle.world_model.specs.Laws.{MovesAreTurns, AmpleTurnsAreMoves, TurnsToAmpleWorldsAreMoves, AmpleWorldsEnd};
ghost use Rattle.world_model.specs.Laws.{RestingTurnsChangeNothing, RestingRoundsChangeNothing, StoppedWorldsRest, LastTurnsTell};
ghost use Rattle.world_model.specs.Fair.{FairTurnsMoveSomebody, FairSchedulesEnd, FairRunsEnd, FewTurnsMove, NewRunsMoveSeldom};
ghost use Rattle.world_model.specs.ThreadedFair.{ThreadedTurnsLeaveLess, ThreadedTurnsLeaveNoMore, NewThreadedWorldsHaveLittleToDo};
ghost use Rattle.world_model.specs.ThreadedFair.{ThreadedSchedulesAreLoose, LooseTurnsMoveSomebody, FairLooseSchedulesEnd, FairLooseRunsEnd, NewThreadedRunsMoveSeldom};
ghost use Rattle.world_model.specs.Held.{ThreadedRunsHoldLittle, NoTileRunsAhead, FewPartsOfEachTileAreHeld, FewPartsAreHeld};
ghost use Rattle.world_model.specs.ThreadedLaws.{LayoutsHavePixels, NewThreadedWorldsFlow, ThreadedTurnsKeepFlowing, AllThreadedTurnsKeepFlowing};
ghost use Rattle.world_model.specs.ThreadedLaws.{ThreadedTurnsMoveSomebody, NoThreadedRunStandsStill};
ghost use Rattle.world_model.specs.Work.{TurnsLeaveLess, TurnsLeaveNoMore, RoundsLeaveLess, NewWorldsHaveLittleToDo, SteppedRunsHaveLittleToDo};

use client_issue::laws::sends_are_parcels;
use order_model::laws::{
    books_stay_legal, gathering_is_lawful, grants_are_exact, over_books_are_maximal,
    scenes_within_limits,
};
use sync_manager::laws::managers_are_right;
use tile_model::laws::{entries_have_clients, new_tiles_stand, steps_stand, swaps_show_frames};

/// Over every schedule the worlds are sound: a new world is, and each move leaves a sound world sound, and so do any moves one after the other.
pub fn schedules_keep_worlds_sound()
    ensures first { NewWorldsAreSound }
    ensures next { MovesKeepWorldsSound }
    ensures all { SchedulesKeepWorldsSound }
    ensures runs { SteppedRunsAreSound }
{
    sends_are_parcels();
    books_stay_legal();
    managers_are_right();
    new_tiles_stand();
    steps_stand();
    swaps_show_frames();
}

/// A stepped run goes on with the moves of more picks.
pub fn runs_go_on()
    ensures { RunsGoOn }
{}

/// The picks alone determine a run: what each actor answers, and so the lanes' lists, the journal and the logs.
pub fn one_schedule_has_one_run()
    ensures { OneScheduleHasOneRun }
{
    sends_are_parcels();
    books_stay_legal();
    grants_are_exact();
    managers_are_right();
    new_tiles_stand();
    steps_stand();
    swaps_show_frames();
}

/// In a sound world the journal is legal, and each tile's log replays over it.
pub fn sound_worlds_have_legal_logs()
    ensures { SoundWorldsHaveLegalLogs }
{}

/// The move of an actor that is blocked or has ended leaves all actors and lanes as they were.
pub fn rest_changes_nothing()
    ensures { RestChangesNothing }
{}

/// Moves of actors that are blocked or have ended leave all as it was. All have ended exactly where each move of a round says so; no move moves
/// anything then.
pub fn ended_worlds_rest()
    ensures still { RestsChangeNothing }
    ensures ended { EndedWorldsRest }
    ensures told { LastRoundsTell }
{
    managers_are_right();
}

/// In a sound world in which all have ended, the book is over, and each tile is done with its journal.
pub fn ended_worlds_are_over()
    ensures { EndedWorldsAreOver }
{}

/// In a sound world in which all have ended, the scene's lists, the journal and the tiles' logs are a lawful record.
pub fn ended_worlds_are_lawful()
    ensures { EndedWorldsAreLawful }
{
    gathering_is_lawful();
}

/// In such a world each tile has shown its pixels of each frame, in the order that its log records. The clients wait at the operations at which the
/// journal leaves them waiting, and the tallies are those of all parcels.
pub fn ended_worlds_are_whole()
    ensures frames { EndedWorldsShowFrames }
    ensures waiting { EndedWorldsWaitAlike }
    ensures tallies { EndedWorldsTallyAll }
{
    over_books_are_maximal();
}

/// Every schedule: picks, and behind them rounds until all have ended, whatever the depth of the lanes. The record is lawful, the parts are the frames
/// in the orders that it records, and the picks determine it.
pub fn finished_runs_are_whole()
    ensures whole { FinishedRunsAreWhole }
    ensures one { FinishedRunsAreOne }
{
    schedules_keep_worlds_sound();
    ended_worlds_are_lawful();
    ended_worlds_are_whole();
    one_schedule_has_one_run();
}

/// Runs of the same picks that are finished leave one record: the journal and each tile's log.
pub fn finished_runs_leave_one_record()
    ensures { FinishedRunsLeaveOneRecord }
{
    finished_runs_are_whole();
}

/// Whoever is short, and whoever becomes so: the worlds flow. A new world does, each turn leaves a flowing world flowing, and so do any turns one after
/// the other. A move is a turn, so the worlds of stepped runs flow too, and nobody is short in them.
pub fn turns_keep_worlds_flowing()
    ensures first { NewWorldsFlow }
    ensures next { TurnsKeepWorldsFlowing }
    ensures all { RoundsKeepWorldsFlowing }
    ensures moves { MovesAreTurns }
    ensures runs { SteppedRunsFlow }
{
    sends_are_parcels();
    books_stay_legal();
    managers_are_right();
}

/// Where nobody is short, the turns that answer without want of memory are the moves. Where nobody is short after some turns, nobody was before them,
/// and they are moves. All have ended in such a world where all have stopped.
pub fn ample_turns_are_moves()
    ensures next { AmpleTurnsAreMoves }
    ensures all { TurnsToAmpleWorldsAreMoves }
    ensures ended { AmpleWorldsEnd }
{}

/// The turn of an actor that is blocked or has ended leaves all actors and lanes as they were.
pub fn resting_turns_change_nothing()
    ensures { RestingTurnsChangeNothing }
{}

/// So do turns of such actors one after the other. All have stopped exactly where each turn of a round says so; no turn moves anything then.
pub fn stopped_worlds_rest()
    ensures still { RestingRoundsChangeNothing }
    ensures stopped { StoppedWorldsRest }
    ensures told { LastTurnsTell }
{
    managers_are_right();
}

/// Nothing stands still: a whole round moves somebody until all have stopped, for lanes of every depth above 0, whoever is short. It is shown by
/// counts of operations: each goes to all tiles before its request goes to the manager, so a tile that knows an entry has what it needs for it.
pub fn rounds_move_somebody()
    ensures round { RoundsMoveSomebody }
    ensures run { NoRunStandsStill }
{
    entries_have_clients();
    turns_keep_worlds_flowing();
}

/// Each turn that isn't at rest leaves less to do, and no turn leaves more; so turns leave less of which one isn't at rest. A new world of a scene
/// within the limits has fewer than 2^40 things to do, and so have the worlds of its runs.
pub fn turns_leave_less()
    ensures less { TurnsLeaveLess }
    ensures no_more { TurnsLeaveNoMore }
    ensures all { RoundsLeaveLess }
    ensures first { NewWorldsHaveLittleToDo }
    ensures runs { SteppedRunsHaveLittleToDo }
{
    sends_are_parcels();
    books_stay_legal();
    managers_are_right();
}

/// Every fair schedule ends: whatever the sequence of turns without end, if each actor has one again and again, all come to have stopped, for lanes of
/// every depth above 0, whoever is short or becomes so. For among turns of which each actor has one somebody moves until then, and no more turns move
/// than there were things to do: from a new world of a scene within the limits fewer than 2^40.
pub fn fair_schedules_end()
    ensures some { FairTurnsMoveSomebody }
    ensures ends { FairSchedulesEnd }
    ensures runs { FairRunsEnd }
    ensures few { FewTurnsMove }
    ensures seldom { NewRunsMoveSeldom }
{
    entries_have_clients();
    turns_keep_worlds_flowing();
    turns_leave_less();
}

/// The cluster that runs on threads doesn't stand still: with lanes of the tiles' parts, a part that each tile hands over, and a caller who takes them, too,
/// somebody moves among turns of which each actor has one and so has the caller, until all have stopped and no part waits; for lanes of every depth above 0,
/// whoever is short. Were a tile to hand a part over for ever, it would be two frames ahead of the tile whose part the caller misses; but no entry is granted
/// before each tile has the one before it.
pub fn threads_move_somebody()
    ensures pixels { LayoutsHavePixels }
    ensures first { NewThreadedWorldsFlow }
    ensures next { ThreadedTurnsKeepFlowing }
    ensures all { AllThreadedTurnsKeepFlowing }
    ensures some { ThreadedTurnsMoveSomebody }
    ensures run { NoThreadedRunStandsStill }
{
    entries_have_clients();
    turns_keep_worlds_flowing();
}

/// Every fair schedule of the cluster that runs on threads ends, whose actors look at one lane after the other: a turn that moves something does so whatever its
/// actor saw before, and one that moves nothing saw each lane that it waits for, empty or full, at some moment since its actor's last turn. Whatever the sequence
/// of such turns without end, if each actor has one again and again, and so has the caller, all come to have stopped and no part waits. For each turn that moves
/// something leaves less to do: from a new world of a scene within the limits fewer than 2^42 turns do. That a thread has turns at all is up to the system.
pub fn fair_threads_end()
    ensures less { ThreadedTurnsLeaveLess }
    ensures no_more { ThreadedTurnsLeaveNoMore }
    ensures little { NewThreadedWorldsHaveLittleToDo }
    ensures one_moment { ThreadedSchedulesAreLoose }
    ensures some { LooseTurnsMoveSomebody }
    ensures ends { FairLooseSchedulesEnd }
    ensures runs { FairLooseRunsEnd }
    ensures seldom { NewThreadedRunsMoveSeldom }
{
    scenes_within_limits();
    entries_have_clients();
    threads_move_somebody();
    turns_leave_less();
}

/// In the cluster that runs on threads few parts are held, however many frames there are, and whatever actors see of their lanes. While the caller isn't short, the
/// frames that its calls gave, and the parts of a tile in its place, in its lane and handed over, are the frames that the tile has shown, and one more where it is
/// short. So a tile has shown at most depth + 2 frames beyond those that were given, and fewer than depth + 2 parts for each tile are held.
pub fn threads_hold_few_parts()
    ensures count { ThreadedRunsHoldLittle }
    ensures ahead { NoTileRunsAhead }
    ensures each { FewPartsOfEachTileAreHeld }
    ensures all { FewPartsAreHeld }
{
    threads_move_somebody();
}
