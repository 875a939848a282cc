//! Laws of tiles' cores. Each function's contract is a law; there is nothing to compute.
ghost use Rattle.order_model.specs.Gathering.{GatheringIsLawful};
ghost use Rattle.tile_server.specs.Clauses.{NewTilesMeetTheirClause, TileFramesStay, TileStepsKeepTheClause, TileStepsOverLanesKeepTheClause, EndedTilesAreDone, SameViewsKeepTheClause};
ghost use Rattle.tile_server.specs.Laws.{FinishedCoresAreDone, NewCoresStand, ShownPartsAreFrames, StepsKeepStanding};

use order_model::laws as order_laws;
use parcel_bytes::Packed;
use rc_base::lane::Inlet;
use rc_base::sync::Grant;
use tile_model::laws::{new_tiles_stand, steps_stand, swapped_frames_stay, swaps_show_frames};

/// A new core stands for every scene of its declaration and its number of clients, and for every journal.
pub fn new_cores_stand()
    ensures { NewCoresStand }
{
    new_tiles_stand();
}

/// A core that stands for a scene and a legal journal stands for them after each step in which memory doesn't lack and whose item is theirs.
pub fn steps_keep_standing()
    ensures { StepsKeepStanding }
{
    steps_stand();
}

/// What a core shows at a Swap is its part of that frame, in the order that its log records, whatever the log goes on with.
pub fn shown_parts_are_frames()
    ensures { ShownPartsAreFrames }
{
    swaps_show_frames();
}

/// What a tile has shown are its parts of the frames of the names that its log has added, and names that are added later change none of them: they are
/// its parts of the frames of the whole order that its log records.
pub fn tile_frames_stay()
    ensures { TileFramesStay }
{
    swapped_frames_stay();
}

/// A core that stands for a scene and a journal, has learnt all of the journal and finds nothing left to do is done.
pub fn finished_cores_are_done()
    ensures { FinishedCoresAreDone }
{}

/// Where a legal book is over, and each tile is under way for its journal and done, the journal and the tiles' logs make a lawful record.
pub fn gathering_is_lawful()
    ensures { GatheringIsLawful }
{
    order_laws::gathering_is_lawful();
}

/// A tile's core meets its clause at first, and after each step over any items. Where it has ended, isn't short, and took and heard fronts of what a
/// scene and a legal journal give, it is right for them and done.
pub fn tiles_meet_their_clause()
    ensures first { NewTilesMeetTheirClause }
    ensures step { TileStepsKeepTheClause }
    ensures ended { EndedTilesAreDone }
{
    new_cores_stand();
    steps_keep_standing();
    swaps_show_frames();
    swapped_frames_stay();
}

/// So it does over lanes, by the contract of `TileCore::step` alone.
pub fn tiles_meet_their_clause_over_lanes<I: Inlet<Packed>, J: Inlet<Grant>>()
    ensures { TileStepsOverLanesKeepTheClause I.gave I.same J.gave J.same }
{
    tiles_meet_their_clause();
}

/// A core of which contracts see the same as of one that meets its clause meets it too.
pub fn same_views_meet_the_clause()
    ensures { SameViewsKeepTheClause }
{}
