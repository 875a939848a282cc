//! Laws of tiles. Each function's contract is a law, and its body is empty: there is nothing to compute.
ghost use Rattle.tile_model.specs.Lazy.{LazyStateDrawsAlike};
ghost use Rattle.tile_model.specs.Laws.{ItemsKeepProgress, LegalEntriesHaveClients, LimitsGiveSides, LogsReplayOverWhatWasTaken, MembersAreClients, NamesWithoutParcelsChangeNothing, NewTilesStand, OperationsAreDeclared, ParcelsAreFew, ParcelsAreGivable, StepsStand, SwappedFramesStay, SwapsShowAddedNames, SwapsShowFrames};

use bounds_bucket::touched_pixels_lie_in_the_box;

/// A new tile stands for every scene with its declaration and its number of clients, and for every journal.
pub fn new_tiles_stand()
    ensures { NewTilesStand }
{}

/// A tile that is under way stays so with every item that is awaited, and that is the next one of its client or of the journal. Its log replays over
/// what it took and learnt.
pub fn items_keep_progress()
    ensures items { ItemsKeepProgress }
    ensures log { LogsReplayOverWhatWasTaken }
{}

/// Names that give a tile no parcel leave each of its pixels, and all shared textures, as they were.
pub fn names_without_parcels_change_nothing()
    ensures { NamesWithoutParcelsChangeNothing }
{
    touched_pixels_lie_in_the_box();
}

/// What a tile keeps of a client at a parcel that is work draws as the client's own context does: lazy state (Buck, Humphreys and Hanrahan) loses
/// nothing.
pub fn lazy_state_draws_alike()
    ensures { LazyStateDrawsAlike }
{}

/// Every parcel of a scene is one that a scene can give: each of its values is one that its element can have, and a part of a shared texture lies
/// inside it. What this asks of the declared textures holds of every scene within the limits. A client gives a tile at most one parcel more than
/// it has commands.
pub fn parcels_are_givable()
    ensures each { ParcelsAreGivable }
    ensures sides { LimitsGiveSides }
    ensures few { ParcelsAreFew }
{}

/// A tile that stands for a scene and a legal journal stands for them after every item that is awaited and theirs.
pub fn steps_stand()
    ensures { StepsStand }
{
    touched_pixels_lie_in_the_box();
}

/// What a tile's board has when it performs a Swap is that frame, in the order of the names that its log has added then or later, and in the whole
/// order that the log records.
pub fn swaps_show_frames()
    ensures added { SwapsShowAddedNames }
    ensures recorded { SwapsShowFrames }
{
    touched_pixels_lie_in_the_box();
}

/// Names that are added later change nothing of a frame whose Swap a tile's log has performed: neither those that the log adds as it goes on, nor those
/// that the order which it records has behind them.
pub fn swapped_frames_stay()
    ensures { SwappedFramesStay }
{}

/// The members of each entry of a legal journal are clients, and `has_clients` tells entries of which this holds.
pub fn entries_have_clients()
    ensures members { MembersAreClients }
    ensures legal { LegalEntriesHaveClients }
{}

/// Each accepted operation of a scene whose commands are in their ranges names what is declared.
pub fn operations_are_declared()
    ensures { OperationsAreDeclared }
{}
