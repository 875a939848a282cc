//! Laws of what tiles were told. Each function's contract is a law, and its body is empty: there is nothing to compute.
ghost use Rattle.state_update.specs.Streams.{ElementsNotPendingWereTold, KnownValuesAreAlike, ParcelsTellTheirSets, ParcelsWithoutSetsTellNothing, TilesBeginWithDefaults, ValidContextsHaveTheirTexture};

/// A tracker that knows what a tile was told by the parcels so far knows it after one parcel more, where it knows the values after that
/// parcel's sets. So along a client's parcels `Tracker::update` gives the sets of each.
pub fn trackers_follow_parcels()
    ensures first { TilesBeginWithDefaults }
    ensures next { ParcelsTellTheirSets }
    ensures quiet { ParcelsWithoutSetsTellNothing }
{}

/// An element that isn't pending to a tile has the value that this tile was last told. So a tracker that notes what each accepted command
/// sets may leave out the elements whose bits are clear.
pub fn elements_that_are_not_pending_were_told()
    ensures { ElementsNotPendingWereTold }
{}

/// All values that are known of a tile are alike: each is the same as another value where any of them is.
pub fn known_values_are_alike()
    ensures { KnownValuesAreAlike }
{}

/// A valid context, as each one of a stream is, has what `Tracker::update` asks of it: the private texture that is bound exists.
pub fn valid_contexts_have_their_texture()
    ensures { ValidContextsHaveTheirTexture }
{}
