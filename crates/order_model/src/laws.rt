//! Laws of journals, orders and logs. Each function's contract is a law, and its body is empty: there is nothing to compute.
ghost use Rattle.order_model.specs.Gathering.{GatheringIsLawful, LegalBooksHaveLegalJournals, OverBooksAreMaximal, OverBooksWaitAlike};
ghost use Rattle.order_model.specs.Scenes.{ScenesWithinLimitsAreDrawable, ScenesWithinLimitsAreRunnable};
ghost use Rattle.order_model.specs.Laws.{SceneListsAreWellFormed, PrefixesAreLegal, GrantsAreLawful, NothingIsGrantedExactlyWhereNoneIsLawful, DefaultJournalIsMaximal, MaximalJournalsEndAlike, MaximalJournalsAgree, FullScenesAreUncontended, DefaultOrdersArePermitted, OneClientHasOneOrder, RecordedOrdersArePermitted, LawfulRecordsArePermitted, OrderedScenesDrawAlike, OrderedScenesHaveOneFrame, LawfulRecordsShowOneImage, SceneJobsAreSent, RecordsOfScenesArePermitted, MaximalJournalsSwapAlike, CanvasTexturesAreTextures, BooksStayLegal, BooksGrantWhatIsLawful, OrderedRunsShowOneImage, UncontendedRunsShowTheDefaultImage, SwapsAreFew};

/// A scene within the limits can be drawn by one renderer, and run by a cluster on a layout within them: all that their calls need of it follows.
pub fn scenes_within_limits()
    ensures drawable { ScenesWithinLimitsAreDrawable }
    ensures runnable { ScenesWithinLimitsAreRunnable }
{}

/// The operations of a scene rise within their streams.
pub fn scene_lists_are_well_formed()
    ensures { SceneListsAreWellFormed }
{}

/// The front of a legal journal is legal.
pub fn prefixes_are_legal()
    ensures { PrefixesAreLegal }
{}

/// What is granted is lawful, and nothing is granted exactly where no entry is lawful.
pub fn grants_are_exact()
    ensures lawful { GrantsAreLawful }
    ensures none { NothingIsGrantedExactlyWhereNoneIsLawful }
{}

/// A book stays legal along arrivals, ends and grants, and it grants nothing exactly where no entry is lawful by what arrived.
pub fn books_stay_legal()
    ensures legal { BooksStayLegal }
    ensures grants { BooksGrantWhatIsLawful }
{}

/// The default journal is legal, and no entry is lawful after it.
pub fn default_journal_is_maximal()
    ensures { DefaultJournalIsMaximal }
{}

/// Where one client takes from each semaphore and no barrier is named by more clients than it counts, all maximal journals leave the same clients
/// waiting and reach the same places. Where besides one client gives each unit that is taken, all permit the same orders.
pub fn maximal_journals_agree()
    ensures ends { MaximalJournalsEndAlike }
    ensures orders { MaximalJournalsAgree }
{}

/// Nobody contends where nothing takes a unit and all clients meet at each barrier.
pub fn full_scenes_are_uncontended()
    ensures { FullScenesAreUncontended }
{}

/// The default order of a legal journal is permitted by it.
pub fn default_orders_are_permitted()
    ensures { DefaultOrdersArePermitted }
{}

/// An order of one client's names is permitted exactly where it is the rising one.
pub fn one_client_has_one_order()
    ensures { OneClientHasOneOrder }
{}

/// The order that a tile's log records is permitted, where the log replays and is complete.
pub fn recorded_orders_are_permitted()
    ensures log { RecordedOrdersArePermitted }
    ensures record { LawfulRecordsArePermitted }
{}

/// The shared textures that an order leaves are one fold of their own, whatever is shown and whichever pixel is looked at.
pub fn canvas_textures_are_textures()
    ensures { CanvasTexturesAreTextures }
{}

/// Where every two conflicting commands stand in one sequence, every permitted order draws the same: only names that commute change places.
pub fn ordered_scenes_draw_alike()
    ensures any { OrderedScenesDrawAlike }
    ensures frames { OrderedScenesHaveOneFrame }
    ensures record { LawfulRecordsShowOneImage }
{}

/// Lawful records of scenes record permitted orders.
pub fn records_of_scenes()
    ensures jobs { SceneJobsAreSent }
    ensures orders { RecordsOfScenesArePermitted }
{}

/// Where a legal book is over, and each tile is under way for its journal and done, the journal and the tiles' logs make a lawful record.
pub fn gathering_is_lawful()
    ensures { GatheringIsLawful }
{}

/// What arrived in a legal book is a front of each client's operations: then its journal is legal for the whole lists. Where the book is over the
/// journal is maximal, and the clients wait in the book where the journal leaves them waiting.
pub fn over_books_are_maximal()
    ensures legal { LegalBooksHaveLegalJournals }
    ensures maximal { OverBooksAreMaximal }
    ensures waiting { OverBooksWaitAlike }
{}

/// A legal journal of a scene has no more Swaps than the first client has commands.
pub fn swaps_are_few()
    ensures { SwapsAreFew }
{}

/// Runs of an ordered scene show the frames of every permitted order; where nobody contends, those of the default order.
pub fn runs_show_one_image()
    ensures swaps { MaximalJournalsSwapAlike }
    ensures permitted { OrderedRunsShowOneImage }
    ensures default { UncontendedRunsShowTheDefaultImage }
{}
