//! What the actors of the cluster hand to one another and answer: parts of frames, tallies, and the answers of their steps.
use crate::items::Items;
use crate::state::Fault;
use crate::window::Pixels;

/// How many parcels went to a tile, how many elements they set, and how many looks at dirty bits they cost.
#[derive(Clone, Copy, Debug, PartialEq, Eq)]
pub struct Tally {
    pub parcels: u64,
    pub sets: u64,
    pub looks: u64,
}

/// One tally for each tile, tiles rising.
pub type Tallies = Items<Tally>;

/// The pixels of one tile in one frame, from 1: y rising, in each row x rising.
#[derive(Clone, Debug, PartialEq, Drop)]
pub struct TilePart {
    pub tile: u8,
    pub frame: u32,
    pub pixels: Pixels,
}

/// Parts of frames.
pub type Parts = Items<TilePart>;

/// Refused commands of a client: each one's place and fault, places rising.
pub type FaultList = Items<(u32, Fault)>;

/// One list for each client.
pub type FaultLists = Items<FaultList>;

/// What a client's step did.
#[derive(Clone, Copy, Debug, PartialEq, Eq)]
pub enum ClientMoved {
    /// A parcel was appended to the tile's lane.
    Appended { tile: u8 },
    /// A request was appended.
    Requested,
    /// The tile's lane was full.
    BlockedTile { tile: u8 },
    /// The lane of requests was full.
    BlockedRequest,
    /// All was sent.
    Ended,
}

/// What the manager's step did.
#[derive(Clone, Copy, Debug, PartialEq, Eq)]
pub enum ManagerMoved {
    /// An entry, or that there is no more, was appended to the tile's lane.
    Delivered { tile: u8 },
    /// That lane was full.
    BlockedGrant { tile: u8 },
    /// An entry was granted.
    Granted,
    /// A request of the client arrived.
    Arrived { client: u8 },
    /// Each lane that is waited for was empty.
    BlockedRequest,
    /// A request of the client was dropped, since the book is over.
    Drained { client: u8 },
    /// Nothing is left to do.
    Ended,
}

/// What a tile's step did.
#[derive(Clone, Debug, PartialEq, Drop)]
pub enum TileMoved {
    /// An entry was performed.
    Performed,
    /// A Swap was performed, which shows these pixels.
    Swapped(TilePart),
    /// An entry was learnt, or that there is no more.
    Learnt,
    /// A parcel of the client was carried out.
    Took { client: u8 },
    /// The client is held at its operation.
    Held { client: u8 },
    /// The client's End was taken.
    Closed { client: u8 },
    /// A parcel of the client was dropped.
    Dropped { client: u8 },
    /// Each lane that is waited for was empty.
    Blocked,
    /// Nothing is left to do.
    Ended,
}
