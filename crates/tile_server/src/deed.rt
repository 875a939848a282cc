//! What a step of a tile does.
ghost use Rattle.std.specs.Prelude.{◌≡◌};
ghost use Rattle.tile_server.specs.Deeds.{answer_of, taking_answer};

use parcel_bytes::Packed;
use rc_base::cluster::{TileMoved, TilePart};
use rc_base::out_of_memory::OutOfMemory;
use rc_base::sync::{Entry, Grant};

/// What becomes of a client's parcel that is taken.
#[derive(Clone, Copy)]
pub enum Taking {
    /// It is work, and carried out.
    Works,
    /// It is an operation, and holds its client.
    Holds,
    /// It is the client's End, which closes it.
    Closes,
    /// It is dropped, since its client is held or the tile is short.
    Drops,
    /// It isn't an End, and is dropped since memory lacks for reading it or for its work.
    Loses,
}

/// What a step does, with the item that it takes.
#[derive(Drop)]
pub enum TileDeed {
    /// The entry, which isn't a Swap, is performed.
    Performs(Entry),
    /// A Swap is performed, which shows the part.
    Shows(TilePart),
    /// An entry is due, and memory lacks for it.
    Fails,
    /// A grant is taken; a short tile drops an entry.
    Learns(Grant),
    /// A parcel of the client is taken.
    Takes {
        client: u8,
        parcel: Packed,
        how: Taking,
    },
    /// Each lane that the tile takes from is empty.
    Rests,
    /// Nothing is left to do.
    Finishes,
}

/// What a step answers that takes a parcel of the client.
fn taking_answer(client: u8, how: Taking) -> Result<TileMoved, OutOfMemory>
    ensures { result ≡ taking_answer client how }
{
    match how {
        Taking::Works => Ok(TileMoved::Took { client }),
        Taking::Holds => Ok(TileMoved::Held { client }),
        Taking::Closes => Ok(TileMoved::Closed { client }),
        Taking::Drops => Ok(TileMoved::Dropped { client }),
        Taking::Loses => Err(OutOfMemory),
    }
}

/// What the step answers.
pub(crate) fn answer(deed: TileDeed) -> Result<TileMoved, OutOfMemory>
    ensures { result ≡ answer_of deed }
{
    match deed {
        TileDeed::Performs(_) => Ok(TileMoved::Performed),
        TileDeed::Shows(part) => Ok(TileMoved::Swapped(part)),
        TileDeed::Fails => Err(OutOfMemory),
        TileDeed::Learns(_) => Ok(TileMoved::Learnt),
        TileDeed::Takes { client, how, .. } => taking_answer(client, how),
        TileDeed::Rests => Ok(TileMoved::Blocked),
        TileDeed::Finishes => Ok(TileMoved::Ended),
    }
}
