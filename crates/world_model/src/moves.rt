//! What a schedule's steps come to: one move for each.
use rc_base::cluster::{ClientMoved, ManagerMoved};

/// What a tile's step answered, without the pixels of a frame that it showed.
#[derive(Clone, Copy, Debug, PartialEq, Eq)]
pub enum TileAnswer {
    Performed,
    Swapped,
    Learnt,
    Took { client: u8 },
    Held { client: u8 },
    Closed { client: u8 },
    Dropped { client: u8 },
    Blocked,
    Ended,
}

/// An actor's step, by its answer. It takes four bytes.
#[derive(Clone, Copy, Debug, PartialEq, Eq)]
pub enum Move {
    Client { client: u8, answer: ClientMoved },
    Manager { answer: ManagerMoved },
    Tile { tile: u8, answer: TileAnswer },
}
