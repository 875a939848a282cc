//! What an actor's move comes to.
ghost use Rattle.std.specs.Prelude.{◌≡◌};
ghost use Rattle.step_core.specs.Actors.{client_said, manager_said, tile_said, said_of};

use rc_base::cluster::{ClientMoved, ManagerMoved};
use world_model::{Move, TileAnswer};

/// What a step of an actor came to.
#[derive(Clone, Copy)]
pub(crate) enum Stepped {
    /// An item moved, or an entry was granted or performed.
    Moved,
    /// It waits for a lane.
    Waits,
    /// It has nothing left to do.
    Ended,
}

fn client_stepped(answer: ClientMoved) -> Stepped
    ensures { result ≡ client_said answer }
{
    match answer {
        ClientMoved::Appended { .. } | ClientMoved::Requested => Stepped::Moved,
        ClientMoved::BlockedTile { .. } | ClientMoved::BlockedRequest => Stepped::Waits,
        ClientMoved::Ended => Stepped::Ended,
    }
}

fn manager_stepped(answer: ManagerMoved) -> Stepped
    ensures { result ≡ manager_said answer }
{
    match answer {
        ManagerMoved::Delivered { .. }
        | ManagerMoved::Granted
        | ManagerMoved::Arrived { .. }
        | ManagerMoved::Drained { .. } => Stepped::Moved,
        ManagerMoved::BlockedGrant { .. } | ManagerMoved::BlockedRequest => Stepped::Waits,
        ManagerMoved::Ended => Stepped::Ended,
    }
}

fn tile_stepped(answer: TileAnswer) -> Stepped
    ensures { result ≡ tile_said answer }
{
    match answer {
        TileAnswer::Blocked => Stepped::Waits,
        TileAnswer::Ended => Stepped::Ended,
        _ => Stepped::Moved,
    }
}

/// What a move comes to.
pub(crate) fn outcome_of(made: Move) -> Stepped
    ensures { result ≡ said_of made }
{
    match made {
        Move::Client { answer, .. } => client_stepped(answer),
        Move::Manager { answer } => manager_stepped(answer),
        Move::Tile { answer, .. } => tile_stepped(answer),
    }
}
