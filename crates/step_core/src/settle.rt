//! From the tiles' own lanes to the clients' ports: how many items stand there.
ghost use Rattle.step_core.specs.Settling.{CanSettle, CanSettleIn, CanSettleTo, AreSettled, IsSettledIn, IsSettledTo};

use crate::landing::Landing;
use crate::port::Port;

fn settle_in(ports: &mut [Port], tile: usize, lane: &Landing)
    requires { CanSettleIn tile ports.old lane.now }
    ensures { IsSettledIn tile ports.old ports.new lane.now }
{
    ports[tile].settle(lane.count());
}

fn settle_to(ports: &mut [Vec<Port>], client: usize, tile: usize, lane: &Landing)
    requires { CanSettleTo client tile ports.old lane.now }
    ensures { IsSettledTo client tile ports.old ports.new lane.now }
{
    settle_in(&mut ports[client], tile, lane);
}

/// Each client's port to the tile knows how many items stand there.
pub(crate) fn settle(ports: &mut [Vec<Port>], tile: usize, lanes: &[Landing])
    requires { CanSettle tile ports.old lanes.now }
    ensures { AreSettled tile ports.old ports.new lanes.now }
{
    for client in 0..ports.len() {
        settle_to(ports, client, tile, &lanes[client]);
    }
}
