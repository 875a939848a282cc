//! From the clients' ports to the tiles' own lanes.
ghost use Rattle.std.specs.Prelude.{◌≡◌, ◌<◌, length, slice_index_or};
ghost use Rattle.rc_base.specs.declared.plain_lane.PlainLane.{PlainLane};
ghost use Rattle.rc_base.specs.declared.state.Parcel.{Parcel};
ghost use Rattle.step_core.specs.Ports.{where_appended, CanCarry, IsCarried, IsCarriedIn, IsCarriedOver, IsPortOf};
ghost use Rattle.step_core.specs.declared.port.Port.{Port};

use crate::landing::Landing;
use crate::port::Port;
use rc_base::cluster::ClientMoved;

fn carry_over(port: &mut Port, lane: &mut Landing)
    requires { IsPortOf port.old lane.old }
    ensures { IsCarriedOver port.old port.new lane.old lane.new }
{
    if let Some(parcel) = port.take() {
        match lane.push(parcel) {
            Ok(()) => {}
            Err(_) => unreachable!(),
        }
    }
}

fn carry_between(ports: &mut [Port], tile: usize, lanes: &mut [Landing], client: usize)
    requires port { tile < length ports.old }
    requires lane { client < length lanes.old }
    requires tells { (d : Port) (e : PlainLane Parcel) → IsPortOf (slice_index_or ports.old tile d) (slice_index_or lanes.old client e) }
    ensures { IsCarriedIn client tile ports.old ports.new lanes.old lanes.new }
{
    carry_over(&mut ports[tile], &mut lanes[client]);
}

fn carry_to(ports: &mut [Vec<Port>], rows: &mut [Vec<Landing>], client: usize, tile: usize)
    requires { CanCarry client tile ports.old rows.old }
    ensures { IsCarried client tile ports.old ports.new rows.old rows.new }
{
    carry_between(&mut ports[client], tile, &mut rows[tile], client);
}

/// Carries what a client appended for a tile to the tile's own lane.
pub(crate) fn carry(
    ports: &mut [Vec<Port>],
    rows: &mut [Vec<Landing>],
    client: usize,
    answer: ClientMoved,
)
    requires { where_appended answer (λ tile. CanCarry client tile ports.old rows.old) (Unit {0}) }
    ensures { where_appended answer (λ tile. IsCarried client tile ports.old ports.new rows.old rows.new) ((ports.new ≡ ports.old) × (rows.new ≡ rows.old)) }
{
    if let ClientMoved::Appended { tile } = answer {
        carry_to(ports, rows, client, usize::from(tile));
    }
}
