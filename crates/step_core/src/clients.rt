//! A step of one of the clients.
ghost use Rattle.std.specs.Prelude.{◌≡◌, ◌<◌, length, slice_index_or, Vec};
ghost use Rattle.std.specs.Global.{Global};
ghost use Rattle.rc_base.specs.Cluster.Tiles.{tile_count};
ghost use Rattle.client_issue.specs.Cores.{layout_of};
ghost use Rattle.client_issue.specs.declared.client.ClientCore.{ClientCore};
ghost use Rattle.step_core.specs.Changes.{IsClientStepped};
ghost use Rattle.step_core.specs.declared.port.Port.{Port};

use crate::port::Port;
use client_issue::ClientCore;
use rc_base::cluster::ClientMoved;
use rc_base::out_of_memory::OutOfMemory;
use rc_base::plain_lane::PlainLane;
use rc_base::sync::Request;

/// A step of the client's core over the client's own ports, one to each tile, and its lane of requests.
pub(crate) fn step_of_client(
    cores: &mut [ClientCore],
    client: usize,
    ports: &mut [Vec<Port>],
    lanes: &mut [PlainLane<Request>],
) -> Result<ClientMoved, OutOfMemory>
    requires core { client < length cores.old }
    requires row { client < length ports.old }
    requires lane { client < length lanes.old }
    requires tiles { (a : ClientCore) (r : Vec Port Global) → length (slice_index_or ports.old client r).items ≡ tile_count (layout_of (slice_index_or cores.old client a)) }
    ensures { IsClientStepped client result cores.old cores.new ports.old ports.new lanes.old lanes.new }
{
    cores[client].step(&mut ports[client], &mut lanes[client])
}
