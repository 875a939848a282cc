//! Appending to one of several lanes.
ghost use Rattle.std.specs.Prelude.{◌≡◌, ◌≢◌, ℕ, ◌<◌, ◌++◌, ◌∷◌, [], length, OnOk, IfErr};
ghost use Rattle.rc_base.specs.Outside.Causes.{Rose};
ghost use Rattle.rc_base.specs.Cluster.Lanes.{EachLane};

use rc_base::lane::Outlet;

/// Appends the item to one of the lanes, or hands it back where that lane is full.
pub(crate) fn append<T, P: Outlet<T>>(lanes: &mut [P], lane: usize, item: T) -> Result<(), T>
    requires { lane < length lanes.old }
    ensures lane_of { EachLane (λ i a b. P.lane_of b ≡ P.lane_of a) lanes.old lanes.new }
    ensures others { EachLane (λ i a b. i ≢ lane → b ≡ a) lanes.old lanes.new }
    ensures appended { OnOk result (EachLane (λ i a b. i ≡ lane → P.sent b ≡ P.sent a ++ item ∷ []) lanes.old lanes.new) }
    ensures counted { OnOk result (EachLane (λ i a b. i ≡ lane → P.full_seen b ≡ P.full_seen a) lanes.old lanes.new) }
    ensures handed_back { IfErr result (λ x. x ≡ item) }
    ensures same { IfErr result (λ x. EachLane (λ i a b. i ≡ lane → P.sent b ≡ P.sent a) lanes.old lanes.new) }
    ensures cause { IfErr result (λ x. EachLane (λ i a b. i ≡ lane → Rose (P.full_seen a) (P.full_seen b) × P.full b) lanes.old lanes.new) }
{
    lanes[lane].push(item)
}
