//! Taking from one of several lanes, in rotation.
ghost use Rattle.std.specs.Prelude.{◌≡◌, ◌≢◌, ℕ, ◌<◌, ◌≤◌, length, IfSome, IfNone, IsTrue};
ghost use Rattle.rc_base.specs.Cluster.Lanes.{EachLane, IsAsked, IsEarlier};
ghost use Rattle.rc_base.specs.Outside.Causes.{Rose};

use crate::lane::Inlet;

/// Takes from the lane if it is asked.
fn pop_asked<T, I: Inlet<T>>(lane: &mut I, asked: bool) -> Option<T>
    ensures lane { I.lane_of lane.new ≡ I.lane_of lane.old }
    ensures asked { IfSome result (λ x. IsTrue asked) }
    ensures given { IfSome result (λ x. I.gave lane.old x lane.new) }
    ensures none { IfNone result (I.same lane.old lane.new) }
    ensures bare { IfNone result (IsTrue asked → Rose (I.empty_seen lane.old) (I.empty_seen lane.new) × I.bare lane.new) }
{
    if asked {
        return lane.pop();
    }
    None
}

/// Takes from the first lane of a range that is asked and gives something.
fn take_between<T, I: Inlet<T>>(
    lanes: &mut [I],
    asks: &[bool],
    low: usize,
    high: usize,
) -> Option<(usize, T)>
    requires range { (low ≤ high) × (high ≤ length lanes.old) }
    requires asks { length lanes.old ≤ length asks.now }
    ensures lanes { EachLane (λ i a b. I.lane_of b ≡ I.lane_of a) lanes.old lanes.new }
    ensures below { EachLane (λ i a b. i < low → b ≡ a) lanes.old lanes.new }
    ensures above { EachLane (λ i a b. high ≤ i → b ≡ a) lanes.old lanes.new }
    ensures place { IfSome result (λ r. (low ≤ r.0) × (r.0 < high) × IsAsked asks.now r.0) }
    ensures gave { IfSome result (λ r. EachLane (λ i a b. i ≡ r.0 → I.gave a r.1 b) lanes.old lanes.new) }
    ensures others { IfSome result (λ r. EachLane (λ i a b. i ≢ r.0 → I.same a b) lanes.old lanes.new) }
    ensures passed { IfSome result (λ r. EachLane (λ i a b. low ≤ i → i < r.0 → IsAsked asks.now i → Rose (I.empty_seen a) (I.empty_seen b) × I.bare b) lanes.old lanes.new) }
    ensures none { IfNone result (EachLane (λ i a b. I.same a b) lanes.old lanes.new) }
    ensures bare { IfNone result (EachLane (λ i a b. low ≤ i → i < high → IsAsked asks.now i → Rose (I.empty_seen a) (I.empty_seen b) × I.bare b) lanes.old lanes.new) }
{
    for i in low..high {
        if let Some(item) = pop_asked(&mut lanes[i], asks[i]) {
            return Some((i, item));
        }
    }
    None
}

/// Takes from the first lane, from `start` on and round, that is asked and gives something.
pub fn take_in_rotation<T, I: Inlet<T>>(
    lanes: &mut [I],
    asks: &[bool],
    start: usize,
) -> Option<(usize, T)>
    requires start { start ≤ length lanes.old }
    requires asks { length lanes.old ≤ length asks.now }
    ensures lanes { EachLane (λ i a b. I.lane_of b ≡ I.lane_of a) lanes.old lanes.new }
    ensures place { IfSome result (λ r. (r.0 < length lanes.old) × IsAsked asks.now r.0) }
    ensures gave { IfSome result (λ r. EachLane (λ i a b. i ≡ r.0 → I.gave a r.1 b) lanes.old lanes.new) }
    ensures others { IfSome result (λ r. EachLane (λ i a b. i ≢ r.0 → I.same a b) lanes.old lanes.new) }
    ensures passed { IfSome result (λ r. EachLane (λ i a b. IsEarlier start r.0 i → IsAsked asks.now i → Rose (I.empty_seen a) (I.empty_seen b) × I.bare b) lanes.old lanes.new) }
    ensures none { IfNone result (EachLane (λ i a b. I.same a b) lanes.old lanes.new) }
    ensures bare { IfNone result (EachLane (λ i a b. IsAsked asks.now i → Rose (I.empty_seen a) (I.empty_seen b) × I.bare b) lanes.old lanes.new) }
{
    let count = lanes.len();
    match take_between(lanes, asks, start, count) {
        Some(found) => Some(found),
        None => take_between(lanes, asks, 0, start),
    }
}
