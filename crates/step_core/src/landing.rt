//! A tile's end of a client's lane.
use parcel_bytes::Packed;
use rc_base::lane::{Inlet, Outlet};
use rc_base::out_of_memory::OutOfMemory;
use rc_base::plain_lane::PlainLane;
use std::alloc::Global;
use std::marker::Model;

/// A lane that knows how many items it holds. Contracts see the lane.
#[derive(Drop)]
pub(crate) struct Landing {
    lane: PlainLane<Packed>,
    count: usize,
}

impl Model for Landing {
    ghost use Rattle.std.specs.Prelude.{◌≡◌, length};
    ghost use Rattle.rc_base.specs.declared.plain_lane.PlainLane.{PlainLane};
    ghost use Rattle.rc_base.specs.declared.state.Parcel.{Parcel};

    ghost Value = { PlainLane Parcel };

    ghost use Rattle.rc_base.specs.Cluster.PlainLanes.{held};

    ghost view = { λ a. a.lane };

    ghost invariant = { λ a. a.count ≡ length (held a.lane) };
}

impl Landing {
    ghost use Rattle.std.specs.Prelude.{◌≡◌, [], ◌∷◌, ◌++◌, ◌≤◌, ◌↔◌, length, IfOk, OnOk, IsErr};
    ghost use Rattle.rc_base.specs.Cluster.PlainLanes.{held, depth_of};

    /// An empty lane.
    pub(crate) fn new(alloc: Global, depth: usize) -> Result<Landing, OutOfMemory>
        requires { (1 ≤ depth) × (depth ≤ 16) }
        ensures { IfOk result (λ l. (held l ≡ []) × (depth_of l ≡ depth)) }
    {
        let lane = PlainLane::new(alloc, depth)?;
        Ok(Landing { lane, count: 0 })
    }

    /// How many items it holds.
    pub(crate) fn count(&self) -> usize
        ensures { result ≡ length (held self.now) }
    {
        self.count
    }

    /// Appends the item, or hands it back where the lane is full.
    pub(crate) fn push(&mut self, item: Packed) -> Result<(), Packed>
        ensures lane { depth_of self.new ≡ depth_of self.old }
        ensures appended { OnOk result (held self.new ≡ held self.old ++ item ∷ []) }
        ensures exact { IsErr result ↔ (length (held self.old) ≡ depth_of self.old) }
    {
        match self.lane.push(item) {
            Ok(()) => {
                self.count += 1;
                Ok(())
            }
            Err(item) => Err(item),
        }
    }
}

impl Inlet<Packed> for Landing {
    ghost use Rattle.std.specs.Prelude.{◌≡◌, [], ◌∷◌, ◌≤◌, refl, IfSome, IfNone};
    ghost use Rattle.rc_base.specs.Outside.Causes.{Rose};
    ghost use Rattle.rc_base.specs.Cluster.PlainLanes.{held, depth_of};

    ghost gave = { λ l x m. held l ≡ x ∷ held m };

    ghost same = { λ l m. held m ≡ held l };

    ghost empty_seen = { λ l. l.empty_seen };

    ghost lane_of = { λ l. depth_of l ∷ [] };

    ghost bare = { λ l. held l ≡ [] };

    ghost same_here = { λ a. refl };

    fn pop(&mut self) -> Option<Packed>
        ensures lane { depth_of self.new ≡ depth_of self.old }
        ensures later { self.old.empty_seen ≤ self.new.empty_seen }
        ensures given { IfSome result (λ x. held self.old ≡ x ∷ held self.new) }
        ensures counted { IfSome result (λ x. self.new.empty_seen ≡ self.old.empty_seen) }
        ensures none { IfNone result (held self.new ≡ held self.old) }
        ensures cause { IfNone result (Rose self.old.empty_seen self.new.empty_seen × (held self.new ≡ [])) }
    {
        match self.lane.pop() {
            Some(front) => {
                self.count -= 1;
                Some(front)
            }
            None => None,
        }
    }
}
