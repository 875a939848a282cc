//! A bounded list, both of whose ends one thread has.
ghost use Rattle.std.specs.Prelude.{◌≡◌, ℕ, List, [], ◌∷◌, ◌++◌, ◌<◌, ◌≤◌, length, IfOk, IfErr, IsOk, IsSome, ◌↔◌};
ghost use Rattle.std.specs.VecDeque.{deque_len, deque_capacity};

use crate::lane::{Inlet, Outlet};
use crate::out_of_memory::OutOfMemory;
use std::alloc::Global;
use std::collections::VecDeque;

/// A lane that holds at most `depth` items.
#[derive(Drop)]
pub struct PlainLane<T> {
    items: VecDeque<T>,
    depth: usize,
    full_seen: u64,
    empty_seen: u64,
    ghost fits: { deque_len items ≤ depth },
    ghost room: { depth ≤ deque_capacity items },
}

impl<T> PlainLane<T> {
    ghost use Rattle.rc_base.specs.Cluster.PlainLanes.{held, depth_of};

    /// An empty lane.
    pub fn new(alloc: Global, depth: usize) -> Result<PlainLane<T>, OutOfMemory>
        requires { (1 ≤ depth) × (depth ≤ 16) }
        ensures { IfOk result (λ l. (held l ≡ []) × (depth_of l ≡ depth)) }
    {
        let items = VecDeque::with_capacity(alloc, depth)?;
        Ok(PlainLane {
            items,
            depth,
            full_seen: 0,
            empty_seen: 0,
        })
    }
}

impl<T> Outlet<T> for PlainLane<T> {
    ghost use Rattle.std.specs.Prelude.{◌≡◌, [], ◌∷◌, ◌++◌, ◌≤◌, ◌↔◌, length, OnOk, IfErr, IsErr};
    ghost use Rattle.rc_base.specs.Outside.Causes.{Rose};
    ghost use Rattle.rc_base.specs.Cluster.PlainLanes.{held, depth_of};

    ghost sent = { λ l. held l };

    ghost full_seen = { λ l. l.full_seen };

    ghost lane_of = { λ l. depth_of l ∷ [] };

    ghost full = { λ l. length (held l) ≡ depth_of l };

    fn push(&mut self, item: T) -> Result<(), T>
        ensures lane { depth_of self.new ≡ depth_of self.old }
        ensures empty_count { self.new.empty_seen ≡ self.old.empty_seen }
        ensures later { self.old.full_seen ≤ self.new.full_seen }
        ensures appended { OnOk result (held self.new ≡ held self.old ++ item ∷ []) }
        ensures counted { OnOk result (self.new.full_seen ≡ self.old.full_seen) }
        ensures handed_back { IfErr result (λ x. (x ≡ item) × (held self.new ≡ held self.old)) }
        ensures cause { IfErr result (λ x. Rose self.old.full_seen self.new.full_seen × (length (held self.new) ≡ depth_of self.new)) }
        ensures exact { IsErr result ↔ (length (held self.old) ≡ depth_of self.old) }
    {
        if self.items.len() >= self.depth {
            self.full_seen = self.full_seen.saturating_add(1);
            return Err(item);
        }
        self.items.push_back_reserved(item);
        Ok(())
    }
}

impl<T> Inlet<T> for PlainLane<T> {
    ghost use Rattle.std.specs.Prelude.{◌≡◌, [], ◌∷◌, ◌≤◌, ◌↔◌, refl, IfSome, IfNone, IsNone};
    ghost use Rattle.rc_base.specs.Outside.Causes.{Rose};
    ghost use Rattle.rc_base.specs.Cluster.PlainLanes.{held, depth_of};

    ghost gave = { λ l x m. held l ≡ x ∷ held m };

    ghost same = { λ l m. held m ≡ held l };

    ghost empty_seen = { λ l. l.empty_seen };

    ghost lane_of = { λ l. depth_of l ∷ [] };

    ghost bare = { λ l. held l ≡ [] };

    ghost same_here = { λ a. refl };

    fn pop(&mut self) -> Option<T>
        ensures lane { depth_of self.new ≡ depth_of self.old }
        ensures full_count { self.new.full_seen ≡ self.old.full_seen }
        ensures later { self.old.empty_seen ≤ self.new.empty_seen }
        ensures given { IfSome result (λ x. held self.old ≡ x ∷ held self.new) }
        ensures counted { IfSome result (λ x. self.new.empty_seen ≡ self.old.empty_seen) }
        ensures none { IfNone result (held self.new ≡ held self.old) }
        ensures cause { IfNone result (Rose self.old.empty_seen self.new.empty_seen × (held self.new ≡ [])) }
        ensures exact { IsNone result ↔ (held self.old ≡ []) }
    {
        let front = self.items.pop_front();
        if front.is_none() {
            self.empty_seen = self.empty_seen.saturating_add(1);
        }
        front
    }
}
