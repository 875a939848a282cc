//! The two ends of a lane: a bounded queue with one sender and one receiver.
//!
//! Each end counts how often it refused. A call refuses only where that count rose in it, and a call that moves an item leaves the count as it
//! was; a count that stands at 2^64 - 1 is taken to rise at each refusal.
ghost use Rattle.std.specs.Prelude.{◌≡◌, ℕ, List, [], ◌∷◌, ◌++◌, ◌≤◌, OnOk, IfErr, IfSome, IfNone};
ghost use Rattle.rc_base.specs.Outside.Causes.{Rose};

/// The sending end of a lane.
pub trait Outlet<T> {
    /// The items that went in: all that were ever pushed, or where none is kept that was taken, those that the lane holds.
    ghost sent: { Self → List T };

    /// How often the lane was found full.
    ghost full_seen: { Self → ℕ };

    /// Which lane it is. No call changes it.
    ghost lane_of: { Self → List ℕ };

    /// What is known of the lane after a refusal.
    ghost full: { Self → Type 0 };

    /// Appends the item, or hands it back where the lane is full.
    fn push(&mut self, item: T) -> Result<(), T>
        ensures lane { lane_of self.new ≡ lane_of self.old }
        ensures later { full_seen self.old ≤ full_seen self.new }
        ensures appended { OnOk result (sent self.new ≡ sent self.old ++ item ∷ []) }
        ensures counted { OnOk result (full_seen self.new ≡ full_seen self.old) }
        ensures handed_back { IfErr result (λ x. (x ≡ item) × (sent self.new ≡ sent self.old)) }
        ensures cause { IfErr result (λ x. Rose (full_seen self.old) (full_seen self.new) × full self.new) };
}

/// The receiving end of a lane.
pub trait Inlet<T> {
    /// The inlet before a call, the item that it gave, and the inlet after it.
    ghost gave: { Self → T → Self → Type 0 };

    /// The inlet before a call that gave nothing, and after it: all but its count is as it was.
    ghost same: { Self → Self → Type 0 };

    /// How often the lane was found empty.
    ghost empty_seen: { Self → ℕ };

    /// Which lane it is. No call changes it.
    ghost lane_of: { Self → List ℕ };

    /// What is known of the lane after nothing came.
    ghost bare: { Self → Type 0 };

    /// Takes the item that was appended first of those that the lane holds, or none where it is empty.
    fn pop(&mut self) -> Option<T>
        ensures lane { lane_of self.new ≡ lane_of self.old }
        ensures later { empty_seen self.old ≤ empty_seen self.new }
        ensures given { IfSome result (λ x. gave self.old x self.new) }
        ensures counted { IfSome result (λ x. empty_seen self.new ≡ empty_seen self.old) }
        ensures none { IfNone result (same self.old self.new) }
        ensures cause { IfNone result (Rose (empty_seen self.old) (empty_seen self.new) × bare self.new) };

    /// An inlet that wasn't called is the same.
    ghost same_here: { (a : Self) → same a a };
}
