//! A client's end of a lane whose items stand at the tile.
ghost use Rattle.std.specs.Prelude.{◌≤◌, ◌<◌};
ghost use Rattle.std.specs.Option.{ForSome};

use parcel_bytes::Packed;
use rc_base::lane::Outlet;

/// It holds what was appended until that is carried to the tile's end, and knows how many items stand there.
#[derive(Drop)]
pub(crate) struct Port {
    pub(crate) sent: Option<Packed>,
    pub(crate) count: usize,
    pub(crate) depth: usize,
    pub(crate) full_seen: u64,
    ghost fits: { count ≤ depth },
    ghost room: { ForSome sent (λ x. count < depth) },
}

impl Port {
    ghost use Rattle.std.specs.Prelude.{◌≡◌, ◌+◌, ◌<◌, ◌≤◌, IfSome, IfNone, None, Some};

    /// Nothing was appended, and nothing stands at the tile.
    pub(crate) fn new(depth: usize) -> Port
        ensures sent { result.sent ≡ None }
        ensures count { result.count ≡ 0 }
        ensures depth { result.depth ≡ depth }
    {
        Port {
            sent: None,
            count: 0,
            depth,
            full_seen: 0,
        }
    }

    /// What was appended, to be carried to the tile's end. It counts as standing there.
    pub(crate) fn take(&mut self) -> Option<Packed>
        ensures sent { result ≡ self.old.sent }
        ensures left { self.new.sent ≡ None }
        ensures depth { self.new.depth ≡ self.old.depth }
        ensures counted { IfSome result (λ x. (self.new.count ≡ self.old.count + 1) × (self.old.count < self.old.depth)) }
        ensures none { IfNone result (self.new.count ≡ self.old.count) }
    {
        let sent = self.sent.take();
        if sent.is_some() {
            self.count += 1;
        }
        sent
    }

    /// So many items stand at the tile.
    pub(crate) fn settle(&mut self, count: usize)
        requires empty { self.old.sent ≡ None }
        requires fits { count ≤ self.old.depth }
        ensures sent { self.new.sent ≡ None }
        ensures count { self.new.count ≡ count }
        ensures depth { self.new.depth ≡ self.old.depth }
    {
        self.count = count;
    }
}

impl Outlet<Packed> for Port {
    ghost use Rattle.std.specs.Prelude.{◌≡◌, [], ◌∷◌, ◌++◌, ◌≤◌, OnOk, IfErr, None, option_to_list};
    ghost use Rattle.rc_base.specs.Outside.Causes.{Rose};

    ghost sent = { λ p. option_to_list p.sent };

    ghost full_seen = { λ p. p.full_seen };

    ghost lane_of = { λ p. p.depth ∷ p.count ∷ [] };

    ghost full = { λ p. p.sent ≡ None → p.count ≡ p.depth };

    fn push(&mut self, item: Packed) -> Result<(), Packed>
        ensures lane { (self.new.depth ∷ self.new.count ∷ []) ≡ (self.old.depth ∷ self.old.count ∷ []) }
        ensures later { self.old.full_seen ≤ self.new.full_seen }
        ensures appended { OnOk result (option_to_list self.new.sent ≡ option_to_list self.old.sent ++ item ∷ []) }
        ensures counted { OnOk result (self.new.full_seen ≡ self.old.full_seen) }
        ensures handed_back { IfErr result (λ x. (x ≡ item) × (option_to_list self.new.sent ≡ option_to_list self.old.sent)) }
        ensures cause { IfErr result (λ x. Rose self.old.full_seen self.new.full_seen × (self.new.sent ≡ None → self.new.count ≡ self.new.depth)) }
    {
        if self.count >= self.depth || self.sent.is_some() {
            self.full_seen = self.full_seen.saturating_add(1);
            return Err(item);
        }
        self.sent = Some(item);
        Ok(())
    }
}
