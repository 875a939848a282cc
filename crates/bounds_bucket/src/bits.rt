//! Sets of numbers below 32 as the bits of a word.
ghost use Rattle.std.specs.Prelude.{◌≡◌, ℕ, ◌<◌, ◌&&◌, ◌||◌, ◌==◌};
ghost use Rattle.rc_base.specs.Orders.Journal.{has};

/// The set, with one number more where `yes`.
pub(crate) fn with_if(set: u32, n: u8, yes: bool) -> u32
    requires { n < 32 }
    ensures { (k : ℕ) → has result k ≡ ((yes && k == n) || has set k) }
{
    if yes { set | 1 << n } else { set }
}
