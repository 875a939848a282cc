//! Quotients of intervals.
ghost use Rattle.std.specs.Prelude.{◌≡◌, ℤ, ℕ, pos, ◌<ℤ◌, ◌≤ℤ◌, int_le, if◌then◌else◌};
ghost use Rattle.rc_base.specs.Numbers.{floor_quotient};
ghost use Rattle.rc_base.specs.Intervals.{Encloses, IsOrdered, AreEndsWithin, quotient_over};

use crate::floor_div;
use rc_base::interval::Interval;

// The quotient by the one divisor where `n` is at least 0, else by the other.
fn by_sign(n: i128, below: i128, above: i128) -> i128
    requires below { pos 0 <ℤ below }
    requires above { pos 0 <ℤ above }
    ensures { result ≡ (if int_le (pos 0) n then floor_quotient n above else floor_quotient n below) }
{
    if n >= 0 {
        floor_div(n, above)
    } else {
        floor_div(n, below)
    }
}

#[tactic(auto, unfolding(rc_base::specs::Intervals::quotient_over))]
fn ends(n: Interval, d: Interval) -> Interval
    requires numerator { IsOrdered n }
    requires positive { pos 0 <ℤ d.lo }
    requires divisor { IsOrdered d }
    ensures { result ≡ quotient_over n d }
{
    Interval {
        lo: by_sign(n.lo, d.lo, d.hi),
        hi: by_sign(n.hi, d.hi, d.lo),
    }
}

/// The least and the greatest quotient, rounded down, of a number of `n` by one of `d`, whose numbers are above 0.
pub fn quotient(n: Interval, d: Interval) -> Interval
    requires numerator { IsOrdered n }
    requires positive { pos 0 <ℤ d.lo }
    requires divisor { IsOrdered d }
    ensures value { result ≡ quotient_over n d }
    ensures holds { (x y : ℤ) → Encloses n x → Encloses d y → Encloses result (floor_quotient x y) }
    ensures ordered { IsOrdered result }
    ensures small { (b : ℕ) → AreEndsWithin b n → AreEndsWithin b result }
{
    ends(n, d)
}
