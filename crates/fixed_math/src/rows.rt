//! Row products over intervals.
ghost use Rattle.std.specs.Prelude.{◌≡◌, ℤ, ℕ, pos, List, [], ◌∷◌, ◌<◌, ◌*◌, ◌^◌, ◌+ℤ◌, ◌*ℤ◌, ◌≤ℤ◌};
ghost use Rattle.rc_base.specs.Numbers.{Within, floor_quotient, fixed_one, row_product};
ghost use Rattle.fixed_math.specs.Bounds.{AllWithin};
ghost use Rattle.rc_base.specs.Intervals.{Encloses, IsOrdered, AreEndsWithin, EncloseEach, OfEach, least_product, greatest_product, least_sum, greatest_sum, row_over};

use crate::floor_div;
use crate::matrix::{FIXED_ONE, sum4, term};
use rc_base::command::Mat4;
use rc_base::interval::Interval;

fn least_product(k: i32, i: Interval) -> i128
    requires { AreEndsWithin (2 ^ 64) i }
    ensures value { result ≡ least_product k i }
    ensures small { (n : ℕ) → AreEndsWithin n i → Within (2 ^ 31 * n) result }
{
    term(k, i.lo).min(term(k, i.hi))
}

fn greatest_product(k: i32, i: Interval) -> i128
    requires { AreEndsWithin (2 ^ 64) i }
    ensures value { result ≡ greatest_product k i }
    ensures small { (n : ℕ) → AreEndsWithin n i → Within (2 ^ 31 * n) result }
{
    term(k, i.lo).max(term(k, i.hi))
}

// The floor of four numbers' sum divided by 65536.
fn row_sum_floor(a: i128, b: i128, c: i128, d: i128) -> i128
    requires { AllWithin (2 ^ 95) (a ∷ b ∷ c ∷ d ∷ []) }
    ensures value { result ≡ floor_quotient (a +ℤ b +ℤ c +ℤ d) (pos fixed_one) }
    ensures small { (n : ℕ) → AllWithin (2 ^ 31 * n) (a ∷ b ∷ c ∷ d ∷ []) → Within (2 ^ 17 * n) result }
{
    floor_div(sum4(a, b, c, d), FIXED_ONE)
}

fn least_row(m: &Mat4, r: usize, b: &[Interval; 4]) -> i128
    requires row { r < 4 }
    requires bounded { OfEach (AreEndsWithin (2 ^ 64)) b.now }
    ensures value { result ≡ floor_quotient (least_sum m.now.m r b.now) (pos fixed_one) }
    ensures small { (n : ℕ) → OfEach (AreEndsWithin n) b.now → Within (2 ^ 17 * n) result }
{
    let x = least_product(m.m[r], b[0]);
    let y = least_product(m.m[4 + r], b[1]);
    let z = least_product(m.m[8 + r], b[2]);
    let w = least_product(m.m[12 + r], b[3]);
    row_sum_floor(x, y, z, w)
}

fn greatest_row(m: &Mat4, r: usize, b: &[Interval; 4]) -> i128
    requires row { r < 4 }
    requires bounded { OfEach (AreEndsWithin (2 ^ 64)) b.now }
    ensures value { result ≡ floor_quotient (greatest_sum m.now.m r b.now) (pos fixed_one) }
    ensures small { (n : ℕ) → OfEach (AreEndsWithin n) b.now → Within (2 ^ 17 * n) result }
{
    let x = greatest_product(m.m[r], b[0]);
    let y = greatest_product(m.m[4 + r], b[1]);
    let z = greatest_product(m.m[8 + r], b[2]);
    let w = greatest_product(m.m[12 + r], b[3]);
    row_sum_floor(x, y, z, w)
}

/// Row `r` of the matrix times a vector of which each entry lies in an interval: the floors of the least and of the greatest sum of products,
/// divided by 65536. It holds the row's product with each such vector.
#[tactic(auto, unfolding(rc_base::specs::Intervals::row_over))]
pub fn row_over(m: &Mat4, r: usize, b: &[Interval; 4]) -> Interval
    requires row { r < 4 }
    requires bounded { OfEach (AreEndsWithin (2 ^ 64)) b.now }
    requires ordered { OfEach IsOrdered b.now }
    ensures value { result ≡ row_over m.now.m r b.now }
    ensures holds { (v : List ℤ) → EncloseEach b.now v → Encloses result (row_product m.now.m v r) }
    ensures ordered { IsOrdered result }
    ensures small { (n : ℕ) → OfEach (AreEndsWithin n) b.now → AreEndsWithin (2 ^ 17 * n) result }
{
    Interval {
        lo: least_row(m, r, b),
        hi: greatest_row(m, r, b),
    }
}
