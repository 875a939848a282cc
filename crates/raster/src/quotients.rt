//! Quotients by a triangle's area as numbers of parts, rounded up, by one product with its reciprocal.
//!
//! In parts of 2^96 modulo 2^128, too large by at most 2^83 parts of the area; and of those in parts of 2^56 modulo 2^64.
ghost use Rattle.std.specs.Prelude.{◌≡◌, ◌^◌, ◌*◌, ℤ, pos, neg_ℤ, ◌+ℤ◌, ◌*ℤ◌, ◌≤ℤ◌, ◌<ℤ◌, int_le, true};
ghost use Rattle.rc_base.specs.Numbers.{Within, floor_quotient, is_within};
ghost use Rattle.raster.specs.Planes.{IsFromTo, IsWordResidue, IsByteQuotient, IsWordQuotient};

use crate::triangle_setup::TriangleSetup;
use fixed_math::floor_div;

/// A whole number in parts of 2^96, modulo 2^128.
pub(crate) fn wide_high_parts(whole: i128) -> u128
    ensures { IsWordResidue (pos (2 ^ 96) *ℤ whole) result }
{
    whole.rem_euclid(4_294_967_296) as u128 * 79_228_162_514_264_337_593_543_950_336
}

// One more than a number of 2^64ths, in parts of 2^96.
fn wide_low_parts(part: i128) -> u128
    requires low { pos 0 ≤ℤ part }
    requires high { part <ℤ pos (2 ^ 64) }
    ensures { IsWordResidue (pos (2 ^ 32) *ℤ (part +ℤ pos 1)) result }
{
    (part as u128 + 1) * 4_294_967_296
}

fn combined(a: u128, b: u128) -> u128
    ensures { (x y : ℤ) → IsWordResidue x a → IsWordResidue y b → IsWordResidue (x +ℤ y) result }
{
    a.wrapping_add(b)
}

fn wide_rest(n: i128, area: i128) -> i128
    requires { pos 0 <ℤ area }
    ensures value { floor_quotient n area *ℤ area +ℤ result ≡ n }
    ensures low { pos 0 ≤ℤ result }
    ensures high { result <ℤ area }
{
    n.rem_euclid(area)
}

fn times_2_64(rest: i128) -> i128
    requires low { pos 0 ≤ℤ rest }
    requires high { rest <ℤ pos (2 ^ 43) }
    ensures { result ≡ pos (2 ^ 64) *ℤ rest }
{
    rest * 18_446_744_073_709_551_616
}

// By division, in parts of 2^96.
fn wide_quotient(n: i128, area: i128) -> u128
    requires some { pos 0 <ℤ area }
    requires small { area ≤ℤ pos (2 ^ 43) }
    ensures { IsWordQuotient n area 1 result }
{
    let whole = floor_div(n, area);
    let part = floor_div(times_2_64(wide_rest(n, area)), area);
    combined(wide_high_parts(whole), wide_low_parts(part))
}

// The product with the reciprocal is off by no more than a part's share.
fn is_precise(m: i64, s: &TriangleSetup) -> bool
    requires { IsFromTo (pos 0) (pos (2 ^ 62)) m }
    ensures { result ≡ int_le (m *ℤ s.now.area) (pos (2 ^ 83)) }
{
    // No area is above 2^43.
    if m <= 1_099_511_627_776 {
        return true;
    }
    i128::from(m) * i128::from(s.area) <= 9_671_406_556_917_033_397_649_408
}

fn quotient_above(m: i64, s: &TriangleSetup) -> u128
    requires { IsFromTo (pos 0) (pos (2 ^ 62)) m }
    ensures { IsWordQuotient m s.now.area 1 result }
{
    if !is_precise(m, s) {
        return wide_quotient(i128::from(m), i128::from(s.area));
    }
    let count = u128::from(m as u64);
    count.wrapping_mul(s.reciprocal)
}

// The same of -m: the reciprocal is rounded down, so that the product is rounded up.
fn quotient_below(m: i64, s: &TriangleSetup) -> u128
    requires { IsFromTo (pos 0) (pos (2 ^ 62)) m }
    ensures { IsWordQuotient (neg_ℤ m) s.now.area 1 result }
{
    if !is_precise(m, s) {
        return wide_quotient(i128::from(-m), i128::from(s.area));
    }
    let count = u128::from(m as u64);
    let parts = count.wrapping_mul(s.reciprocal - 1);
    0_u128.wrapping_sub(parts)
}

fn is_short(n: i128) -> bool
    ensures { result ≡ is_within (2 ^ 62) n }
{
    -4_611_686_018_427_387_904 <= n && n <= 4_611_686_018_427_387_904
}

fn shortened(n: i128) -> i64
    requires { is_within (2 ^ 62) n ≡ true }
    ensures value { result ≡ n }
    ensures small { Within (2 ^ 62) result }
{
    n as i64
}

fn short_quotient(n: i64, s: &TriangleSetup) -> u128
    requires { Within (2 ^ 62) n }
    ensures { IsWordQuotient n s.now.area 1 result }
{
    if n >= 0 {
        quotient_above(n, s)
    } else {
        quotient_below(-n, s)
    }
}

/// n / area in parts of 2^96, rounded up, modulo 2^128.
pub(crate) fn word_quotient(n: i128, s: &TriangleSetup) -> u128
    ensures { IsWordQuotient n s.now.area 1 result }
{
    if !is_short(n) {
        return wide_quotient(n, i128::from(s.area));
    }
    short_quotient(shortened(n), s)
}

// From parts of 2^96 to parts of 2^56, rounded up.
fn narrowed(parts: u128) -> u64
    ensures { (n area : ℤ) → IsWordQuotient n area 1 parts → pos 0 <ℤ area → area ≤ℤ pos (2 ^ 43) → IsByteQuotient n area 1 result }
{
    (((parts >> 40) % 18_446_744_073_709_551_616) as u64).wrapping_add(1)
}

/// n / area in parts of 2^56, rounded up, modulo 2^64.
pub(crate) fn byte_quotient(n: i128, s: &TriangleSetup) -> u64
    ensures { IsByteQuotient n s.now.area 1 result }
{
    narrowed(word_quotient(n, s))
}
