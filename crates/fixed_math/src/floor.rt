//! Quotients rounded down.
ghost use Rattle.std.specs.Prelude.{◌≡◌, ℕ, ◌^◌, ◌-◌, ◌<◌, pos, neg_ℤ, true, ◌+ℤ◌, ◌*ℤ◌, ◌≤ℤ◌, ◌<ℤ◌};
ghost use Rattle.rc_base.specs.Numbers.{floor_quotient, is_between, Within};

// A number of 64 bits.
fn is_short(n: i128) -> bool
    ensures { result ≡ is_between (neg_ℤ (pos (2 ^ 63))) (pos (2 ^ 63 - 1)) n }
{
    -9_223_372_036_854_775_808 <= n && n <= 9_223_372_036_854_775_807
}

fn shortened(n: i128) -> i64
    requires { is_between (neg_ℤ (pos (2 ^ 63))) (pos (2 ^ 63 - 1)) n ≡ true }
    ensures { result ≡ n }
{
    n as i64
}

// Two to that power.
fn is_power(d: i64, places: u32) -> bool
    ensures few { result ≡ true → places < 63 }
    ensures power { result ≡ true → d ≡ pos (2 ^ places) }
{
    places < 63 && 1_i64 << places == d
}

// A division takes ten times as long as a shift, which copies the sign, and most divisors of places and depths are powers of two.
fn short_quotient(n: i64, d: i64) -> i64
    requires { pos 0 <ℤ d }
    ensures { result ≡ floor_quotient n d }
{
    let places = d.trailing_zeros();
    if is_power(d, places) {
        n >> places
    } else {
        n.div_euclid(d)
    }
}

fn long_quotient(n: i128, d: i64) -> i128
    requires { pos 0 <ℤ d }
    ensures { result ≡ floor_quotient n d }
{
    let places = d.trailing_zeros();
    if is_power(d, places) {
        n >> places
    } else {
        n.div_euclid(i128::from(d))
    }
}

// The quotient by 64 bits where they hold both numbers: a division of 128 bits takes several times as long.
fn quotient(n: i128, d: i128) -> i128
    requires { pos 0 <ℤ d }
    ensures { result ≡ floor_quotient n d }
{
    if !is_short(d) {
        return n.div_euclid(d);
    }
    if !is_short(n) {
        return long_quotient(n, shortened(d));
    }
    i128::from(short_quotient(shortened(n), shortened(d)))
}

/// The greatest whole number that is at most `n / d`: -7 / 2 gives -4.
pub fn floor_div(n: i128, d: i128) -> i128
    requires pos { pos 0 <ℤ d }
    ensures value { result ≡ floor_quotient n d }
    ensures at_most { (result *ℤ d) ≤ℤ n }
    ensures greatest { n <ℤ (result *ℤ d +ℤ d) }
    ensures small { (b : ℕ) → Within b n → Within b result }
{
    quotient(n, d)
}

/// The same of numbers of 64 bits.
pub fn floor_div_64(n: i64, d: i64) -> i64
    requires pos { pos 0 <ℤ d }
    ensures value { result ≡ floor_quotient n d }
    ensures small { (b : ℕ) → Within b n → Within b result }
{
    short_quotient(n, d)
}
