//! Channels two at a time: a number of 32 bits holds one in its low half and one in its high half, so that one operation serves both.
ghost use Rattle.std.specs.Prelude.{◌≡◌, ℕ, ◌≤◌, ◌<◌, ◌+◌, ◌*◌, ◌/◌};
ghost use Rattle.rc_base.specs.Colors.{prod};
ghost use Rattle.fragment_ops.specs.Pairs.{pair_of};

// The upper byte of each half.
#[inline(always)]
fn carry(t: u32) -> u32
    ensures bytes { (low high : ℕ) → low < 65536 → high < 65536 → t ≡ pair_of low high
        → result ≡ pair_of (low / 256) (high / 256) }
    ensures most { result ≤ pair_of 255 255 }
{
    t / 256 % 256 + t / 16_777_216 * 65_536
}

// Each half as so many parts of 255, rounded.
#[inline(always)]
fn rounded(pair: u32) -> u32
    requires { pair ≤ pair_of 65025 65025 }
    ensures { (low high : ℕ) → low ≤ 65025 → high ≤ 65025 → pair ≡ pair_of low high
        → result ≡ pair_of ((low + 127) / 255) ((high + 127) / 255) }
{
    let t = pair + 8_388_736;
    let w = t + carry(t);
    carry(w)
}

/// Two channels' products with one number.
#[inline(always)]
pub(crate) fn scaled(low: u8, high: u8, by: u8) -> u32
    ensures { result ≡ pair_of (prod low by) (prod high by) }
{
    rounded((u32::from(low) + u32::from(high) * 65_536) * u32::from(by))
}

/// The products of two channels each.
#[inline(always)]
pub(crate) fn products(a: u8, b: u8, c: u8, d: u8) -> u32
    ensures { result ≡ pair_of (prod a b) (prod c d) }
{
    rounded(u32::from(a) * u32::from(b) + u32::from(c) * u32::from(d) * 65_536)
}
