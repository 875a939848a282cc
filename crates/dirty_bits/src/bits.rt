//! The bits of servers in words of 32.
ghost use Rattle.std.specs.Prelude.{◌≡◌, ℕ, ◌<◌, ◌≤◌, ◌-◌, ◌==◌, ◌&&◌, ◌||◌, not, length};
ghost use Rattle.rc_base.specs.Orders.Journal.{has};
ghost use Rattle.dirty_bits.specs.Bits.{is_one_dirty};

use rc_base::sync::has;

/// Whether a word from `start` up to `end` has the server's bit.
#[tactic(auto, using(crate::proofs::Ranges::none_yet))]
pub fn any_has(words: &[u32], start: u8, end: u8, server: u8) -> bool
    requires server { server < 32 }
    requires order { start ≤ end }
    requires room { end ≤ length words.now }
    ensures { result ≡ is_one_dirty words.now start (end - start) server }
{
    for place in start..end {
        if has(words[usize::from(place)], server) {
            return true;
        }
    }
    false
}

/// The word without the server's bit.
pub fn without(word: u32, server: u8) -> u32
    requires { server < 32 }
    ensures { (s : ℕ) → s < 32 → has result s ≡ (has word s && not (s == server)) }
{
    word & !(1 << server)
}

/// The word, where the server's bit stays only if it is said to.
pub fn lowered(word: u32, server: u8, stays: bool) -> u32
    requires { server < 32 }
    ensures { (s : ℕ) → s < 32 → has result s ≡ (has word s && (stays || not (s == server))) }
{
    if stays {
        return word;
    }
    without(word, server)
}
