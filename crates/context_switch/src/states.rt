//! From one client's state to another's.
ghost use Rattle.std.specs.Prelude.{◌≡◌};
ghost use Rattle.rc_base.specs.Contexts.Elements.{differing_count};

use element_table::{SCALAR_COUNT, is_same};
use rc_base::state::State;

/// Makes one state the other, and answers in how many of the 22 scalar elements they differed. (The soft context switch of Buck, Humphreys
/// and Hanrahan, over whole elements.)
#[tactic(auto, using(crate::proofs::Counts::count_more), unfolding(rc_base::specs::Contexts::Elements::differing_count))]
pub fn switch(hw: &mut State, to: &State) -> u32
    ensures state { hw.new ≡ to.now }
    ensures count { result ≡ differing_count hw.old to.now }
{
    let mut count = 0;
    for element in 0..SCALAR_COUNT {
        count += u32::from(!is_same(hw, to, element));
    }
    *hw = *to;
    count
}
