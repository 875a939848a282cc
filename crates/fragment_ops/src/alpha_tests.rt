//! Alpha tests by what was prepared.
ghost use Rattle.std.specs.Prelude.{◌≡◌};
ghost use Rattle.fragment_ops.specs.AlphaTests.{keeps_alpha, IsAlphaTest};

use crate::alpha::AlphaTest;
use crate::depth::{outcomes, outcomes_of};
use rc_base::state::State;

/// The alpha test of a state, prepared for its fragments.
pub fn alpha_test_of(state: &State) -> AlphaTest
    ensures { IsAlphaTest state.now result }
{
    let [function, reference] = state.alpha;
    if !state.alpha_on {
        return AlphaTest {
            outcomes: outcomes(true, true, true, false),
            reference,
        };
    }
    AlphaTest {
        outcomes: outcomes_of(function, false),
        reference,
    }
}

impl AlphaTest {
    /// Whether a fragment of this alpha passes.
    #[inline(always)]
    pub fn passes(&self, alpha: u8) -> bool
        ensures { result ≡ keeps_alpha self.now alpha }
    {
        self.outcomes
            .passes(u32::from(alpha), u32::from(self.reference))
    }
}
