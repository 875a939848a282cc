//! Which vertices of a block stand in its triangles.
ghost use Rattle.std.specs.Prelude.{◌≡◌, ◌≤◌};
ghost use Rattle.rc_base.specs.Drawing.Triangles.{cut_modes, shape_of};
ghost use Rattle.bounds_bucket.specs.Standing.{standing_count};

use rc_base::state::CUT_MODES;

/// How many of a block's first vertices stand in a triangle; those behind them are left over.
#[tactic(auto, unfolding(crate::specs::Standing::standing_count))]
pub(crate) fn standing_count(mode: u8, n: usize) -> usize
    requires { cut_modes ≤ mode }
    ensures value { result ≡ standing_count (shape_of mode) n }
    ensures few { result ≤ n }
{
    let shape = mode - CUT_MODES;
    if shape == 0 {
        3 * (n / 3)
    } else if shape < 3 {
        if n < 3 { 0 } else { n }
    } else {
        0
    }
}
