//! The depth test, prepared once for a draw.
ghost use Rattle.std.specs.Prelude.{◌≡◌, ◌≤◌, ℕ, ◌||◌, ◌&&◌, ◌==◌, nat_lt, if◌then◌else◌, true, false};
ghost use Rattle.rc_base.specs.Drawing.Window.{depth_most};
ghost use Rattle.rc_base.specs.Drawing.PixelStep.{compares, passes_alpha, written_color, shaded};
ghost use Rattle.rc_base.specs.declared.command.Rgba.{Rgba as AnyColor};
ghost use Rattle.rc_base.specs.declared.state.State.{State as AnyState};
ghost use Rattle.rc_base.specs.declared.window.Pixel.{Pixel as AnyPixel};
ghost use Rattle.fragment_ops.specs.DepthTests.{passes, IsDepthTest, pixel, tested_pixel};

use rc_base::command::Rgba;
use rc_base::state::State;

/// The depth test of a state by the outcomes that pass, all of them where it is off, and whether it stores depths. Prepared once for a draw,
/// so that no code of the state is looked at for a pixel.
#[derive(Clone, Copy)]
pub struct DepthTest {
    pub below: bool,
    pub equal: bool,
    pub above: bool,
    pub stores: bool,
}

pub(crate) fn outcomes(below: bool, equal: bool, above: bool, stores: bool) -> DepthTest
    ensures { result ≡ record { below = below; equal = equal; above = above; stores = stores } }
{
    DepthTest {
        below,
        equal,
        above,
        stores,
    }
}

#[tactic(auto, using(crate::proofs::Outcomes::none_is, crate::proofs::Outcomes::less_is, crate::proofs::Outcomes::equal_is, crate::proofs::Outcomes::at_most_is, crate::proofs::Outcomes::greater_is, crate::proofs::Outcomes::other_is, crate::proofs::Outcomes::at_least_is, crate::proofs::Outcomes::all_is))]
pub(crate) fn outcomes_of(function: u8, stores: bool) -> DepthTest
    ensures passes { (a b : ℕ) → passes result a b ≡ compares function a b }
    ensures stores { result.stores ≡ stores }
{
    match function {
        0 => outcomes(false, false, false, stores),
        1 => outcomes(true, false, false, stores),
        2 => outcomes(false, true, false, stores),
        3 => outcomes(true, true, false, stores),
        4 => outcomes(false, false, true, stores),
        5 => outcomes(true, false, true, stores),
        6 => outcomes(false, true, true, stores),
        _ => outcomes(true, true, true, stores),
    }
}

fn both(a: bool, b: bool) -> bool
    ensures { result ≡ (a && b) }
{
    a && b
}

/// The depth test of a state, prepared for its pixels.
pub fn depth_test_of(state: &State) -> DepthTest
    ensures { IsDepthTest state.now result }
{
    let stores = both(state.depth_on, state.depth_mask);
    if !state.depth_on {
        return outcomes(true, true, true, stores);
    }
    outcomes_of(state.depth_func, stores)
}

// Whether a depth is below another one, or at most as great: one comparison.
#[inline(always)]
fn is_below(depth: u32, stored: u32, equal: bool) -> bool
    requires { depth ≤ depth_most }
    ensures { result ≡ (nat_lt depth stored || (equal && depth == stored)) }
{
    depth + u32::from(!equal) <= stored
}

impl DepthTest {
    /// Whether a depth in the buffer's range passes against the stored one. A pixel whose fragment doesn't pass stays as it is.
    #[inline(always)]
    #[tactic(auto, unfolding(crate::specs::DepthTests::passes), using(crate::proofs::Few::kept_is))]
    pub fn passes(&self, depth: u32, stored: u32) -> bool
        requires { depth ≤ depth_most }
        ensures test { result ≡ passes self.now depth stored }
        ensures kept { result ≡ false → (s : AnyState) (c : AnyColor) (old : AnyPixel)
            → IsDepthTest s self.now → old.depth ≡ stored → shaded s c depth old ≡ old }
    {
        // LESS and LEQUAL are one comparison.
        if self.below && !self.above {
            return is_below(depth, stored, self.equal);
        }
        (self.below && depth < stored)
            || ((self.equal && depth == stored) || (self.above && depth > stored))
    }

    // What is stored of a fragment that passes.
    #[inline(always)]
    fn write(&self, color: Rgba, depth: u32, stored_color: &mut Rgba, stored_depth: &mut u32)
        ensures color { stored_color.new ≡ color }
        ensures depth { stored_depth.new ≡ if self.now.stores then depth else stored_depth.old }
    {
        *stored_color = color;
        if self.stores {
            *stored_depth = depth;
        }
    }

    /// Puts a fragment's colour as it is to be written and, if depths are stored, its depth, where it passes; else nothing is changed. The depth
    /// lies in the buffer's range. The pixel is given by where its colour and its depth are stored.
    #[inline(always)]
    #[tactic(auto, unfolding(crate::specs::DepthTests::tested_pixel))]
    pub fn put(&self, color: Rgba, depth: u32, stored_color: &mut Rgba, stored_depth: &mut u32)
        requires { depth ≤ depth_most }
        ensures value { pixel stored_color.new stored_depth.new ≡ tested_pixel self.now color depth (pixel stored_color.old stored_depth.old) }
        ensures stored { (s : AnyState) (c : AnyColor) → IsDepthTest s self.now → passes_alpha s c.a ≡ true → color ≡ written_color s c stored_color.old
            → pixel stored_color.new stored_depth.new ≡ shaded s c depth (pixel stored_color.old stored_depth.old) }
    {
        if self.passes(depth, *stored_depth) {
            self.write(color, depth, stored_color, stored_depth);
        }
    }
}
