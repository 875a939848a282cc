//! Clears by what was prepared.
ghost use Rattle.std.specs.Prelude.{◌≡◌, ℕ, ◌≤ℤ◌, ◌&&◌, ◌/◌, ◌%◌, ◌==◌, pos, true};
ghost use Rattle.rc_base.specs.Drawing.PixelStep.{cleared};
ghost use Rattle.rc_base.specs.declared.state.State.{State as AnyState};
ghost use Rattle.rc_base.specs.declared.window.Pixel.{Pixel as AnyPixel};
ghost use Rattle.fragment_ops.specs.Clearings.{IsClearing, cleared_by, writes_pixel};

use crate::blend::mask;
use crate::clear::Clearing;
use crate::shade::clear_depth;
use rc_base::command::Rgba;
use rc_base::state::State;
use rc_base::window::Pixel;

fn both(a: bool, b: bool) -> bool
    ensures { result ≡ (a && b) }
{
    a && b
}

/// A Clear of colour (bit 0 of the mask) and depth (bit 1) in a state, prepared for its pixels.
pub fn clearing_of(state: &State, mask: u8) -> Clearing
    requires low { pos 0 ≤ℤ state.now.clear_depth }
    requires high { state.now.clear_depth ≤ℤ pos 65536 }
    ensures { IsClearing state.now mask result }
{
    let colors = mask % 2 == 1;
    let depths = mask / 2 % 2 == 1;
    Clearing {
        color: state.clear_color,
        red: both(colors, state.color_mask[0]),
        green: both(colors, state.color_mask[1]),
        blue: both(colors, state.color_mask[2]),
        opacity: both(colors, state.color_mask[3]),
        depth: clear_depth(state),
        sets_depth: both(depths, state.depth_mask),
    }
}

impl Clearing {
    /// A pixel after the Clear.
    #[tactic(auto, unfolding(crate::specs::Clearings::cleared_by))]
    pub fn clear(&self, old: Pixel) -> Pixel
        ensures prepared { result ≡ cleared_by self.now old }
        ensures cleared { (s : AnyState) (m : ℕ) → IsClearing s m self.now → result ≡ cleared s m old }
    {
        Pixel {
            color: Rgba {
                r: mask(self.red, self.color.r, old.color.r),
                g: mask(self.green, self.color.g, old.color.g),
                b: mask(self.blue, self.color.b, old.color.b),
                a: mask(self.opacity, self.color.a, old.color.a),
            },
            depth: if self.sets_depth {
                self.depth
            } else {
                old.depth
            },
        }
    }

    /// Whether the Clear writes all of a pixel.
    pub fn writes_pixel(&self) -> bool
        ensures { result ≡ writes_pixel self.now }
    {
        self.red && (self.green && (self.blue && (self.opacity && self.sets_depth)))
    }

    /// What each pixel is after a Clear that writes all of it.
    pub fn pixel(&self) -> Pixel
        ensures prepared { writes_pixel self.now ≡ true → (old : AnyPixel) → result ≡ cleared_by self.now old }
        ensures cleared { writes_pixel self.now ≡ true → (s : AnyState) (m : ℕ) (old : AnyPixel)
            → IsClearing s m self.now → result ≡ cleared s m old }
    {
        Pixel {
            color: self.color,
            depth: self.depth,
        }
    }
}
