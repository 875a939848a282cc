//! Colours made of two: by a texel, and with the stored one.
ghost use Rattle.std.specs.Prelude.{◌≡◌, ℕ, ◌<◌, true};
ghost use Rattle.rc_base.specs.Colors.{rgba, prod, modulated};
ghost use Rattle.rc_base.specs.Drawing.PixelStep.{written_color};
ghost use Rattle.rc_base.specs.declared.state.State.{State as AnyState};
ghost use Rattle.fragment_ops.specs.Pairs.{pair_of};
ghost use Rattle.fragment_ops.specs.Shortcuts.{blends_over, blends_sum, color_over, color_sum};

use crate::blend::sum;
use crate::pairs::{products, scaled};
use rc_base::command::Rgba;

// The colour whose channels are in two pairs.
#[inline(always)]
fn unpaired(red_blue: u32, green_alpha: u32) -> Rgba
    requires red_blue { red_blue < 16777216 }
    requires green_alpha { green_alpha < 16777216 }
    ensures { (r g b a : ℕ) → r < 256 → g < 256 → red_blue ≡ pair_of r b → green_alpha ≡ pair_of g a
        → result ≡ rgba r g b a }
{
    Rgba {
        r: (red_blue % 256) as u8,
        g: (green_alpha % 256) as u8,
        b: (red_blue / 65_536) as u8,
        a: (green_alpha / 65_536) as u8,
    }
}

/// The products of a colour's and a texel's channels.
#[inline(always)]
pub fn modulate(color: Rgba, texel: Rgba) -> Rgba
    ensures { result ≡ modulated color texel }
{
    let red_blue = products(color.r, texel.r, color.b, texel.b);
    let green_alpha = products(color.g, texel.g, color.a, texel.a);
    unpaired(red_blue, green_alpha)
}

/// A colour's channels as so many parts of 255.
#[inline(always)]
pub(crate) fn scale_color(color: Rgba, by: u8) -> Rgba
    ensures { result ≡ rgba (prod color.r by) (prod color.g by) (prod color.b by) (prod color.a by) }
{
    let red_blue = scaled(color.r, color.b, by);
    let green_alpha = scaled(color.g, color.a, by);
    unpaired(red_blue, green_alpha)
}

/// A fragment's colour over the stored one, by SRC_ALPHA and ONE_MINUS_SRC_ALPHA.
#[inline(always)]
pub fn blend_over(color: Rgba, old: Rgba) -> Rgba
    ensures value { result ≡ color_over color old }
    ensures written { (s : AnyState) → blends_over s ≡ true → result ≡ written_color s color old }
{
    // no sum is above 255, since no part of a channel is above the part of 255
    let a = color.a;
    let rest = 255 - a;
    let red_blue = scaled(color.r, color.b, a) + scaled(old.r, old.b, rest);
    let green_alpha = scaled(color.g, a, a) + scaled(old.g, old.a, rest);
    unpaired(red_blue, green_alpha)
}

/// A fragment's colour and the stored one together, by ONE and ONE.
#[inline(always)]
#[tactic(auto, unfolding(crate::specs::Shortcuts::color_sum))]
pub fn blend_sum(color: Rgba, old: Rgba) -> Rgba
    ensures value { result ≡ color_sum color old }
    ensures written { (s : AnyState) → blends_sum s ≡ true → result ≡ written_color s color old }
{
    Rgba {
        r: sum(color.r, old.r),
        g: sum(color.g, old.g),
        b: sum(color.b, old.b),
        a: sum(color.a, old.a),
    }
}
