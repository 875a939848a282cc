//! Blending by any two factors, which are prepared once for a draw.
ghost use Rattle.std.specs.Prelude.{◌≡◌, ◌-◌};
ghost use Rattle.rc_base.specs.Colors.{rgba};
ghost use Rattle.rc_base.specs.declared.state.State.{State as AnyState};
ghost use Rattle.fragment_ops.specs.Blends.{factor_of, IsFactor, IsBlending, scaled_by, color_blended, mixed_color, masked_by};

use crate::blend::mask;
use crate::colors::{blend_sum, modulate, scale_color};
use crate::factor::Factor;
use rc_base::command::Rgba;

/// The factor of a code.
#[inline(always)]
pub fn factor_named(code: u8) -> Factor
    ensures named { result ≡ factor_of code }
    ensures factor { IsFactor code result }
{
    match code {
        0 => Factor::Zero,
        1 => Factor::One,
        2 => Factor::SrcColor,
        3 => Factor::OneMinusSrcColor,
        4 => Factor::DstColor,
        5 => Factor::OneMinusDstColor,
        6 => Factor::SrcAlpha,
        7 => Factor::OneMinusSrcAlpha,
        8 => Factor::DstAlpha,
        _ => Factor::OneMinusDstAlpha,
    }
}

// What a colour leaves of 255.
#[inline(always)]
fn rest(color: Rgba) -> Rgba
    ensures { result ≡ rgba (255 - color.r) (255 - color.g) (255 - color.b) (255 - color.a) }
{
    Rgba {
        r: 255 - color.r,
        g: 255 - color.g,
        b: 255 - color.b,
        a: 255 - color.a,
    }
}

#[inline(always)]
fn none() -> Rgba
    ensures { result ≡ rgba 0 0 0 0 }
{
    Rgba {
        r: 0,
        g: 0,
        b: 0,
        a: 0,
    }
}

// One of the two colours by a factor.
#[inline(always)]
#[tactic(auto, unfolding(crate::specs::Blends::scaled_by), using(crate::proofs::ByFactors::zero_is, crate::proofs::ByFactors::one_is))]
fn part(factor: Factor, one: Rgba, color: Rgba, old: Rgba) -> Rgba
    ensures { result ≡ scaled_by factor one color old }
{
    match factor {
        Factor::Zero => none(),
        Factor::One => one,
        Factor::SrcColor => modulate(one, color),
        Factor::OneMinusSrcColor => modulate(one, rest(color)),
        Factor::DstColor => modulate(one, old),
        Factor::OneMinusDstColor => modulate(one, rest(old)),
        Factor::SrcAlpha => scale_color(one, color.a),
        Factor::OneMinusSrcAlpha => scale_color(one, 255 - color.a),
        Factor::DstAlpha => scale_color(one, old.a),
        Factor::OneMinusDstAlpha => scale_color(one, 255 - old.a),
    }
}

/// A fragment's colour blended with the stored one by two factors. Where a loop goes over many pixels, give it factors that the compiler knows.
#[inline(always)]
#[tactic(auto, unfolding(crate::specs::Blends::color_blended))]
pub fn blend_by(source: Factor, stored: Factor, color: Rgba, old: Rgba) -> Rgba
    ensures value { result ≡ color_blended source stored color old }
    ensures mixed { (s : AnyState) → IsBlending s source stored → result ≡ mixed_color s color old }
{
    blend_sum(
        part(source, color, color, old),
        part(stored, old, color, old),
    )
}

/// The channels of a colour whose flags are on, and those of the stored one elsewhere.
#[inline(always)]
pub fn mask_color(flags: [bool; 4], color: Rgba, old: Rgba) -> Rgba
    ensures { result ≡ masked_by flags color old }
{
    Rgba {
        r: mask(flags[0], color.r, old.r),
        g: mask(flags[1], color.g, old.g),
        b: mask(flags[2], color.b, old.b),
        a: mask(flags[3], color.a, old.a),
    }
}
