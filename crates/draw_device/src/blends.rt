//! A row of colours blended with those that are stored.
ghost use Rattle.std.specs.Prelude.{◌≡◌, length, true};
ghost use Rattle.fragment_ops.specs.Blends.{factor_of, masked_by};
ghost use Rattle.fragment_ops.specs.Shortcuts.{blends_over, blends_sum};
ghost use Rattle.draw_device.specs.Loops.{AreColumnsOfBoth, IsColorRun, mixed_over, written_over};
ghost use Rattle.draw_device.specs.Pixels.{color_at};

use crate::blending::Blending;
use fragment_ops::{Factor, blend_by, blend_over, blend_sum, factor_named, mask_color};
use rc_base::command::Rgba;
use rc_base::state::State;

/// Blending by SRC_ALPHA and ONE_MINUS_SRC_ALPHA.
#[inline(never)]
pub(crate) fn over_colors(colors: &mut [Rgba], stored: &[Rgba], state: &State, from: u16, to: u16)
    requires columns { AreColumnsOfBoth (length colors.old) (length stored.now) from to }
    requires kind { blends_over state.now ≡ true }
    ensures { IsColorRun (written_over state.now stored.now) from to colors.old colors.new }
{
    let _state = state;
    for x in from..to {
        colors[x as usize] = blend_over(colors[x as usize], stored[x as usize]);
    }
}

/// Blending by ONE and ONE.
#[inline(never)]
pub(crate) fn sum_colors(colors: &mut [Rgba], stored: &[Rgba], state: &State, from: u16, to: u16)
    requires columns { AreColumnsOfBoth (length colors.old) (length stored.now) from to }
    requires kind { blends_sum state.now ≡ true }
    ensures { IsColorRun (written_over state.now stored.now) from to colors.old colors.new }
{
    let _state = state;
    for x in from..to {
        colors[x as usize] = blend_sum(colors[x as usize], stored[x as usize]);
    }
}

// Blending by two factors whose codes the compiler knows, so that the loop asks nothing and takes several pixels at once.
#[inline(never)]
fn blend_pair<const FIRST: u8, const SECOND: u8>(
    colors: &mut [Rgba],
    stored: &[Rgba],
    blending: &Blending<'_>,
    from: u16,
    to: u16,
)
    requires columns { AreColumnsOfBoth (length colors.old) (length stored.now) from to }
    requires first { blending.now.first ≡ factor_of FIRST }
    requires second { blending.now.second ≡ factor_of SECOND }
    ensures { IsColorRun (mixed_over blending.now stored.now) from to colors.old colors.new }
{
    let _blending = blending;
    let source = factor_named(FIRST);
    let kept = factor_named(SECOND);
    for x in from..to {
        colors[x as usize] = blend_by(source, kept, colors[x as usize], stored[x as usize]);
    }
}

// A function that has the code of a factor as its last constant, called with that of this factor.
macro_rules! by_factor {
    ($factor:expr, $function:ident [$($front:ident)?] $arguments:tt) => {
        match $factor {
            Factor::Zero => $function::<$($front,)? 0> $arguments,
            Factor::One => $function::<$($front,)? 1> $arguments,
            Factor::SrcColor => $function::<$($front,)? 2> $arguments,
            Factor::OneMinusSrcColor => $function::<$($front,)? 3> $arguments,
            Factor::DstColor => $function::<$($front,)? 4> $arguments,
            Factor::OneMinusDstColor => $function::<$($front,)? 5> $arguments,
            Factor::SrcAlpha => $function::<$($front,)? 6> $arguments,
            Factor::OneMinusSrcAlpha => $function::<$($front,)? 7> $arguments,
            Factor::DstAlpha => $function::<$($front,)? 8> $arguments,
            Factor::OneMinusDstAlpha => $function::<$($front,)? 9> $arguments,
        }
    };
}

// The same by the factor of the stored colour: a loop for each.
fn blend_second<const FIRST: u8>(
    colors: &mut [Rgba],
    stored: &[Rgba],
    blending: &Blending<'_>,
    from: u16,
    to: u16,
)
    requires columns { AreColumnsOfBoth (length colors.old) (length stored.now) from to }
    requires first { blending.now.first ≡ factor_of FIRST }
    ensures { IsColorRun (mixed_over blending.now stored.now) from to colors.old colors.new }
{
    by_factor!(
        blending.second,
        blend_pair[FIRST](colors, stored, blending, from, to)
    )
}

/// Blending by any two factors: a loop for each pair.
#[inline(never)]
pub(crate) fn blend_colors(
    colors: &mut [Rgba],
    stored: &[Rgba],
    blending: &Blending<'_>,
    from: u16,
    to: u16,
)
    requires { AreColumnsOfBoth (length colors.old) (length stored.now) from to }
    ensures { IsColorRun (mixed_over blending.now stored.now) from to colors.old colors.new }
{
    by_factor!(blending.first, blend_second [] (colors, stored, blending, from, to))
}

/// The colours where the flags of the colour mask are on, and the stored ones elsewhere.
#[inline(never)]
pub(crate) fn mask_colors(
    colors: &mut [Rgba],
    stored: &[Rgba],
    flags: [bool; 4],
    from: u16,
    to: u16,
)
    requires { AreColumnsOfBoth (length colors.old) (length stored.now) from to }
    ensures { IsColorRun (λ k color. masked_by flags color (color_at stored.now k)) from to
        colors.old colors.new }
{
    for x in from..to {
        colors[x as usize] = mask_color(flags, colors[x as usize], stored[x as usize]);
    }
}
