//! Products, factors and sums of channels.
ghost use Rattle.std.specs.Prelude.{◌≡◌, ◌+◌, ◌*◌, ◌/◌, min, if◌then◌else◌};
ghost use Rattle.rc_base.specs.Colors.{prod};
ghost use Rattle.rc_base.specs.Drawing.PixelStep.{factor, blended, mixed, masked, written_color, cleared_color};

use rc_base::command::Rgba;
use rc_base::state::State;

// The product of two channels, as parts of 255, rounded.
#[inline(always)]
fn product(a: u8, b: u8) -> u8
    ensures { result ≡ prod a b }
{
    ((u16::from(a) * u16::from(b) + 127) / 255) as u8
}

// A blend factor, as parts of 255, by its code.
fn factor_of(code: u8, source: u8, stored: u8, source_alpha: u8, stored_alpha: u8) -> u8
    ensures { result ≡ factor code source stored source_alpha stored_alpha }
{
    match code {
        0 => 0,
        1 => 255,
        2 => source,
        3 => 255 - source,
        4 => stored,
        5 => 255 - stored,
        6 => source_alpha,
        7 => 255 - source_alpha,
        8 => stored_alpha,
        _ => 255 - stored_alpha,
    }
}

// The sum of two channels, held to 255. In numbers of 32 bits, of which a processor takes several at once.
#[inline(always)]
pub(crate) fn sum(a: u8, b: u8) -> u8
    ensures { result ≡ min 255 (a + b) }
{
    (u32::from(a) + u32::from(b)).min(255) as u8
}

// A channel blended with the stored one.
fn blend(state: &State, source: u8, stored: u8, source_alpha: u8, stored_alpha: u8) -> u8
    ensures { result ≡ blended state.now source stored source_alpha stored_alpha }
{
    let a = factor_of(state.blend[0], source, stored, source_alpha, stored_alpha);
    let b = factor_of(state.blend[1], source, stored, source_alpha, stored_alpha);
    sum(product(source, a), product(stored, b))
}

// A channel as it is to be stored.
fn mix(state: &State, color: Rgba, old: Rgba, source: u8, stored: u8) -> u8
    ensures { result ≡ mixed state.now color old source stored }
{
    if !state.blend_on {
        return source;
    }
    blend(state, source, stored, color.a, old.a)
}

// The written channel where its flag is on, else the stored one.
pub(crate) fn mask(on: bool, written: u8, stored: u8) -> u8
    ensures { result ≡ (if on then written else stored) }
{
    if on { written } else { stored }
}

/// The colour that is stored of a fragment's.
pub(crate) fn store(state: &State, color: Rgba, old: Rgba) -> Rgba
    ensures { result ≡ written_color state.now color old }
{
    let flags = state.color_mask;
    Rgba {
        r: mask(flags[0], mix(state, color, old, color.r, old.r), old.r),
        g: mask(flags[1], mix(state, color, old, color.g, old.g), old.g),
        b: mask(flags[2], mix(state, color, old, color.b, old.b), old.b),
        a: mask(flags[3], mix(state, color, old, color.a, old.a), old.a),
    }
}

/// The colour after a Clear.
pub(crate) fn clear_color(state: &State, old: Rgba) -> Rgba
    ensures { result ≡ cleared_color state.now old }
{
    let flags = state.color_mask;
    let color = state.clear_color;
    Rgba {
        r: mask(flags[0], color.r, old.r),
        g: mask(flags[1], color.g, old.g),
        b: mask(flags[2], color.b, old.b),
        a: mask(flags[3], color.a, old.a),
    }
}
