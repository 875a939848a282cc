//! What a fragment or a Clear makes of a pixel.
ghost use Rattle.std.specs.Prelude.{◌≡◌, ◌≤ℤ◌, ◌<ℤ◌, ◌*ℤ◌, pos, None, true};
ghost use Rattle.rc_base.specs.Numbers.{floor_quotient, is_between, natural};
ghost use Rattle.rc_base.specs.Drawing.PixelStep.{textured, shaded, fragment_step, cleared, cleared_depth};

use crate::blend::{clear_color, store};
use crate::colors::modulate;
use crate::compare::{alpha_passes, depth_passes};
use rc_base::command::Rgba;
use rc_base::state::State;
use rc_base::window::{Fragment, Pixel};

/// A fragment's colour after the texture environment: MODULATE, or REPLACE.
#[tactic(auto, unfolding(rc_base::specs::Drawing::PixelStep::textured))]
pub fn texture_color(state: &State, color: Rgba, texel: Rgba) -> Rgba
    ensures { result ≡ textured state.now color texel }
{
    if state.tex_mode[0] != 0 {
        return texel;
    }
    modulate(color, texel)
}

// A pixel after a fragment with a depth in the buffer's range.
#[tactic(auto, unfolding(rc_base::specs::Drawing::PixelStep::shaded))]
fn shade(state: &State, color: Rgba, depth: u32, old: Pixel) -> Pixel
    ensures { result ≡ shaded state.now color depth old }
{
    if !alpha_passes(state, color.a) {
        return old;
    }
    if !depth_passes(state, depth, old.depth) {
        return old;
    }
    let depth = if state.depth_on && state.depth_mask {
        depth
    } else {
        old.depth
    };
    Pixel {
        color: store(state, color, old.color),
        depth,
    }
}

/// A pixel after a fragment, whose colour is that after the texture environment. It is discarded where its depth lies outside 0..16777215.
pub fn shade_pixel(state: &State, fragment: &Fragment, old: Pixel) -> Pixel
    ensures { result ≡ fragment_step state.now None fragment.now old }
{
    if fragment.depth < 0 || fragment.depth > 16_777_215 {
        return old;
    }
    shade(state, fragment.color, fragment.depth as u32, old)
}

// The clear depth in the buffer's range.
pub(crate) fn clear_depth(state: &State) -> u32
    requires low { pos 0 ≤ℤ state.now.clear_depth }
    requires high { state.now.clear_depth ≤ℤ pos 65536 }
    ensures { result ≡ cleared_depth state.now }
{
    (state.clear_depth as u64 * 16_777_215 / 65_536) as u32
}

/// A pixel after a Clear, where the scissor box lets it through.
#[tactic(auto, unfolding(rc_base::specs::Drawing::PixelStep::cleared))]
pub fn clear_pixel(state: &State, mask: u8, old: Pixel) -> Pixel
    requires low { pos 0 ≤ℤ state.now.clear_depth }
    requires high { state.now.clear_depth ≤ℤ pos 65536 }
    ensures { result ≡ cleared state.now mask old }
{
    let color = if mask % 2 == 1 {
        clear_color(state, old.color)
    } else {
        old.color
    };
    let depth = if mask / 2 % 2 == 1 && state.depth_mask {
        clear_depth(state)
    } else {
        old.depth
    };
    Pixel { color, depth }
}
