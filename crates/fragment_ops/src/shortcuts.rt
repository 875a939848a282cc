//! States of which few stages stand between a fragment and the buffer.
ghost use Rattle.std.specs.Prelude.{◌≡◌, ℕ, true};
ghost use Rattle.rc_base.specs.Drawing.PixelStep.{shaded, written_color};
ghost use Rattle.rc_base.specs.declared.command.Rgba.{Rgba as AnyColor};
ghost use Rattle.rc_base.specs.declared.window.Pixel.{Pixel as AnyPixel};
ghost use Rattle.fragment_ops.specs.Shortcuts.{writes_all, writes_plainly, stores_alone, blends_by, blends_over, blends_sum};

use rc_base::state::State;

fn writes_all(flags: [bool; 4]) -> bool
    ensures { result ≡ writes_all flags }
{
    flags[0] && (flags[1] && (flags[2] && flags[3]))
}

/// Whether a fragment's colour is written as it is: blending is off, all channels are written.
#[tactic(auto, unfolding(crate::specs::Shortcuts::writes_plainly))]
pub fn writes_plainly(state: &State) -> bool
    ensures test { result ≡ writes_plainly state.now }
    ensures written { result ≡ true → (c old : AnyColor) → written_color state.now c old ≡ c }
{
    !state.blend_on && writes_all(state.color_mask)
}

/// Whether moreover no test stands between a fragment and the buffer, so that its colour is stored, and its depth isn't.
#[tactic(auto, unfolding(crate::specs::Shortcuts::stores_alone))]
pub fn stores_alone(state: &State) -> bool
    ensures test { result ≡ stores_alone state.now }
    ensures stored { result ≡ true → (c : AnyColor) (depth : ℕ) (old : AnyPixel)
        → shaded state.now c depth old ≡ record { color = c; depth = old.depth } }
{
    !state.depth_on && (!state.alpha_on && writes_plainly(state))
}

#[tactic(auto, unfolding(crate::specs::Shortcuts::blends_by))]
fn blends_by(state: &State, source: u8, stored: u8) -> bool
    ensures { result ≡ blends_by source stored state.now }
{
    state.blend_on
        && (writes_all(state.color_mask) && (state.blend[0] == source && state.blend[1] == stored))
}

/// Whether the colour mask has all channels written.
pub fn writes_channels(state: &State) -> bool
    ensures { result ≡ writes_all state.now.color_mask }
{
    writes_all(state.color_mask)
}

/// Whether a fragment's colour is blended by SRC_ALPHA and ONE_MINUS_SRC_ALPHA, and all of it is written.
pub fn blends_over(state: &State) -> bool
    ensures { result ≡ blends_over state.now }
{
    blends_by(state, 6, 7)
}

/// Whether a fragment's colour is blended by ONE and ONE, and all of it is written.
pub fn blends_sum(state: &State) -> bool
    ensures { result ≡ blends_sum state.now }
{
    blends_by(state, 1, 1)
}
