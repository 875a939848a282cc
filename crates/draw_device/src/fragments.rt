//! The colours of a row's fragments after the texture stage.
ghost use Rattle.std.specs.Prelude.{◌≡◌, ◌≤◌, length};
ghost use Rattle.draw_device.specs.Loops.{IsRunCovered, IsRunColored};
ghost use Rattle.draw_device.specs.Setups.{AreColorsOf, AreTexelsAlong, IsSourceOf, run_texel};

use crate::colors::{fill_colors, repeat_colors, step_colors, texel_colors, tint_colors};
use crate::run::Run;
use crate::setup::Setup;
use crate::source::Source;
use crate::stepped::color_ramp;
use raster::WordPlane;
use rc_base::command::Rgba;
use textures::Sampler;

// The texels of a row's fragments.
fn texel_row(
    colors: &mut [Rgba],
    setup: &Setup<'_>,
    sampler: Sampler<'_>,
    ss: &WordPlane,
    ts: &WordPlane,
    run: Run,
)
    requires { AreTexelsAlong setup.now run colors.old sampler ss.now ts.now }
    ensures { IsRunColored run (λ k old. run_texel setup.now run k) colors.old colors.new }
{
    if sampler.wrap_s == 0 && sampler.wrap_t == 0 {
        repeat_colors(colors, setup, sampler, ss, ts, run);
    } else {
        texel_colors(colors, setup, sampler, ss, ts, run);
    }
}

/// The colours of a row's fragments, as they are made of the triangle.
pub(crate) fn color_row(colors: &mut [Rgba], setup: &Setup<'_>, source: &Source<'_>, run: Run)
    requires room { run.to ≤ length colors.old }
    requires covered { IsRunCovered setup.now.tri.now.v run }
    requires source { IsSourceOf setup.now run source.now }
    ensures size { length colors.new ≡ length colors.old }
    ensures done { AreColorsOf setup.now run colors.new }
{
    match source {
        Source::Flat(color) => fill_colors(colors, run.from, run.to, *color),
        Source::Smooth(plane) => step_colors(colors, setup.tri, run, color_ramp(plane, run)),
        Source::Texels(sampler, ss, ts) => texel_row(colors, setup, *sampler, ss, ts, run),
        Source::Tinted(sampler, ss, ts, plane) => {
            texel_row(colors, setup, *sampler, ss, ts, run);
            tint_colors(colors, setup.state, setup.tri, run, color_ramp(plane, run));
        }
    }
}
