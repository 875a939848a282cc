//! Short rows of a triangle whose fragments take the depth test alone and whose colours no texture changes: pixel by pixel, since a pass over the row
//! for each stage costs more than its pixels do.
ghost use Rattle.std.specs.Prelude.{◌≡◌, ◌<◌, ◌≤◌, false, IfSome};
ghost use Rattle.rc_base.specs.Drawing.PixelStep.{fragment_color, written_color};
ghost use Rattle.raster.specs.Colors.{HasDepths};
ghost use Rattle.draw_device.specs.Loops.{run_fragment, IsCoveredRow, IsDepthAt, IsPlaceInReach, IsRunCovered};
ghost use Rattle.draw_device.specs.Setups.{IsRowDrawn, IsSourceOf};
ghost use Rattle.draw_device.specs.Shades.{AreShades, IsLaid, AreNextShades};

use crate::pixels::test_step;
use crate::run::Run;
use crate::setup::Setup;
use crate::shades::Shades;
use crate::source::Source;
use crate::stepped::{color_by, color_ramp, value_by};
use crate::write::Write;
use fragment_ops::blend_over;
use raster::WordRamp;
use rc_base::command::Rgba;

// How many pixels a short row has at most.
const SHORT: u16 = 16;

/// Whether a row is short.
pub(crate) fn is_short(run: Run) -> bool {
    run.to.saturating_sub(run.from) <= SHORT
}

/// Whether colours are laid over the stored ones, and not written as they are, where one of the two is so.
pub(crate) fn laid_by(setup: &Setup<'_>) -> Option<bool>
    ensures { IfSome result (IsLaid setup.now.state.now) }
{
    match setup.plan.write {
        Write::Plain => Some(false),
        Write::Over => Some(true),
        _ => None,
    }
}

/// The colours of the run's fragments, where no texture changes them.
pub(crate) fn shades_of(setup: &Setup<'_>, source: &Source<'_>, run: Run) -> Option<Shades>
    requires covered { IsRunCovered setup.now.tri.now.v run }
    requires source { IsSourceOf setup.now run source.now }
    ensures { IfSome result (AreShades setup.now.state.now setup.now.texture.now setup.now.tri.now.v run run.from) }
{
    let _setup = setup;
    match source {
        Source::Flat(color) => Some(Shades::One(*color)),
        Source::Smooth(plane) => Some(Shades::Ramp(color_ramp(plane, run))),
        _ => None,
    }
}

// The colour of the fragment at a column.
#[inline(always)]
fn shade_by(shades: &Shades, setup: &Setup<'_>, run: Run, x: u16) -> Rgba
    requires shades { AreShades setup.now.state.now setup.now.texture.now setup.now.tri.now.v run x shades.now }
    requires low { run.from ≤ x }
    requires high { x < run.to }
    requires place { IsPlaceInReach setup.now.tri.now.v run x }
    ensures { result ≡ fragment_color setup.now.state.now setup.now.texture.now (run_fragment setup.now.tri.now.v run x) }
{
    match shades {
        Shades::One(color) => *color,
        Shades::Ramp(ramp) => color_by(ramp, setup.tri, run, x),
    }
}

// Goes to the next column.
#[inline(always)]
fn advance(shades: &mut Shades)
    ensures { AreNextShades shades.old shades.new }
{
    if let Shades::Ramp(ramp) = shades {
        ramp.advance();
    }
}

// The colour that is written over the stored one.
#[inline(always)]
pub(crate) fn laid(setup: &Setup<'_>, over: bool, color: Rgba, stored: Rgba) -> Rgba
    requires { IsLaid setup.now.state.now over }
    ensures { result ≡ written_color setup.now.state.now color stored }
{
    let _setup = setup;
    if over {
        blend_over(color, stored)
    } else {
        color
    }
}

/// A row of fragments of these colours and depths that take the depth test alone.
pub(crate) fn draw_short(
    colors: &mut [Rgba],
    depths: &mut [u32],
    setup: &Setup<'_>,
    first_depths: WordRamp,
    first: Shades,
    over: bool,
    run: Run,
)
    requires row { IsCoveredRow setup.now.tri.now.v run colors.old depths.old }
    requires ranged { HasDepths setup.now.tri.now.v }
    requires through { setup.now.state.now.alpha_on ≡ false }
    requires depths { IsDepthAt setup.now.tri.now.v run run.from first_depths }
    requires shades { AreShades setup.now.state.now setup.now.texture.now setup.now.tri.now.v run run.from first }
    requires laid { IsLaid setup.now.state.now over }
    ensures { IsRowDrawn setup.now run colors.old depths.old colors.new depths.new }
{
    let test = setup.plan.depth;
    let mut ramp = first_depths;
    let mut shades = first;
    for x in run.from..run.to {
        let place = x as usize;
        let depth = value_by(&ramp, setup.tri, run, x);
        let shade = shade_by(&shades, setup, run, x);
        let color = laid(setup, over, shade, colors[place]);
        test_step(test, color, depth, &mut colors[place], &mut depths[place]);
        ramp.advance();
        advance(&mut shades);
    }
}
