//! A row of colours as they are to be written over the stored ones.
ghost use Rattle.std.specs.Prelude.{◌≡◌, ◌≤◌, length};
ghost use Rattle.draw_device.specs.Setups.{AreColorsOf, AreWrittenOf};

use crate::blending::Blending;
use crate::blends::{blend_colors, mask_colors, over_colors, sum_colors};
use crate::run::Run;
use crate::setup::Setup;
use crate::write::Write;
use rc_base::command::Rgba;

/// The row's colours as they are to be written over the stored ones.
pub(crate) fn write_colors(colors: &mut [Rgba], stored: &[Rgba], setup: &Setup<'_>, run: Run)
    requires stored { run.to ≤ length stored.now }
    requires room { run.to ≤ length colors.old }
    requires colored { AreColorsOf setup.now run colors.old }
    ensures size { length colors.new ≡ length colors.old }
    ensures written { AreWrittenOf setup.now run stored.now colors.new }
{
    match setup.plan.write {
        Write::Plain => {}
        Write::Over => over_colors(colors, stored, setup.state, run.from, run.to),
        Write::Sum => sum_colors(colors, stored, setup.state, run.from, run.to),
        Write::Blended(first, second) => {
            let blending = Blending {
                state: setup.state,
                first,
                second,
            };
            blend_colors(colors, stored, &blending, run.from, run.to);
        }
        Write::Masked => mask_colors(colors, stored, setup.state.color_mask, run.from, run.to),
        Write::Both(first, second) => {
            let blending = Blending {
                state: setup.state,
                first,
                second,
            };
            blend_colors(colors, stored, &blending, run.from, run.to);
            mask_colors(colors, stored, setup.state.color_mask, run.from, run.to);
        }
    }
}
