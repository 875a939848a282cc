//! A row of a triangle's pixels, by the way that was settled for the triangle. Slices and numbers come apart, so that a loop has them in registers.
ghost use Rattle.std.specs.Prelude.{◌≡◌, ◌+◌, ◌≤◌, length, pos};
ghost use Rattle.raster.specs.Colors.{IsColorPlane};
ghost use Rattle.draw_device.specs.Loops.{IsCoveredRow, IsGridRow, IsRunCovered, IsVisibleFrom};
ghost use Rattle.draw_device.specs.Plans.{AreStages};
ghost use Rattle.draw_device.specs.Setups.{AreDepthTestedBy, IsPaintOf, IsRowDrawn, IsRowPut, IsSourceOf, IsStoredBy, IsTestsOf, IsWindowRowDrawn};

use crate::colors::{fill_colors, step_colors};
use crate::columns::is_few;
use crate::fragments::color_row;
use crate::grid::Spare;
use crate::hidden::first_passing;
use crate::paint::Paint;
use crate::put::{put_row, tested_row};
use crate::run::Run;
use crate::setup::Setup;
use crate::shade::{draw_run, unsettled};
use crate::short_rows::{draw_short, is_short, laid_by, shades_of};
use crate::source::Source;
use crate::stages::Stages;
use crate::stepped::color_ramp;
use crate::tests::Tests;
use raster::{ColorPlane, WordPlane};
use rc_base::command::Rgba;

// The first column of the run that the depth test doesn't hide, or the run's end.
fn first_visible(depths: &[u32], setup: &Setup<'_>, tests: &Tests, run: Run) -> u16
    requires room { run.to ≤ length depths.now }
    requires covered { IsRunCovered setup.now.tri.now.v run }
    requires tests { IsTestsOf setup.now run tests.now }
    ensures { IsVisibleFrom setup.now.state.now setup.now.tri.now.v run depths.now result }
{
    if let Tests::Both(plane) = tests {
        return first_passing(depths, setup, plane, run).from;
    }
    run.from
}

// A row of a triangle of several colours that are stored alone.
fn store_row(colors: &mut [Rgba], depths: &[u32], setup: &Setup<'_>, plane: &ColorPlane, run: Run)
    requires row { IsCoveredRow setup.now.tri.now.v run colors.old depths.now }
    requires stored { IsStoredBy setup.now }
    requires plane { IsColorPlane setup.now.tri.now.v (pos run.left) (pos run.bottom) plane.now }
    ensures { IsRowDrawn setup.now run colors.old depths.now colors.new depths.now }
{
    let _depths = depths;
    step_colors(colors, setup.tri, run, color_ramp(plane, run));
}

// A row of a triangle whose fragments take the depth test alone.
fn depth_row(
    colors: &mut [Rgba],
    depths: &mut [u32],
    spare: &mut Spare,
    setup: &Setup<'_>,
    source: &Source<'_>,
    plane: &WordPlane,
    run: Run,
)
    requires row { IsCoveredRow setup.now.tri.now.v run colors.old depths.old }
    requires room { run.to ≤ length spare.old.colors.items }
    requires source { IsSourceOf setup.now run source.now }
    requires tested { AreDepthTestedBy setup.now run plane.now }
    ensures { IsRowPut setup.now run spare.old colors.old depths.old
        spare.new colors.new depths.new }
{
    let seen = first_passing(depths, setup, plane, run);
    if seen.from == run.to {
        return;
    }
    let run = Run {
        left: run.left,
        bottom: run.bottom,
        row: run.row,
        up: run.up,
        from: seen.from,
        to: run.to,
    };
    if is_short(run) {
        if let Some(over) = laid_by(setup) {
            if let Some(shades) = shades_of(setup, source, run) {
                draw_short(colors, depths, setup, seen.depths, shades, over, run);
                return;
            }
        }
    }
    color_row(spare.colors.as_mut_slice(), setup, source, run);
    tested_row(colors, depths, spare, setup, plane, run);
}

// A row of a triangle by its stages.
fn stage_row(
    colors: &mut [Rgba],
    depths: &mut [u32],
    spare: &mut Spare,
    setup: &Setup<'_>,
    stages: Stages<'_>,
    run: Run,
)
    requires row { IsCoveredRow setup.now.tri.now.v run colors.old depths.old }
    requires room { run.to ≤ length spare.old.colors.items }
    requires stages { AreStages setup.now.state.now setup.now.texture.now setup.now.tri.now.v
        (pos run.left) (pos run.bottom) stages }
    ensures { IsRowPut setup.now run spare.old colors.old depths.old
        spare.new colors.new depths.new }
{
    if let Tests::Depth(plane) = stages.tests {
        depth_row(colors, depths, spare, setup, stages.source, plane, run);
        return;
    }
    let from = first_visible(depths, setup, stages.tests, run);
    if from == run.to {
        return;
    }
    let run = Run {
        left: run.left,
        bottom: run.bottom,
        row: run.row,
        up: run.up,
        from,
        to: run.to,
    };
    color_row(spare.colors.as_mut_slice(), setup, stages.source, run);
    put_row(colors, depths, spare, setup, stages.tests, run);
}

/// Columns `from` to below `to` of a row of a triangle's pixels, by their colours and depths. The row lies `up` rows above the grid's first.
/// It takes seven parameters, since the row's numbers come apart: small triangles are mostly rows of one colour, and a struct that is made of a row
/// before it is filled takes two fifths of drawing them.
#[inline(always)]
pub(crate) fn draw_row(
    colors: &mut [Rgba],
    depths: &mut [u32],
    spare: &mut Spare,
    setup: &Setup<'_>,
    up: u16,
    from: u16,
    to: u16,
)
    requires row { IsGridRow setup.now.tri.now.v setup.now.extent up from to colors.old depths.old }
    requires room { to ≤ length spare.old.colors.items }
    requires paint { IsPaintOf setup.now }
    ensures spare { length spare.new.colors.items ≡ length spare.old.colors.items }
    ensures drawn { IsWindowRowDrawn setup.now (setup.now.extent.bottom + up) from to
        colors.old depths.old colors.new depths.new }
{
    let row = setup.extent.bottom + up;
    match setup.paint {
        Paint::Fill(color) => fill_colors(colors, from, to, color),
        Paint::Store(plane) => {
            if !is_few(up, to) {
                draw_run(colors, depths, setup, unsettled(setup), row, from, to);
                return;
            }
            let run = Run {
                left: setup.extent.left,
                bottom: setup.extent.bottom,
                row,
                up,
                from,
                to,
            };
            store_row(colors, depths, setup, plane, run);
        }
        Paint::Stages(stages) => {
            if !is_few(up, to) {
                draw_run(colors, depths, setup, unsettled(setup), row, from, to);
                return;
            }
            let run = Run {
                left: setup.extent.left,
                bottom: setup.extent.bottom,
                row,
                up,
                from,
                to,
            };
            stage_row(colors, depths, spare, setup, stages, run);
        }
        Paint::Pixels(shading) => draw_run(colors, depths, setup, shading, row, from, to),
    }
}
