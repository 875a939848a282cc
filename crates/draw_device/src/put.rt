//! A row of fragments that goes into the pixels, by its colours, which `spare` has, and by the tests that it takes.
ghost use Rattle.std.specs.Prelude.{◌≡◌, ◌≤◌, length, pos};
ghost use Rattle.draw_device.specs.Plans.{AreUntested, AreAlphaTested, IsDepthPlane};
ghost use Rattle.draw_device.specs.Setups.{AreDepthTestedBy, AreFlagsOf, AreLaidIn, AreWrittenOf, IsRowLaid, IsRowPut, IsTestsOf};

use crate::alpha::{choose_colors, flag_passing};
use crate::colors::copy_colors;
use crate::grid::Spare;
use crate::pixels::{any_run, test_run};
use crate::run::Run;
use crate::setup::Setup;
use crate::tests::Tests;
use crate::writes::write_colors;
use raster::WordPlane;
use rc_base::command::Rgba;

// Flags the fragments whose alpha passes.
fn flag_row(spare: &mut Spare, setup: &Setup<'_>, run: Run)
    requires { AreLaidIn setup.now run spare.old.colors.items }
    ensures colors { spare.new.colors ≡ spare.old.colors }
    ensures flagged { AreFlagsOf setup.now run spare.new.flags.items }
{
    flag_passing(
        spare.flags.as_mut_slice(),
        spare.colors.as_slice(),
        setup.plan.alpha,
        run.from,
        run.to,
    );
}

// The fragments' colours become those that are to be written over the stored ones.
fn write_row(spare: &mut Spare, stored: &[Rgba], setup: &Setup<'_>, run: Run)
    requires stored { run.to ≤ length stored.now }
    requires laid { AreLaidIn setup.now run spare.old.colors.items }
    ensures size { length spare.new.colors.items ≡ length spare.old.colors.items }
    ensures flags { spare.new.flags ≡ spare.old.flags }
    ensures written { AreWrittenOf setup.now run stored.now spare.new.colors.items }
{
    write_colors(spare.colors.as_mut_slice(), stored, setup, run);
}

// A row of fragments that take no test.
fn untested_row(colors: &mut [Rgba], depths: &[u32], spare: &mut Spare, setup: &Setup<'_>, run: Run)
    requires row { IsRowLaid setup.now run colors.old depths.now spare.old.colors.items }
    requires tests { AreUntested setup.now.state.now setup.now.tri.now.v }
    ensures { IsRowPut setup.now run spare.old colors.old depths.now
        spare.new colors.new depths.now }
{
    let _depths = depths;
    write_row(spare, colors, setup, run);
    copy_colors(colors, spare.colors.as_slice(), run.from, run.to);
}

// A row of fragments that take the alpha test alone.
fn chosen_row(colors: &mut [Rgba], depths: &[u32], spare: &mut Spare, setup: &Setup<'_>, run: Run)
    requires row { IsRowLaid setup.now run colors.old depths.now spare.old.colors.items }
    requires tests { AreAlphaTested setup.now.state.now setup.now.tri.now.v }
    ensures { IsRowPut setup.now run spare.old colors.old depths.now
        spare.new colors.new depths.now }
{
    let _depths = depths;
    flag_row(spare, setup, run);
    write_row(spare, colors, setup, run);
    choose_colors(
        colors,
        spare.colors.as_slice(),
        spare.flags.as_slice(),
        run.from,
        run.to,
    );
}

/// A row of fragments that take the depth test alone.
pub(crate) fn tested_row(
    colors: &mut [Rgba],
    depths: &mut [u32],
    spare: &mut Spare,
    setup: &Setup<'_>,
    plane: &WordPlane,
    run: Run,
)
    requires row { IsRowLaid setup.now run colors.old depths.old spare.old.colors.items }
    requires tests { AreDepthTestedBy setup.now run plane.now }
    ensures { IsRowPut setup.now run spare.old colors.old depths.old
        spare.new colors.new depths.new }
{
    write_row(spare, colors, setup, run);
    test_run(colors, depths, spare.colors.as_slice(), setup, plane, run);
}

// A row of fragments that take both tests, and are discarded where their depths lie out of range.
fn any_row(
    colors: &mut [Rgba],
    depths: &mut [u32],
    spare: &mut Spare,
    setup: &Setup<'_>,
    plane: &WordPlane,
    run: Run,
)
    requires row { IsRowLaid setup.now run colors.old depths.old spare.old.colors.items }
    requires plane { IsDepthPlane setup.now.tri.now.v (pos run.left) (pos run.bottom) plane.now }
    ensures { IsRowPut setup.now run spare.old colors.old depths.old
        spare.new colors.new depths.new }
{
    flag_row(spare, setup, run);
    write_row(spare, colors, setup, run);
    any_run(colors, depths, spare, setup, plane, run);
}

/// Puts a row of fragments, by their colours, into the pixels.
pub(crate) fn put_row(
    colors: &mut [Rgba],
    depths: &mut [u32],
    spare: &mut Spare,
    setup: &Setup<'_>,
    tests: &Tests,
    run: Run,
)
    requires row { IsRowLaid setup.now run colors.old depths.old spare.old.colors.items }
    requires tests { IsTestsOf setup.now run tests.now }
    ensures { IsRowPut setup.now run spare.old colors.old depths.old
        spare.new colors.new depths.new }
{
    match tests {
        Tests::Off => untested_row(colors, depths, spare, setup, run),
        Tests::Alpha => chosen_row(colors, depths, spare, setup, run),
        Tests::Depth(plane) => tested_row(colors, depths, spare, setup, plane, run),
        Tests::Both(plane) => any_row(colors, depths, spare, setup, plane, run),
        Tests::Any(plane) => any_row(colors, depths, spare, setup, plane, run),
    }
}
