//! Rows of pixels that take their fragments' written colours, by the depth test or by both tests.
ghost use Rattle.std.specs.Prelude.{◌≡◌, ◌≤◌, length, pos, true};
ghost use Rattle.raster.specs.Colors.{is_depth};
ghost use Rattle.draw_device.specs.Loops.{IsCoveredRow, IsDepthTested, IsTested};
ghost use Rattle.draw_device.specs.Plans.{IsDepthPlane};
ghost use Rattle.draw_device.specs.Setups.{AreDepthTestedBy, AreFlagsOf, AreWrittenOf, IsRowDrawn};

use crate::grid::Spare;
use crate::run::Run;
use crate::setup::Setup;
use crate::stepped::{value_by, value_ramp};
use fragment_ops::DepthTest;
use raster::WordPlane;
use rc_base::command::Rgba;

#[inline(always)]
pub(crate) fn test_step(
    test: DepthTest,
    color: Rgba,
    depth: i32,
    stored_color: &mut Rgba,
    stored_depth: &mut u32,
)
    requires { is_depth depth ≡ true }
    ensures { IsDepthTested test color depth stored_color.old stored_depth.old stored_color.new stored_depth.new }
{
    test.put(color, depth as u32, stored_color, stored_depth);
}

/// The written colours are stored with their depths, where the depth test passes.
#[inline(never)]
pub(crate) fn test_run(
    colors: &mut [Rgba],
    depths: &mut [u32],
    written: &[Rgba],
    setup: &Setup<'_>,
    plane: &WordPlane,
    run: Run,
)
    requires row { IsCoveredRow setup.now.tri.now.v run colors.old depths.old }
    requires room { run.to ≤ length written.now }
    requires written { AreWrittenOf setup.now run colors.old written.now }
    requires tested { AreDepthTestedBy setup.now run plane.now }
    ensures { IsRowDrawn setup.now run colors.old depths.old colors.new depths.new }
{
    let test = setup.plan.depth;
    let mut ramp = value_ramp(plane, run);
    for x in run.from..run.to {
        let depth = value_by(&ramp, setup.tri, run, x);
        let place = x as usize;
        test_step(
            test,
            written[place],
            depth,
            &mut colors[place],
            &mut depths[place],
        );
        ramp.advance();
    }
}

pub(crate) fn is_depth(depth: i32) -> bool
    ensures { result ≡ is_depth depth }
{
    0 <= depth && depth <= 16_777_215
}

// Of a fragment of which is known whether its alpha passes.
#[inline(always)]
fn any_step(
    test: DepthTest,
    passes: bool,
    color: Rgba,
    depth: i32,
    stored_color: &mut Rgba,
    stored_depth: &mut u32,
)
    ensures { IsTested test passes color depth stored_color.old stored_depth.old stored_color.new stored_depth.new }
{
    if !passes {
        return;
    }
    if !is_depth(depth) {
        return;
    }
    test_step(test, color, depth, stored_color, stored_depth);
}

/// The written colours are stored with their depths, where both tests pass. Depths may lie out of range.
#[inline(never)]
pub(crate) fn any_run(
    colors: &mut [Rgba],
    depths: &mut [u32],
    spare: &Spare,
    setup: &Setup<'_>,
    plane: &WordPlane,
    run: Run,
)
    requires row { IsCoveredRow setup.now.tri.now.v run colors.old depths.old }
    requires room { run.to ≤ length spare.now.colors.items }
    requires written { AreWrittenOf setup.now run colors.old spare.now.colors.items }
    requires flags { AreFlagsOf setup.now run spare.now.flags.items }
    requires plane { IsDepthPlane setup.now.tri.now.v (pos run.left) (pos run.bottom) plane.now }
    ensures { IsRowDrawn setup.now run colors.old depths.old colors.new depths.new }
{
    let written = spare.colors.as_slice();
    let flags = spare.flags.as_slice();
    let test = setup.plan.depth;
    let mut ramp = value_ramp(plane, run);
    for x in run.from..run.to {
        let depth = value_by(&ramp, setup.tri, run, x);
        let place = x as usize;
        any_step(
            test,
            flags[place],
            written[place],
            depth,
            &mut colors[place],
            &mut depths[place],
        );
        ramp.advance();
    }
}
