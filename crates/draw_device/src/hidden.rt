//! The part of a row that the depth test leaves to be drawn: what lies behind the stored depths costs no colour.
ghost use Rattle.std.specs.Prelude.{◌≡◌, ◌≤◌, length, pos, true, false};
ghost use Rattle.raster.specs.Colors.{is_depth};
ghost use Rattle.draw_device.specs.Loops.{IsDepthAt, IsRunCovered, IsVisibleFrom, LeavesPixel};
ghost use Rattle.draw_device.specs.Plans.{HasDepthPlane};

use crate::run::Run;
use crate::setup::Setup;
use crate::stepped::{value_by, value_ramp};
use crate::visible::Visible;
use fragment_ops::DepthTest;
use raster::WordPlane;

// Whether a fragment of this depth passes the depth test; where it doesn't, its pixel stays as it is.
#[inline(always)]
pub(crate) fn passes_step(test: DepthTest, depth: i32, stored: u32) -> bool
    requires { is_depth depth ≡ true }
    ensures { result ≡ false → LeavesPixel test depth stored }
{
    test.passes(depth as u32, stored)
}

/// The first column of a run whose fragment passes the depth test, or the run's end; and the depths of its fragments from there on.
#[inline(always)]
pub(crate) fn first_passing(
    depths: &[u32],
    setup: &Setup<'_>,
    plane: &WordPlane,
    run: Run,
) -> Visible
    requires room { run.to ≤ length depths.now }
    requires covered { IsRunCovered setup.now.tri.now.v run }
    requires depths { HasDepthPlane setup.now.tri.now.v (pos run.left) (pos run.bottom) plane.now }
    ensures visible { IsVisibleFrom setup.now.state.now setup.now.tri.now.v run depths.now result.from }
    ensures depths { IsDepthAt setup.now.tri.now.v run result.from result.depths }
{
    let test = setup.plan.depth;
    let mut ramp = value_ramp(plane, run);
    for x in run.from..run.to {
        let depth = value_by(&ramp, setup.tri, run, x);
        if passes_step(test, depth, depths[x as usize]) {
            return Visible {
                from: x,
                depths: ramp,
            };
        }
        ramp.advance();
    }
    Visible {
        from: run.to,
        depths: ramp,
    }
}
