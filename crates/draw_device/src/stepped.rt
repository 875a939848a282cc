//! What a ramp has at a column of a run, as what the triangle's fragment has there.
ghost use Rattle.std.specs.Prelude.{◌≡◌, List, ℤ, pos};
ghost use Rattle.rc_base.specs.declared.window.WindowVertex.{WindowVertex};
ghost use Rattle.raster.specs.Colors.{IsColorPlane};
ghost use Rattle.raster.specs.Planes.{IsWordPlane};
ghost use Rattle.draw_device.specs.Loops.{run_fragment, IsColorAt, IsDepthAt, IsPlaceInReach, IsValueAt};

use crate::run::Run;
use raster::{ColorPlane, ColorRamp, WordPlane, WordRamp};
use rc_base::command::Rgba;
use rc_base::triangle::WindowTriangle;

/// The colours of a plane from the run's first column on.
pub(crate) fn color_ramp(plane: &ColorPlane, run: Run) -> ColorRamp
    ensures { (v : List WindowVertex) → IsColorPlane v (pos run.left) (pos run.bottom) plane.now
        → IsColorAt v run run.from result }
{
    plane.ramp(u64::from(run.from), u64::from(run.up))
}

/// An attribute's values from the run's first column on.
pub(crate) fn value_ramp(plane: &WordPlane, run: Run) -> WordRamp
    ensures { (v : List WindowVertex) (f : WindowVertex → ℤ)
        → IsWordPlane v (pos run.left) (pos run.bottom) f plane.now
        → IsValueAt v run f run.from result }
{
    plane.ramp(u64::from(run.from), u64::from(run.up))
}

pub(crate) fn color_by(ramp: &ColorRamp, tri: &WindowTriangle, run: Run, x: u16) -> Rgba
    requires place { IsPlaceInReach tri.now.v run x }
    requires ramp { IsColorAt tri.now.v run x ramp.now }
    ensures { result ≡ (run_fragment tri.now.v run x).color }
{
    let _tri = tri;
    let _place = (run.left, run.row, run.up, x);
    ramp.color()
}

/// The depth there by a ramp of depths, or a texture coordinate by one of these.
pub(crate) fn value_by(ramp: &WordRamp, tri: &WindowTriangle, run: Run, x: u16) -> i32
    requires { IsPlaceInReach tri.now.v run x }
    ensures depth { IsDepthAt tri.now.v run x ramp.now
        → result ≡ (run_fragment tri.now.v run x).depth }
    ensures s { IsValueAt tri.now.v run (λ (c : WindowVertex). c.s) x ramp.now
        → result ≡ (run_fragment tri.now.v run x).s }
    ensures t { IsValueAt tri.now.v run (λ (c : WindowVertex). c.t) x ramp.now
        → result ≡ (run_fragment tri.now.v run x).t }
{
    let _tri = tri;
    let _place = (run.left, run.row, run.up, x);
    ramp.mean()
}
