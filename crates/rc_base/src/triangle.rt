//! A triangle in window coordinates, always within its bounds and with its area above 0.
ghost use Rattle.std.specs.Prelude.{◌≡◌, pos, ◌<ℤ◌};
ghost use Rattle.rc_base.specs.Drawing.Cover.{triangle_area, AreInBounds};

use crate::window::WindowVertex;

/// A triangle whose corners lie within the bounds of the window's coordinates and run counterclockwise. `area` is twice its area, in
/// square sixteenths of a pixel.
#[derive(Clone, Copy, Debug, PartialEq)]
pub struct WindowTriangle {
    pub v: [WindowVertex; 3],
    pub area: i64,
    pub ghost bounded: { AreInBounds v },
    pub ghost area_is: { area ≡ triangle_area v },
    pub ghost positive: { pos 0 <ℤ area },
}
