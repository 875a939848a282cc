//! Triangles and devices.
ghost use Rattle.std.specs.Prelude.{◌≡◌, ℕ, ◌<◌, false, OnOk};
ghost use Rattle.rc_base.specs.Drawing.Nearer.{nearer};
ghost use Rattle.draw_device.specs.Devices.{AreNear, EachTakes, pixel_of};
ghost use Rattle.raster.specs.SharedEdge.{RunOpposite};

use draw_device::{ActivePixels, Device};
use raster::{covers, no_double_edge};
use rc_base::out_of_memory::OutOfMemory;
use rc_base::triangle::WindowTriangle;
use std::alloc::Global;

/// Puts what was drawn on a device before a picture: each pixel of the picture becomes the device's where this is nearer, though only the run is gone through at
/// which something was drawn.
pub fn put_before(alloc: Global, picture: &mut Device, drawn: &Device) -> Result<(), OutOfMemory>
    requires rect { drawn.now.rect ≡ picture.old.rect }
    requires near { AreNear picture.old }
    ensures { OnOk result (EachTakes (λ x y old. nearer old (pixel_of drawn.now x y)) picture.old picture.new) }
{
    let run = drawn.drawn();
    let mut layer = ActivePixels::none(alloc);
    drawn.copy_active(run, &mut layer)?;
    picture.take_nearer(&layer);
    Ok(())
}

/// Whether two triangles both have a pixel. None is in both where they run through a common edge in opposite directions: the points of the edge are one
/// triangle's alone.
pub fn both_cover(first: &WindowTriangle, second: &WindowTriangle, x: i32, y: i32) -> bool
    ensures { (i j : ℕ) → i < 3 → j < 3 → RunOpposite first.now.v i second.now.v j
        → result ≡ false }
{
    no_double_edge();
    covers(first, x, y) && covers(second, x, y)
}
