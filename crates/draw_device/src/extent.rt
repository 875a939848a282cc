//! Where a grid stands in the window, and what is settled for the blocks that are drawn in it.
ghost use Rattle.std.specs.Prelude.{◌≡◌, ◌+◌, ◌*◌, ◌≤◌, pos, ◌+ℤ◌, ◌-ℤ◌, ◌≤ℤ◌};
ghost use Rattle.draw_device.specs.Devices.{IsDeviceRect};
ghost use Rattle.draw_device.specs.Prepared.{IsPreparedFor};
ghost use Rattle.draw_device.specs.Shapes.{grid_rect};

use crate::grid::Extent;
use crate::prepare::plan_of;
use crate::prepared::Prepared;
use geometry::{identities_of, surrounds_of};
use raster::drawn_part;
use rc_base::state::State;
use rc_base::window::Rect;

// The columns or rows from one number to another.
fn side(low: i32, high: i32) -> u16
    requires order { low ≤ℤ high }
    requires most { (high -ℤ low) ≤ℤ pos 65535 }
    ensures { high ≡ low +ℤ pos result }
{
    (high - low) as u16
}

impl Extent {
    /// That of a rectangle of the window.
    pub fn of(rect: Rect) -> Extent
        requires { IsDeviceRect rect }
        ensures rect { grid_rect result ≡ rect }
        ensures right { result.left + result.width ≤ 65535 }
        ensures top { result.bottom + result.height ≤ 65535 }
    {
        Extent {
            left: side(0, rect.x0),
            bottom: side(0, rect.y0),
            width: side(rect.x0, rect.x1),
            height: side(rect.y0, rect.y1),
        }
    }

    /// How many pixels it has.
    pub fn count(self) -> usize
        ensures { result ≡ self.width * self.height }
    {
        self.width as usize * self.height as usize
    }

    /// The rectangle of the window.
    pub fn rect(self) -> Rect
        ensures { result ≡ grid_rect self }
    {
        let left = i32::from(self.left);
        let bottom = i32::from(self.bottom);
        Rect {
            x0: left,
            y0: bottom,
            x1: left + i32::from(self.width),
            y1: bottom + i32::from(self.height),
        }
    }

    /// What is settled for all blocks that are drawn with a state.
    pub fn prepare(self, state: &State) -> Prepared
        ensures { IsPreparedFor state.now (grid_rect self) result }
    {
        let part = drawn_part(state, self.rect());
        Prepared {
            plan: plan_of(state),
            part,
            near: surrounds_of(part),
            identities: identities_of(state),
        }
    }
}
