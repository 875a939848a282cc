//! Triangles that cover pixels of a small part alone: each of its pixels is tried.
ghost use Rattle.std.specs.Prelude.{◌≡◌, ◌+◌, ◌<◌, ◌≤◌};
ghost use Rattle.raster.specs.Weighed.{HoldsSome};
ghost use Rattle.draw_device.specs.Shapes.{grid_span, span_step};
ghost use Rattle.draw_device.specs.Grids.{IsDrawnInPlace};
ghost use Rattle.draw_device.specs.Setups.{IsShadingOf, triangle_of, tried_by};

use crate::block_setup::BlockSetup;
use crate::drawing::offset;
use crate::grid::{Extent, Grid};
use crate::paint::Paint;
use crate::prepare::shading_of;
use crate::setup::Setup;
use crate::shade::try_run;
use crate::shading::Shading;
use rc_base::triangle::WindowTriangle;
use rc_base::window::{Rect, row_start};

// The window's row that lies `up` rows above the grid's first.
#[inline(always)]
fn row_in(extent: Extent, up: u16) -> u16
    requires { extent.bottom + up ≤ 65535 }
    ensures { result ≡ extent.bottom + up }
{
    extent.bottom + up
}

impl Grid {
    // Tries the pixels of columns `from` to below `to` of a row.
    #[inline(always)]
    fn try_row(
        &mut self,
        setup: &Setup<'_>,
        shading: Shading,
        corners: &WindowTriangle,
        up: u16,
        from: u16,
        to: u16,
    )
        requires grid { setup.now.extent ≡ self.old.extent }
        requires shading { IsShadingOf setup.now shading }
        requires corners { corners.now.v ≡ setup.now.tri.now.v }
        requires low { up < self.old.extent.height }
        requires order { from ≤ to }
        requires wide { to ≤ self.old.extent.width }
        ensures { IsDrawnInPlace (span_step (tried_by setup.now)
            (grid_span self.old.extent up from to)) self.old self.new }
    {
        let start = row_start(self.extent.width, up);
        let end = start + self.extent.width as usize;
        let row = row_in(self.extent, up);
        try_run(
            &mut self.colors.as_mut_slice()[start..end],
            &mut self.depths.as_mut_slice()[start..end],
            setup,
            shading,
            corners,
            row,
            from,
            to,
        );
    }

    /// Draws a triangle that covers pixels of a small part alone: each of them is tried.
    #[inline(never)]
    pub(crate) fn draw_few<'s>(
        &mut self,
        block: &BlockSetup<'s>,
        tri: &'s WindowTriangle,
        part: Rect,
    )
        requires grid { block.now.extent ≡ self.old.extent }
        requires part { HoldsSome tri.now.v block.now.part part }
        ensures { IsDrawnInPlace (triangle_of block.now tri.now) self.old self.new }
    {
        let shading = shading_of(block.state, block.texture, block.plan, tri);
        let setup = Setup {
            state: block.state,
            texture: block.texture,
            plan: block.plan,
            tri,
            extent: self.extent,
            paint: Paint::Pixels(shading),
        };
        // A copy that nothing else sees, so that the edges' differences stay in registers.
        let corners = *tri;
        let low = part.y0.max(block.part.y0);
        let from = offset(part.x0, self.extent.left);
        let to = offset(part.x1, self.extent.left);
        let first = offset(low, self.extent.bottom);
        let last = offset(part.y1, self.extent.bottom);
        for up in first..last {
            self.try_row(&setup, shading, &corners, up, from, to);
        }
    }
}
