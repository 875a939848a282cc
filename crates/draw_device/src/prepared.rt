//! What is settled once for all blocks that are drawn with a state.
ghost use Rattle.geometry.specs.Placed.{AreIdentities};
ghost use Rattle.geometry.specs.Rejected.{AreClipBoundsIfAny};

use crate::plan::Plan;
use geometry::{ClipBounds, Identities, ListedBlock, Surrounds, clip_bounds};
use rc_base::state::State;
use rc_base::window::Rect;

// Of fewer triangles than these it costs more to look for those that lie beside than to bring them all.
const LEAST_TRIANGLES: usize = 16;

/// What is settled for all blocks that are drawn with a state in a device's rectangle: `Device::prepare` makes it.
#[derive(Clone, Copy)]
pub struct Prepared {
    pub(crate) plan: Plan,
    pub(crate) part: Rect,
    pub(crate) near: Surrounds,
    pub(crate) identities: Identities,
}

// Whether the viewport reaches beyond the part. Where it doesn't, hardly any triangle lies beside.
fn reaches_beyond(viewport: &[i32; 4], part: Rect) -> bool {
    let right = i64::from(viewport[0]) + i64::from(viewport[2]);
    let top = i64::from(viewport[1]) + i64::from(viewport[3]);
    viewport[0] < part.x0
        || viewport[1] < part.y0
        || i64::from(part.x1) < right
        || i64::from(part.y1) < top
}

impl Prepared {
    /// What bounds the pixels of the rectangle by clip coordinates, for a block of so many triangles that it is worth to know.
    pub(crate) fn bounds_for(&self, state: &State, block: &ListedBlock<'_>) -> Option<ClipBounds>
        requires { AreIdentities state.now self.now.identities }
        ensures { AreClipBoundsIfAny state.now self.now.near result }
    {
        if block.triangle_count() < LEAST_TRIANGLES {
            return None;
        }
        if !reaches_beyond(&state.viewport, self.part) {
            return None;
        }
        clip_bounds(state, self.identities, &self.near)
    }
}
