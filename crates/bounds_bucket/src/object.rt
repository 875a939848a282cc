//! The box of a block of version 2: from the bounding box of its vertices' positions in object space, as Chromium takes it.
ghost use Rattle.std.specs.Prelude.{◌≤◌, ◌≤ℤ◌, pos};
ghost use Rattle.rc_base.specs.Numbers.{entry};
ghost use Rattle.rc_base.specs.Intervals.{IsOrdered, OfEach};
ghost use Rattle.rc_base.specs.Cluster.ObjectBox.{clip_over, is_in_reach};
ghost use Rattle.rc_base.specs.Drawing.Triangles.{cut_modes};
ghost use Rattle.rc_base.specs.declared.state.Effect.TheVariants as eff;
ghost use Rattle.bounds_bucket.specs.Boxes.{IsBoxIfAny};
ghost use Rattle.bounds_bucket.specs.Hulls.{intervals_of};
ghost use Rattle.bounds_bucket.specs.Ranges.{IsPartWhere};

use crate::boxes::{part_in, scissored, some_rect};
use crate::hull::{Hull, hull_of, intervals};
use crate::reach::{clip_over, reached};
use crate::short::{is_short, short_reached};
use crate::standing::standing_count;
use rc_base::state::{Block, State};
use rc_base::window::Rect;

// The pixels of a rectangle that are in reach of positions of that hull.
fn reached_by(rect: Rect, state: &State, hull: &Hull) -> Rect
    requires wide { pos 0 ≤ℤ entry state.now.viewport 2 }
    requires high { pos 0 ≤ℤ entry state.now.viewport 3 }
    requires ordered { OfEach IsOrdered (intervals_of hull.now) }
    ensures { IsPartWhere rect (is_in_reach state.now (clip_over state.now (intervals_of hull.now))) result }
{
    if is_short(state) {
        return short_reached(rect, state, hull);
    }
    reached(rect, state, &clip_over(state, &intervals(hull)))
}

/// The box of a block of version 2: one pass over the vertices that stand in a triangle, and one transform of their bounding box. A viewport of
/// a side below 0 has no pixel.
pub(crate) fn object_box(state: &State, block: &Block, window: Rect) -> Option<Rect>
    requires { cut_modes ≤ block.now.mode }
    ensures { IsBoxIfAny state.now (eff.Block block.now) window result }
{
    let vertices = block.vertices.as_slice();
    let count = standing_count(block.mode, vertices.len());
    if count == 0 {
        return None;
    }
    if state.viewport[2] < 0 {
        return None;
    }
    if state.viewport[3] < 0 {
        return None;
    }
    let hull = hull_of(&vertices[..count]);
    let near = reached_by(window, state, &hull);
    some_rect(scissored(state, part_in(near, state.viewport)))
}
