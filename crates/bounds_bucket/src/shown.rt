//! Which triangles a state shows, by the sign of their area.
ghost use Rattle.std.specs.Prelude.{◌≡◌, ◌==◌, ◌&&◌, ◌||◌, not, if◌then◌else◌};
ghost use Rattle.rc_base.specs.Drawing.Kept.{is_shown};
ghost use Rattle.bounds_bucket.specs.Still.{AreShown};

use rc_base::state::State;

/// Of the triangles with an area above 0, and of those with one below it.
#[derive(Clone, Copy)]
pub(crate) struct Shown {
    pub above: bool,
    pub below: bool,
}

fn is_culled(state: &State, front: bool) -> bool
    ensures { result
        ≡ (state.now.cull_on && (state.now.cull_face == 2 || (if state.now.cull_face == 0 then front else not front))) }
{
    state.cull_on && (state.cull_face == 2 || (if state.cull_face == 0 { front } else { !front }))
}

/// Which triangles a state shows.
pub(crate) fn shown_by(state: &State) -> Shown
    ensures { AreShown state.now result }
{
    let front = state.front_face == 0;
    Shown {
        above: !is_culled(state, front),
        below: !is_culled(state, !front),
    }
}

/// Whether the state shows a triangle of that area.
pub(crate) fn is_shown(state: &State, shown: Shown, area: i64) -> bool
    requires { AreShown state.now shown }
    ensures { result ≡ is_shown state.now area }
{
    if area > 0 {
        shown.above
    } else {
        area < 0 && shown.below
    }
}
