//! Which of a state's matrices move no vector, and whether its viewport and depth range are usual ones.
ghost use Rattle.std.specs.Prelude.{◌≡◌, ◌↔◌, ◌^◌, ◌<◌, pos, IsTrue, true};
ghost use Rattle.std.specs.Ordering.{int_eq};
ghost use Rattle.std.specs.Cmp.Lexicographic.{pointwise};
ghost use Rattle.rc_base.specs.Numbers.{Within, entry};
ghost use Rattle.rc_base.specs.Contexts.Context.{identity};
ghost use Rattle.geometry.specs.Placed.{FixesVectors, AreIdentities};

use rc_base::command::Mat4;
use rc_base::state::State;

const IDENTITY: Mat4 = Mat4 {
    m: [
        65_536, 0, 0, 0, 0, 65_536, 0, 0, 0, 0, 65_536, 0, 0, 0, 0, 65_536,
    ],
};

// One in 16.16 fixed point.
const ONE: i32 = 65_536;

/// Which of a state's matrices are known to be the identity, so that nothing has to be multiplied; and whether its viewport and depth range are
/// known to be usual ones, so that numbers of 64 bits do.
#[derive(Clone, Copy)]
pub struct Identities {
    pub modelview: bool,
    pub projection: bool,
    pub usual: bool,
}

#[inline(always)]
fn is_same(a: &[i32; 16], b: &[i32; 16], i: usize) -> bool
    requires { i < 16 }
    ensures { result ≡ int_eq (entry a.now i) (entry b.now i) }
{
    a[i] == b[i]
}

// Whether all numbers are the same. The loop has no way out, so that it becomes a few steps over all of them.
fn are_same(a: &[i32; 16], b: &[i32; 16]) -> bool
    ensures { result ≡ pointwise int_eq a.now b.now }
{
    let mut same = true;
    for i in 0..16usize {
        same = same & is_same(a, b, i);
    }
    same
}

/// Whether a matrix is the identity, which moves no vector.
pub fn is_identity(m: &Mat4) -> bool
    ensures identity { IsTrue result ↔ m.now.m ≡ identity.m }
    ensures fixes { result ≡ true → FixesVectors m.now.m }
{
    are_same(&m.m, &IDENTITY.m)
}

fn is_side(side: i32) -> bool
    ensures { result ≡ true → Within (2 ^ 16) side }
{
    0 <= side && side <= 65_536
}

// The viewport's sides have 16 bits, and the depth range is from 0 to one.
fn is_usual(state: &State) -> bool
    ensures width { result ≡ true → Within (2 ^ 16) (entry state.now.viewport 2) }
    ensures height { result ≡ true → Within (2 ^ 16) (entry state.now.viewport 3) }
    ensures near { result ≡ true → entry state.now.depth_range 0 ≡ pos 0 }
    ensures far { result ≡ true → entry state.now.depth_range 1 ≡ pos 65536 }
{
    if !is_side(state.viewport[2]) {
        return false;
    }
    if !is_side(state.viewport[3]) {
        return false;
    }
    state.depth_range[0] == 0 && state.depth_range[1] == ONE
}

/// What is known of a state's matrices, viewport and depth range.
pub fn identities_of(state: &State) -> Identities
    ensures { AreIdentities state.now result }
{
    Identities {
        modelview: is_identity(&state.modelview),
        projection: is_identity(&state.projection),
        usual: is_usual(state),
    }
}
