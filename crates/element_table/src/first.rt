//! The scalar elements before the first command.
ghost use Rattle.std.specs.Prelude.{◌≡◌};
ghost use Rattle.rc_base.specs.Contexts.Context.{default_state};

use rc_base::command::{Mat4, Rgba};
use rc_base::scene::Decl;
use rc_base::state::State;

/// The matrix that changes nothing: one on the diagonal, in 16.16 fixed point.
pub const IDENTITY: Mat4 = Mat4 {
    m: [
        65_536, 0, 0, 0, 0, 65_536, 0, 0, 0, 0, 65_536, 0, 0, 0, 0, 65_536,
    ],
};

/// The values that OpenGL gives the elements at first: the viewport and the scissor box are the whole window.
#[tactic(auto, unfolding(rc_base::specs::Contexts::Context::default_state))]
pub fn default_state(decl: &Decl) -> State
    ensures { result ≡ default_state decl.now }
{
    let window = [0, 0, i32::from(decl.width), i32::from(decl.height)];
    State {
        modelview: IDENTITY,
        projection: IDENTITY,
        viewport: window,
        depth_range: [0, 65_536],
        scissor_on: false,
        scissor: window,
        cull_on: false,
        cull_face: 1,
        front_face: 0,
        alpha_on: false,
        alpha: [7, 0],
        depth_on: false,
        depth_func: 1,
        depth_mask: true,
        blend_on: false,
        blend: [1, 0],
        color_mask: [true, true, true, true],
        clear_color: Rgba {
            r: 0,
            g: 0,
            b: 0,
            a: 0,
        },
        clear_depth: 65_536,
        texture_on: false,
        binding: [0, 1],
        tex_mode: [0, 0, 0],
    }
}
