//! Whether two states hold the same value of an element.
ghost use Rattle.std.specs.Prelude.{◌≡◌, ◌<◌, slice_index_or};
ghost use Rattle.rc_base.specs.Contexts.Elements.{scalar_count, values_of, same_value, same_color, no_image};

use rc_base::command::Rgba;
use rc_base::state::State;

fn is_same_color(a: Rgba, b: Rgba) -> bool
    ensures { result ≡ same_color a b }
{
    (a.r == b.r && a.g == b.g) && (a.b == b.b && a.a == b.a)
}

/// Whether two states hold the same value of a scalar element, by its number from 0 to 21.
#[tactic(auto, unfolding(rc_base::specs::Contexts::Elements::values_of, rc_base::specs::Contexts::Elements::same_value))]
pub fn is_same(a: &State, b: &State, element: u8) -> bool
    requires { element < scalar_count }
    ensures { result ≡ same_value (slice_index_or (values_of a.now) element no_image) (slice_index_or (values_of b.now) element no_image) }
{
    match element {
        0 => a.modelview.m == b.modelview.m,
        1 => a.projection.m == b.projection.m,
        2 => a.viewport == b.viewport,
        3 => a.depth_range == b.depth_range,
        4 => a.scissor_on == b.scissor_on,
        5 => a.scissor == b.scissor,
        6 => a.cull_on == b.cull_on,
        7 => a.cull_face == b.cull_face,
        8 => a.front_face == b.front_face,
        9 => a.alpha_on == b.alpha_on,
        10 => a.alpha == b.alpha,
        11 => a.depth_on == b.depth_on,
        12 => a.depth_func == b.depth_func,
        13 => a.depth_mask == b.depth_mask,
        14 => a.blend_on == b.blend_on,
        15 => a.blend == b.blend,
        16 => a.color_mask == b.color_mask,
        17 => is_same_color(a.clear_color, b.clear_color),
        18 => a.clear_depth == b.clear_depth,
        19 => a.texture_on == b.texture_on,
        20 => a.binding == b.binding,
        _ => a.tex_mode == b.tex_mode,
    }
}
