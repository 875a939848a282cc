//! The value of a scalar element.
ghost use Rattle.std.specs.Prelude.{◌≡◌, ◌<◌, slice_index_or};
ghost use Rattle.rc_base.specs.Contexts.Elements.{scalar_count, values_of, no_image};

use rc_base::state::{ElementValue, State};

/// The value of a scalar element, by its number from 0 to 21.
#[tactic(auto, unfolding(rc_base::specs::Contexts::Elements::values_of))]
pub fn value_of(state: &State, element: u8) -> ElementValue
    requires { element < scalar_count }
    ensures { result ≡ slice_index_or (values_of state.now) element no_image }
{
    match element {
        0 => ElementValue::Matrix(state.modelview),
        1 => ElementValue::Matrix(state.projection),
        2 => ElementValue::Area(state.viewport),
        3 => ElementValue::Range(state.depth_range),
        4 => ElementValue::Flag(state.scissor_on),
        5 => ElementValue::Area(state.scissor),
        6 => ElementValue::Flag(state.cull_on),
        7 => ElementValue::Code(state.cull_face),
        8 => ElementValue::Code(state.front_face),
        9 => ElementValue::Flag(state.alpha_on),
        10 => ElementValue::Pair(state.alpha),
        11 => ElementValue::Flag(state.depth_on),
        12 => ElementValue::Code(state.depth_func),
        13 => ElementValue::Flag(state.depth_mask),
        14 => ElementValue::Flag(state.blend_on),
        15 => ElementValue::Pair(state.blend),
        16 => ElementValue::Mask(state.color_mask),
        17 => ElementValue::Color(state.clear_color),
        18 => ElementValue::Depth(state.clear_depth),
        19 => ElementValue::Flag(state.texture_on),
        20 => ElementValue::Pair(state.binding),
        _ => ElementValue::Mode(state.tex_mode),
    }
}
