//! Giving a scalar element its value.
ghost use Rattle.std.specs.Prelude.{◌≡◌, slice_set};
ghost use Rattle.rc_base.specs.Contexts.Elements.{values_of};
ghost use Rattle.rc_base.specs.declared.state.ElementValue.TheVariants as val;
ghost use Rattle.element_table.specs.Kinds.{kind_of, kind_of_value};
ghost use Rattle.element_table.specs.declared.kind.ValueKind.TheVariants as kinds;

use rc_base::command::Mat4;
use rc_base::state::{ElementValue, State};

#[tactic(auto, unfolding(rc_base::specs::Contexts::Elements::values_of))]
fn set_matrix(state: &mut State, element: u8, m: Mat4)
    requires { kind_of element ≡ kinds.Matrix }
    ensures { values_of state.new ≡ slice_set (values_of state.old) element (val.Matrix m) }
{
    match element {
        0 => state.modelview = m,
        _ => state.projection = m,
    }
}

#[tactic(auto, unfolding(rc_base::specs::Contexts::Elements::values_of))]
fn set_area(state: &mut State, element: u8, area: [i32; 4])
    requires { kind_of element ≡ kinds.Area }
    ensures { values_of state.new ≡ slice_set (values_of state.old) element (val.Area area) }
{
    match element {
        2 => state.viewport = area,
        _ => state.scissor = area,
    }
}

#[tactic(auto, unfolding(rc_base::specs::Contexts::Elements::values_of))]
pub(crate) fn set_flag(state: &mut State, element: u8, flag: bool)
    requires { kind_of element ≡ kinds.Flag }
    ensures { values_of state.new ≡ slice_set (values_of state.old) element (val.Flag flag) }
{
    match element {
        4 => state.scissor_on = flag,
        6 => state.cull_on = flag,
        9 => state.alpha_on = flag,
        11 => state.depth_on = flag,
        13 => state.depth_mask = flag,
        14 => state.blend_on = flag,
        _ => state.texture_on = flag,
    }
}

#[tactic(auto, unfolding(rc_base::specs::Contexts::Elements::values_of))]
fn set_code(state: &mut State, element: u8, code: u8)
    requires { kind_of element ≡ kinds.Code }
    ensures { values_of state.new ≡ slice_set (values_of state.old) element (val.Code code) }
{
    match element {
        7 => state.cull_face = code,
        8 => state.front_face = code,
        _ => state.depth_func = code,
    }
}

#[tactic(auto, unfolding(rc_base::specs::Contexts::Elements::values_of))]
fn set_pair(state: &mut State, element: u8, pair: [u8; 2])
    requires { kind_of element ≡ kinds.Pair }
    ensures { values_of state.new ≡ slice_set (values_of state.old) element (val.Pair pair) }
{
    match element {
        10 => state.alpha = pair,
        15 => state.blend = pair,
        _ => state.binding = pair,
    }
}

/// Gives a scalar element a value of its kind. The value of an image changes none.
#[tactic(auto, using(crate::proofs::Rows::image_rows), unfolding(rc_base::specs::Contexts::Elements::values_of))]
pub fn set(state: &mut State, element: u8, value: &ElementValue)
    requires { kind_of_value value.now ≡ kind_of element }
    ensures { values_of state.new ≡ slice_set (values_of state.old) element value.now }
{
    match value {
        ElementValue::Matrix(m) => set_matrix(state, element, *m),
        ElementValue::Area(area) => set_area(state, element, *area),
        ElementValue::Range(range) => state.depth_range = *range,
        ElementValue::Flag(flag) => set_flag(state, element, *flag),
        ElementValue::Code(code) => set_code(state, element, *code),
        ElementValue::Pair(pair) => set_pair(state, element, *pair),
        ElementValue::Mask(mask) => state.color_mask = *mask,
        ElementValue::Color(color) => state.clear_color = *color,
        ElementValue::Depth(depth) => state.clear_depth = *depth,
        ElementValue::Mode(mode) => state.tex_mode = *mode,
        ElementValue::Image { .. } => {}
    }
}
