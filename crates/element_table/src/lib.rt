//! The elements of a context by their numbers: the one place where code says what an element is.
//!
//! Scalar elements 0 to 21 are fields of a `State`, elements 22 to 85 are the images of the private textures 1 to 64. The table itself is a
//! definition, `rc_base::specs::Contexts::Elements`; what kind of value each element has is `specs/Kinds`, and which values a scene can give it
//! `specs/Values`. No call takes memory. This crate stands on rc_base.
#![tactic(auto)]

mod argument;
mod capability;
mod equal;
mod first;
mod given;
mod group;
mod kind;
mod setting;
mod shared;
mod value;

pub use argument::{are_codes, is_code, is_name};
pub use capability::{
    capability_element, image_element, image_name, is_capability, matrix_element, set_capability,
};
pub use equal::is_same;
pub use first::{IDENTITY, default_state};
pub use given::{is_value_of, is_whole};
pub use group::{group_of, group_start};
pub use kind::{ELEMENT_COUNT, SCALAR_COUNT, ValueKind, has_kind, kind_of, kind_of_value};
pub use setting::set;
pub use shared::{has_sides, lies_inside, sides_of};
pub use value::value_of;
