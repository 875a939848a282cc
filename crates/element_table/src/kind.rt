//! What kind of value each element has.
ghost use Rattle.std.specs.Prelude.{◌≡◌};
ghost use Rattle.element_table.specs.Kinds.{has_kind, kind_of, kind_of_value};

use rc_base::state::ElementValue;

/// What the value of an element is: one for each variant of `ElementValue`.
#[derive(Clone, Copy, Debug, PartialEq, Eq)]
pub enum ValueKind {
    Matrix,
    Area,
    Range,
    Flag,
    Code,
    Pair,
    Mask,
    Color,
    Depth,
    Mode,
    Image,
}

/// How many scalar elements there are; from this number on the elements are images.
pub const SCALAR_COUNT: u8 = 22;

/// How many elements there are: an image for each of the 64 private textures behind the scalar ones.
pub const ELEMENT_COUNT: u8 = SCALAR_COUNT + 64;

/// The kind of an element's value: beyond the scalar elements, an image.
#[tactic(auto, unfolding(crate::specs::Kinds::kind_of))]
pub fn kind_of(element: u8) -> ValueKind
    ensures { result ≡ kind_of element }
{
    match element {
        0 | 1 => ValueKind::Matrix,
        2 | 5 => ValueKind::Area,
        3 => ValueKind::Range,
        4 | 6 | 9 | 11 | 13 | 14 | 19 => ValueKind::Flag,
        7 | 8 | 12 => ValueKind::Code,
        10 | 15 | 20 => ValueKind::Pair,
        16 => ValueKind::Mask,
        17 => ValueKind::Color,
        18 => ValueKind::Depth,
        21 => ValueKind::Mode,
        _ => ValueKind::Image,
    }
}

/// The kind of a value.
pub fn kind_of_value(value: &ElementValue) -> ValueKind
    ensures { result ≡ kind_of_value value.now }
{
    match value {
        ElementValue::Matrix(_) => ValueKind::Matrix,
        ElementValue::Area(_) => ValueKind::Area,
        ElementValue::Range(_) => ValueKind::Range,
        ElementValue::Flag(_) => ValueKind::Flag,
        ElementValue::Code(_) => ValueKind::Code,
        ElementValue::Pair(_) => ValueKind::Pair,
        ElementValue::Mask(_) => ValueKind::Mask,
        ElementValue::Color(_) => ValueKind::Color,
        ElementValue::Depth(_) => ValueKind::Depth,
        ElementValue::Mode(_) => ValueKind::Mode,
        ElementValue::Image { .. } => ValueKind::Image,
    }
}

/// Whether a value is of a kind.
pub fn has_kind(value: &ElementValue, kind: ValueKind) -> bool
    ensures { result ≡ has_kind value.now kind }
{
    match (value, kind) {
        (ElementValue::Matrix(_), ValueKind::Matrix) => true,
        (ElementValue::Area(_), ValueKind::Area) => true,
        (ElementValue::Range(_), ValueKind::Range) => true,
        (ElementValue::Flag(_), ValueKind::Flag) => true,
        (ElementValue::Code(_), ValueKind::Code) => true,
        (ElementValue::Pair(_), ValueKind::Pair) => true,
        (ElementValue::Mask(_), ValueKind::Mask) => true,
        (ElementValue::Color(_), ValueKind::Color) => true,
        (ElementValue::Depth(_), ValueKind::Depth) => true,
        (ElementValue::Mode(_), ValueKind::Mode) => true,
        (ElementValue::Image { .. }, ValueKind::Image) => true,
        _ => false,
    }
}
