//! Which parcels can be packed.
ghost use Rattle.std.specs.Prelude.{IsTrue, IsFalse};
ghost use Rattle.std.specs.List.{AllByRecursion};
ghost use Rattle.parcel_bytes.specs.Spelling.{IsPackable, IsWholeAct, IsWholeSet, IsWholeValue};

use element_table::{ELEMENT_COUNT, is_whole, kind_of, kind_of_value};
use rc_base::state::{Act, ElementSet, ElementValue, Parcel};

fn is_whole_value(value: &ElementValue) -> bool
    ensures yes { IsTrue result → IsWholeValue value.now }
    ensures no { IsFalse result → IsWholeValue value.now → ⊥ }
{
    match value {
        ElementValue::Image { w, h, texels, .. } => is_whole(*w, *h, texels),
        ElementValue::Matrix(_)
        | ElementValue::Area(_)
        | ElementValue::Range(_)
        | ElementValue::Flag(_)
        | ElementValue::Code(_)
        | ElementValue::Pair(_)
        | ElementValue::Mask(_)
        | ElementValue::Color(_)
        | ElementValue::Depth(_)
        | ElementValue::Mode(_) => true,
    }
}

fn is_whole_set(set: &ElementSet) -> bool
    ensures yes { IsTrue result → IsWholeSet set.now }
    ensures no { IsFalse result → IsWholeSet set.now → ⊥ }
{
    set.element < ELEMENT_COUNT
        && kind_of_value(&set.value) == kind_of(set.element)
        && is_whole_value(&set.value)
}

fn are_whole(sets: &[ElementSet]) -> bool
    ensures yes { IsTrue result → AllByRecursion IsWholeSet sets.now }
    ensures no { IsFalse result → AllByRecursion IsWholeSet sets.now → ⊥ }
{
    for set in sets {
        if !is_whole_set(set) {
            return false;
        }
    }
    true
}

fn is_whole_act(act: &Act) -> bool
    ensures yes { IsTrue result → IsWholeAct act.now }
    ensures no { IsFalse result → IsWholeAct act.now → ⊥ }
{
    match act {
        Act::Draw(block) => block.vertices.len() <= 65_535,
        Act::Shared(part) => is_whole(part.w, part.h, &part.texels),
        Act::Clear(_) | Act::Sync(_) | Act::End => true,
    }
}

/// Whether the parcel can be packed: it has at most 255 sets, each with a value of its element's kind, at most 65,535 vertices, and four bytes for
/// each texel. Takes no memory.
pub fn is_packable(parcel: &Parcel) -> bool
    ensures yes { IsTrue result → IsPackable parcel.now }
    ensures no { IsFalse result → IsPackable parcel.now → ⊥ }
{
    parcel.sets.len() <= 255 && are_whole(parcel.sets.as_slice()) && is_whole_act(&parcel.act)
}
