//! Which parcels a scene can give.
ghost use Rattle.std.specs.Prelude.{◌≡◌};
ghost use Rattle.std.specs.List.{list_all};
ghost use Rattle.element_table.specs.Values.{is_value_of};
ghost use Rattle.tile_model.specs.Givable.{is_givable, is_givable_act, is_shared_part};

use element_table::{is_name, is_value_of, is_whole, lies_inside, sides_of};
use rc_base::command::Part;
use rc_base::scene::Decl;
use rc_base::state::{Act, ElementSet, Parcel};

fn is_shared_part(decl: &Decl, part: &Part) -> bool
    ensures { result ≡ is_shared_part decl.now part.now }
{
    (is_name(part.name.into(), decl.shared.len() as u64) && is_whole(part.w, part.h, &part.texels))
        && lies_inside(part, sides_of(decl, part.name))
}

fn is_givable_act(decl: &Decl, act: &Act) -> bool
    ensures { result ≡ is_givable_act decl.now act.now }
{
    match act {
        Act::Shared(part) => is_shared_part(decl, part),
        Act::Draw(_) | Act::Clear(_) | Act::Sync(_) | Act::End => true,
    }
}

// Whether each set is of an element to a value that it can have.
fn are_values(decl: &Decl, sets: &[ElementSet]) -> bool
    ensures { result ≡ list_all (λ set. is_value_of decl.now set.element set.value) sets.now }
{
    for set in sets {
        if !is_value_of(decl, set.element, &set.value) {
            return false;
        }
    }
    true
}

/// Whether a scene with this declaration can give the parcel.
pub(crate) fn is_givable(decl: &Decl, parcel: &Parcel) -> bool
    ensures { result ≡ is_givable decl.now parcel.now }
{
    are_values(decl, parcel.sets.as_slice()) && is_givable_act(decl, &parcel.act)
}
