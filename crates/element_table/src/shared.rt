//! The declared sides of shared textures.
ghost use Rattle.std.specs.Prelude.{◌≡◌, slice_index};
ghost use Rattle.rc_base.specs.Contexts.Context.{shared_sides};
ghost use Rattle.rc_base.specs.Contexts.Faults.{lies_inside};
ghost use Rattle.element_table.specs.Values.{has_sides};

use rc_base::command::Part;
use rc_base::scene::Decl;

/// The sides of a shared texture by its name, width and height, and sides of 0 where there is none of that name.
pub fn sides_of(decl: &Decl, name: u8) -> [u16; 2]
    ensures width { slice_index result 0 ≡ slice_index (shared_sides decl.now.shared name) 0 }
    ensures height { slice_index result 1 ≡ slice_index (shared_sides decl.now.shared name) 1 }
{
    if name == 0 {
        return [0, 0];
    }
    decl.shared
        .as_slice()
        .get(usize::from(name) - 1)
        .copied()
        .unwrap_or([0, 0])
}

/// Whether there is a shared texture of this name with sides above 0.
pub fn has_sides(decl: &Decl, name: u8) -> bool
    ensures { result ≡ has_sides decl.now name }
{
    let sides = sides_of(decl, name);
    0 < sides[0] && 0 < sides[1]
}

/// Whether the part lies inside a texture of these sides, width and height.
pub fn lies_inside(part: &Part, sides: [u16; 2]) -> bool
    ensures { result ≡ lies_inside part.now (slice_index sides 0) (slice_index sides 1) }
{
    let Part { x, y, w, h, .. } = part;
    let right = u32::from(*x) + u32::from(*w);
    let upper = u32::from(*y) + u32::from(*h);
    right <= u32::from(sides[0]) && upper <= u32::from(sides[1])
}
