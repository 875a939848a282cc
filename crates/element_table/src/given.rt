//! Which values a scene can give to an element.
ghost use Rattle.std.specs.Prelude.{◌≡◌, ◌==◌, ◌&&◌, ◌*◌, length, slice_index};
ghost use Rattle.rc_base.specs.Formats.Commands.{has_codes};
ghost use Rattle.rc_base.specs.Numbers.{entry};
ghost use Rattle.rc_base.specs.declared.command.Command.TheVariants as cmd;
ghost use Rattle.element_table.specs.Values.{is_binding, is_code_of, is_depth, is_image, is_legal, is_pair_of, is_value_of};

use crate::argument::{are_codes, is_code, is_name};
use crate::kind::{ELEMENT_COUNT, has_kind, kind_of};
use crate::shared::has_sides;
use rc_base::command::Texels;
use rc_base::scene::Decl;
use rc_base::state::{BLEND_FACTORS, ElementValue};

fn is_depth(z: i32) -> bool
    ensures { result ≡ is_depth z }
{
    0 <= z && z <= 65_536
}

fn are_depths(range: &[i32; 2]) -> bool
    ensures { result ≡ (is_depth (entry range.now 0) && is_depth (entry range.now 1)) }
{
    is_depth(range[0]) && is_depth(range[1])
}

fn is_code_of(element: u8, code: u8) -> bool
    ensures { result ≡ is_code_of element code }
{
    match element {
        7 => is_code(code, 3),
        8 => is_code(code, 2),
        _ => is_code(code, 8),
    }
}

fn is_binding(decl: &Decl, kind: u8, name: u8) -> bool
    ensures { result ≡ is_binding decl.now kind name }
{
    if !is_code(kind, 2) {
        return false;
    }
    if kind == 0 {
        return is_name(name.into(), 64);
    }
    is_name(name.into(), decl.shared.len() as u64) && has_sides(decl, name)
}

fn is_pair_of(decl: &Decl, element: u8, pair: &[u8; 2]) -> bool
    ensures { result ≡ is_pair_of decl.now element (slice_index pair.now 0) (slice_index pair.now 1) }
{
    match element {
        10 => is_code(pair[0], 8),
        15 => are_codes(pair[0], pair[1], BLEND_FACTORS),
        _ => is_binding(decl, pair[0], pair[1]),
    }
}

fn is_mode(mode: &[u8; 3]) -> bool
    ensures { result ≡ (has_codes (cmd.TexEnv (slice_index mode.now 0))
        && has_codes (cmd.TexWrap (slice_index mode.now 1) (slice_index mode.now 2))) }
{
    is_code(mode[0], 2) && are_codes(mode[1], mode[2], 2)
}

/// Whether there are four bytes for each texel of these sides.
pub fn is_whole(w: u16, h: u16, texels: &Texels) -> bool
    ensures { result ≡ (length texels.now == 4 * (w * h)) }
{
    texels.len() == 4 * (usize::from(w) * usize::from(h))
}

fn is_image(edit: u32, w: u16, h: u16, texels: &Texels) -> bool
    ensures { result ≡ is_image edit w h texels.now }
{
    (0 < edit && is_whole(w, h, texels)) && (is_name(w.into(), 256) && is_name(h.into(), 256))
}

// Whether the value is legal, where it is of the element's kind.
fn is_legal(decl: &Decl, element: u8, value: &ElementValue) -> bool
    ensures { result ≡ is_legal decl.now element value.now }
{
    match value {
        ElementValue::Range(range) => are_depths(range),
        ElementValue::Code(code) => is_code_of(element, *code),
        ElementValue::Pair(pair) => is_pair_of(decl, element, pair),
        ElementValue::Depth(depth) => is_depth(*depth),
        ElementValue::Mode(mode) => is_mode(mode),
        ElementValue::Image { edit, w, h, texels } => {
            element < ELEMENT_COUNT && is_image(*edit, *w, *h, texels)
        }
        ElementValue::Matrix(_)
        | ElementValue::Area(_)
        | ElementValue::Flag(_)
        | ElementValue::Mask(_)
        | ElementValue::Color(_) => true,
    }
}

/// Whether the value is one that a scene with this declaration can give to the element of this number: it is of the element's kind, its codes
/// are legal, its depths lie in their range, and its texture is there.
pub fn is_value_of(decl: &Decl, element: u8, value: &ElementValue) -> bool
    ensures { result ≡ is_value_of decl.now element value.now }
{
    has_kind(value, kind_of(element)) && is_legal(decl, element, value)
}
