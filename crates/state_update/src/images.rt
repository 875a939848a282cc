//! The private texture that a draw samples, and its image as a value.
ghost use Rattle.std.specs.Prelude.{◌≡◌, ◌<◌, ◌≤◌, IfOk, IfSome};
ghost use Rattle.rc_base.specs.Contexts.Context.{private_count};
ghost use Rattle.rc_base.specs.Contexts.Elements.{no_image};
ghost use Rattle.state_update.specs.Knowledge.{HasBoundTexture, image_examined, image_of};

use gl_context::Context;
use rc_base::command::Texels;
use rc_base::out_of_memory::OutOfMemory;
use rc_base::state::ElementValue;
use std::alloc::Global;

/// The name of the private texture whose image the parcel examines: that of a draw which samples one.
pub fn image_examined(context: &Context, draws: bool) -> Option<u8>
    requires { HasBoundTexture context.now }
    ensures name { result ≡ image_examined context.now draws }
    ensures low { IfSome result (λ name. 0 < name) }
    ensures high { IfSome result (λ name. name ≤ private_count) }
{
    let state = context.state();
    let [kind, name] = state.binding;
    if draws && state.texture_on && kind == 0 && context.private().get(name).has_image() {
        Some(name)
    } else {
        None
    }
}

/// A copy of the image of a private texture with its edit number; no texels where it has no image.
pub fn image_of(alloc: Global, context: &Context, name: u8) -> Result<ElementValue, OutOfMemory>
    requires low { 0 < name }
    requires high { name ≤ private_count }
    ensures { IfOk result (λ v. v ≡ image_of context.now name) }
{
    let texture = context.private().get(name);
    let Some(sides) = texture.sides() else {
        return Ok(no_image(alloc));
    };
    let texels = Texels::from_slice(alloc, texture.texels().unwrap_or(&[]))?;
    let edit = context.edit(name);
    Ok(ElementValue::Image {
        edit,
        w: sides[0],
        h: sides[1],
        texels,
    })
}

fn no_image(alloc: Global) -> ElementValue
    ensures { result ≡ no_image }
{
    ElementValue::Image {
        edit: 0,
        w: 0,
        h: 0,
        texels: Texels::new(alloc),
    }
}
