//! Giving a private texture its image.
ghost use Rattle.std.specs.Prelude.{◌≡◌, length};
ghost use Rattle.rc_base.specs.Contexts.Context.{private_count};
ghost use Rattle.tile_server.specs.Kepts.{HasImage, IsSomeValue};

use element_table::image_name;
use rc_base::state::ElementValue;
use textures::PrivateSet;

/// Gives a private texture the image, where the value is one. Its texels are moved, so it takes no memory.
pub(crate) fn set_image(images: &mut PrivateSet, element: u8, value: ElementValue)
    requires count { length images.old ≡ private_count }
    requires value { IsSomeValue element value }
    ensures count { length images.new ≡ private_count }
    ensures image { HasImage element value images.old images.new }
{
    match value {
        ElementValue::Image { w, h, texels, .. } => images.put(image_name(element), w, h, texels),
        _ => {}
    }
}
