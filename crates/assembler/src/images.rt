//! The image of one frame.
ghost use Rattle.std.specs.Prelude.{◌≡◌, ◌*◌, ◌<◌, length, IfOk};
ghost use Rattle.rc_base.specs.Drawing.Images.{rgb_bytes};
ghost use Rattle.assembler.specs.Parts.{ArePartsOf, IsRoomFor, black_image, shown};

use crate::rows::write_part;
use rc_base::cluster::TilePart;
use rc_base::command::Bytes;
use rc_base::image::Image;
use rc_base::out_of_memory::OutOfMemory;
use rc_base::window::Layout;
use std::alloc::Global;

/// A black image of the window.
pub fn blank_image(alloc: Global, layout: &Layout) -> Result<Image, OutOfMemory>
    ensures black { IfOk result (λ image. image ≡ black_image layout.now) }
    ensures sides { IfOk result (IsRoomFor layout.now) }
{
    let Layout { width, height, .. } = *layout;
    let mut rgb = Vec::new(alloc);
    rgb.resize(3 * usize::from(width) * usize::from(height), 0)?;
    Ok(Image {
        width,
        height,
        rgb: Bytes::from_vec(rgb),
    })
}

/// Writes the bytes of the image of parts over as many bytes.
pub fn write_parts(rgb: &mut [u8], layout: &Layout, parts: &[TilePart])
    requires parts { ArePartsOf layout.now parts.now }
    requires columns { 0 < layout.now.columns }
    requires rows { 0 < layout.now.rows }
    requires room { length rgb.old ≡ 3 * layout.now.width * layout.now.height }
    ensures { rgb.new ≡ rgb_bytes (shown layout.now parts.now) layout.now.width layout.now.height }
{
    for tile in 0..parts.len() {
        write_part(rgb, layout, tile, &parts[tile]);
    }
}
