//! One image from one part of each tile.
ghost use Rattle.std.specs.Prelude.{◌≡◌, ◌<◌, IfOk, ℤ};
ghost use Rattle.rc_base.specs.Drawing.Images.{rgb_bytes};
ghost use Rattle.rc_base.specs.declared.window.Pixel.{Pixel};
ghost use Rattle.assembler.specs.Parts.{AreParts, ShowPixels, shown};

use crate::images::{blank_image, write_parts};
use rc_base::cluster::TilePart;
use rc_base::image::Image;
use rc_base::out_of_memory::OutOfMemory;
use rc_base::window::Layout;
use std::alloc::Global;

/// The image of one frame, from the part of each tile in the order of the tiles. Each pixel is that of its tile's part: r, g, b of the stored
/// colour, rows from the top, where the rows of a part begin at the bottom.
pub fn assemble(alloc: Global, layout: &Layout, parts: &[TilePart]) -> Result<Image, OutOfMemory>
    requires columns { 0 < layout.now.columns }
    requires rows { 0 < layout.now.rows }
    requires parts { AreParts layout.now parts.now }
    ensures width { IfOk result (λ m. m.width ≡ layout.now.width) }
    ensures height { IfOk result (λ m. m.height ≡ layout.now.height) }
    ensures bytes { IfOk result (λ m. m.rgb ≡ rgb_bytes (shown layout.now parts.now) layout.now.width layout.now.height) }
    ensures pixels { (pixels : ℤ → ℤ → Pixel) → ShowPixels layout.now parts.now pixels → IfOk result (λ m. m.rgb ≡ rgb_bytes pixels layout.now.width layout.now.height) }
{
    let mut image = blank_image(alloc, layout)?;
    write_parts(image.rgb.as_mut_slice(), layout, parts);
    Ok(image)
}
