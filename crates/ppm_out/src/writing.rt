//! The text of an image.
ghost use Rattle.std.specs.Prelude.{◌≡◌, ◌++◌, IfOk};
ghost use Rattle.rc_base.specs.Formats.Commands.{AreBytes};
ghost use Rattle.rc_base.specs.Formats.Netpbm.{p6_text, SpellsImage};
ghost use Rattle.ppm_out.specs.Pictures.{p6_header, IsWholeImage};

use rc_base::command::Bytes;
use rc_base::image::Image;
use rc_base::out_of_memory::OutOfMemory;
use std::alloc::{AllocError, Global};

// A header, and the pixels behind it.
fn joined(alloc: Global, header: &[u8], rgb: &[u8]) -> Result<Vec<u8>, AllocError>
    ensures text { IfOk result (λ text. text.items ≡ header.now ++ rgb.now) }
    ensures channels { AreBytes rgb.now }
{
    let mut text = Vec::with_capacity(alloc, header.len().saturating_add(rgb.len()))?;
    text.extend_from_slice(header)?;
    text.extend_from_slice(rgb)?;
    Ok(text)
}

/// The header of an image with these sides, which its pixels stand behind: `P6`, LF, width, space, height, LF, `255`, LF.
pub fn image_header(alloc: Global, width: u16, height: u16) -> Result<Bytes, OutOfMemory>
    ensures { IfOk result (λ header. header ≡ p6_header width height) }
{
    let header = format!(in alloc; "P6\n{width} {height}\n255\n")?;
    Ok(Bytes::from_vec(header.into_bytes()))
}

/// The text of an image: its header, and then r, g and b of each pixel, rows from the top.
pub fn image_text(alloc: Global, image: &Image) -> Result<Bytes, OutOfMemory>
    requires { IsWholeImage image.now }
    ensures text { IfOk result (λ text. text ≡ p6_text image.now) }
    // What is written is an image again.
    ensures spelled { IfOk result (λ text. SpellsImage text image.now) }
{
    let header = image_header(alloc, image.width, image.height)?;
    let text = joined(alloc, header.as_slice(), image.rgb.as_slice())?;
    Ok(Bytes::from_vec(text))
}
