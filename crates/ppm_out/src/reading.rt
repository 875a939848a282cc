//! The image at the front of some bytes.
ghost use Rattle.std.specs.Prelude.{◌≡◌, ◌++◌, ◌≤◌, ◌⊎◌, List, ℕ, length, take, IfOk, IfErr};
ghost use Rattle.rc_base.specs.Formats.Netpbm.{SpellsImage};
ghost use Rattle.rc_base.specs.declared.image.Image.{Image as AnyImage};
ghost use Rattle.ppm_out.specs.Faults.{TellsWhy};
ghost use Rattle.ppm_out.specs.declared.reading.PpmFault.TheVariants.{OutOfMemory as NoMemory};

use crate::header::{Header, read_header};
use rc_base::command::Bytes;
use rc_base::image::Image;
use std::alloc::{AllocError, Global};
use thiserror::Error;

/// Why no image was read.
#[derive(Clone, Copy, Debug, PartialEq, Eq, Error)]
pub enum PpmFault {
    /// No front of the bytes is an image. The longest front that begins one has this length.
    #[error("no image: the longest front of one has {at} bytes")]
    NotPpm { at: usize },
    /// There was no memory for the image.
    #[error("out of memory")]
    OutOfMemory,
}

impl From<AllocError> for PpmFault {
    ghost from_gives = { λ _ e. e ≡ NoMemory };

    fn from(_: AllocError) -> PpmFault {
        PpmFault::OutOfMemory
    }
}

/// The image at the front of the bytes, and how many bytes it takes: `P6`, whitespace, width, whitespace, height, whitespace, `255`, one byte of
/// whitespace, and r, g and b of each pixel, rows from the top. Numbers have no leading zero, sides are from 1 to 2048, and no comment stands in
/// a header.
pub fn read_ppm(alloc: Global, bytes: &[u8]) -> Result<(Image, usize), PpmFault>
    // What is read stands at the front.
    ensures read { IfOk result (λ read. (read.1 ≤ length bytes.now) × SpellsImage (take read.1 bytes.now) read.0) }
    // An image at the front is read, unless memory runs out.
    ensures only { (front rest : List ℕ) (image : AnyImage) → bytes.now ≡ front ++ rest → SpellsImage front image → (result ≡ Ok (image, length front)) ⊎ (result ≡ Err PpmFault.OutOfMemory) }
    // Where none stands there, the place is told. Memory is asked for only where one does.
    ensures why { IfErr result (TellsWhy bytes.now) }
{
    let Header { width, height, len } = match read_header(bytes) {
        Ok(header) => header,
        Err(at) => return Err(PpmFault::NotPpm { at }),
    };
    let size = 3 * (width as usize * height as usize);
    let rest = &bytes[len..];
    if rest.len() < size {
        return Err(PpmFault::NotPpm { at: bytes.len() });
    }
    let rgb = Bytes::from_slice(alloc, &rest[..size])?;
    let image = Image { width, height, rgb };
    Ok((image, len + size))
}
