//! A writer of frames whose parts still come.
ghost use Rattle.std.specs.Prelude.{◌≡◌, ◌≤◌, ◌+◌, ◌*◌, false, length, take, drop};
ghost use Rattle.std.specs.Vec.{vec_capacity};
ghost use Rattle.assembler.specs.Assembled.{layout_of, places_of, short_of};
ghost use Rattle.assembler.specs.Drawn.{AreDrawn};
ghost use Rattle.frame_out.specs.Windows.{frame_header, IsWindow};

use crate::writing::Written;
use assembler::FrameParts;

/// Puts frames together of the parts that come from the tiles, and writes each once it is complete. Once a tile was short it takes parts and drops
/// them, so that no tile waits for it for ever.
#[derive(Drop)]
pub struct FrameWriter {
    pub(crate) parts: FrameParts,
    // a frame's text: its header, and from the first call that takes parts on the bytes of an image behind it, where the parts that wait are drawn
    pub(crate) text: Vec<u8>,
    // how long the header is
    pub(crate) front: usize,
    // how long the text is, which has room for so many bytes from the start
    pub(crate) full: usize,
    pub(crate) written: Written,
    ghost window: { IsWindow (layout_of parts) },
    ghost front_is: { front ≡ length (frame_header (layout_of parts)) },
    ghost full_is: { full ≡ front + 3 * (layout_of parts).width * (layout_of parts).height },
    ghost header: { take front text.items ≡ frame_header (layout_of parts) },
    ghost room: { full ≤ vec_capacity text },
    ghost few: { length text.items ≤ full },
    ghost drawn: { short_of parts ≡ false → AreDrawn (layout_of parts) (places_of parts) (drop front text.items) },
}
