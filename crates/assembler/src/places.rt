//! Frame after frame from lanes of parts, in an image of its own.
ghost use Rattle.std.specs.Prelude.{◌≡◌, ◌*◌, false, length};
ghost use Rattle.assembler.specs.Assembled.{layout_of as layout_of_parts, places_of as places_of_parts, short_of as short_of_parts};
ghost use Rattle.assembler.specs.Drawn.{AreDrawn};
ghost use Rattle.assembler.specs.Parts.{IsRoomFor};

use crate::frame_parts::FrameParts;
use crate::images::blank_image;
use rc_base::cluster::TilePart;
use rc_base::command::Bytes;
use rc_base::image::Image;
use rc_base::lane::Inlet;
use rc_base::out_of_memory::OutOfMemory;
use rc_base::window::Layout;
use std::alloc::Global;
use std::mem::swap;

/// Puts the parts of one frame after the other together, one part of each tile. A part waits in its tile's place until each tile has one, and its pixels
/// are written as it comes, over bytes that change places with those of the image once all are there. A part with another number of pixels than its tile,
/// as one without pixels, makes it short for good.
#[derive(Drop)]
pub struct Assembler {
    frames: FrameParts,
    image: Image,
    // the bytes of the next image, as far as its parts came
    next: Bytes,
    ghost sides: { IsRoomFor (layout_of_parts frames) image },
    ghost bytes: { length next ≡ 3 * (layout_of_parts frames).width * (layout_of_parts frames).height },
    ghost drawn: { short_of_parts frames ≡ false → AreDrawn (layout_of_parts frames) (places_of_parts frames) next },
}

impl Assembler {
    ghost use Rattle.std.specs.Prelude.{◌≡◌, ◌<◌, length, IfOk, option_copied};
    ghost use Rattle.std.specs.Borrow.{sem};
    ghost use Rattle.rc_base.specs.Cluster.Lanes.{EachLane};
    ghost use Rattle.rc_base.specs.Cluster.Tiles.{tile_count};
    ghost use Rattle.assembler.specs.Lent.{Looks};
    ghost use Rattle.assembler.specs.Assemblers.{image_in, layout_of, short_of, Advances, IsNewAssembler};

    /// Makes the image, the bytes of the next one, and a place for a part of each tile.
    pub fn new(alloc: Global, layout: &Layout) -> Result<Assembler, OutOfMemory>
        requires columns { 0 < layout.now.columns }
        requires rows { 0 < layout.now.rows }
        ensures new { IfOk result (IsNewAssembler layout.now) }
    {
        let image = blank_image(alloc, layout)?;
        let Image { rgb: next, .. } = blank_image(alloc, layout)?;
        let frames = FrameParts::new(alloc, layout)?;
        Ok(Assembler {
            frames,
            image,
            next,
        })
    }

    /// Whether a part without its tile's pixels was taken.
    pub fn is_short(&self) -> bool
        ensures { result ≡ short_of self.now }
    {
        self.frames.is_short()
    }

    /// Takes at most one part from the lane of each tile whose place is empty, and none from the others. Once there is a part of each tile, they
    /// leave their places, and the image of exactly these is shown. There is none while a lane was empty whose part is missing, and none from the
    /// call on that takes a part with another number of pixels than its tile; later calls take and drop at most one part of each lane.
    pub fn next_frame<I: Inlet<TilePart>>(&mut self, lanes: &mut [I]) -> Option<&Image>
        requires lanes { length lanes.old ≡ tile_count (layout_of self.old) }
        ensures lane_of { EachLane (λ i a b. I.lane_of b ≡ I.lane_of a) lanes.old lanes.new }
        ensures* step { sem 𝓛 (Looks self.entry (Advances I.gave I.same I.empty_seen I.bare self.old lanes.old lanes.new) (option_copied result)) }
    {
        if !self.advance(lanes) {
            return None;
        }
        Some(&self.image)
    }

    /// The image of the last frame that was completed; before the first, a black one.
    pub fn image(&self) -> &Image
        ensures { result.now ≡ image_in self.now }
    {
        &self.image
    }

    /// Takes parts as `next_frame` does, which is this call and a look at the image. Whether there is a new image.
    pub fn advance<I: Inlet<TilePart>>(&mut self, lanes: &mut [I]) -> bool
        requires lanes { length lanes.old ≡ tile_count (layout_of self.old) }
        ensures lane_of { EachLane (λ i a b. I.lane_of b ≡ I.lane_of a) lanes.old lanes.new }
        ensures step { Advances I.gave I.same I.empty_seen I.bare self.old lanes.old lanes.new result self.new }
    {
        if !self.frames.advance(lanes, self.next.as_mut_slice()) {
            return false;
        }
        swap(&mut self.image.rgb, &mut self.next);
        true
    }
}
