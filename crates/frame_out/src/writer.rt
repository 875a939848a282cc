//! Taking parts, and writing the frames that they complete.
ghost use Rattle.std.specs.Prelude.{◌≡◌, ◌<◌, ◌≤◌, ◌+◌, ◌*◌, false, length, take, drop, IfOk};
ghost use Rattle.std.specs.Vec.{vec_len, vec_capacity};
ghost use Rattle.rc_base.specs.Cluster.Lanes.{EachLane};
ghost use Rattle.rc_base.specs.Cluster.Tiles.{tile_count};
ghost use Rattle.rc_base.specs.Outside.Ends.{use_of};
ghost use Rattle.assembler.specs.Assembled.{layout_of, places_of, short_of, shows, Completes, IsAssembled};
ghost use Rattle.assembler.specs.Drawn.{AreDrawn};
ghost use Rattle.assembler.specs.Parts.{image_with};
ghost use Rattle.frame_out.specs.OnTheWay.{GivesOne, GoesOn, IsMissing, IsNewWriter};
ghost use Rattle.frame_out.specs.Windows.{IsWindow};

use crate::on_the_way::FrameWriter;
use crate::writing::{Written, write_behind};
use assembler::FrameParts;
use ppm_out::image_header;
use rc_base::cluster::TilePart;
use rc_base::lane::Inlet;
use rc_base::out_of_memory::OutOfMemory;
use rc_base::outside::Sink;
use rc_base::window::Layout;
use std::alloc::Global;

// Takes parts for the next frame, whose text stands here but for its pixels. Whether it is complete.
fn take_parts<I: Inlet<TilePart>>(
    parts: &mut FrameParts,
    lanes: &mut [I],
    text: &mut [u8],
    front: usize,
) -> bool
    requires lanes { length lanes.old ≡ tile_count (layout_of parts.old) }
    requires text { length text.old ≡ front + 3 * (layout_of parts.old).width * (layout_of parts.old).height }
    requires drawn { short_of parts.old ≡ false → AreDrawn (layout_of parts.old) (places_of parts.old) (drop front text.old) }
    ensures lane_of { EachLane (λ i a b. I.lane_of b ≡ I.lane_of a) lanes.old lanes.new }
    ensures each { EachLane (λ i a b. GivesOne I.gave I.same a b) lanes.old lanes.new }
    ensures step { IsAssembled I.gave I.same I.empty_seen I.bare parts.old lanes.old (shows result (image_with (layout_of parts.old) (drop front text.new))) parts.new lanes.new }
    ensures front { take front text.new ≡ take front text.old }
    ensures drawn { short_of parts.new ≡ false → AreDrawn (layout_of parts.new) (places_of parts.new) (drop front text.new) }
{
    let full = text.len();
    parts.advance(lanes, &mut text[front..full])
}

// Makes the text whole, if it is its header alone: with room for the pixels behind it, in memory that is there.
fn make_whole(text: &mut Vec<u8>, front: usize, full: usize)
    requires header { front ≤ vec_len text.old }
    requires order { front ≤ full }
    requires room { full ≤ vec_capacity text.old }
    requires few { length text.old.items ≤ full }
    ensures size { length text.new.items ≡ full }
    ensures front { take front text.new.items ≡ take front text.old.items }
    ensures kept { take (length text.old.items) text.new.items ≡ text.old.items }
    ensures room { full ≤ vec_capacity text.new }
{
    let _whole = text.resize(full, 0);
}

impl FrameWriter {
    /// The writer of a layout's frames, with room for a frame's text and for one part of each tile. The memory of the text's pixels is first written when
    /// parts are asked for.
    pub fn new(alloc: Global, layout: &Layout) -> Result<FrameWriter, OutOfMemory>
        requires columns { 0 < layout.now.columns }
        requires rows { 0 < layout.now.rows }
        requires window { IsWindow layout.now }
        ensures { IfOk result (IsNewWriter layout.now) }
    {
        let header = image_header(alloc, layout.width, layout.height)?;
        let front = header.len();
        let full = front + 3 * usize::from(layout.width) * usize::from(layout.height);
        let mut text = Vec::with_capacity(alloc, full)?;
        text.extend_from_slice(header.as_slice())?;
        Ok(FrameWriter {
            parts: FrameParts::new(alloc, layout)?,
            text,
            front,
            full,
            written: Written::nothing(),
        })
    }

    /// Takes at most one part of each tile whose part of the next frame is missing, and writes the frame where that completes it, by one `write_all`. Whether
    /// it did. Once the image has failed, frames are completed and not written.
    pub fn serve<I: Inlet<TilePart>, K: Sink>(&mut self, lanes: &mut [I], image: &mut K) -> bool
        requires lanes { length lanes.old ≡ tile_count (layout_of self.old.parts) }
        ensures layout { layout_of self.new.parts ≡ layout_of self.old.parts }
        ensures lane_of { EachLane (λ i a b. I.lane_of b ≡ I.lane_of a) lanes.old lanes.new }
        ensures each { EachLane (λ i a b. GivesOne I.gave I.same a b) lanes.old lanes.new }
        ensures goes_on { GoesOn I.gave I.same (use_of K.held K.faults) self.old lanes.old image.old self.new lanes.new image.new }
        ensures completed { Completes I.gave I.same I.empty_seen I.bare self.old.parts lanes.old lanes.new result self.new.parts }
        ensures missing { result ≡ false → short_of self.new.parts ≡ false → IsMissing I.bare self.new lanes.new }
        ensures later { K.faults image.old ≤ K.faults image.new }
    {
        make_whole(&mut self.text, self.front, self.full);
        if !take_parts(&mut self.parts, lanes, self.text.as_mut_slice(), self.front) {
            return false;
        }
        self.written = write_behind(image, self.text.as_slice(), self.written);
        true
    }

    /// Whether a tile was short.
    pub fn lacks(&self) -> bool
        ensures { result ≡ short_of self.now.parts }
    {
        self.parts.is_short()
    }

    /// How much of the frames' text the image took.
    pub fn written(&self) -> Written
        ensures { result ≡ self.now.written }
    {
        self.written
    }
}
