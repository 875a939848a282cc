//! Frame after frame from lanes of parts, each written over bytes that are given.
ghost use Rattle.std.specs.Prelude.{◌≡◌, ◌<◌, false, replicate, length, None, IfOk};
ghost use Rattle.rc_base.specs.Cluster.Tiles.{tile_count};
ghost use Rattle.assembler.specs.Places.{AllFit};

use crate::found::{empty, has_gap};
use crate::lanes::{drop_parts, take_parts};
use rc_base::cluster::TilePart;
use rc_base::lane::Inlet;
use rc_base::out_of_memory::OutOfMemory;
use rc_base::window::Layout;
use std::alloc::Global;

// A place for each of so many tiles.
fn empty_places(alloc: Global, count: usize) -> Result<Vec<Option<TilePart>>, OutOfMemory>
    ensures { IfOk result (λ v. v.items ≡ replicate count None) }
{
    let mut places = Vec::with_capacity(alloc, count)?;
    for tile in 0..count {
        let _tile = tile;
        places.push_reserved(None);
    }
    Ok(places)
}

/// Puts the parts of one frame after the other together, one part of each tile, over bytes that each call is given. A part waits in its tile's place
/// until each tile has one. A part with another number of pixels than its tile, as one without pixels, makes it short for good.
#[derive(Drop)]
pub struct FrameParts {
    layout: Layout,
    places: Vec<Option<TilePart>>,
    short: bool,
    ghost columns: { 0 < layout.columns },
    ghost rows: { 0 < layout.rows },
    ghost count: { length places.items ≡ tile_count layout },
    ghost fit: { short ≡ false → AllFit layout places.items },
}

impl FrameParts {
    ghost use Rattle.std.specs.Prelude.{◌≡◌, ◌<◌, ◌*◌, true, false, map, length, Some, IfOk};
    ghost use Rattle.rc_base.specs.Cluster.Lanes.{EachLane};
    ghost use Rattle.rc_base.specs.Cluster.Tiles.{tile_count};
    ghost use Rattle.assembler.specs.Assembled.{layout_of, places_of, short_of, shows, AreNewParts, IsAssembled};
    ghost use Rattle.assembler.specs.Drawn.{AreDrawn};
    ghost use Rattle.assembler.specs.Parts.{image_with};
    ghost use Rattle.assembler.specs.Places.{no_parts, parts_in, HasGap};

    /// Makes a place for a part of each tile.
    pub fn new(alloc: Global, layout: &Layout) -> Result<FrameParts, OutOfMemory>
        requires columns { 0 < layout.now.columns }
        requires rows { 0 < layout.now.rows }
        ensures new { IfOk result (AreNewParts layout.now) }
    {
        let count = usize::from(layout.columns) * usize::from(layout.rows);
        let places = empty_places(alloc, count)?;
        Ok(FrameParts {
            layout: *layout,
            places,
            short: false,
        })
    }

    /// Whether a part without its tile's pixels was taken.
    pub fn is_short(&self) -> bool
        ensures { result ≡ short_of self.now }
    {
        self.short
    }

    /// Takes at most one part from the lane of each tile whose place is empty, and none from the others. Each part is written over the bytes as it comes,
    /// so they are to be the same from call to call, until there is a part of each tile: then they are those of the image of exactly these, which leave
    /// their places. Whether they did. They stay while a lane was empty whose part is missing, and from the call on that takes a part with another number
    /// of pixels than its tile; later calls take and drop at most one part of each lane.
    pub fn advance<I: Inlet<TilePart>>(&mut self, lanes: &mut [I], rgb: &mut [u8]) -> bool
        requires lanes { length lanes.old ≡ tile_count (layout_of self.old) }
        requires bytes { length rgb.old ≡ 3 * (layout_of self.old).width * (layout_of self.old).height }
        requires drawn { short_of self.old ≡ false → AreDrawn (layout_of self.old) (places_of self.old) rgb.old }
        ensures lane_of { EachLane (λ i a b. I.lane_of b ≡ I.lane_of a) lanes.old lanes.new }
        ensures step { IsAssembled I.gave I.same I.empty_seen I.bare self.old lanes.old (shows result (image_with (layout_of self.old) rgb.new)) self.new lanes.new }
        ensures drawn { short_of self.new ≡ false → AreDrawn (layout_of self.new) (places_of self.new) rgb.new }
        ensures size { length rgb.new ≡ length rgb.old }
    {
        if self.short {
            drop_parts(lanes);
            return false;
        }
        if take_parts(self.places.as_mut_slice(), lanes, rgb, &self.layout) {
            self.short = true;
            return false;
        }
        self.settle()
    }

    // Whether there is a part of each tile, which leave their places then.
    fn settle(&mut self) -> bool
        requires ample { short_of self.old ≡ false }
        ensures layout { layout_of self.new ≡ layout_of self.old }
        ensures short { short_of self.new ≡ false }
        ensures gap { result ≡ false → HasGap (layout_of self.old) (places_of self.old) }
        ensures waiting { result ≡ false → places_of self.new ≡ places_of self.old }
        ensures all { result ≡ true → places_of self.old ≡ map Some (parts_in (places_of self.old)) }
        ensures empty { result ≡ true → places_of self.new ≡ no_parts (layout_of self.old) }
    {
        if has_gap(&self.layout, self.places.as_slice()) {
            return false;
        }
        empty(self.places.as_mut_slice());
        true
    }
}
