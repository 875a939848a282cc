//! Parts from the lanes of the tiles, each written as it comes.
ghost use Rattle.std.specs.Prelude.{◌≡◌, true, false, length, Some};
ghost use Rattle.rc_base.specs.Cluster.Lanes.{EachLane};
ghost use Rattle.rc_base.specs.Cluster.Tiles.{tile_count};
ghost use Rattle.rc_base.specs.declared.cluster.TilePart.{TilePart};
ghost use Rattle.assembler.specs.Drawn.{AreBytesOf, AreDrawn, HaveTile, IsDrawn, IsPlaceWritten};
ghost use Rattle.assembler.specs.Places.{fits, is_misfit, AllFit, IsFound, AreFound, IsDropped, AreDropped, HasMisfit};

use crate::found::fits;
use crate::rows::write_part;
use rc_base::cluster::TilePart;
use rc_base::lane::Inlet;
use rc_base::window::Layout;

// Writes the part that came for a tile, if one did. Whether it has another number of pixels than its tile, and was not written.
fn write_place(rgb: &mut [u8], layout: &Layout, tile: usize, place: &Option<TilePart>) -> bool
    requires { HaveTile layout.now tile rgb.old }
    ensures { IsPlaceWritten layout.now tile place.now result rgb.old rgb.new }
{
    let Some(part) = place else {
        return false;
    };
    if !fits(layout, tile, part) {
        return true;
    }
    write_part(rgb, layout, tile, part);
    false
}

// Takes a part for an empty place, and writes it. Whether it has another number of pixels than its tile, and was not written.
fn take_part<I: Inlet<TilePart>>(
    place: &mut Option<TilePart>,
    lane: &mut I,
    rgb: &mut [u8],
    layout: &Layout,
    tile: usize,
) -> bool
    requires bytes { HaveTile layout.now tile rgb.old }
    requires fit { is_misfit layout.now tile place.old ≡ false }
    requires drawn { (p : TilePart) → place.old ≡ Some p → fits layout.now tile p ≡ true → IsDrawn layout.now rgb.old tile p }
    ensures lane_of { I.lane_of lane.new ≡ I.lane_of lane.old }
    ensures found { IsFound I.gave I.same I.empty_seen I.bare place.old lane.old place.new lane.new }
    ensures written { IsPlaceWritten layout.now tile place.new result rgb.old rgb.new }
{
    if place.is_some() {
        return false;
    }
    *place = lane.pop();
    write_place(rgb, layout, tile, place)
}

/// Takes a part for each empty place, and writes it over the bytes of the window. Whether one has another number of pixels than its tile; such a part is
/// not written.
pub fn take_parts<I: Inlet<TilePart>>(
    places: &mut [Option<TilePart>],
    lanes: &mut [I],
    rgb: &mut [u8],
    layout: &Layout,
) -> bool
    requires lanes { length lanes.old ≡ tile_count layout.now }
    requires places { length places.old ≡ tile_count layout.now }
    requires bytes { AreBytesOf layout.now rgb.old }
    requires fit { AllFit layout.now places.old }
    requires drawn { AreDrawn layout.now places.old rgb.old }
    ensures lane_of { EachLane (λ i a b. I.lane_of b ≡ I.lane_of a) lanes.old lanes.new }
    ensures found { AreFound I.gave I.same I.empty_seen I.bare places.old lanes.old places.new lanes.new }
    ensures size { length rgb.new ≡ length rgb.old }
    ensures misfit { result ≡ true → HasMisfit layout.now places.new }
    ensures fit { result ≡ false → AllFit layout.now places.new }
    ensures drawn { result ≡ false → AreDrawn layout.now places.new rgb.new }
{
    let mut misfit = false;
    for tile in 0..lanes.len() {
        let odd = take_part(&mut places[tile], &mut lanes[tile], rgb, layout, tile);
        misfit = misfit || odd;
    }
    misfit
}

// Takes a part, if there is one, and drops it.
fn drop_part<I: Inlet<TilePart>>(lane: &mut I)
    ensures lane_of { I.lane_of lane.new ≡ I.lane_of lane.old }
    ensures dropped { IsDropped I.gave I.same I.empty_seen I.bare lane.old lane.new }
{
    lane.pop();
}

/// Takes at most one part of each lane, and drops it.
pub fn drop_parts<I: Inlet<TilePart>>(lanes: &mut [I])
    ensures lane_of { EachLane (λ i a b. I.lane_of b ≡ I.lane_of a) lanes.old lanes.new }
    ensures dropped { AreDropped I.gave I.same I.empty_seen I.bare lanes.old lanes.new }
{
    for tile in 0..lanes.len() {
        drop_part(&mut lanes[tile]);
    }
}
