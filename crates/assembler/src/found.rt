//! What is wanting in the parts that were found.
ghost use Rattle.std.specs.Prelude.{◌≡◌, ◌<◌, true, false, map, replicate, Some, None, length};
ghost use Rattle.rc_base.specs.Cluster.Tiles.{tile_count};
ghost use Rattle.assembler.specs.Places.{fits, parts_in, HasGap};

use crate::rows::size_of_part;
use rc_base::cluster::TilePart;
use rc_base::window::Layout;

/// Whether the part has its tile's number of pixels.
pub fn fits(layout: &Layout, tile: usize, part: &TilePart) -> bool
    requires columns { 0 < layout.now.columns }
    requires tile { tile < tile_count layout.now }
    ensures { result ≡ fits layout.now tile part.now }
{
    let columns = usize::from(layout.columns);
    let wide = size_of_part(layout.width, layout.columns, tile % columns);
    let high = size_of_part(layout.height, layout.rows, tile / columns);
    part.pixels.len() == wide * high
}

/// Whether some place has no part.
pub fn has_gap(layout: &Layout, places: &[Option<TilePart>]) -> bool
    requires { length places.now ≡ tile_count layout.now }
    ensures gap { result ≡ true → HasGap layout.now places.now }
    ensures none { result ≡ false → places.now ≡ map Some (parts_in places.now) }
{
    let _layout = layout;
    for tile in 0..places.len() {
        if places[tile].is_none() {
            return true;
        }
    }
    false
}

/// Lets the parts go out of their places.
pub fn empty(places: &mut [Option<TilePart>])
    ensures { places.new ≡ replicate (length places.old) None }
{
    for tile in 0..places.len() {
        places[tile] = None;
    }
}
