//! Laws of tiles and boxes.
ghost use Rattle.bounds_bucket.specs.Boxes.{TouchedPixelsLieInTheBox, TouchedTilesMeetTheBox};
ghost use Rattle.bounds_bucket.specs.Tiles.{EachPixelHasOneTile};

use raster::cover_lies_in_bounds;

/// Every pixel of the window lies in exactly one tile.
pub fn each_pixel_has_one_tile()
    ensures { EachPixelHasOneTile }
{}

/// Every pixel that a command touches lies in its box, and the tile that has the pixel meets the box: a tile that the box misses loses nothing.
pub fn touched_pixels_lie_in_the_box()
    ensures pixels { TouchedPixelsLieInTheBox }
    ensures tiles { TouchedTilesMeetTheBox }
{
    cover_lies_in_bounds();
}
