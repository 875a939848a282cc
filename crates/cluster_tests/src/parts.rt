//! A small window in tiles of several sizes, by hand.
ghost use Rattle.std.specs.Prelude.{◌≡◌, ℕ, ◌*◌, ◌<◌, IsTrue, length};
ghost use Rattle.assembler.specs.Parts.{AreParts, part_size, tile_height, tile_width};

use assembler::assemble;
use rc_base::cluster::TilePart;
use rc_base::command::Rgba;
use rc_base::out_of_memory::OutOfMemory;
use rc_base::window::{Layout, Pixel, Pixels};
use std::alloc::Global;
use std::process::Abort;

// Columns begin at 0, 1, 2 and 3 of 5, rows at 0 and 1 of 3.
const LAYOUT: Layout = Layout {
    width: 5,
    height: 3,
    columns: 4,
    rows: 2,
};

const COUNTS: [u8; 8] = [1, 1, 1, 2, 2, 2, 2, 4];

// The tile and the place in its part are r and g of a pixel.
fn part(alloc: Global, tile: u8, count: u8) -> Result<TilePart, OutOfMemory> {
    let mut pixels = Pixels::new(alloc);
    for place in 0..count {
        let color = Rgba {
            r: tile,
            g: place,
            b: 100,
            a: 255,
        };
        pixels.push(Pixel { color, depth: 7 })?;
    }
    Ok(TilePart {
        tile,
        frame: 1,
        pixels,
    })
}

fn all_parts(alloc: Global) -> Result<Vec<TilePart>, OutOfMemory> {
    let mut parts = Vec::new(alloc);
    for tile in 0..8_u8 {
        parts.push(part(alloc, tile, COUNTS[usize::from(tile)])?)?;
    }
    Ok(parts)
}

// How many columns or rows of pixels part `j` of a side has.
fn size_of_part(side: u16, parts: u8, j: usize) -> usize
    requires { j < parts }
    ensures { result ≡ part_size side parts j }
{
    let (side, parts) = (usize::from(side), usize::from(parts));
    (j + 1) * side / parts - j * side / parts
}

fn is_part(layout: &Layout, part: &TilePart, tile: usize) -> bool
    requires columns { 0 < layout.now.columns }
    requires tile { tile < layout.now.columns * layout.now.rows }
    ensures tile { IsTrue result → part.now.tile ≡ tile }
    ensures frame { IsTrue result → part.now.frame ≡ 1 }
    ensures size { IsTrue result → length part.now.pixels ≡ tile_width layout.now tile * tile_height layout.now tile }
{
    let columns = usize::from(layout.columns);
    let wide = size_of_part(layout.width, layout.columns, tile % columns);
    let high = size_of_part(layout.height, layout.rows, tile / columns);
    usize::from(part.tile) == tile && part.frame == 1 && part.pixels.len() == wide * high
}

fn are_parts(layout: &Layout, parts: &[TilePart]) -> bool
    requires { 0 < layout.now.columns }
    ensures { IsTrue result → AreParts layout.now parts.now }
{
    if parts.len() != usize::from(layout.columns) * usize::from(layout.rows) {
        return false;
    }
    for tile in 0..parts.len() {
        if !is_part(layout, &parts[tile], tile) {
            return false;
        }
    }
    true
}

const ROWS: [u8; 45] = [
    4, 1, 100, 5, 1, 100, 6, 1, 100, 7, 2, 100, 7, 3, 100, 4, 0, 100, 5, 0, 100, 6, 0, 100, 7, 0,
    100, 7, 1, 100, 0, 0, 100, 1, 0, 100, 2, 0, 100, 3, 0, 100, 3, 1, 100,
];

// Whether the image of all parts has these pixels.
fn is_whole(rt: &impl Abort, alloc: Global) -> bool {
    let parts = all_parts(alloc).expect(rt, "memory");
    assert!(rt; are_parts(&LAYOUT, &parts));
    let image = assemble(alloc, &LAYOUT, &parts).expect(rt, "memory");
    image.width == 5 && image.height == 3 && image.rgb.as_slice() == ROWS.as_slice()
}

#[test]
fn each_pixel_is_that_of_its_tile(rt: HostRuntime) {
    assert!(rt; is_whole(&rt, rt.alloc()));
}
