//! The pixels of a tile's part, written where they stand among the bytes of the window.
ghost use Rattle.std.specs.Prelude.{◌≡◌, ◌+◌, ◌-◌, ◌*◌, ◌<◌, ◌≤◌, ◌⊎◌, ℕ, length, take, drop, slice_index_or};
ghost use Rattle.std.specs.List.{flat_map};
ghost use Rattle.rc_base.specs.Cluster.Tiles.{boundary_of, tile_count};
ghost use Rattle.rc_base.specs.Drawing.Images.{rgb_of};
ghost use Rattle.rc_base.specs.Drawing.Serial.{blank_pixel};
ghost use Rattle.assembler.specs.Drawn.{IsDrawn, StaysBeside};
ghost use Rattle.assembler.specs.Parts.{part_size, tile_height, tile_width};

use rc_base::cluster::TilePart;
use rc_base::command::Rgba;
use rc_base::window::{Layout, Pixel, boundary};

// How many columns or rows of pixels part `j` of a side has.
pub(crate) fn size_of_part(side: u16, parts: u8, j: usize) -> usize
    requires { j < parts }
    ensures { result ≡ part_size side parts j }
{
    let part = j as u16;
    let from = boundary(side, parts, part) as usize;
    boundary(side, parts, part + 1) as usize - from
}

// Writes the colours of pixels. Each but the last goes with its alpha, over which the next one is written: so four bytes go at once.
fn copy_run(out: &mut [u8], pixels: &[Pixel])
    requires { length out.old ≡ 3 * length pixels.now }
    ensures { out.new ≡ flat_map rgb_of pixels.now }
{
    let count = pixels.len();
    if count == 0 {
        return;
    }
    copy_front(out, pixels, count - 1);
    write_next(out, pixels, count - 1);
}

// Writes the colours of the first pixels, of which there are more. What stands behind them may be written over.
fn copy_front(out: &mut [u8], pixels: &[Pixel], count: usize)
    requires more { count < length pixels.now }
    requires room { length out.old ≡ 3 * length pixels.now }
    ensures size { length out.new ≡ length out.old }
    ensures front { take (3 * count) out.new ≡ flat_map rgb_of (take count pixels.now) }
{
    for i in 0..count {
        let Rgba { r, g, b, a } = pixels[i].color;
        out[3 * i] = r;
        out[3 * i + 1] = g;
        out[3 * i + 2] = b;
        out[3 * i + 3] = a;
    }
}

// Writes the colour of a pixel behind those of the pixels before it.
fn write_next(out: &mut [u8], pixels: &[Pixel], at: usize)
    requires inside { at < length pixels.now }
    requires room { length out.old ≡ 3 * length pixels.now }
    requires front { take (3 * at) out.old ≡ flat_map rgb_of (take at pixels.now) }
    ensures size { length out.new ≡ length out.old }
    ensures front { take (3 * (at + 1)) out.new ≡ flat_map rgb_of (take (at + 1) pixels.now) }
{
    let Rgba { r, g, b, .. } = pixels[at].color;
    out[3 * at] = r;
    out[3 * at + 1] = g;
    out[3 * at + 2] = b;
}

// The pixels of one line of a part, from its bottom, which is so many pixels wide.
fn line_of(part: &TilePart, wide: usize, line: usize) -> &[Pixel]
    requires { line * wide + wide ≤ length part.now.pixels }
    ensures run { result.now ≡ take wide (drop (line * wide) part.now.pixels) }
    ensures size { length result.now ≡ wide }
{
    let pixels = part.pixels.as_slice();
    let _count = pixels.len();
    let from = line * wide;
    &pixels[from..from + wide]
}

// Writes the colours of a run of pixels from a place on.
fn write_run(rgb: &mut [u8], from: usize, pixels: &[Pixel])
    requires room { from + 3 * length pixels.now ≤ length rgb.old }
    ensures size { length rgb.new ≡ length rgb.old }
    ensures run { (i : ℕ) → i < length pixels.now → take 3 (drop (from + 3 * i) rgb.new) ≡ rgb_of (slice_index_or pixels.now i blank_pixel) }
    ensures others { (at : ℕ) → (at + 3 ≤ from) ⊎ (from + 3 * length pixels.now ≤ at) → take 3 (drop at rgb.new) ≡ take 3 (drop at rgb.old) }
{
    let to = from + 3 * pixels.len();
    copy_run(&mut rgb[from..to], pixels);
}

// Where the top left pixel of a tile stands among those of the window, whose rows go from the top.
fn first_pixel(layout: &Layout, column: usize, row: usize) -> usize
    requires column { column < layout.now.columns }
    requires row { row < layout.now.rows }
    ensures { result ≡ (layout.now.height - boundary_of layout.now.height layout.now.rows (row + 1)) * layout.now.width + boundary_of layout.now.width layout.now.columns column }
{
    let left = boundary(layout.width, layout.columns, column as u16) as usize;
    let top = boundary(layout.height, layout.rows, row as u16 + 1) as usize;
    (usize::from(layout.height) - top) * usize::from(layout.width) + left
}

/// Writes the pixels of a tile's part over the bytes of the window, a line at a time from the top. The bytes of other tiles' pixels stay.
pub fn write_part(rgb: &mut [u8], layout: &Layout, tile: usize, part: &TilePart)
    requires columns { 0 < layout.now.columns }
    requires rows { 0 < layout.now.rows }
    requires tile { tile < tile_count layout.now }
    requires pixels { length part.now.pixels ≡ tile_width layout.now tile * tile_height layout.now tile }
    requires room { length rgb.old ≡ 3 * layout.now.width * layout.now.height }
    ensures size { length rgb.new ≡ length rgb.old }
    ensures drawn { IsDrawn layout.now rgb.new tile part.now }
    ensures others { StaysBeside layout.now tile rgb.old rgb.new }
{
    let columns = usize::from(layout.columns);
    let column = tile % columns;
    let row = tile / columns;
    let wide = size_of_part(layout.width, layout.columns, column);
    let high = size_of_part(layout.height, layout.rows, row);
    let width = usize::from(layout.width);
    let mut from = 3 * first_pixel(layout, column, row);
    for k in 0..high {
        write_run(rgb, from, line_of(part, wide, high - 1 - k));
        from += 3 * width;
    }
}
