//! The rectangles of tiles, and which of them have a pixel of an area.
ghost use Rattle.std.specs.Prelude.{◌≡◌, ℕ, pos, ◌-◌, ◌*◌, ◌<◌, ◌&&◌, ◌||◌, nat_lt, nat_le, int_lt};
ghost use Rattle.std.specs.Int.{int_min, int_max};
ghost use Rattle.rc_base.specs.Orders.Journal.{has};
ghost use Rattle.rc_base.specs.Cluster.Tiles.{tile_column, tile_row, tile_pixels, is_in_rect, tile_rectangle};
ghost use Rattle.bounds_bucket.specs.Tiles.{meets_area, part_meets};

use crate::bits::with_if;
use crate::range::{Range, columns_of, larger, rows_of, smaller};
use rc_base::sync::has;
use rc_base::window::{Layout, Rect, boundary};

fn column_of(layout: &Layout, tile: u8) -> u8
    ensures { result ≡ tile_column layout.now tile }
{
    if layout.columns == 0 {
        tile
    } else {
        tile % layout.columns
    }
}

fn row_of(layout: &Layout, tile: u8) -> u8
    ensures { result ≡ tile_row layout.now tile }
{
    if layout.columns == 0 {
        0
    } else {
        tile / layout.columns
    }
}

fn rectangle(layout: &Layout, tile: u8) -> Rect
    ensures { result ≡ tile_rectangle layout.now tile }
{
    let column = u16::from(column_of(layout, tile));
    let row = u16::from(row_of(layout, tile));
    Rect {
        x0: boundary(layout.width, layout.columns, column),
        y0: boundary(layout.height, layout.rows, row),
        x1: boundary(layout.width, layout.columns, column + 1),
        y1: boundary(layout.height, layout.rows, row + 1),
    }
}

/// The rectangle of a tile's pixels. Tile `row * columns + column`, rows from the bottom; column `j` begins at the floor of
/// `j * width / columns`, rows alike. Each tile has a renderer of its own: the sort-first class of Molnar, Cox, Ellsworth and Fuchs.
pub fn tile_rect(layout: &Layout, tile: u8) -> Rect
    ensures rectangle { result ≡ tile_rectangle layout.now tile }
    ensures pixels { (x y : ℕ) → is_in_rect result (pos x) (pos y) ≡ tile_pixels layout.now tile x y }
{
    rectangle(layout, tile)
}

// A part of a side has a number of the range, by where it begins and ends.
fn meets_part(first: i32, end: i32, range: Range) -> bool
    ensures { result ≡ int_lt (int_max first range.from) (int_min end range.end) }
{
    larger(first, range.from) < smaller(end, range.end)
}

// The parts of a side that have a number of the range, of the first 32.
fn parts_met(side: u16, parts: u8, range: Range) -> u32
    ensures { (j : ℕ) → j < 32 → has result j ≡ (nat_lt j parts && part_meets side parts range j) }
{
    let mut met = 0;
    let mut first = 0;
    for part in 0..parts.min(32) {
        let end = boundary(side, parts, u16::from(part) + 1);
        met = with_if(met, part, meets_part(first, end, range));
        first = end;
    }
    met
}

// The tiles of a row whose columns are met, of the first 32: the row's first tile is `start`.
fn tiles_from(columns: u32, start: u16) -> u32
    ensures { (t : ℕ) → t < 32 → has result t ≡ (nat_le start t && has columns (t - start)) }
{
    if start < 32 { columns << start } else { 0 }
}

// Adds a row's tiles, if the row is met.
fn with_row(layout: &Layout, columns: u32, rows: u32, row: u8, met: u32) -> u32
    requires { row < 32 }
    ensures { (t : ℕ) → t < 32 → has result t
        ≡ ((has rows row && (nat_le (row * layout.now.columns) t && has columns (t - row * layout.now.columns))) || has met t) }
{
    if has(rows, row) {
        met | tiles_from(columns, u16::from(row) * u16::from(layout.columns))
    } else {
        met
    }
}

/// The tiles that have a pixel of an area, of the first 32: bit `t` for tile `t`.
pub fn meets(layout: &Layout, area: Rect) -> u32
    ensures { (t : ℕ) → t < 32 → has result t ≡ meets_area layout.now area t }
{
    let columns = parts_met(layout.width, layout.columns, columns_of(area));
    let rows = parts_met(layout.height, layout.rows, rows_of(area));
    let mut met = 0;
    for row in 0..layout.rows.min(32) {
        met = with_row(layout, columns, rows, row, met);
    }
    met
}
