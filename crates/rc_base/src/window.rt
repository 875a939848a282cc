//! The window: pixels, rectangles, spans, and vertices in window coordinates.
ghost use Rattle.std.specs.Prelude.{◌≡◌, ◌*◌, ◌≤◌, pos};
ghost use Rattle.rc_base.specs.Cluster.Tiles.{boundary_of, window_rect};

use crate::command::Rgba;
use crate::items::Items;

/// The pixels with x0 <= x < x1 and y0 <= y < y1.
#[derive(Clone, Copy, Debug, PartialEq, Eq)]
pub struct Rect {
    pub x0: i32,
    pub y0: i32,
    pub x1: i32,
    pub y1: i32,
}

/// What the buffer holds at one place: a colour, and a depth from 0 to 16777215.
#[derive(Clone, Copy, Debug, PartialEq, Eq)]
pub struct Pixel {
    pub color: Rgba,
    pub depth: u32,
}

/// Pixels, row by row.
pub type Pixels = Items<Pixel>;

/// A vertex in window coordinates: x and y in sixteenths of a pixel from the lower left corner, z from 0 to 16777215 inside the depth
/// range. The texture coordinate is 16.16 fixed point.
#[derive(Clone, Copy, Debug, PartialEq, Eq)]
pub struct WindowVertex {
    pub x: i32,
    pub y: i32,
    pub z: i32,
    pub color: Rgba,
    pub s: i32,
    pub t: i32,
}

/// A vertex in homogeneous clip coordinates, 16.16 fixed point, with the colour and the texture coordinate that it brings.
#[derive(Clone, Copy, Debug, PartialEq, Eq)]
pub struct ClipVertex {
    pub x: i64,
    pub y: i64,
    pub z: i64,
    pub w: i64,
    pub color: Rgba,
    pub s: i32,
    pub t: i32,
}

/// What a triangle brings to a pixel that it covers.
#[derive(Clone, Copy, Debug, PartialEq, Eq)]
pub struct Fragment {
    pub x: i32,
    pub y: i32,
    pub color: Rgba,
    pub depth: i32,
    pub s: i32,
    pub t: i32,
}

/// The pixels x0 <= x < x1 of row y.
#[derive(Clone, Copy, Debug, PartialEq, Eq)]
pub struct Span {
    pub y: i32,
    pub x0: i32,
    pub x1: i32,
}

/// How a window is cut into tiles: columns from the left, rows from the bottom. Tile `row * columns + column` is one server's.
#[derive(Clone, Copy, Debug, PartialEq, Eq)]
pub struct Layout {
    pub width: u16,
    pub height: u16,
    pub columns: u8,
    pub rows: u8,
}

/// The rectangle of all pixels of a window of these sides.
pub fn window_rect(width: u16, height: u16) -> Rect
    ensures { result ≡ window_rect width height }
{
    Rect {
        x0: 0,
        y0: 0,
        x1: i32::from(width),
        y1: i32::from(height),
    }
}

/// The index of a row's first pixel, where the rows of a window stand one after the other.
pub fn row_start(width: u16, row: u16) -> usize
    ensures { result ≡ row * width }
{
    row as usize * width as usize
}

/// Where part `j` of a side begins that is cut into so many parts; a side without parts has none.
pub fn boundary(side: u16, parts: u8, j: u16) -> i32
    requires { j ≤ 256 }
    ensures { result ≡ pos (boundary_of side parts j) }
{
    if parts == 0 {
        return 0;
    }
    (u32::from(j) * u32::from(side) / u32::from(parts)) as i32
}
