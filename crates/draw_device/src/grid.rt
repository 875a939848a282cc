//! A grid of pixels that stands in the window.
ghost use Rattle.std.specs.Prelude.{◌≡◌, ◌+◌, ◌*◌, ◌≤◌, length};

use rc_base::command::Rgba;

/// The grid's first pixel is (`left`, `bottom`) of the window.
#[derive(Clone, Copy)]
pub struct Extent {
    pub left: u16,
    pub bottom: u16,
    pub width: u16,
    pub height: u16,
}

/// A colour for each column of a row, and a flag.
#[derive(Drop)]
pub struct Spare {
    pub colors: Vec<Rgba>,
    pub flags: Vec<bool>,
    pub ghost alike: { length flags.items ≡ length colors.items },
}

/// The colours of pixels, and their depths, row by row from the lowest, each row from the left. `extent` says where they stand. They are two
/// lists, since most draws store colours alone. `spare` is room for one row of fragments.
#[derive(Drop)]
pub struct Grid {
    pub extent: Extent,
    pub colors: Vec<Rgba>,
    pub depths: Vec<u32>,
    pub spare: Spare,
    pub ghost full: { length colors.items ≡ extent.width * extent.height },
    pub ghost deep: { length depths.items ≡ length colors.items },
    pub ghost room: { extent.width ≡ length spare.colors.items },
    pub ghost right: { extent.left + extent.width ≤ 65535 },
    pub ghost top: { extent.bottom + extent.height ≤ 65535 },
}
