//! Memory for a grid's pixels, until they are written.
ghost use Rattle.std.specs.Prelude.{◌≡◌, ◌+◌, ◌*◌, ◌≤◌, [], length, replicate};
ghost use Rattle.std.specs.Vec.{vec_capacity};

use crate::blank::{BLANK, CLEAR, FAR};
use crate::grid::{Extent, Grid, Spare};
use rc_base::command::Rgba;
use rc_base::out_of_memory::OutOfMemory;
use rc_base::window::Pixels;
use std::alloc::Global;

/// Memory for the colours of a grid's pixels and for their depths, nothing of which is written. The room for one row of fragments is there.
#[derive(Drop)]
pub struct Room {
    pub extent: Extent,
    pub colors: Vec<Rgba>,
    pub depths: Vec<u32>,
    pub spare: Spare,
    pub ghost no_colors: { colors.items ≡ [] },
    pub ghost no_depths: { depths.items ≡ [] },
    pub ghost for_colors: { extent.width * extent.height ≤ vec_capacity colors },
    pub ghost for_depths: { extent.width * extent.height ≤ vec_capacity depths },
    pub ghost row: { extent.width ≡ length spare.colors.items },
    pub ghost right: { extent.left + extent.width ≤ 65535 },
    pub ghost top: { extent.bottom + extent.height ≤ 65535 },
}

// Writes one value so often into an empty list, which has the memory for it.
fn fill_up<T: Copy>(items: &mut Vec<T>, count: usize, value: T)
    requires empty { items.old.items ≡ [] }
    requires room { count ≤ vec_capacity items.old }
    ensures { items.new.items ≡ replicate count value }
{
    let _fits = items.resize(count, value);
}

impl Room {
    ghost use Rattle.std.specs.Prelude.{◌≡◌, ◌+◌, ◌≤◌, IfOk};
    ghost use Rattle.draw_device.specs.Grids.{blank_pixels, grid_pixels};

    /// That of no pixels, which is none.
    pub fn none(alloc: Global) -> Room {
        Room {
            extent: Extent {
                left: 0,
                bottom: 0,
                width: 0,
                height: 0,
            },
            colors: Vec::new(alloc),
            depths: Vec::new(alloc),
            spare: Spare {
                colors: Vec::new(alloc),
                flags: Vec::new(alloc),
            },
        }
    }

    /// Memory for the pixels of an extent.
    pub fn new(alloc: Global, extent: Extent) -> Result<Room, OutOfMemory>
        requires right { extent.left + extent.width ≤ 65535 }
        requires top { extent.bottom + extent.height ≤ 65535 }
        ensures { IfOk result (λ r. r.extent ≡ extent) }
    {
        let width = usize::from(extent.width);
        let mut row = Vec::new(alloc);
        row.resize(width, CLEAR)?;
        let mut flags = Vec::new(alloc);
        flags.resize(width, false)?;
        Ok(Room {
            extent,
            colors: Vec::with_capacity(alloc, extent.count())?,
            depths: Vec::with_capacity(alloc, extent.count())?,
            spare: Spare { colors: row, flags },
        })
    }

    /// The grid, whose pixels are written, each of them blank. This takes no memory.
    pub fn fill(self) -> Grid
        ensures extent { result.extent ≡ self.extent }
        ensures blank { grid_pixels result ≡ blank_pixels self.extent }
    {
        let Room {
            extent,
            mut colors,
            mut depths,
            spare,
        } = self;
        fill_up(&mut colors, extent.count(), CLEAR);
        fill_up(&mut depths, extent.count(), FAR);
        Grid {
            extent,
            colors,
            depths,
            spare,
        }
    }

    /// The pixels that it will have, as a list of their own.
    pub fn pixels(&self, alloc: Global) -> Result<Pixels, OutOfMemory>
        ensures { IfOk result (λ p. p ≡ blank_pixels self.now.extent) }
    {
        let mut pixels = Vec::new(alloc);
        pixels.resize(self.extent.count(), BLANK)?;
        Ok(Pixels::from_vec(pixels))
    }
}
