//! What was drawn on a device, without the blank pixels before and behind it.
ghost use Rattle.std.specs.Prelude.{◌≡◌, ◌-◌, ◌≤◌, [], length, take, drop, OnOk};
ghost use Rattle.draw_device.specs.Active.{AreCopied};

use crate::grid::Grid;
use crate::pixel_run::PixelRun;
use rc_base::command::Rgba;
use rc_base::out_of_memory::OutOfMemory;
use std::alloc::Global;

// A list becomes a part of another one.
fn copy_part<T: Copy>(items: &mut Vec<T>, all: &[T], run: PixelRun) -> Result<(), OutOfMemory>
    requires order { run.from ≤ run.to }
    requires room { run.to ≤ length all.now }
    ensures { OnOk result (items.new.items ≡ take (run.to - run.from) (drop run.from all.now)) }
{
    items.clear();
    items.extend_from_slice(&all[run.from..run.to])?;
    Ok(())
}

/// The active pixels of a layer: the colours and depths of a run of a device's pixels, from the place `from` on, beside which the layer is blank. Its memory
/// is that of the longest run that it had.
#[derive(Drop)]
pub struct ActivePixels {
    pub(crate) from: usize,
    pub(crate) colors: Vec<Rgba>,
    pub(crate) depths: Vec<u32>,
}

impl ActivePixels {
    /// None: a blank layer.
    pub fn none(alloc: Global) -> ActivePixels
        ensures { result.colors.items ≡ [] }
    {
        ActivePixels {
            from: 0,
            colors: Vec::new(alloc),
            depths: Vec::new(alloc),
        }
    }

    /// How many there are.
    pub fn count(&self) -> usize
        ensures { result ≡ length self.now.colors.items }
    {
        self.colors.len()
    }

    /// They become those of a run of the grid.
    pub(crate) fn copy_run(&mut self, grid: &Grid, run: PixelRun) -> Result<(), OutOfMemory>
        requires order { run.from ≤ run.to }
        requires room { run.to ≤ length grid.now.colors.items }
        ensures { OnOk result (AreCopied grid.now run self.new) }
    {
        self.from = run.from;
        copy_part(&mut self.colors, grid.colors.as_slice(), run)?;
        copy_part(&mut self.depths, grid.depths.as_slice(), run)?;
        Ok(())
    }
}
