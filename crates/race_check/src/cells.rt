//! For each cell and client the last place that used the cell.
ghost use Rattle.std.specs.Prelude.{◌≡◌, ℕ, ◌+◌, ◌<◌, ◌≤◌, ◌^◌, length, slice_index, IfOk};
ghost use Rattle.happens_before.specs.Timelines.{IsJoined};
ghost use Rattle.race_check.specs.Finds.{Tells, cell_at, cell_of, AreUnused, IsFoundIn, mark};
ghost use Rattle.race_check.specs.Outlines.{AreMarked, IsAmong};

use crate::found::{Found, look};
use crate::range::Range;
use crate::verdict::Spot;
use rc_base::out_of_memory::OutOfMemory;
use rc_base::sync::Name;
use std::alloc::Global;

/// Of each cell and client one more than the last place that used it, 0 where none did.
#[derive(Drop)]
pub struct Cells {
    pub cells: Vec<[u32; 8]>,
}

// The greater number of each client.
fn raise(most: &mut [u32; 8], cell: &[u32; 8])
    ensures { IsJoined most.old (slice_index cell.now) most.new }
{
    for client in 0..8usize {
        most[client] = most[client].max(cell[client]);
    }
}

impl Cells {
    /// No cell is used.
    pub fn new(alloc: Global, count: usize) -> Result<Cells, OutOfMemory>
        ensures { IfOk result (λ c. AreUnused count c.cells.items) }
    {
        let mut cells = Vec::new(alloc);
        cells.resize(count, [0; 8])?;
        Ok(Cells { cells })
    }

    /// Adds what a cell tells of a name with this clock.
    pub fn look(
        &self,
        index: usize,
        own: u8,
        clock: &[u32; 8],
        spot: Spot,
        best: Option<Found>,
    ) -> Option<Found>
        requires { index < length self.now.cells.items }
        ensures { Tells best (IsFoundIn own clock.now (cell_of self.now index) spot) result }
    {
        look(best, own, clock, &self.cells[index], spot)
    }

    /// The name uses the cell.
    pub fn mark(&mut self, index: usize, name: Name)
        requires index { index < length self.old.cells.items }
        requires client { name.client < 8 }
        requires place { name.place + 1 < 2 ^ 32 }
        ensures { self.new.cells.items ≡ mark name self.old.cells.items index }
    {
        self.cells[index][name.client as usize] = name.place + 1;
    }

    /// The name uses all cells of a range.
    pub fn mark_all(&mut self, range: Range, name: Name)
        requires inside { range.to ≤ length self.old.cells.items }
        requires client { name.client < 8 }
        requires place { name.place + 1 < 2 ^ 32 }
        ensures { AreMarked name range self.old.cells.items self.new.cells.items }
    {
        for index in range.from..range.to {
            self.mark(index, name);
        }
    }

    /// Of each client the greatest number in the cells of a range.
    pub fn greatest(&self, range: Range) -> [u32; 8]
        requires { range.to ≤ length self.now.cells.items }
        ensures { (d : ℕ) → d < 8 → (i : ℕ) → IsAmong range i
            → slice_index (cell_at self.now.cells.items i) d ≤ slice_index result d }
    {
        let mut most = [0; 8];
        for index in range.from..range.to {
            raise(&mut most, &self.cells[index]);
        }
        most
    }
}
