//! Who may have used a row or a column of the window, and a shared texture, by the boxes of commands.
ghost use Rattle.std.specs.Prelude.{◌≡◌, ◌+◌, ◌<◌, ◌^◌, true, IfOk};
ghost use Rattle.race_check.specs.Finds.{AreUnused};
ghost use Rattle.race_check.specs.Outlines.{HasMarked, IsInside, FitWindow, CountsAll};

use crate::cells::Cells;
use crate::found::{is_counted, is_either_counted};
use crate::reach::Reach;
use rc_base::out_of_memory::OutOfMemory;
use rc_base::sync::Name;
use std::alloc::Global;

/// Of each row and each column of the window and each client the last place whose command may have touched a pixel of it, and of each shared texture the last
/// that may have written it and the last that may have sampled it.
#[derive(Drop)]
pub struct Outlines {
    pub rows: Cells,
    pub columns: Cells,
    pub writers: Cells,
    pub readers: Cells,
}

impl Outlines {
    /// Nothing is used.
    pub fn new(alloc: Global, width: u16, height: u16) -> Result<Outlines, OutOfMemory>
        ensures rows { IfOk result (λ o. AreUnused height o.rows.cells.items) }
        ensures columns { IfOk result (λ o. AreUnused width o.columns.cells.items) }
        ensures writers { IfOk result (λ o. AreUnused 256 o.writers.cells.items) }
        ensures readers { IfOk result (λ o. AreUnused 256 o.readers.cells.items) }
    {
        Ok(Outlines {
            rows: Cells::new(alloc, height as usize)?,
            columns: Cells::new(alloc, width as usize)?,
            writers: Cells::new(alloc, 256)?,
            readers: Cells::new(alloc, 256)?,
        })
    }

    /// Whether a name with this clock has before it all that may conflict with it. What another client touched is apart from it where all of that is
    /// in other rows, or all of it in other columns.
    pub fn is_counted(&self, clock: &[u32; 8], reach: &Reach, width: u16, height: u16) -> bool
        requires fits { FitWindow width height self.now }
        requires inside { IsInside width height reach.now }
        ensures { result ≡ true → CountsAll clock.now reach.now self.now }
    {
        let _width = width;
        let _height = height;
        let rows = self.rows.greatest(reach.rows);
        let columns = self.columns.greatest(reach.columns);
        let written = self.writers.greatest(reach.writes);
        let read = self.readers.greatest(reach.writes);
        let sampled = self.writers.greatest(reach.samples);
        if !is_either_counted(clock, &rows, &columns) {
            return false;
        }
        if !is_counted(clock, &written) {
            return false;
        }
        if !is_counted(clock, &read) {
            return false;
        }
        is_counted(clock, &sampled)
    }

    /// The tables tell of a name.
    pub fn mark(&mut self, name: Name, reach: &Reach, width: u16, height: u16)
        requires client { name.client < 8 }
        requires place { name.place + 1 < 2 ^ 32 }
        requires fits { FitWindow width height self.old }
        requires inside { IsInside width height reach.now }
        ensures fits { FitWindow width height self.new }
        ensures rows { HasMarked name reach.now.rows self.old.rows self.new.rows }
        ensures columns { HasMarked name reach.now.columns self.old.columns self.new.columns }
        ensures writers { HasMarked name reach.now.writes self.old.writers self.new.writers }
        ensures readers { HasMarked name reach.now.samples self.old.readers self.new.readers }
    {
        let _width = width;
        let _height = height;
        self.rows.mark_all(reach.rows, name);
        self.columns.mark_all(reach.columns, name);
        self.writers.mark_all(reach.writes, name);
        self.readers.mark_all(reach.samples, name);
    }
}
