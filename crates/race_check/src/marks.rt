//! The tables of a walk along an order: who touched each pixel last, and who wrote and who sampled each shared texture.
ghost use Rattle.std.specs.Prelude.{◌≡◌, ◌*◌, ◌⊎◌, length, IfOk};
ghost use Rattle.race_check.specs.Finds.{IsFoundOf, IsMarked, Tells, AreUnused, IsFirst, IsRunIn, run_has};
ghost use Rattle.race_check.specs.Touches.{AreTouched, IsFoundWhere, IsVisitOf, Touches};
ghost use Rattle.race_check.specs.Uses.{UsesTextures};
ghost use Rattle.race_check.specs.declared.verdict.Spot.TheVariants.{Shared};

use crate::cells::Cells;
use crate::found::Found;
use crate::run::Run;
use crate::verdict::Spot;
use crate::visit::{Seen, Visit};
use rc_base::out_of_memory::OutOfMemory;
use rc_base::sync::Name;
use rc_base::window::row_start;
use std::alloc::Global;

// A name touches the pixels of a run: what it finds there is added.
fn touch_pixels(pixels: &mut Cells, visit: &Visit, run: Run, best: Option<Found>) -> Option<Found>
    requires visit { IsVisitOf visit.now pixels.old }
    requires run { IsRunIn visit.now.width visit.now.height run }
    ensures size { length pixels.new.cells.items ≡ length pixels.old.cells.items }
    ensures cells { AreTouched (run_has run) visit.now
        pixels.old.cells.items pixels.new.cells.items }
    ensures best { Tells best (IsFoundWhere (run_has run) visit.now pixels.old.cells.items) result }
{
    let mut best = best;
    let start = row_start(visit.width, run.row);
    for x in run.from..run.to {
        let index = start + x as usize;
        let spot = Spot::Pixel { x, y: run.row };
        best = pixels.look(index, visit.name.client, &visit.clock, spot, best);
        pixels.mark(index, visit.name);
    }
    best
}

/// A name touches the pixels of a run.
pub fn touch_run(pixels: &mut Cells, visit: &Visit, run: Run, seen: Seen) -> Seen
    requires visit { IsVisitOf visit.now pixels.old }
    requires run { IsRunIn visit.now.width visit.now.height run }
    ensures { Touches (run_has run) visit.now pixels.old pixels.new seen result }
{
    Seen {
        best: touch_pixels(pixels, visit, run, seen.best),
        some: seen.some || run.from < run.to,
    }
}

/// Of each pixel and client the last place that touched it, and of each shared texture and client the last that wrote it and the last that
/// sampled it. The pixels' cells stand row by row from the bottom.
#[derive(Drop)]
pub struct Marks {
    pub pixels: Cells,
    pub writers: Cells,
    pub readers: Cells,
}

impl Marks {
    /// Nothing is used.
    pub fn new(alloc: Global, width: u16, height: u16) -> Result<Marks, OutOfMemory>
        ensures pixels { IfOk result (λ m. AreUnused (height * width) m.pixels.cells.items) }
        ensures writers { IfOk result (λ m. AreUnused 256 m.writers.cells.items) }
        ensures readers { IfOk result (λ m. AreUnused 256 m.readers.cells.items) }
    {
        Ok(Marks {
            pixels: Cells::new(alloc, row_start(width, height))?,
            writers: Cells::new(alloc, 256)?,
            readers: Cells::new(alloc, 256)?,
        })
    }

    /// A name writes a shared texture.
    pub fn write(&mut self, name: Name, clock: &[u32; 8], texture: u8) -> Option<Found>
        requires { UsesTextures name self.old }
        ensures same { (self.new.pixels ≡ self.old.pixels) × (self.new.readers ≡ self.old.readers) }
        ensures writers { IsMarked name self.old.writers texture self.new.writers }
        ensures best { IsFirst (λ x. IsFoundOf name clock.now self.old.writers texture x
            ⊎ IsFoundOf name clock.now self.old.readers texture x) result }
    {
        let index = texture as usize;
        let spot = Spot::Shared(texture);
        let written = self.writers.look(index, name.client, clock, spot, None);
        let best = self.readers.look(index, name.client, clock, spot, written);
        self.writers.mark(index, name);
        best
    }

    /// A name samples a shared texture.
    pub fn sample(
        &mut self,
        name: Name,
        clock: &[u32; 8],
        texture: u8,
        best: Option<Found>,
    ) -> Option<Found>
        requires { UsesTextures name self.old }
        ensures same { (self.new.pixels ≡ self.old.pixels) × (self.new.writers ≡ self.old.writers) }
        ensures readers { IsMarked name self.old.readers texture self.new.readers }
        ensures best { Tells best (IsFoundOf name clock.now self.old.writers texture) result }
    {
        let index = texture as usize;
        let found = self
            .writers
            .look(index, name.client, clock, Spot::Shared(texture), best);
        self.readers.mark(index, name);
        found
    }
}
