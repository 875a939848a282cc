//! The pixels of a grid that something was drawn at, and pixels that become blank again.
ghost use Rattle.std.specs.Prelude.{◌≡◌, ℕ, ◌+◌, ◌<◌, ◌≤◌, true, length};
ghost use Rattle.rc_base.specs.Drawing.Serial.{blank_pixel};
ghost use Rattle.rc_base.specs.Drawing.Window.{depth_most};
ghost use Rattle.draw_device.specs.Beside.{AreFarBefore, AreFarBehind, EachIn, StayBefore, StayBehind};
ghost use Rattle.draw_device.specs.Grids.{IsFarAt, grid_pixel};
ghost use Rattle.draw_device.specs.Pixels.{depth_at, paired};

use crate::grid::Grid;
use crate::pixel_run::PixelRun;
use rc_base::command::Rgba;
use rc_base::window::Pixel;

/// The depth of a blank pixel.
pub(crate) const FAR: u32 = 16_777_215;

/// Its colour.
pub(crate) const CLEAR: Rgba = Rgba {
    r: 0,
    g: 0,
    b: 0,
    a: 0,
};

/// A blank pixel.
pub(crate) const BLANK: Pixel = Pixel {
    color: CLEAR,
    depth: FAR,
};

// So many depths are looked at together.
const STEP: usize = 32;

// Whether each depth of a step from this place on is the far end.
fn are_far(depths: &[u32], from: usize) -> bool
    requires { from + 32 ≤ length depths.now }
    ensures { result ≡ true → EachIn from (from + 32) (λ k. depth_at depths.now k ≡ depth_most) }
{
    let mut far = true;
    for k in from..from + STEP {
        far &= depths[k] == FAR;
    }
    far
}

// A place before which nothing is nearer than the far end. The first such place is less than a step from it, or there is none in a whole step.
fn passed_front(depths: &[u32]) -> usize
    ensures { AreFarBefore depths.now result }
{
    let steps = depths.len() / STEP;
    for step in 0..steps {
        if !are_far(depths, step * STEP) {
            return step * STEP;
        }
    }
    steps * STEP
}

// A place behind which nothing is so.
fn passed_back(depths: &[u32], from: usize) -> usize
    requires { from ≤ length depths.now }
    ensures { AreFarBehind depths.now from result }
{
    let count = depths.len();
    let steps = (count - from) / STEP;
    for step in 0..steps {
        let end = count - step * STEP;
        if !are_far(depths, end - STEP) {
            return end;
        }
    }
    count - steps * STEP
}

// The first place whose depth is nearer than the far end, or the number of all.
fn drawn_start(depths: &[u32]) -> usize
    ensures { AreFarBefore depths.now result }
{
    let count = depths.len();
    for k in passed_front(depths)..count {
        if depths[k] != FAR {
            return k;
        }
    }
    count
}

// The place behind the last such one, or the first place that is looked at.
fn drawn_end(depths: &[u32], from: usize) -> usize
    requires { from ≤ length depths.now }
    ensures { AreFarBehind depths.now from result }
{
    let end = passed_back(depths, from);
    for passed in 0..end - from {
        let k = end - 1 - passed;
        if depths[k] != FAR {
            return k + 1;
        }
    }
    from
}

// Pixels become blank.
fn blank_run(colors: &mut [Rgba], depths: &mut [u32], run: PixelRun)
    requires depths { length depths.old ≡ length colors.old }
    requires order { run.from ≤ run.to }
    requires room { run.to ≤ length colors.old }
    ensures colors { length colors.new ≡ length colors.old }
    ensures depths { length depths.new ≡ length depths.old }
    ensures among { EachIn run.from run.to (λ k. paired colors.new depths.new k ≡ blank_pixel) }
    ensures below { StayBefore run (paired colors.old depths.old) (paired colors.new depths.new) }
    ensures above { StayBehind run (paired colors.old depths.old) (paired colors.new depths.new) }
{
    for k in run.from..run.to {
        colors[k] = CLEAR;
        depths[k] = FAR;
    }
}

impl Grid {
    /// The run from the first pixel that is nearer than the far end to the last one.
    pub fn drawn(&self) -> PixelRun
        ensures order { result.from ≤ result.to }
        ensures inside { result.to ≤ length self.now.colors.items }
        ensures below { (k : ℕ) → k < result.from → IsFarAt self.now k }
        ensures above { EachIn result.to (length self.now.colors.items) (IsFarAt self.now) }
    {
        let depths = self.depths.as_slice();
        let from = drawn_start(depths);
        let to = drawn_end(depths, from);
        PixelRun { from, to }
    }

    /// The pixels of a run become blank.
    pub fn blank(&mut self, run: PixelRun)
        requires order { run.from ≤ run.to }
        requires room { run.to ≤ length self.old.colors.items }
        ensures extent { self.new.extent ≡ self.old.extent }
        ensures among { EachIn run.from run.to (λ k. grid_pixel self.new k ≡ blank_pixel) }
        ensures below { StayBefore run (grid_pixel self.old) (grid_pixel self.new) }
        ensures above { StayBehind run (grid_pixel self.old) (grid_pixel self.new) }
    {
        blank_run(self.colors.as_mut_slice(), self.depths.as_mut_slice(), run);
    }
}
