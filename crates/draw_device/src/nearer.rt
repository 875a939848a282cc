//! Pixels that become others which are nearer.
ghost use Rattle.std.specs.Prelude.{◌≡◌, ◌+◌, ◌-◌, ◌≤◌, length};
ghost use Rattle.rc_base.specs.Drawing.Nearer.{nearer};
ghost use Rattle.draw_device.specs.Active.{FitAmong, active_at, active_run, run_from};
ghost use Rattle.draw_device.specs.Beside.{StayBefore, StayBehind, TakesNearer};
ghost use Rattle.draw_device.specs.Grids.{grid_pixel};
ghost use Rattle.draw_device.specs.Pixels.{paired};

use crate::active::ActivePixels;
use crate::grid::Grid;
use rc_base::command::Rgba;
use rc_base::window::Pixel;

/// Of two pixels the nearer one, and of equally near ones the first.
pub fn nearer_of(a: Pixel, b: Pixel) -> Pixel
    ensures { result ≡ nearer a b }
{
    if b.depth < a.depth { b } else { a }
}

// Each pixel from a place on becomes the layer's, where that is nearer.
fn keep_nearer(
    colors: &mut [Rgba],
    depths: &mut [u32],
    layer_colors: &[Rgba],
    layer_depths: &[u32],
    from: usize,
)
    requires depths { length depths.old ≡ length colors.old }
    requires layer_depths { length layer_depths.now ≡ length layer_colors.now }
    requires room { from + length layer_colors.now ≤ length colors.old }
    ensures colors { length colors.new ≡ length colors.old }
    ensures depths { length depths.new ≡ length depths.old }
    ensures among { TakesNearer (run_from from (length layer_colors.now))
        (λ k. paired layer_colors.now layer_depths.now (k - from))
        (paired colors.old depths.old) (paired colors.new depths.new) }
    ensures below { StayBefore (run_from from (length layer_colors.now))
        (paired colors.old depths.old) (paired colors.new depths.new) }
    ensures above { StayBehind (run_from from (length layer_colors.now))
        (paired colors.old depths.old) (paired colors.new depths.new) }
{
    for j in 0..layer_colors.len() {
        let k = from + j;
        let old = Pixel {
            color: colors[k],
            depth: depths[k],
        };
        let new = Pixel {
            color: layer_colors[j],
            depth: layer_depths[j],
        };
        let kept = nearer_of(old, new);
        colors[k] = kept.color;
        depths[k] = kept.depth;
    }
}

impl Grid {
    /// Each pixel becomes the active one at its place, where that is nearer.
    pub(crate) fn take_nearer(&mut self, layer: &ActivePixels)
        requires { FitAmong (length self.old.colors.items) layer.now }
        ensures extent { self.new.extent ≡ self.old.extent }
        ensures among { TakesNearer (active_run layer.now) (active_at layer.now)
            (grid_pixel self.old) (grid_pixel self.new) }
        ensures below { StayBefore (active_run layer.now) (grid_pixel self.old) (grid_pixel self.new) }
        ensures above { StayBehind (active_run layer.now) (grid_pixel self.old) (grid_pixel self.new) }
    {
        keep_nearer(
            self.colors.as_mut_slice(),
            self.depths.as_mut_slice(),
            layer.colors.as_slice(),
            layer.depths.as_slice(),
            layer.from,
        );
    }
}
