//! A row of a Clear. Where it writes all of a pixel, colours and depths go in a loop each, eight at a time.
ghost use Rattle.std.specs.Prelude.{◌≡◌, ◌+◌, ◌≤◌, length, true};
ghost use Rattle.fragment_ops.specs.Clearings.{writes_pixel};
ghost use Rattle.draw_device.specs.Loops.{AreColumnsOf, IsColorRun, IsDepthRun, IsRowWith};
ghost use Rattle.draw_device.specs.Setups.{IsRowCleared};

use crate::clear_setup::ClearSetup;
use crate::colors::fill_colors;
use rc_base::command::Rgba;
use rc_base::window::Pixel;

// One depth.
fn fill_depths(depths: &mut [u32], from: u16, to: u16, depth: u32)
    requires { AreColumnsOf (length depths.old) from to }
    ensures { IsDepthRun depth from to depths.old depths.new }
{
    for x in from..to {
        depths[x as usize] = depth;
    }
}

// One colour in eight columns. They go from an index on, since the compiler doesn't see neighbours in sums of 16 bits.
#[inline(always)]
fn set_eight_colors(colors: &mut [Rgba], at: usize, color: Rgba)
    requires room { at + 8 ≤ length colors.old }
    ensures { IsColorRun (λ k old. color) at (at + 8) colors.old colors.new }
{
    for k in 0..8usize {
        colors[at + k] = color;
    }
}

// The same of a depth.
#[inline(always)]
fn set_eight_depths(depths: &mut [u32], at: usize, depth: u32)
    requires room { at + 8 ≤ length depths.old }
    ensures { IsDepthRun depth at (at + 8) depths.old depths.new }
{
    for k in 0..8usize {
        depths[at + k] = depth;
    }
}

// One colour, in blocks of eight columns, and the rest of the row in a plain loop.
#[inline(never)]
fn clear_colors(colors: &mut [Rgba], from: u16, to: u16, color: Rgba)
    requires { AreColumnsOf (length colors.old) from to }
    ensures { IsColorRun (λ k old. color) from to colors.old colors.new }
{
    let mut x = from;
    'color_blocks: while to - x >= 8 {
        set_eight_colors(colors, x as usize, color);
        x += 8;
    }
    fill_colors(colors, x, to, color);
}

// The same of a depth.
#[inline(never)]
fn clear_depths(depths: &mut [u32], from: u16, to: u16, depth: u32)
    requires { AreColumnsOf (length depths.old) from to }
    ensures { IsDepthRun depth from to depths.old depths.new }
{
    let mut x = from;
    'depth_blocks: while to - x >= 8 {
        set_eight_depths(depths, x as usize, depth);
        x += 8;
    }
    fill_depths(depths, x, to, depth);
}

// Clears the columns from `from` to below `to` of a row where the Clear writes all of a pixel.
fn fill_clear(colors: &mut [Rgba], depths: &mut [u32], setup: &ClearSetup<'_>, from: u16, to: u16)
    requires whole { writes_pixel setup.now.clearing ≡ true }
    requires row { IsRowWith from to colors.old depths.old }
    ensures { IsRowCleared setup.now from to colors.old depths.old colors.new depths.new }
{
    let cleared = setup.clearing.pixel();
    clear_colors(colors, from, to, cleared.color);
    clear_depths(depths, from, to, cleared.depth);
}

// Clears the columns from `from` to below `to` of a row, whatever the Clear writes.
fn clear_run(colors: &mut [Rgba], depths: &mut [u32], setup: &ClearSetup<'_>, from: u16, to: u16)
    requires { IsRowWith from to colors.old depths.old }
    ensures { IsRowCleared setup.now from to colors.old depths.old colors.new depths.new }
{
    for x in from..to {
        let place = x as usize;
        let cleared = setup.clearing.clear(Pixel {
            color: colors[place],
            depth: depths[place],
        });
        colors[place] = cleared.color;
        depths[place] = cleared.depth;
    }
}

/// Clears the columns from `from` to below `to` of a row.
pub(crate) fn clear_row(
    colors: &mut [Rgba],
    depths: &mut [u32],
    setup: &ClearSetup<'_>,
    from: u16,
    to: u16,
)
    requires { IsRowWith from to colors.old depths.old }
    ensures { IsRowCleared setup.now from to colors.old depths.old colors.new depths.new }
{
    if setup.clearing.writes_pixel() {
        fill_clear(colors, depths, setup, from, to);
    } else {
        clear_run(colors, depths, setup, from, to);
    }
}
