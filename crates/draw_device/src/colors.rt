//! A row of colours: those of a triangle's fragments after the texture stage.
ghost use Rattle.std.specs.Prelude.{◌≡◌, length};
ghost use Rattle.rc_base.specs.Drawing.PixelStep.{textured};
ghost use Rattle.draw_device.specs.Pixels.{color_at};
ghost use Rattle.draw_device.specs.Loops.{run_color, AreColumnsOf, AreColumnsOfBoth, IsColorRun, IsRampAlong, IsRunColored};
ghost use Rattle.draw_device.specs.Plans.{Modulates};
ghost use Rattle.draw_device.specs.Setups.{AreTexelsAlong, IsSampledAt, RepeatsBothWays, run_texel};

use crate::run::Run;
use crate::setup::Setup;
use crate::stepped::{color_by, value_by, value_ramp};
use fragment_ops::modulate;
use raster::{ColorRamp, WordPlane};
use rc_base::command::Rgba;
use rc_base::state::State;
use rc_base::triangle::WindowTriangle;
use textures::Sampler;

/// One colour. The row is given by its numbers and not by a `Run`: small triangles are mostly such rows, and a number goes over in a register.
#[inline(never)]
pub(crate) fn fill_colors(colors: &mut [Rgba], from: u16, to: u16, color: Rgba)
    requires { AreColumnsOf (length colors.old) from to }
    ensures { IsColorRun (λ k old. color) from to colors.old colors.new }
{
    for x in from..to {
        colors[x as usize] = color;
    }
}

/// The colours of another row.
#[inline(never)]
pub(crate) fn copy_colors(colors: &mut [Rgba], others: &[Rgba], from: u16, to: u16)
    requires { AreColumnsOfBoth (length colors.old) (length others.now) from to }
    ensures { IsColorRun (λ k old. color_at others.now k) from to colors.old colors.new }
{
    for x in from..to {
        colors[x as usize] = others[x as usize];
    }
}

/// The triangle's colours, by one addition a channel and pixel.
#[inline(never)]
pub(crate) fn step_colors(colors: &mut [Rgba], tri: &WindowTriangle, run: Run, first: ColorRamp)
    requires { IsRampAlong tri.now.v run colors.old first }
    ensures { IsRunColored run (λ k old. run_color tri.now.v run k) colors.old colors.new }
{
    let mut ramp = first;
    for x in run.from..run.to {
        colors[x as usize] = color_by(&ramp, tri, run, x);
        ramp.advance();
    }
}

// The texel at a texture coordinate.
#[inline(always)]
fn texel(sampler: Sampler<'_>, setup: &Setup<'_>, run: Run, x: u16, s: i32, t: i32) -> Rgba
    requires { IsSampledAt setup.now run x sampler s t }
    ensures { result ≡ run_texel setup.now run x }
{
    let _setup = setup;
    let _place = (run.left, run.row, x);
    sampler.nearest(s, t)
}

// The same of an image that repeats along both sides.
#[inline(always)]
fn repeated_texel(sampler: Sampler<'_>, setup: &Setup<'_>, run: Run, x: u16, s: i32, t: i32) -> Rgba
    requires place { IsSampledAt setup.now run x sampler s t }
    requires repeated { RepeatsBothWays sampler }
    ensures { result ≡ run_texel setup.now run x }
{
    let _setup = setup;
    let _place = (run.left, run.row, x);
    sampler.nearest_repeated(s, t)
}

/// The texels of the triangle's fragments.
#[inline(never)]
pub(crate) fn texel_colors(
    colors: &mut [Rgba],
    setup: &Setup<'_>,
    sampler: Sampler<'_>,
    s_plane: &WordPlane,
    t_plane: &WordPlane,
    run: Run,
)
    requires { AreTexelsAlong setup.now run colors.old sampler s_plane.now t_plane.now }
    ensures { IsRunColored run (λ k old. run_texel setup.now run k) colors.old colors.new }
{
    let mut ss = value_ramp(s_plane, run);
    let mut ts = value_ramp(t_plane, run);
    for x in run.from..run.to {
        let s = value_by(&ss, setup.tri, run, x);
        let t = value_by(&ts, setup.tri, run, x);
        colors[x as usize] = texel(sampler, setup, run, x, s, t);
        ss.advance();
        ts.advance();
    }
}

/// The same of an image that repeats along both sides.
#[inline(never)]
pub(crate) fn repeat_colors(
    colors: &mut [Rgba],
    setup: &Setup<'_>,
    sampler: Sampler<'_>,
    s_plane: &WordPlane,
    t_plane: &WordPlane,
    run: Run,
)
    requires along { AreTexelsAlong setup.now run colors.old sampler s_plane.now t_plane.now }
    requires repeated { RepeatsBothWays sampler }
    ensures { IsRunColored run (λ k old. run_texel setup.now run k) colors.old colors.new }
{
    let mut ss = value_ramp(s_plane, run);
    let mut ts = value_ramp(t_plane, run);
    for x in run.from..run.to {
        let s = value_by(&ss, setup.tri, run, x);
        let t = value_by(&ts, setup.tri, run, x);
        colors[x as usize] = repeated_texel(sampler, setup, run, x, s, t);
        ss.advance();
        ts.advance();
    }
}

/// The texture stage of texels and the triangle's colours, by MODULATE.
#[inline(never)]
pub(crate) fn tint_colors(
    colors: &mut [Rgba],
    state: &State,
    tri: &WindowTriangle,
    run: Run,
    first: ColorRamp,
)
    requires along { IsRampAlong tri.now.v run colors.old first }
    requires kind { Modulates state.now }
    ensures { IsRunColored run (λ k texel. textured state.now (run_color tri.now.v run k) texel)
        colors.old colors.new }
{
    let _state = state;
    let mut ramp = first;
    for x in run.from..run.to {
        let color = color_by(&ramp, tri, run, x);
        colors[x as usize] = modulate(color, colors[x as usize]);
        ramp.advance();
    }
}
