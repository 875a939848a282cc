//! The pixels of a row, one by one: each that the triangle covers takes its fragment, whose depth is tested before its colour is made.
ghost use Rattle.std.specs.Prelude.{◌≡◌, ◌+◌, pos, true, None, IfSome};
ghost use Rattle.rc_base.specs.Drawing.Cover.{is_inside};
ghost use Rattle.rc_base.specs.Drawing.Fragment.{fragment_of};
ghost use Rattle.rc_base.specs.Drawing.PixelStep.{fragment_color};
ghost use Rattle.raster.specs.Colors.{AreFlat};
ghost use Rattle.raster.specs.EdgeRamps.{IsEdgeRamp};
ghost use Rattle.raster.specs.Weighed.{IsWeighed};
ghost use Rattle.fragment_ops.specs.DepthTests.{pixel};
ghost use Rattle.textures.specs.Images.{HasTexelIfAny};
ghost use Rattle.draw_device.specs.Loops.{AreCovered, IsPut, IsRowWith};
ghost use Rattle.draw_device.specs.Setups.{IsShadingOf, IsWindowRowDrawn, fragment_by, tried_by};
ghost use Rattle.draw_device.specs.Shapes.{IsRowChanged};

use crate::grid::Extent;
use crate::hidden::passes_step;
use crate::pixels::{is_depth, test_step};
use crate::setup::Setup;
use crate::shading::Shading;
use crate::short_rows::laid;
use fragment_ops::{shade_pixel, texture_color};
use raster::{EdgeRamp, Weights, depth_at, edges_from, weighed_fragment, weights_at};
use rc_base::command::Rgba;
use rc_base::state::State;
use rc_base::triangle::WindowTriangle;
use rc_base::window::{Fragment, Pixel};
use textures::Texture;

// A fragment's colour after the texture stage.
fn colored(state: &State, texture: &Texture, fragment: &Fragment) -> Rgba
    requires { HasTexelIfAny texture.now }
    ensures { result ≡ fragment_color state.now texture.now fragment.now }
{
    if !texture.has_image() {
        return fragment.color;
    }
    let texel = texture.sample(fragment.s, fragment.t, state.tex_mode[1], state.tex_mode[2]);
    texture_color(state, fragment.color, texel)
}

/// Nothing is settled of the triangle.
pub(crate) fn unsettled(setup: &Setup<'_>) -> Shading
    ensures { IsShadingOf setup.now result }
{
    let _setup = setup;
    Shading {
        flat: None,
        over: None,
    }
}

// The colour of the triangle's fragment at a pixel after the texture stage.
#[inline(always)]
fn color_at(setup: &Setup<'_>, flat: Option<Rgba>, w: &Weights, x: i32, y: i32) -> Rgba
    requires inside { is_inside setup.now.tri.now.v x y ≡ true }
    requires weights { IsWeighed setup.now.tri.now.v x y w.now }
    requires none { IfSome flat (λ color. setup.now.texture.now ≡ None) }
    requires flat { IfSome flat (AreFlat setup.now.tri.now.v) }
    ensures { result ≡ fragment_color setup.now.state.now setup.now.texture.now
        (fragment_of setup.now.tri.now.v x y) }
{
    match flat {
        Some(color) => color,
        None => {
            let fragment = weighed_fragment(setup.tri, w, x, y);
            colored(setup.state, setup.texture, &fragment)
        }
    }
}

// A fragment with that colour after the texture stage and that depth goes into a pixel through all stages.
fn put_any(
    state: &State,
    x: i32,
    y: i32,
    color: Rgba,
    depth: i32,
    stored_color: &mut Rgba,
    stored_depth: &mut u32,
)
    ensures { IsPut state.now color depth stored_color.old stored_depth.old stored_color.new
        stored_depth.new }
{
    let old = Pixel {
        color: *stored_color,
        depth: *stored_depth,
    };
    let fragment = Fragment {
        x,
        y,
        color,
        depth,
        s: 0,
        t: 0,
    };
    let new = shade_pixel(state, &fragment, old);
    *stored_color = new.color;
    *stored_depth = new.depth;
}

// The triangle's fragment at a pixel goes into it.
#[inline(always)]
fn put_weighed(
    setup: &Setup<'_>,
    shading: Shading,
    w: &Weights,
    x: i32,
    y: i32,
    stored_color: &mut Rgba,
    stored_depth: &mut u32,
)
    requires inside { is_inside setup.now.tri.now.v x y ≡ true }
    requires weights { IsWeighed setup.now.tri.now.v x y w.now }
    requires shading { IsShadingOf setup.now shading }
    ensures { pixel stored_color.new stored_depth.new
        ≡ fragment_by setup.now x y (pixel stored_color.old stored_depth.old) }
{
    let depth = depth_at(setup.tri, w, x, y);
    if !is_depth(depth) {
        return;
    }
    let test = setup.plan.depth;
    if !passes_step(test, depth, *stored_depth) {
        return;
    }
    let color = color_at(setup, shading.flat, w, x, y);
    match shading.over {
        Some(over) => {
            let written = laid(setup, over, color, *stored_color);
            test_step(test, written, depth, stored_color, stored_depth);
        }
        None => put_any(setup.state, x, y, color, depth, stored_color, stored_depth),
    }
}

// The window's column of a column of the grid.
#[inline(always)]
fn column_of(extent: Extent, x: u16) -> i32
    ensures { result ≡ pos (extent.left + x) }
{
    i32::from(extent.left) + i32::from(x)
}

// The window's row.
#[inline(always)]
fn row_of(row: u16) -> i32
    ensures { result ≡ pos row }
{
    i32::from(row)
}

// The triangle's fragment at a column of the grid and a row of the window, which it covers, goes into the pixel.
#[inline(always)]
fn put_covered(
    setup: &Setup<'_>,
    shading: Shading,
    x: u16,
    row: u16,
    stored_color: &mut Rgba,
    stored_depth: &mut u32,
)
    requires inside { is_inside setup.now.tri.now.v (pos (setup.now.extent.left + x)) (pos row)
        ≡ true }
    requires shading { IsShadingOf setup.now shading }
    ensures { pixel stored_color.new stored_depth.new
        ≡ fragment_by setup.now (pos (setup.now.extent.left + x)) (pos row)
        (pixel stored_color.old stored_depth.old) }
{
    let column = column_of(setup.extent, x);
    let line = row_of(row);
    let w = weights_at(setup.tri, column, line);
    put_weighed(setup, shading, &w, column, line, stored_color, stored_depth);
}

// The same where the triangle covers the pixel; else that stays as it is.
#[inline(always)]
fn put_tried(
    setup: &Setup<'_>,
    shading: Shading,
    corners: &WindowTriangle,
    edges: &EdgeRamp,
    x: u16,
    row: u16,
    stored_color: &mut Rgba,
    stored_depth: &mut u32,
)
    requires shading { IsShadingOf setup.now shading }
    requires corners { corners.now.v ≡ setup.now.tri.now.v }
    requires edges { IsEdgeRamp corners.now.v (pos (setup.now.extent.left + x)) (pos row) edges.now }
    ensures { pixel stored_color.new stored_depth.new
        ≡ tried_by setup.now (pos (setup.now.extent.left + x)) (pos row)
        (pixel stored_color.old stored_depth.old) }
{
    let column = column_of(setup.extent, x);
    let line = row_of(row);
    if !edges.covers(corners, column, line) {
        return;
    }
    let w = edges.weights(corners, column, line);
    put_weighed(setup, shading, &w, column, line, stored_color, stored_depth);
}

// The triangle's edges at a column of the grid and a row of the window.
#[inline(always)]
fn edges_at(corners: &WindowTriangle, extent: Extent, x: u16, row: u16) -> EdgeRamp
    ensures { IsEdgeRamp corners.now.v (pos (extent.left + x)) (pos row) result }
{
    let column = column_of(extent, x);
    let line = row_of(row);
    edges_from(corners, column, line)
}

// The same at the next column.
#[inline(always)]
fn step_edges(edges: &mut EdgeRamp, corners: &WindowTriangle, extent: Extent, x: u16, row: u16)
    requires { IsEdgeRamp corners.now.v (pos (extent.left + x)) (pos row) edges.old }
    ensures { IsEdgeRamp corners.now.v (pos (extent.left + (x + 1))) (pos row) edges.new }
{
    let column = column_of(extent, x);
    let line = row_of(row);
    edges.advance(corners, column, line);
}

/// Draws columns `from` to below `to` of the window's row, pixel by pixel.
pub(crate) fn draw_run(
    colors: &mut [Rgba],
    depths: &mut [u32],
    setup: &Setup<'_>,
    shading: Shading,
    row: u16,
    from: u16,
    to: u16,
)
    requires shading { IsShadingOf setup.now shading }
    requires row { IsRowWith from to colors.old depths.old }
    requires covered { AreCovered setup.now.tri.now.v setup.now.extent.left row from to }
    ensures { IsWindowRowDrawn setup.now row from to colors.old depths.old colors.new depths.new }
{
    for x in from..to {
        let place = x as usize;
        put_covered(
            setup,
            shading,
            x,
            row,
            &mut colors[place],
            &mut depths[place],
        );
    }
}

/// The same of those pixels of them that the triangle covers.
#[inline(always)]
pub(crate) fn try_run(
    colors: &mut [Rgba],
    depths: &mut [u32],
    setup: &Setup<'_>,
    shading: Shading,
    corners: &WindowTriangle,
    row: u16,
    from: u16,
    to: u16,
)
    requires shading { IsShadingOf setup.now shading }
    requires corners { corners.now.v ≡ setup.now.tri.now.v }
    requires row { IsRowWith from to colors.old depths.old }
    ensures { IsRowChanged (tried_by setup.now) setup.now.extent.left row from to
        colors.old depths.old colors.new depths.new }
{
    let mut edges = edges_at(corners, setup.extent, from, row);
    for x in from..to {
        let place = x as usize;
        put_tried(
            setup,
            shading,
            corners,
            &edges,
            x,
            row,
            &mut colors[place],
            &mut depths[place],
        );
        step_edges(&mut edges, corners, setup.extent, x, row);
    }
}
