//! What is settled once a block, and once a triangle.
ghost use Rattle.std.specs.Prelude.{◌≡◌, ℤ, pos, true, false, None, IfSome};
ghost use Rattle.rc_base.specs.Drawing.Texel.{wrap_in_s, wrap_in_t};
ghost use Rattle.raster.specs.Colors.{AreFlat};
ghost use Rattle.raster.specs.Planes.{IsTriangleSetup};
ghost use Rattle.textures.specs.Images.{HasTexel, HasTexelIfAny};
ghost use Rattle.textures.specs.Samplers.{IsSampler};
ghost use Rattle.draw_device.specs.Plans.{IsPlan, IsWrite, IsSourceFrom, IsTests, AreStored, AreUntested, IsLaidAlone, IsShading, Replaces, Modulates};

use crate::plan::Plan;
use crate::shading::Shading;
use crate::source::Source;
use crate::tests::Tests;
use crate::write::Write;
use fragment_ops::{
    alpha_test_of, blends_over, blends_sum, depth_test_of, factor_named, stores_alone,
    writes_channels, writes_plainly,
};
use raster::{
    TriangleSetup, color_plane, coordinate_planes, depth_plane, flat_color, has_depths, setup_at,
};
use rc_base::command::Rgba;
use rc_base::state::State;
use rc_base::triangle::WindowTriangle;
use rc_base::window::Rect;
use textures::{Sampler, Texture};

// The texture environment is REPLACE, and not MODULATE.
#[tactic(auto, unfolding(rc_base::specs::Drawing::PixelStep::textured))]
fn replaces(state: &State) -> bool
    ensures replaced { result ≡ true → Replaces state.now }
    ensures modulated { result ≡ false → Modulates state.now }
{
    state.tex_mode[0] != 0
}

// The depth test is off.
fn is_untested(state: &State) -> bool
    ensures { result ≡ true → state.now.depth_on ≡ false }
{
    !state.depth_on
}

// The alpha test is off.
fn is_through(state: &State) -> bool
    ensures { result ≡ true → state.now.alpha_on ≡ false }
{
    !state.alpha_on
}

// How the state's colours are written.
fn write_of(state: &State) -> Write
    ensures { IsWrite state.now result }
{
    if writes_plainly(state) {
        return Write::Plain;
    }
    if blends_over(state) {
        return Write::Over;
    }
    if blends_sum(state) {
        return Write::Sum;
    }
    if !state.blend_on {
        return Write::Masked;
    }
    let first = factor_named(state.blend[0]);
    let second = factor_named(state.blend[1]);
    if writes_channels(state) {
        return Write::Blended(first, second);
    }
    Write::Both(first, second)
}

/// What the state says of all fragments of a block.
pub(crate) fn plan_of(state: &State) -> Plan
    ensures { IsPlan state.now result }
{
    Plan {
        depth: depth_test_of(state),
        alpha: alpha_test_of(state),
        write: write_of(state),
        stores: stores_alone(state),
        through: is_through(state),
        untested: is_untested(state),
        replaces: replaces(state),
    }
}

// Whether colours are laid over the stored ones, or written as they are, where no alpha test is taken.
fn over_of(state: &State, plan: &Plan) -> Option<bool>
    requires { IsPlan state.now plan.now }
    ensures { IfSome result (IsLaidAlone state.now) }
{
    let _state = state;
    if !plan.through {
        return None;
    }
    match plan.write {
        Write::Plain => Some(false),
        Write::Over => Some(true),
        _ => None,
    }
}

/// What is settled of a triangle whose pixels are drawn one by one.
pub(crate) fn shading_of(
    state: &State,
    texture: &Texture,
    plan: &Plan,
    tri: &WindowTriangle,
) -> Shading
    requires { IsPlan state.now plan.now }
    ensures { IsShading state.now texture.now tri.now.v result }
{
    Shading {
        flat: untextured_color(texture, tri),
        over: over_of(state, plan),
    }
}

// Twice the area of eight pixels, in square sixteenths of a pixel.
const TINY_AREA: i64 = 4_096;

// So many pixels are tried one by one, where colours alone are stored, and else.
const FEW_STORED: i64 = 9;

const FEW: i64 = 32;

/// Whether a part with columns and rows has so few pixels that to try each of them costs less than to find the covered ones row by row.
pub(crate) fn has_few(part: Rect, stores: bool) -> bool {
    let width = i64::from(part.x1) - i64::from(part.x0);
    let height = i64::from(part.y1) - i64::from(part.y0);
    let most = if stores { FEW_STORED } else { FEW };
    width <= most && height <= most && width.wrapping_mul(height) <= most
}

/// Whether a triangle is so small that its planes cost more than its pixels do, one by one. Many of these cover no pixel at all.
pub(crate) fn is_tiny(tri: &WindowTriangle) -> bool {
    tri.area <= TINY_AREA
}

/// What all attributes of a triangle share, from pixel (`left`, `bottom`) on.
pub(crate) fn shared_at(tri: &WindowTriangle, left: u16, bottom: u16) -> TriangleSetup
    ensures { IsTriangleSetup tri.now.v (pos left) (pos bottom) result }
{
    setup_at(tri, i32::from(left), i32::from(bottom))
}

/// The one colour of all of a triangle's fragments, where no texture changes it.
pub(crate) fn untextured_color(texture: &Texture, tri: &WindowTriangle) -> Option<Rgba>
    ensures none { IfSome result (λ color. texture.now ≡ None) }
    ensures flat { IfSome result (λ color. AreFlat tri.now.v color) }
{
    if texture.has_image() {
        return None;
    }
    flat_color(tri)
}

// The triangle's own colours, without a texture: one, where it was found, or a plane of them.
fn plain_source<'a>(
    state: &State,
    texture: &'a Texture,
    tri: &WindowTriangle,
    flat: Option<Rgba>,
    shared: &TriangleSetup,
) -> Source<'a>
    requires none { texture.now ≡ None }
    requires flat { IfSome flat (λ color. AreFlat tri.now.v color) }
    ensures { IsSourceFrom state.now texture.now tri.now.v shared.now result }
{
    let _state = state;
    let _texture = texture;
    match flat {
        Some(color) => Source::Flat(color),
        None => Source::Smooth(color_plane(tri, shared)),
    }
}

// Texels, which replace the triangle's colours or are modulated by them.
fn texel_source<'a>(
    state: &State,
    texture: &'a Texture,
    plan: &Plan,
    sampler: Sampler<'a>,
    tri: &WindowTriangle,
    shared: &TriangleSetup,
) -> Source<'a>
    requires plan { IsPlan state.now plan.now }
    requires texel { HasTexel texture.now }
    requires sampler { IsSampler texture.now (wrap_in_s state.now) (wrap_in_t state.now) sampler }
    ensures { IsSourceFrom state.now texture.now tri.now.v shared.now result }
{
    let _state = state;
    let _texture = texture;
    let (ss, ts) = coordinate_planes(tri, shared);
    if plan.replaces {
        return Source::Texels(sampler, ss, ts);
    }
    Source::Tinted(sampler, ss, ts, color_plane(tri, shared))
}

/// The tests of a triangle's fragments.
pub(crate) fn tests_of(
    state: &State,
    plan: &Plan,
    tri: &WindowTriangle,
    shared: &TriangleSetup,
) -> Tests
    requires { IsPlan state.now plan.now }
    ensures { (x y : ℤ) → IsTriangleSetup tri.now.v x y shared.now
        → IsTests state.now tri.now.v x y result }
{
    let _state = state;
    if !has_depths(tri) {
        return Tests::Any(depth_plane(tri, shared));
    }
    if plan.untested {
        if plan.through {
            return Tests::Off;
        }
        return Tests::Alpha;
    }
    if plan.through {
        return Tests::Depth(depth_plane(tri, shared));
    }
    Tests::Both(depth_plane(tri, shared))
}

/// How the colours of a triangle's fragments are made: of texels, where the texture has one, else of its one colour, where it was found.
pub(crate) fn source_of<'a>(
    state: &State,
    texture: &'a Texture,
    plan: &Plan,
    tri: &WindowTriangle,
    flat: Option<Rgba>,
    shared: &TriangleSetup,
) -> Source<'a>
    requires plan { IsPlan state.now plan.now }
    requires texel { HasTexelIfAny texture.now }
    requires flat { IfSome flat (λ color. AreFlat tri.now.v color) }
    ensures { IsSourceFrom state.now texture.now tri.now.v shared.now result }
{
    match texture.sampler(state.tex_mode[1], state.tex_mode[2]) {
        Some(sampler) => texel_source(state, texture, plan, sampler, tri, shared),
        None => plain_source(state, texture, tri, flat, shared),
    }
}

/// Whether of a triangle's fragments the colours alone are stored.
pub(crate) fn stores_colors(
    state: &State,
    texture: &Texture,
    plan: &Plan,
    tri: &WindowTriangle,
) -> bool
    requires { IsPlan state.now plan.now }
    ensures { result ≡ true → AreStored state.now texture.now tri.now.v }
{
    let _state = state;
    if !plan.stores {
        return false;
    }
    if texture.has_image() {
        return false;
    }
    has_depths(tri)
}

/// Whether a triangle's fragments take no test.
pub(crate) fn takes_no_test(state: &State, plan: &Plan, tri: &WindowTriangle) -> bool
    requires { IsPlan state.now plan.now }
    ensures { result ≡ true → AreUntested state.now tri.now.v }
{
    let _state = state;
    if !plan.through {
        return false;
    }
    if !plan.untested {
        return false;
    }
    has_depths(tri)
}
