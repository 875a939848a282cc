//! The colour of a triangle over the pixels, channel by channel as a plane; and what its corners have in common.
ghost use Rattle.std.specs.Prelude.{◌≡◌, ◌+◌, List, ℤ, pos, ◌+ℤ◌, ◌==◌, ◌&&◌, true, false, MatchOption};
ghost use Rattle.rc_base.specs.Drawing.Cover.{corner};
ghost use Rattle.rc_base.specs.declared.window.WindowVertex.{WindowVertex as Point};
ghost use Rattle.raster.specs.Planes.{IsTriangleSetup};
ghost use Rattle.raster.specs.Colors.{IsColorPlane, IsColorRamp, IsColorRise, IsRampColor, IsRiseColor, IsNextColorRamp, IsNextColorRise, AreFlat, HasDepths, are_one, has_one_color, is_depth};

use crate::byte_plane::{BytePlane, ByteRamp, byte_plane_of};
use crate::triangle_setup::TriangleSetup;
use rc_base::command::Rgba;
use rc_base::triangle::WindowTriangle;

/// The four channels over the pixels.
#[derive(Clone, Copy)]
pub struct ColorPlane {
    r: BytePlane,
    g: BytePlane,
    b: BytePlane,
    a: BytePlane,
}

/// The four channels at a pixel, to be stepped along the row, or up the column.
#[derive(Clone, Copy)]
pub struct ColorRamp {
    r: ByteRamp,
    g: ByteRamp,
    b: ByteRamp,
    a: ByteRamp,
}

/// The colour of a triangle from the setup's pixel on.
pub fn color_plane(tri: &WindowTriangle, setup: &TriangleSetup) -> ColorPlane
    ensures { (x y : ℤ) → IsTriangleSetup tri.now.v x y setup.now
        → IsColorPlane tri.now.v x y result }
{
    let [a, b, c] = &tri.v;
    ColorPlane {
        r: byte_plane_of(setup, a.color.r, b.color.r, c.color.r),
        g: byte_plane_of(setup, a.color.g, b.color.g, c.color.g),
        b: byte_plane_of(setup, a.color.b, b.color.b, c.color.b),
        a: byte_plane_of(setup, a.color.a, b.color.a, c.color.a),
    }
}

impl ColorPlane {
    /// The colour at the pixel `i` columns further and `j` rows up.
    pub fn ramp(&self, i: u64, j: u64) -> ColorRamp
        ensures { (v : List Point) (x y : ℤ) → IsColorPlane v x y self.now
            → IsColorRamp v (x +ℤ pos i) (y +ℤ pos j) (1 + i + j) result }
    {
        ColorRamp {
            r: self.r.ramp(i, j),
            g: self.g.ramp(i, j),
            b: self.b.ramp(i, j),
            a: self.a.ramp(i, j),
        }
    }

    /// The same as `ramp`, to be stepped up the column.
    pub fn rise(&self, i: u64, j: u64) -> ColorRamp
        ensures { (v : List Point) (x y : ℤ) → IsColorPlane v x y self.now
            → IsColorRise v (x +ℤ pos i) (y +ℤ pos j) (1 + i + j) result }
    {
        ColorRamp {
            r: self.r.rise(i, j),
            g: self.g.rise(i, j),
            b: self.b.rise(i, j),
            a: self.a.rise(i, j),
        }
    }
}

impl ColorRamp {
    /// The colour of the fragment at the pixel, which the triangle covers, if fewer than 2^12 steps lead there from the plane's first pixel.
    pub fn color(&self) -> Rgba
        ensures across { IsRampColor self.now result }
        ensures up { IsRiseColor self.now result }
    {
        Rgba {
            r: self.r.mean(),
            g: self.g.mean(),
            b: self.b.mean(),
            a: self.a.mean(),
        }
    }

    /// Goes to the next pixel of the row, or of the column.
    pub fn advance(&mut self)
        ensures across { IsNextColorRamp self.old self.new }
        ensures up { IsNextColorRise self.old self.new }
    {
        self.r.advance();
        self.g.advance();
        self.b.advance();
        self.a.advance();
    }
}

fn are_equal(a: u8, b: u8, c: u8) -> bool
    ensures { result ≡ (a == b && b == c) }
{
    a == b && b == c
}

fn are_one(a: Rgba, b: Rgba, c: Rgba) -> bool
    ensures { result ≡ are_one a b c }
{
    are_equal(a.r, b.r, c.r)
        && (are_equal(a.g, b.g, c.g) && (are_equal(a.b, b.b, c.b) && are_equal(a.a, b.a, c.a)))
}

/// The one colour of all fragments of the triangle; none exactly where its corners have not one colour.
pub fn flat_color(tri: &WindowTriangle) -> Option<Rgba>
    ensures answer { MatchOption result (has_one_color tri.now.v ≡ false) (λ color. has_one_color tri.now.v ≡ true) }
    ensures color { MatchOption result (has_one_color tri.now.v ≡ false) (AreFlat tri.now.v) }
{
    let [a, b, c] = &tri.v;
    if !are_one(a.color, b.color, c.color) {
        return None;
    }
    Some(a.color)
}

fn is_depth(z: i32) -> bool
    ensures { result ≡ is_depth z }
{
    0 <= z && z <= 16_777_215
}

/// Whether each corner's depth lies in the buffer's range; then each fragment's does.
pub fn has_depths(tri: &WindowTriangle) -> bool
    ensures corners { result ≡ (is_depth (corner tri.now.v 0).z
        && (is_depth (corner tri.now.v 1).z && is_depth (corner tri.now.v 2).z)) }
    ensures fragments { result ≡ true → HasDepths tri.now.v }
{
    is_depth(tri.v[0].z) && (is_depth(tri.v[1].z) && is_depth(tri.v[2].z))
}
