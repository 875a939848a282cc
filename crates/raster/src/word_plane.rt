//! An attribute of 32 bits of a triangle as a plane over the pixels: its mean by weight, rounded down, at each pixel by one addition.
//!
//! The mean at a pixel is `n / area`, where `n` is affine in the pixel. It is kept as a number of 128 bits whose top 32 are the mean: in
//! parts of 2^96, rounded up, modulo 2^128. Each step adds at most 2^83 / area parts of error, so below 2^12 steps no mean is changed by it.
ghost use Rattle.std.specs.Prelude.{ℕ, ◌+◌, List, ℤ, pos, ◌+ℤ◌, ◌*ℤ◌};
ghost use Rattle.rc_base.specs.declared.window.WindowVertex.{WindowVertex as Point};
ghost use Rattle.raster.specs.Planes.{AreCorners, IsWordQuotient, IsWordPlane, IsWordRamp, IsWordPlaneOf, IsWordPlaneFrom, IsWordFloor, IsRampWord};

use crate::edges::{gain, sum};
use crate::quotients::{wide_high_parts, word_quotient};
use crate::triangle_setup::TriangleSetup;
use rc_base::triangle::WindowTriangle;

/// An attribute over the pixels: at one pixel, and what it gains to the next of the row and to the one above.
#[derive(Clone, Copy)]
pub struct WordPlane {
    at: u128,
    across: u128,
    up: u128,
}

/// An attribute at a pixel of a row, and what it gains to the next.
#[derive(Clone, Copy)]
pub struct WordRamp {
    at: u128,
    across: u128,
}

// Of an attribute that is the same at all corners.
fn flat_word_plane(a: i32) -> WordPlane
    ensures { (v : List Point) (x y : ℤ) (f : Point → ℤ) → AreCorners v f a a a
        → IsWordPlane v x y f result }
{
    WordPlane {
        at: wide_high_parts(i128::from(a)),
        across: 0,
        up: 0,
    }
}

fn word_plane_by(s: &TriangleSetup, a: i32, b: i32, c: i32) -> WordPlane
    ensures { IsWordPlaneOf s.now a b c result }
{
    let here = sum(&s.here, a, b, c);
    let right = sum(&s.right, a, b, c);
    let above = sum(&s.above, a, b, c);
    WordPlane {
        at: word_quotient(here, s),
        across: word_quotient(gain(right, here), s),
        up: word_quotient(gain(above, here), s),
    }
}

fn word_plane_of(s: &TriangleSetup, a: i32, b: i32, c: i32) -> WordPlane
    ensures { IsWordPlaneOf s.now a b c result }
{
    if a == b && b == c {
        return flat_word_plane(a);
    }
    word_plane_by(s, a, b, c)
}

// So many times `by` after `at`: of two quotients that of their sum.
fn word_moved(at: u128, by: u128, times: u64) -> u128
    ensures { (n a m : ℤ) (k : ℕ) → IsWordQuotient n a k at → IsWordQuotient m a 1 by
        → IsWordQuotient (n +ℤ pos times *ℤ m) a (k + times) result }
{
    at.wrapping_add(u128::from(times).wrapping_mul(by))
}

// The top 32 bits as a signed number.
fn top(at: u128) -> i32
    ensures { IsWordFloor at result }
{
    let biased = at.wrapping_add(170_141_183_460_469_231_731_687_303_715_884_105_728) >> 96;
    (biased as i64 - 2_147_483_648) as i32
}

impl WordPlane {
    /// The attribute at the pixel `i` columns further and `j` rows up.
    pub fn ramp(&self, i: u64, j: u64) -> WordRamp
        ensures { (v : List Point) (x y : ℤ) (f : Point → ℤ) → IsWordPlane v x y f self.now
            → IsWordRamp v (x +ℤ pos i) (y +ℤ pos j) f (1 + i + j) result }
    {
        WordRamp {
            at: word_moved(word_moved(self.at, self.across, i), self.up, j),
            across: self.across,
        }
    }
}

impl WordRamp {
    /// The attribute of the fragment at the pixel, which the triangle covers, if fewer than 2^12 steps lead there from the plane's first
    /// pixel.
    pub fn mean(&self) -> i32
        ensures { IsRampWord self.now result }
    {
        top(self.at)
    }

    /// Goes to the next pixel of the row.
    pub fn advance(&mut self)
        ensures { (v : List Point) (x y : ℤ) (f : Point → ℤ) (k : ℕ)
            → IsWordRamp v x y f k self.old → IsWordRamp v (x +ℤ pos 1) y f (k + 1) self.new }
    {
        self.at = self.at.wrapping_add(self.across);
    }
}

/// The depth of a triangle from the setup's pixel on.
pub fn depth_plane(tri: &WindowTriangle, setup: &TriangleSetup) -> WordPlane
    ensures { IsWordPlaneFrom tri.now.v setup.now (λ (c : Point). c.z) result }
{
    word_plane_of(setup, tri.v[0].z, tri.v[1].z, tri.v[2].z)
}

/// The texture coordinates s and t of a triangle from the setup's pixel on.
pub fn coordinate_planes(tri: &WindowTriangle, setup: &TriangleSetup) -> (WordPlane, WordPlane)
    ensures s { IsWordPlaneFrom tri.now.v setup.now (λ (c : Point). c.s) result.0 }
    ensures t { IsWordPlaneFrom tri.now.v setup.now (λ (c : Point). c.t) result.1 }
{
    let [a, b, c] = &tri.v;
    (
        word_plane_of(setup, a.s, b.s, c.s),
        word_plane_of(setup, a.t, b.t, c.t),
    )
}
