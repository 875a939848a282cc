//! A byte attribute of a triangle as a plane over the pixels: its mean by weight, rounded down, at each pixel by one addition.
//!
//! The mean at a pixel is `n / area`, where `n` is affine in the pixel. It is kept as a number of 64 bits whose top eight are the mean: in
//! parts of 2^56, rounded up, modulo 2^64. Each step adds at most 2^44 / area parts of error, so below 2^12 steps no mean is changed by it.
ghost use Rattle.std.specs.Prelude.{ℕ, ◌+◌, List, ℤ, pos, ◌+ℤ◌, ◌*ℤ◌};
ghost use Rattle.rc_base.specs.declared.window.WindowVertex.{WindowVertex as Point};
ghost use Rattle.raster.specs.Planes.{AreCorners, IsByteQuotient, IsBytePlane, IsByteRamp, IsByteRise, IsBytePlaneFor, IsRampByte, IsRiseByte};

use crate::edges::{gain, sum};
use crate::quotients::byte_quotient;
use crate::triangle_setup::TriangleSetup;

/// An attribute over the pixels: at one pixel, and what it gains to the next of the row and to the one above.
#[derive(Clone, Copy)]
pub struct BytePlane {
    at: u64,
    across: u64,
    up: u64,
}

/// An attribute at a pixel, and what it gains to the next of the row, or of the column.
#[derive(Clone, Copy)]
pub struct ByteRamp {
    at: u64,
    gain: u64,
}

fn byte_plane_by(s: &TriangleSetup, a: u8, b: u8, c: u8) -> BytePlane
    ensures { IsBytePlaneFor s.now a b c result }
{
    let (a, b, c) = (i32::from(a), i32::from(b), i32::from(c));
    let here = sum(&s.here, a, b, c);
    let right = sum(&s.right, a, b, c);
    let above = sum(&s.above, a, b, c);
    BytePlane {
        at: byte_quotient(here, s),
        across: byte_quotient(gain(right, here), s),
        up: byte_quotient(gain(above, here), s),
    }
}

// Of a channel that is the same at all corners.
fn flat_byte_plane(a: u8) -> BytePlane
    ensures { (v : List Point) (x y : ℤ) (f : Point → ℤ)
        → AreCorners v f (pos a) (pos a) (pos a) → IsBytePlane v x y f result }
{
    BytePlane {
        at: u64::from(a) * 72_057_594_037_927_936,
        across: 0,
        up: 0,
    }
}

pub(crate) fn byte_plane_of(s: &TriangleSetup, a: u8, b: u8, c: u8) -> BytePlane
    ensures { IsBytePlaneFor s.now a b c result }
{
    if a == b && b == c {
        return flat_byte_plane(a);
    }
    byte_plane_by(s, a, b, c)
}

// So many times `by` after `at`: of two quotients that of their sum.
fn byte_moved(at: u64, by: u64, times: u64) -> u64
    ensures { (n a m : ℤ) (k : ℕ) → IsByteQuotient n a k at → IsByteQuotient m a 1 by
        → IsByteQuotient (n +ℤ pos times *ℤ m) a (k + times) result }
{
    at.wrapping_add(times.wrapping_mul(by))
}

impl BytePlane {
    /// The attribute at the pixel `i` columns further and `j` rows up.
    pub(crate) fn ramp(&self, i: u64, j: u64) -> ByteRamp
        ensures { (v : List Point) (x y : ℤ) (f : Point → ℤ) → IsBytePlane v x y f self.now
            → IsByteRamp v (x +ℤ pos i) (y +ℤ pos j) f (1 + i + j) result }
    {
        ByteRamp {
            at: byte_moved(byte_moved(self.at, self.across, i), self.up, j),
            gain: self.across,
        }
    }

    /// The same as `ramp`, to be stepped up the column.
    pub(crate) fn rise(&self, i: u64, j: u64) -> ByteRamp
        ensures { (v : List Point) (x y : ℤ) (f : Point → ℤ) → IsBytePlane v x y f self.now
            → IsByteRise v (x +ℤ pos i) (y +ℤ pos j) f (1 + i + j) result }
    {
        ByteRamp {
            at: byte_moved(byte_moved(self.at, self.across, i), self.up, j),
            gain: self.up,
        }
    }
}

impl ByteRamp {
    /// The mean at the pixel.
    pub(crate) fn mean(&self) -> u8
        ensures across { IsRampByte self.now result }
        ensures up { IsRiseByte self.now result }
    {
        (self.at >> 56) as u8
    }

    /// Goes to the next pixel of the row, or of the column.
    pub(crate) fn advance(&mut self)
        ensures across { (v : List Point) (x y : ℤ) (f : Point → ℤ) (k : ℕ)
            → IsByteRamp v x y f k self.old → IsByteRamp v (x +ℤ pos 1) y f (k + 1) self.new }
        ensures up { (v : List Point) (x y : ℤ) (f : Point → ℤ) (k : ℕ)
            → IsByteRise v x y f k self.old → IsByteRise v x (y +ℤ pos 1) f (k + 1) self.new }
    {
        self.at = self.at.wrapping_add(self.gain);
    }
}
