//! Eight pixels of a row at once: the values of a triangle's edges at their centres, by lanes, and a bit for each that is covered.
ghost use Rattle.std.specs.Prelude.{◌≡◌, ℕ, ◌<◌, ◌^◌, ◌-◌, min, length, map, ℤ, pos, neg_ℤ, ◌+ℤ◌, ◌-ℤ◌, ◌*ℤ◌, ◌≤ℤ◌, ◌<ℤ◌, int_le, FitsSigned};
ghost use Rattle.std.specs.Int.{w64, bit_at, trailing_zeros, leading_zeros};
ghost use Rattle.std.specs.Simd.Lanes.{mask_l, Each1};
ghost use mathlib.Core.Bool.{cond};
ghost use Rattle.rc_base.specs.Numbers.{Within};
ghost use Rattle.rc_base.specs.Drawing.Cover.{edge_value, keeps_line, is_within_edge, centre};
ghost use Rattle.raster.specs.Edges.{IsEdgeInBounds};
ghost use Rattle.raster.specs.Lanes.{kept_value, ramp_of, edge_lanes, AreLanes, AreCoveredBits};
ghost use Rattle.raster.specs.Spans.{IsEmptyRow, IsSpanIfAny};

use crate::columns::{Places, minus_1};
use crate::coverage::keeps;
use crate::rise::{climb, rise};
use fixed_math::{centre_of, delta, edge};
use rc_base::triangle::WindowTriangle;
use rc_base::window::WindowVertex;
use std::simd::prelude::*;

/// What a triangle's edges say of the eight pixels from one on: not below 0 where the edge keeps the pixel's centre.
#[derive(Clone, Copy)]
pub(crate) struct Lanes {
    pub(crate) first: i64x8,
    pub(crate) second: i64x8,
    pub(crate) third: i64x8,
}

fn lane(first: i64, step: i64, count: i64) -> i64
    requires first { Within (2 ^ 61) first }
    requires step { Within (2 ^ 40) step }
    requires count { Within 8 count }
    ensures { result ≡ first +ℤ count *ℤ step }
{
    first + count * step
}

// first, first + step, .. first + 7 * step: as numbers, since a product of lanes of 64 bits takes many instructions.
#[inline(always)]
fn ramp(first: i64, step: i64) -> i64x8
    requires first { Within (2 ^ 61) first }
    requires step { Within (2 ^ 40) step }
    ensures { result ≡ ramp_of first step }
{
    i64x8::from_array([
        lane(first, step, 0),
        lane(first, step, 1),
        lane(first, step, 2),
        lane(first, step, 3),
        lane(first, step, 4),
        lane(first, step, 5),
        lane(first, step, 6),
        lane(first, step, 7),
    ])
}

// The edge's value, one less where it doesn't keep its line.
pub(crate) fn kept(e: i64, keeps: bool) -> i64
    requires { Within (2 ^ 60) e }
    ensures value { result ≡ kept_value e keeps }
    ensures small { Within (2 ^ 61) result }
{
    if keeps {
        return e;
    }
    minus_1(e)
}

// From one pixel of a row to the next, an edge's value goes by this.
pub(crate) fn step_of(a: &WindowVertex, b: &WindowVertex) -> i64
    requires { IsEdgeInBounds a.now b.now }
    ensures value { result ≡ neg_ℤ (pos 16 *ℤ (b.now.y -ℤ a.now.y)) }
    ensures small { Within (2 ^ 40) result }
{
    let dy = delta(b.y, a.y);
    -(16 * dy)
}

fn edge_lanes(a: &WindowVertex, b: &WindowVertex, x: i32, y: i32) -> i64x8
    requires { IsEdgeInBounds a.now b.now }
    ensures { result ≡ edge_lanes a.now b.now x y }
{
    let e = edge(a, b, centre_of(x), centre_of(y));
    ramp(kept(e, keeps(a, b)), step_of(a, b))
}

/// The lanes of the eight pixels from (`x`, `y`) on.
pub(crate) fn lanes_at(tri: &WindowTriangle, x: i32, y: i32) -> Lanes
    ensures { AreLanes tri.now.v x y result }
{
    Lanes {
        first: edge_lanes(&tri.v[0], &tri.v[1], x, y),
        second: edge_lanes(&tri.v[1], &tri.v[2], x, y),
        third: edge_lanes(&tri.v[2], &tri.v[0], x, y),
    }
}

// All lanes, so much higher.
#[inline(always)]
fn raised(v: i64x8, up: i64) -> i64x8
    requires lanes { length v ≡ 8 }
    requires small { Each1 (λ e. Within (2 ^ 62) e) v }
    requires up { Within (2 ^ 60) up }
    ensures { result ≡ map (λ e. e +ℤ up) v }
{
    v.strict_add(i64x8::splat(up))
}

// Which lanes are not below 0, as bits.
#[inline(always)]
fn bits_from_0(v: i64x8) -> u64
    requires lanes { length v ≡ 8 }
    requires fit { Each1 (λ e. FitsSigned w64 e) v }
    ensures { result ≡ mask_l (map (λ e. int_le (pos 0) e) v) }
{
    v.simd_ge(i64x8::splat(0)).to_bitmask()
}

// Of the eight pixels from column `x` of row `y` on, those whose centres the edge keeps, by its lanes in row `y0`.
#[inline(always)]
fn edge_bits(a: &WindowVertex, b: &WindowVertex, lanes: i64x8, x: i32, y0: i32, y: i32) -> u64
    requires edge { IsEdgeInBounds a.now b.now }
    requires lanes { lanes ≡ edge_lanes a.now b.now x y0 }
    ensures eight { result < 2 ^ 8 }
    ensures each { (k : ℕ) → k < 8 → bit_at result k ≡ cond (is_within_edge a.now b.now (centre (x +ℤ pos k)) (centre y)) 1 0 }
{
    let _column = x;
    bits_from_0(raised(lanes, rise(a, b, climb(y0, y))))
}

// Of the eight pixels from column `x` of row `y` on, those that are covered, by the lanes of row `y0`.
#[inline(always)]
fn covered_bits(tri: &WindowTriangle, lanes: &Lanes, x: i32, y0: i32, y: i32) -> u64
    requires { AreLanes tri.now.v x y0 lanes.now }
    ensures { AreCoveredBits tri.now.v x y result }
{
    let first = edge_bits(&tri.v[0], &tri.v[1], lanes.first, x, y0, y);
    let second = edge_bits(&tri.v[1], &tri.v[2], lanes.second, x, y0, y);
    let third = edge_bits(&tri.v[2], &tri.v[0], lanes.third, x, y0, y);
    first & (second & third)
}

fn width(x0: i32, x1: i32) -> u32
    requires order { x0 ≤ℤ x1 }
    requires few { x1 ≤ℤ (x0 +ℤ pos 8) }
    ensures { x1 ≡ x0 +ℤ pos result }
{
    (x1 - x0) as u32
}

// So many columns after the first.
fn column_after(x0: i32, count: u32, x1: i32) -> i32
    requires few { count < 2 ^ 31 }
    requires room { (x0 +ℤ pos count) ≤ℤ x1 }
    ensures { result ≡ x0 +ℤ pos count }
{
    let _end = x1;
    x0 + count as i32
}

// How many columns come before the first that is set, at most `most`.
fn before_first(bits: u64, most: u32) -> u32
    ensures { result ≡ min (trailing_zeros w64 bits) most }
{
    bits.trailing_zeros().min(most)
}

// How many columns there are up to the last that is set, at most `most`.
fn up_to_last(bits: u64, most: u32) -> u32
    ensures { result ≡ min (64 - leading_zeros w64 bits) most }
{
    (64 - bits.leading_zeros()).min(most)
}

/// The columns from `x0` to below `x1`, at most eight, of row `y` that the triangle covers, by the lanes of row `y0`.
#[inline(always)]
pub(crate) fn narrow_places(
    tri: &WindowTriangle,
    lanes: &Lanes,
    y0: i32,
    y: i32,
    x0: i32,
    x1: i32,
) -> Places
    requires lanes { AreLanes tri.now.v x0 y0 lanes.now }
    requires order { x0 ≤ℤ x1 }
    requires few { x1 ≤ℤ (x0 +ℤ pos 8) }
    ensures none { result.x1 ≤ℤ result.x0 → IsEmptyRow tri.now.v y x0 x1 }
    ensures some { IsSpanIfAny tri.now.v y x0 x1 result }
{
    let bits = covered_bits(tri, lanes, x0, y0, y);
    let most = width(x0, x1);
    Places {
        x0: column_after(x0, before_first(bits, most), x1),
        x1: column_after(x0, up_to_last(bits, most), x1),
    }
}
