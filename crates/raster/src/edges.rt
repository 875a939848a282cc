//! The weights of a triangle's corners at any point, and sums by them.
ghost use Rattle.std.specs.Prelude.{◌≡◌, ◌^◌, ◌*◌, ◌+ℤ◌, ◌-ℤ◌, ◌*ℤ◌};
ghost use Rattle.rc_base.specs.Numbers.{Within};
ghost use Rattle.rc_base.specs.Drawing.Fragment.{weight, weighted_sum};

use fixed_math::edge;
use rc_base::triangle::WindowTriangle;

// The weights of the corners at a point anywhere.
#[derive(Clone, Copy)]
pub(crate) struct Edges {
    pub(crate) first: i64,
    pub(crate) second: i64,
    pub(crate) third: i64,
    ghost first_small: { Within (2 ^ 60) first },
    ghost second_small: { Within (2 ^ 60) second },
    ghost third_small: { Within (2 ^ 60) third },
}

pub(crate) fn edges_at(tri: &WindowTriangle, px: i64, py: i64) -> Edges
    requires across { Within (2 ^ 36) px }
    requires up { Within (2 ^ 36) py }
    ensures first { result.first ≡ weight tri.now.v 0 px py }
    ensures second { result.second ≡ weight tri.now.v 1 px py }
    ensures third { result.third ≡ weight tri.now.v 2 px py }
{
    let first = edge(&tri.v[1], &tri.v[2], px, py);
    let second = edge(&tri.v[2], &tri.v[0], px, py);
    let third = edge(&tri.v[0], &tri.v[1], px, py);
    Edges {
        first,
        second,
        third,
    }
}

fn times(e: i64, a: i32) -> i128
    requires { Within (2 ^ 60) e }
    ensures value { result ≡ e *ℤ a }
    ensures small { Within (2 ^ 91) result }
{
    i128::from(e) * i128::from(a)
}

fn add3(a: i128, b: i128, c: i128) -> i128
    requires a { Within (2 ^ 91) a }
    requires b { Within (2 ^ 91) b }
    requires c { Within (2 ^ 91) c }
    ensures value { result ≡ a +ℤ b +ℤ c }
    ensures small { Within (3 * 2 ^ 91) result }
{
    a + b + c
}

/// The corners' values by weight; it fits 128 bits with room for a difference.
pub(crate) fn sum(e: &Edges, a: i32, b: i32, c: i32) -> i128
    ensures value { result ≡ weighted_sum e.now.first e.now.second e.now.third a b c }
    ensures small { Within (3 * 2 ^ 91) result }
{
    add3(times(e.first, a), times(e.second, b), times(e.third, c))
}

/// What a sum gains from one pixel to another.
pub(crate) fn gain(b: i128, a: i128) -> i128
    requires to { Within (3 * 2 ^ 91) b }
    requires from { Within (3 * 2 ^ 91) a }
    ensures { result ≡ b -ℤ a }
{
    b - a
}
