//! Columns and rows of texels by 16.16 coordinates.
ghost use Rattle.std.specs.Prelude.{◌≡◌, ◌<◌, ◌*◌, pos, ◌*ℤ◌};
ghost use Rattle.std.specs.Int.{int_rem_euclid};
ghost use Rattle.rc_base.specs.Numbers.{floor_quotient};
ghost use Rattle.rc_base.specs.Drawing.Texel.{texel_index};

// The part of a coordinate that REPEAT keeps: its sixteen bits below the point.
fn fraction(coordinate: i32) -> u32
    ensures value { pos result ≡ int_rem_euclid coordinate (pos 65536) }
    ensures small { result < 65536 }
{
    coordinate.rem_euclid(65_536) as u32
}

fn scaled(part: u32, side: u16) -> u64
    requires { part < 65536 }
    ensures { result ≡ part * side }
{
    u64::from(part) * u64::from(side)
}

/// The column or row of a coordinate along a side that repeats, without a division.
#[inline(always)]
pub(crate) fn repeat(coordinate: i32, side: u16) -> u16
    requires { 0 < side }
    ensures value { result ≡ texel_index 0 side coordinate }
    ensures inside { result < side }
{
    (scaled(fraction(coordinate), side) / 65_536) as u16
}

fn product(coordinate: i32, side: u16) -> i64
    ensures { result ≡ coordinate *ℤ pos side }
{
    i64::from(coordinate) * i64::from(side)
}

// The index before it wraps.
fn index(coordinate: i32, side: u16) -> i64
    ensures { result ≡ floor_quotient (coordinate *ℤ pos side) (pos 65536) }
{
    product(coordinate, side).div_euclid(65_536)
}

// The column or row of a coordinate along a side at whose ends it stays.
fn clamp(coordinate: i32, side: u16) -> u16
    requires { 0 < side }
    ensures value { result ≡ texel_index 1 side coordinate }
    ensures inside { result < side }
{
    let at = index(coordinate, side);
    if at < 0 {
        return 0;
    }
    if at >= i64::from(side) {
        return side - 1;
    }
    at as u16
}

/// The column or row of a coordinate along a side, which wraps by REPEAT (0) or CLAMP.
pub(crate) fn index_of(wrap: u8, side: u16, coordinate: i32) -> u16
    requires { 0 < side }
    ensures value { result ≡ texel_index wrap side coordinate }
    ensures inside { result < side }
{
    if wrap == 0 {
        repeat(coordinate, side)
    } else {
        clamp(coordinate, side)
    }
}
