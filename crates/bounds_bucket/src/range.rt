//! Ranges of columns or rows of pixels.
ghost use Rattle.std.specs.Prelude.{◌≡◌, pos};
ghost use Rattle.std.specs.Int.{int_div_euclid, int_min, int_max};

use rc_base::window::Rect;

/// The numbers from `from` to below `end`.
#[derive(Clone, Copy)]
pub(crate) struct Range {
    pub from: i32,
    pub end: i32,
}

pub(crate) fn larger(a: i32, b: i32) -> i32
    ensures { result ≡ int_max a b }
{
    a.max(b)
}

pub(crate) fn smaller(a: i32, b: i32) -> i32
    ensures { result ≡ int_min a b }
{
    a.min(b)
}

pub(crate) fn columns_of(rect: Rect) -> Range
    ensures { result ≡ record { from = rect.x0; end = rect.x1 } }
{
    Range {
        from: rect.x0,
        end: rect.x1,
    }
}

pub(crate) fn rows_of(rect: Rect) -> Range
    ensures { result ≡ record { from = rect.y0; end = rect.y1 } }
{
    Range {
        from: rect.y0,
        end: rect.y1,
    }
}

/// A sixteenth, rounded down.
pub(crate) fn sixteenth(n: i64) -> i64
    ensures { result ≡ int_div_euclid n (pos 16) }
{
    n >> 4
}
