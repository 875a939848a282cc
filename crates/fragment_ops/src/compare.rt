//! Comparison functions by their codes.
ghost use Rattle.std.specs.Prelude.{◌≡◌};
ghost use Rattle.rc_base.specs.Drawing.PixelStep.{compares, passes_alpha, passes_depth};

use rc_base::state::State;

// Whether a function, by its code, passes two numbers.
fn compared(function: u8, a: u32, b: u32) -> bool
    ensures { result ≡ compares function a b }
{
    match function {
        0 => false,
        1 => a < b,
        2 => a == b,
        3 => a <= b,
        4 => a > b,
        5 => a != b,
        6 => a >= b,
        _ => true,
    }
}

/// The alpha test, which passes where it is off.
pub(crate) fn alpha_passes(state: &State, alpha: u8) -> bool
    ensures { result ≡ passes_alpha state.now alpha }
{
    if !state.alpha_on {
        return true;
    }
    compared(state.alpha[0], u32::from(alpha), u32::from(state.alpha[1]))
}

/// The depth test, which passes where it is off.
pub(crate) fn depth_passes(state: &State, depth: u32, stored: u32) -> bool
    ensures { result ≡ passes_depth state.now depth stored }
{
    if !state.depth_on {
        return true;
    }
    compared(state.depth_func, depth, stored)
}
