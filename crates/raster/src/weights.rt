//! The weights of a triangle's corners at a pixel.
ghost use Rattle.std.specs.Prelude.{◌^◌, pos, ◌≤ℤ◌, ◌<ℤ◌};
ghost use Rattle.raster.specs.Weights.{AreWeights};

/// The weights of the three corners at a point inside a triangle; their sum is twice its area.
#[derive(Clone, Copy)]
pub struct Weights {
    pub(crate) first: i64,
    pub(crate) second: i64,
    pub(crate) third: i64,
    pub(crate) area: i64,
    ghost weights: { AreWeights first second third area },
    ghost some: { pos 0 <ℤ area },
    ghost small: { area ≤ℤ pos (2 ^ 44) },
}
