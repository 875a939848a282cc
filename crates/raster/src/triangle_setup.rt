//! What the planes of all attributes of a triangle share.
ghost use Rattle.std.specs.Prelude.{◌^◌, pos, ◌≤ℤ◌, ◌<ℤ◌};
ghost use Rattle.raster.specs.Reciprocal.{IsReciprocal};

use crate::edges::Edges;

/// The weights of the corners at a pixel, at the next of its row and at the one above it; the area, and its reciprocal in parts of 2^96.
#[derive(Clone, Copy)]
pub struct TriangleSetup {
    pub(crate) here: Edges,
    pub(crate) right: Edges,
    pub(crate) above: Edges,
    pub(crate) area: i64,
    pub(crate) reciprocal: u128,
    ghost some: { pos 0 <ℤ area },
    ghost small: { area ≤ℤ pos (2 ^ 43) },
    ghost inverse: { IsReciprocal 96 area reciprocal },
}
