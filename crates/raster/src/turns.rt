//! Where a sloped edge turns in the rows of a part.
ghost use Rattle.std.specs.Prelude.{◌^◌, pos, ◌≤ℤ◌, ◌<ℤ◌};
ghost use Rattle.rc_base.specs.Numbers.{Within};
ghost use Rattle.raster.specs.Reciprocal.{IsReciprocal};

/// An edge's turns in the rows of a part. Of the part's lowest row the columns before the turn are those whose distance from its first
/// column, times `step`, is at most `first`; a sixteenth of a pixel further up `first` is more by `gain`.
#[derive(Clone, Copy)]
pub(crate) struct Turns {
    pub(crate) first: i64,
    pub(crate) gain: i64,
    pub(crate) step: i64,
    pub(crate) inverse: u64,
    ghost bounded: { Within (2 ^ 61) first },
    ghost slow: { Within (2 ^ 21) gain },
    ghost some: { pos 0 <ℤ step },
    ghost small: { step ≤ℤ pos (2 ^ 25) },
    ghost inverted: { IsReciprocal 64 step inverse },
}

/// A level edge in the rows of a part: of the lowest row it keeps all columns where `first` is above 0, and none else; a sixteenth of a pixel
/// further up `first` is more by `gain`.
#[derive(Clone, Copy)]
pub(crate) struct Level {
    pub(crate) first: i64,
    pub(crate) gain: i64,
    ghost bounded: { Within (2 ^ 61) first },
    ghost slow: { Within (2 ^ 21) gain },
}
