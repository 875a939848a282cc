//! A part of a whole.
ghost use Rattle.geometry.specs.Fractions.{IsFraction};

/// How much of an edge lies in front of the near plane: `part` of `whole`, less than all of it.
#[derive(Clone, Copy)]
pub(crate) struct Fraction {
    pub part: i64,
    pub whole: i64,
    pub ghost cut: { IsFraction part whole },
}
