//! Laws over the definitions of pieces.
ghost use Rattle.geometry.specs.Laws.{WholeTrianglesAreTheirPiece, FrontTrianglesAreTheirPiece};

/// What is kept of a triangle that isn't cut is what `to_window` gives: in a block of a mode below 16, and in a block of any mode where all three
/// vertices stand in front of the near plane.
pub fn uncut_triangles_are_their_piece()
    ensures whole { WholeTrianglesAreTheirPiece }
    ensures front { FrontTrianglesAreTheirPiece }
{}
