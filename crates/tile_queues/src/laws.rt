//! Laws of ends that are named by their lanes. Each function's contract is a law; there is nothing to compute.
ghost use Rattle.tile_queues.specs.Laws.{NamedRowsAndColumnsAreAGrid, NamedEndsArePaired};

/// Rows and columns of ends make a grid where the end at each place of a row and the end at its place of a column bear one name.
pub fn named_rows_and_columns_are_a_grid<T, R>()
    ensures { NamedRowsAndColumnsAreAGrid T R }
{}

/// Two lists of ends are of one lane at each place where they bear the same names.
pub fn named_ends_are_paired<T, R>()
    ensures { NamedEndsArePaired T R }
{}
