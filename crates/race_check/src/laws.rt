//! Laws of races. Each function's contract is a law, and its body is empty.
ghost use Rattle.race_check.specs.Laws.{EachOrderHasOneVerdict, LaterNamesAreNotBefore, ToldRacesAreReal};

/// Where the earlier of two conflicting commands of a permitted order isn't before the later, the later isn't before the earlier either: nothing orders
/// them.
pub fn later_names_are_not_before()
    ensures { LaterNamesAreNotBefore }
{}

/// A permitted order has one verdict: what is told of it is told exactly.
pub fn each_order_has_one_verdict()
    ensures { EachOrderHasOneVerdict }
{}

/// A told race is real: permitted orders carry its two commands out either way round.
pub fn told_races_are_real()
    ensures { ToldRacesAreReal }
{}
