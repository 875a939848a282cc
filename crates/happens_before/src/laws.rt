//! Laws of what is before what. Each function's contract is a law, and its body is empty.
ghost use Rattle.happens_before.specs.Laws.{BeforeIsFirstInEachOrder, BeforeStandsBefore, OrderedScenesHaveOrderedConflicts, PermittedOrdersAreLinearExtensions, RacesAreReal, ScenesOfOrderedConflictsAreOrdered};

/// What is before a name stands before it in every permitted order; so where of every two conflicting names one is before the other, a scene is ordered.
pub fn what_is_before_stands_before()
    ensures stands { BeforeStandsBefore }
    ensures ordered { ScenesOfOrderedConflictsAreOrdered }
{}

/// The permitted orders are the linear extensions of what is before what. So of two names, neither of which is before the other, each stands first in
/// some permitted order; a name is before another one exactly where every permitted order has it so; and in an ordered scene one of every two conflicting
/// names is before the other.
pub fn races_are_real()
    ensures extensions { PermittedOrdersAreLinearExtensions }
    ensures either { RacesAreReal }
    ensures before { BeforeIsFirstInEachOrder }
    ensures ordered { OrderedScenesHaveOrderedConflicts }
{}
