//! What is true of a manager after any number of steps.
ghost use Rattle.sync_manager.specs.Clauses.{FrontsArrive, NewManagersMeetTheirClause, ManagerStepsKeepTheClause, ManagerStepsOverLanesKeepTheClause, EndedManagersAreDone};
ghost use Rattle.sync_manager.specs.Promises.{NewManagersAreRight, StepsKeepManagersRight, DoneManagersFinish};

use rc_base::lane::{Inlet, Outlet};
use rc_base::sync::{Grant, Request};

/// What a manager appended for each tile is a prefix of the journal, or that and then NoMore; what arrived of each client is a prefix of what was
/// taken of it. It is so at first, and after each step. A manager with nothing left to do says so.
pub fn managers_are_right()
    ensures first { NewManagersAreRight }
    ensures step { StepsKeepManagersRight }
    ensures done { DoneManagersFinish }
{}

/// Where what a manager took of each client is a front of the client's requests, what arrived is a front of its operations.
pub fn fronts_arrive()
    ensures { FrontsArrive }
{}

/// A manager's core meets its clause at first, and after each step over any items. Where it has ended, isn't short, and took fronts of the clients'
/// requests, its book is over and each tile was given the whole journal.
pub fn managers_meet_their_clause()
    ensures first { NewManagersMeetTheirClause }
    ensures step { ManagerStepsKeepTheClause }
    ensures ended { EndedManagersAreDone }
{}

/// So it does over lanes, by the contract of `ManagerCore::step` alone.
pub fn managers_meet_their_clause_over_lanes<I: Inlet<Request>, O: Outlet<Grant>>()
    ensures { ManagerStepsOverLanesKeepTheClause I.gave I.same O.sent }
{}
