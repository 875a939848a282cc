//! Laws of what a client sends. Each function's contract is a law, and its body is empty: there is nothing to compute.
ghost use Rattle.client_issue.specs.Clauses.{ClientsAreUnderWay, ClientStepsOverLanesKeepTheClause, EndedClientsAreDone, NewClientsMeetTheirClause};
ghost use Rattle.client_issue.specs.Laws.{SequencesAreSplit, ParcelsRiseAndEnd};

use parcel_bytes::Packed;
use rc_base::lane::Outlet;
use rc_base::sync::Request;

/// A client's sequence has for each tile of the layout exactly the client's parcels to it, and for the manager exactly its requests. The
/// parcels to a tile are those of commands, at rising places, and then End.
pub fn sends_are_parcels()
    ensures split { SequencesAreSplit }
    ensures ends { ParcelsRiseAndEnd }
{}

/// A client's core meets its clause at first. Where it meets it and isn't short, its parcels and requests are those that were appended and then those
/// still to be sent; where it has ended besides, all were appended, and its tallies are those of all.
pub fn clients_meet_their_clause()
    ensures first { NewClientsMeetTheirClause }
    ensures prefix { ClientsAreUnderWay }
    ensures ended { EndedClientsAreDone }
{}

/// And it meets its clause after each step, by the contract of `ClientCore::step` alone.
pub fn clients_meet_their_clause_over_lanes<P: Outlet<Packed>, Q: Outlet<Request>>()
    ensures { ClientStepsOverLanesKeepTheClause P.sent P.full_seen P.full Q.sent Q.full_seen Q.full }
{}
