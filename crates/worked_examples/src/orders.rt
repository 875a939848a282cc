//! Journals, orders and logs of small scenes.
ghost use Rattle.worked_examples.specs.Orders.{shared_unit_scene, shared_unit, shared_unit_journal, first_client_first, exclusive_jobs, shared_unit_log, one_after_the_other, no_unit_scene, no_unit, one_swaps, meeting, eager, parted, side_by_side, zero_first, one_first, through_the_barrier, falling, too_short, handing_over, handed_over, taken_too_soon, plain, name, wait};
ghost use Rattle.order_model.specs.Log.{Replays, IsComplete, recorded_order};
ghost use Rattle.order_model.specs.declared.record.LogEntry.TheVariants.{Took};
ghost use Rattle.rc_base.specs.Orders.Journal.{reach_of, waiting_of};
ghost use Rattle.rc_base.specs.Orders.Order.{Conflicts, IsPermitted, IsOrdered, default_journal, default_order, names_from};
ghost use Rattle.rc_base.specs.Orders.Sync.{sync_lists_of};
ghost use Rattle.rc_base.specs.declared.sync.Entry.TheVariants.{Meet, Swap, Give, Take};
ghost use Rattle.rc_base.specs.declared.sync.SyncOp.TheVariants as op;
ghost use Rattle.std.specs.Prelude.{◌≡◌, [], ◌∷◌, Some, None};

/// Two clients that each take the one unit, draw, and give it back. The operations are SemP at place 3, SemV at 9 and Swap at 10.
pub fn a_shared_unit_is_listed()
    ensures { sync_lists_of shared_unit_scene ≡ shared_unit }
{}

/// Client 0 takes the unit and gives it back, then client 1 does, then both swap. Both reach their streams' ends.
pub fn a_shared_unit_goes_round()
    ensures journal { default_journal shared_unit ≡ shared_unit_journal }
    ensures order { default_order shared_unit shared_unit_journal ≡ first_client_first }
    ensures first { reach_of shared_unit shared_unit_journal 0 ≡ 11 }
    ensures second { reach_of shared_unit shared_unit_journal 1 ≡ 11 }
    ensures nobody_waits { waiting_of shared_unit shared_unit_journal 1 ≡ None }
{}

/// A tile's log of this scene: what it doesn't draw is added with the next thing that it does.
pub fn a_log_records_an_order()
    ensures replays { Replays shared_unit shared_unit_journal exclusive_jobs shared_unit_log }
    ensures complete { IsComplete shared_unit shared_unit_journal exclusive_jobs shared_unit_log }
    ensures order { recorded_order shared_unit shared_unit_journal shared_unit_log ≡ one_after_the_other }
{}

/// A log that names a lower place than one that was added adds none, and the rest comes at the end.
pub fn lower_places_add_none()
    ensures { recorded_order plain [] (Took 0 2 ∷ Took 0 0 ∷ []) ≡ names_from 0 0 4 }
{}

/// After one swap the client waits at place 3 for a unit that nobody gives.
pub fn a_unit_is_missing()
    ensures lists { sync_lists_of no_unit_scene ≡ no_unit }
    ensures journal { default_journal no_unit ≡ Swap ∷ [] }
    ensures reach { reach_of no_unit (default_journal no_unit) 0 ≡ 3 }
    ensures waits { waiting_of no_unit (default_journal no_unit) 0 ≡ Some (wait 3 (op.SemP 1)) }
    ensures order { default_order no_unit (default_journal no_unit) ≡ names_from 0 0 3 }
{}

/// A Swap wants all clients, so one client alone waits at its first command.
pub fn one_client_swaps_alone()
    ensures journal { default_journal one_swaps ≡ [] }
    ensures first { waiting_of one_swaps (default_journal one_swaps) 0 ≡ None }
    ensures second { waiting_of one_swaps (default_journal one_swaps) 1 ≡ Some (wait 0 op.Swap) }
    ensures reach { reach_of one_swaps (default_journal one_swaps) 1 ≡ 0 }
{}

/// Two clients meet at a barrier. What stands before it in either client comes before what stands behind it in either; the operations themselves
/// are free.
pub fn a_barrier_parts_commands()
    ensures journal { default_journal meeting ≡ Meet 1 3 ∷ [] }
    ensures permitted { IsPermitted meeting (Meet 1 3 ∷ []) eager }
    ensures crossed { IsPermitted meeting (Meet 1 3 ∷ []) through_the_barrier → ⊥ }
    ensures fell { IsPermitted meeting (Meet 1 3 ∷ []) falling → ⊥ }
    ensures short { IsPermitted meeting (Meet 1 3 ∷ []) too_short → ⊥ }
{}

/// A unit is taken after it is given.
pub fn a_giver_comes_first()
    ensures journal { default_journal handing_over ≡ Give 1 0 ∷ Take 1 1 ∷ [] }
    ensures permitted { IsPermitted handing_over (Give 1 0 ∷ Take 1 1 ∷ []) handed_over }
    ensures too_soon { IsPermitted handing_over (Give 1 0 ∷ Take 1 1 ∷ []) taken_too_soon → ⊥ }
{}

/// Two commands that a barrier parts conflict, and stand in one sequence in every permitted order. Two commands before it conflict and may stand
/// either way.
pub fn a_barrier_orders_a_scene()
    ensures conflict { Conflicts meeting (Meet 1 3 ∷ []) parted (name 0 0) (name 1 2) }
    ensures ordered { IsOrdered meeting (Meet 1 3 ∷ []) parted }
    ensures either_way { Conflicts meeting (Meet 1 3 ∷ []) side_by_side (name 0 0) (name 1 0) }
    ensures one { IsPermitted meeting (Meet 1 3 ∷ []) zero_first }
    ensures other { IsPermitted meeting (Meet 1 3 ∷ []) one_first }
    ensures unordered { IsOrdered meeting (Meet 1 3 ∷ []) side_by_side → ⊥ }
{}
