//! What a cluster leaves in which all have ended.
ghost use Rattle.std.specs.Prelude.{IfOk};
ghost use Rattle.step_core.specs.CoreRuns.{IsGathered};
ghost use Rattle.step_core.specs.Rounds.{IsAtEnd};

use crate::cluster::Cluster;
use crate::rounds::CoreRun;
use rc_base::out_of_memory::OutOfMemory;
use rc_base::scene::Decl;
use run_record::laws::{done_runs_are_recorded, frames_are_in_order};
use run_record::{Collected, collect, parts_in_frames};
use std::alloc::Global;
use tile_model::laws::swapped_frames_stay;
use world_model::laws::{
    ended_worlds_are_over, ended_worlds_are_whole, schedules_keep_worlds_sound,
};

/// What a cluster leaves in which all have ended.
pub(crate) fn gather(alloc: Global, decl: &Decl, cluster: Cluster) -> Result<CoreRun, OutOfMemory>
    requires { IsAtEnd decl.now cluster }
    ensures { IfOk result (λ run. IsGathered decl.now cluster run) }
{
    schedules_keep_worlds_sound();
    ended_worlds_are_over();
    ended_worlds_are_whole();
    done_runs_are_recorded();
    frames_are_in_order();
    swapped_frames_stay();
    let Cluster {
        clients,
        manager,
        tiles,
        parts,
        ..
    } = cluster;
    let parts = parts_in_frames(alloc, parts)?;
    let Collected {
        kept,
        tallies,
        waiting,
        faults,
    } = collect(alloc, decl, clients, manager, tiles)?;
    Ok(CoreRun {
        kept,
        parts,
        tallies,
        waiting,
        faults,
    })
}
