//! Rounds to the end, and what the cluster leaves.
ghost use Rattle.std.specs.Prelude.{◌≡◌, false, IfOk};
ghost use Rattle.step_core.specs.CoreRuns.{IsFinish, IsGathered};
ghost use Rattle.step_core.specs.Rounds.{IsAtEnd};
ghost use Rattle.step_core.specs.Schedules.{picks_of};

use crate::cluster::Cluster;
use crate::gather::gather;
use crate::round::Round;
use crate::world::World;
use order_model::record::Record;
use rc_base::cluster::{FaultLists, Parts, Tallies};
use rc_base::out_of_memory::OutOfMemory;
use rc_base::scene::Decl;
use rc_base::sync::Waiting;
use std::alloc::Global;
use world_model::laws::{
    ample_turns_are_moves, one_schedule_has_one_run, rounds_move_somebody, runs_go_on,
    stopped_worlds_rest, turns_keep_worlds_flowing, turns_leave_less,
};

/// What a cluster that has ended leaves: the record of the run, the tiles' parts of each frame, frames rising and in each the tiles rising, how much
/// was sent to each tile, who waits for ever, and the refused commands of each client.
#[derive(Debug, PartialEq, Drop)]
pub struct CoreRun {
    pub kept: Record,
    pub parts: Parts,
    pub tallies: Tallies,
    pub waiting: Option<Waiting>,
    pub faults: FaultLists,
}

/// What a cluster leaves in which all have ended, unless memory has lacked in it.
fn left_by(alloc: Global, decl: &Decl, cluster: Cluster) -> Result<CoreRun, OutOfMemory>
    requires { cluster.lacking ≡ false → IsAtEnd decl.now cluster }
    ensures ample { IfOk result (λ run. cluster.lacking ≡ false) }
    ensures left { IfOk result (λ run. IsGathered decl.now cluster run) }
{
    if cluster.lacking {
        return Err(OutOfMemory);
    }
    gather(alloc, decl, cluster)
}

/// Brings a cluster to its end by rounds of one step for each actor, rising, and hands out what it leaves. Each round moves somebody until all have
/// ended, and leaves less to do, whoever lacks memory. Where memory has lacked, the cluster comes to its end all the same, and nothing is handed out.
pub fn finish(alloc: Global, world: World) -> Result<CoreRun, OutOfMemory>
    ensures done { IfOk result (IsFinish world.scene world.layout world.depth (picks_of world)) }
{
    runs_go_on();
    one_schedule_has_one_run();
    turns_keep_worlds_flowing();
    ample_turns_are_moves();
    stopped_worlds_rest();
    rounds_move_somebody();
    turns_leave_less();
    let World {
        decl,
        mut cluster,
        ..
    } = world;
    for _ in 0..u64::MAX {
        match cluster.round() {
            Round::Moved => {}
            Round::Still => unreachable!(),
            Round::Ended => return left_by(alloc, &decl, cluster),
        }
    }
    unreachable!()
}
