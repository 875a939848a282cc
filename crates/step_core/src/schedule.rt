//! A schedule of picks.
ghost use Rattle.std.specs.Prelude.{◌≡◌, ℕ, ◌+◌, ◌<◌, IfOk, EachIndex, length, slice_index};
ghost use Rattle.rc_base.specs.Cluster.Tiles.{tile_count};
ghost use Rattle.rc_base.specs.Formats.Within.{IsWithin, IsLayoutFor};
ghost use Rattle.world_model.specs.World.{client_total};
ghost use Rattle.step_core.specs.Schedules.{IsRightFor, IsLegalIn};

use crate::cluster::Cluster;
use crate::world::World;
use order_model::laws::scenes_within_limits;
use rc_base::out_of_memory::OutOfMemory;
use rc_base::scene::Scene;
use rc_base::window::Layout;
use std::alloc::Global;
use world_model::laws::{
    ample_turns_are_moves, schedules_keep_worlds_sound, sound_worlds_have_legal_logs,
};

/// The cluster of a scene on the tiles of a layout, with lanes that hold `depth` items, after one step of each picked actor in turn. The clients
/// have the numbers from 0, then comes the manager, then the tiles. A step of an actor that waits or has ended changes nothing.
pub fn run_schedule(
    alloc: Global,
    scene: &Scene,
    layout: &Layout,
    depth: usize,
    picks: &[u32],
) -> Result<World, OutOfMemory>
    requires within { IsWithin scene.now }
    requires layout { IsLayoutFor scene.now layout.now depth }
    requires picks { EachIndex picks.now (λ k. slice_index picks.now k < client_total scene.now + 1 + tile_count layout.now) }
    ensures given { IfOk result (λ world. (world.scene ≡ scene.now) × (world.layout ≡ layout.now) × (world.depth ≡ depth)) }
    ensures right { IfOk result (λ world. IsRightFor picks.now world) }
    ensures legal { IfOk result (λ world. IsLegalIn world) }
{
    scenes_within_limits();
    schedules_keep_worlds_sound();
    sound_worlds_have_legal_logs();
    ample_turns_are_moves();
    let mut cluster = Cluster::new(alloc, scene, layout, depth)?;
    let mut moves = Vec::with_capacity(alloc, picks.len())?;
    for pick in picks {
        moves.push(cluster.step(*pick as usize)?)?;
    }
    World::of(alloc, scene, layout, depth, moves, cluster)
}
