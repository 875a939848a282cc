//! The picks of a seed.
ghost use Rattle.std.specs.Prelude.{◌≡◌, ◌<◌, ◌≤◌, ◌+◌, ◌/◌, ◌^◌, length, IfOk};
ghost use Rattle.rc_base.specs.Cluster.Tiles.{tile_count};
ghost use Rattle.scene_file.specs.Generator.{picks_of};

use rc_base::out_of_memory::OutOfMemory;
use rc_base::scene::Scene;
use rc_base::window::Layout;
use scene_file::next_state;
use std::alloc::Global;

/// How many actors a cluster has for a scene on these tiles.
pub(crate) fn actor_count(scene: &Scene, layout: &Layout) -> u32
    requires clients { length scene.now.streams ≤ 8 }
    requires tiles { tile_count layout.now ≤ 32 }
    ensures { result ≡ length scene.now.streams + 1 + tile_count layout.now }
{
    scene.streams.len() as u32 + 1 + u32::from(layout.columns) * u32::from(layout.rows)
}

/// The actors that a seed picks one after the other, 4,096 in all: the high 24 bits of each draw, modulo the number of actors.
pub(crate) fn picks_of(alloc: Global, seed: u64, actors: u32) -> Result<Vec<u32>, OutOfMemory>
    requires { 0 < actors }
    ensures { IfOk result (λ picks. picks.items ≡ picks_of seed actors) }
{
    let mut picks = Vec::with_capacity(alloc, 4096)?;
    let mut state = seed;
    for _ in 0..4096u32 {
        state = next_state(state);
        picks.push((state >> 40) as u32 % actors)?;
    }
    Ok(picks)
}
