//! A cluster of a scene, and the moves that led to it.
ghost use Rattle.std.specs.Prelude.{◌≡◌, IfOk, map};
ghost use Rattle.world_model.specs.Runs.{actor_of};
ghost use Rattle.order_model.specs.Scenes.{IsRunnable};
ghost use Rattle.step_core.specs.Runs.{IsRunOf, seen_as};

use crate::cluster::Cluster;
use rc_base::out_of_memory::OutOfMemory;
use rc_base::scene::{Decl, Scene, copy_of_decl};
use rc_base::window::Layout;
use std::alloc::Global;
use std::marker::Model;
use std::snapshot::Snapshot;
use world_model::Move;

/// A cluster where a schedule has led it. It is seen as the scene, the layout and the depth that it was made for, one move for each pick, the journal
/// and the tiles' logs.
#[derive(Drop)]
pub struct World {
    // the cores have the streams' commands
    scene: Snapshot<Scene>,
    layout: Layout,
    depth: usize,
    moves: Vec<Move>,
    pub(crate) decl: Decl,
    pub(crate) cluster: Cluster,
}

impl Model for World {
    ghost use Rattle.step_core.specs.Runs.{IsUnderWay, seen_as};
    ghost use Rattle.step_core.specs.Schedules.{WorldView};

    ghost Value = { WorldView };

    ghost view = { λ w. seen_as w.scene.value w.layout w.depth w.moves.items w.cluster };

    ghost invariant = { λ w. IsUnderWay w.scene.value w.layout w.depth w.decl w.moves.items w.cluster };
}

impl World {
    /// The world of a cluster to which these moves led.
    pub(crate) fn of(
        alloc: Global,
        scene: &Scene,
        layout: &Layout,
        depth: usize,
        moves: Vec<Move>,
        cluster: Cluster,
    ) -> Result<World, OutOfMemory>
        requires runnable { IsRunnable scene.now layout.now depth }
        requires run { IsRunOf scene.now layout.now depth (map (actor_of scene.now) moves.items) moves.items cluster }
        ensures { IfOk result (λ world. world ≡ seen_as scene.now layout.now depth moves.items cluster) }
    {
        let decl = copy_of_decl(alloc, &scene.decl)?;
        Ok(World {
            scene: Snapshot::of(scene),
            layout: *layout,
            depth,
            moves,
            decl,
            cluster,
        })
    }
}
