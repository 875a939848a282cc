//! Layers, and clients that are drawn apart.
ghost use Rattle.std.specs.Prelude.{◌≡◌, ℕ, ◌<◌, false, IfOk, IfSome};
ghost use Rattle.rc_base.specs.Formats.Within.{IsWithin};
ghost use Rattle.sort_last.specs.Layers.{pixel_in};
ghost use Rattle.sort_last.specs.Offends.{offends};

use command_store::StoredScene;
use order_model::laws::{
    default_journal_is_maximal, default_orders_are_permitted, scenes_within_limits,
};
use rc_base::image::Frames;
use rc_base::out_of_memory::OutOfMemory;
use rc_base::scene::Scene;
use serial_render::{default_order, render_order};
use sort_last::{LastFault, LastSurvey, Layer, composite, render_last, survey_last};
use std::alloc::Global;
use std::thread::Threads;

/// Puts two layers together. Of equally near pixels the first layer's stays.
pub fn put_together(a: Layer, b: Layer) -> Layer
    ensures { (k : ℕ) → (pixel_in a.pixels k).depth ≡ (pixel_in b.pixels k).depth
        → pixel_in result.pixels k ≡ pixel_in a.pixels k }
{
    composite(a, b)
}

/// The frames of a scene whose clients are drawn apart, and those that one renderer draws of all of them: they are the same, so no client's layer is left
/// out.
pub fn drawn_twice(
    rt: &(impl Threads + Sync),
    alloc: Global,
    scene: &Scene,
) -> Result<(Frames, Frames), LastFault>
    requires { IsWithin scene.now }
    ensures { IfOk result (λ drawn. drawn.0 ≡ drawn.1) }
{
    default_journal_is_maximal();
    default_orders_are_permitted();
    scenes_within_limits();
    let apart = render_last(rt, alloc, scene)?;
    let (journal, order, _) = default_order(alloc, scene)?;
    let together = render_order(alloc, scene, &journal, &order)?;
    Ok((apart.frames, together))
}

/// What keeps a scene's clients from being drawn apart. No command of its client before the one that is named does.
pub fn first_offence(
    rt: &(impl Threads + Sync),
    alloc: Global,
    scene: &StoredScene,
) -> Result<LastSurvey, OutOfMemory>
    requires { IsWithin scene.now }
    ensures { IfOk result (λ s. IfSome s.offence (λ n. (place : ℕ) → place < n.place
        → offends scene.now n.client place ≡ false)) }
{
    survey_last(rt, alloc, scene)
}
