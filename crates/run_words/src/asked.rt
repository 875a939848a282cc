//! The quantities of what the words ask for, in the window of the scene.
ghost use Rattle.std.specs.Prelude.{◌≡◌, None, Some, MatchResult};
ghost use Rattle.rc_base.specs.Formats.Limits.{held_limit, limit_of};
ghost use Rattle.rc_base.specs.declared.scene.Scene.{Scene as AnyScene};
ghost use Rattle.run_words.specs.Asked.{IsWell, cluster_limit, layout_for, word_limit};
ghost use Rattle.run_words.specs.Jobs.{origin_of};

use crate::job::{Cluster, Job};
use bounds_bucket::layout;
use rc_base::scene::{Decl, Limit, Scene};
use rc_base::window::Layout;
use scene_file::check_held;

/// The tiles of a scene's window, or the first quantity of the words that is outside its range, by what the scene declares.
pub fn tiles_asked(decl: &Decl, cluster: Cluster) -> Result<Layout, Limit>
    ensures { (scene : AnyScene) → scene.decl ≡ decl.now → MatchResult result
        (λ l. (cluster_limit cluster scene ≡ None) × (l ≡ layout_for cluster scene))
        (λ limit. cluster_limit cluster scene ≡ Some limit) }
{
    layout(
        decl.width,
        decl.height,
        cluster.columns,
        cluster.rows,
        cluster.depth,
    )
}

// The same of a scene.
fn layout_of(scene: &Scene, cluster: Cluster) -> Result<Layout, Limit>
    ensures { MatchResult result
        (λ l. (cluster_limit cluster scene.now ≡ None) × (l ≡ layout_for cluster scene.now))
        (λ limit. cluster_limit cluster scene.now ≡ Some limit) }
{
    tiles_asked(&scene.decl, cluster)
}

/// The tiles of the scene's window, where they are known to be within their ranges.
pub fn tiles_of(scene: &Scene, cluster: Cluster) -> Layout
    requires { cluster_limit cluster scene.now ≡ None }
    ensures { result ≡ layout_for cluster scene.now }
{
    match layout_of(scene, cluster) {
        Ok(layout) => layout,
        Err(_) => unreachable!(),
    }
}

// The first quantity of the tiles and the lanes outside its range.
fn tiles_past(scene: &Scene, cluster: Cluster) -> Option<Limit>
    ensures { result ≡ cluster_limit cluster scene.now }
{
    match layout_of(scene, cluster) {
        Ok(_) => None,
        Err(limit) => Some(limit),
    }
}

// The pixels of all frames, where they are too many to be held at once.
fn held_past(scene: &Scene) -> Option<Limit>
    requires { limit_of scene.now ≡ None }
    ensures { result ≡ held_limit scene.now }
{
    match check_held(scene) {
        Ok(()) => None,
        Err(limit) => Some(limit),
    }
}

/// The first quantity outside its range of what the job asks for.
pub fn asked_past(job: Job, scene: &Scene) -> Option<Limit>
    requires well { IsWell (origin_of job) scene.now }
    requires within { limit_of scene.now ≡ None }
    ensures { result ≡ word_limit job scene.now }
{
    match job {
        Job::Simulate { cluster, .. } => match tiles_past(scene, cluster) {
            Some(limit) => Some(limit),
            None => held_past(scene),
        },
        Job::Serial | Job::Last => held_past(scene),
        Job::Render(cluster) | Job::Demo { cluster, .. } => tiles_past(scene, cluster),
        Job::Check | Job::Race | Job::Pack | Job::Unpack | Job::Gen { .. } => None,
    }
}
