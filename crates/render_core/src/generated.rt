//! The scene that a job makes of its words.
ghost use Rattle.std.specs.Prelude.{◌≡◌, ◌≤◌, ℕ, Some, None, IfOk, IfErr, MatchResult};
ghost use Rattle.rc_base.specs.Formats.Limits.{limit_of, size_limit};
ghost use Rattle.scene_file.specs.Generator.{generated_scene};
ghost use Rattle.run_words.specs.Jobs.{origin_of};
ghost use Rattle.run_words.specs.Asked.{tile_limit, word_limit, IsMade};
ghost use Rattle.render_core.specs.Refusals.{IsUnmade};
ghost use Rattle.run_words.specs.declared.job.Origin.TheVariants.{Generated as IsGenerated};

use bounds_bucket::layout;
use rc_base::scene::{Limit, Scene};
use run_words::job::{Cluster, Job};
use run_words::refusal::DueRefusal;
use scene_file::generate;
use std::alloc::Global;

// The sides of the window of a scene that is made, in pixels.
const WINDOW: u16 = 256;

// The rounds that the words ask for.
#[tactic(auto, unfolding(rc_base::specs::Formats::Limits::size_limit))]
fn rounds_of(size: u64) -> Result<u32, Limit>
    ensures { MatchResult result
        (λ rounds. (rounds ≡ size) × (1 ≤ rounds) × (rounds ≤ 4096) × (size_limit size ≡ None))
        (λ limit. size_limit size ≡ Some limit) }
{
    if 1 <= size && size <= 4096 {
        Ok(size as u32)
    } else {
        Err(Limit {
            what: 18,
            value: size,
        })
    }
}

// The first quantity of the tiles and the lanes that is outside its range in the window of a scene that is made.
#[tactic(auto, unfolding(rc_base::specs::Formats::Limits::layout_limit, scene_file::specs::Generator::generated_scene))]
fn tiles_past(cluster: Option<Cluster>) -> Option<Limit>
    ensures { (seed size : ℕ) → result ≡ tile_limit cluster (generated_scene seed size) }
{
    match cluster {
        Some(cluster) => match layout(
            WINDOW,
            WINDOW,
            cluster.columns,
            cluster.rows,
            cluster.depth,
        ) {
            Ok(_) => None,
            Err(limit) => Some(limit),
        },
        None => None,
    }
}

// The rounds that the words ask for, where their tiles and lanes are within their ranges too: these are judged first.
fn rounds_for(job: Job, seed: u64, size: u64) -> Result<u32, Limit>
    requires { origin_of job ≡ IsGenerated seed size }
    ensures { MatchResult result
        (λ rounds. (rounds ≡ size) × (1 ≤ rounds) × (rounds ≤ 4096) × (size_limit size ≡ None))
        (λ limit. word_limit job (generated_scene seed size) ≡ Some limit) }
{
    match tiles_past(job.cluster()) {
        Some(limit) => Err(limit),
        None => rounds_of(size),
    }
}

/// The scene of a seed with so many rounds, or the first quantity of the words that is outside its range.
pub(crate) fn scene_of_seed(
    alloc: Global,
    job: Job,
    seed: u64,
    size: u64,
) -> Result<Scene, DueRefusal>
    requires { origin_of job ≡ IsGenerated seed size }
    ensures made { IfOk result (IsMade seed size) }
    ensures within { IfOk result (λ scene. limit_of scene ≡ None) }
    ensures refused { IfErr result (IsUnmade job (generated_scene seed size)) }
{
    match rounds_for(job, seed, size) {
        Ok(rounds) => Ok(generate(alloc, seed, rounds)?),
        Err(limit) => Err(DueRefusal::PastLimit(limit)),
    }
}
