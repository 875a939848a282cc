//! The jobs of the program.
ghost use Rattle.std.specs.Prelude.{◌≡◌, ℕ, ◌≤◌, ◌⊎◌, true, List, [], Some, length, map, string_bytes, IfSome};
ghost use Rattle.rc_base.specs.Orders.Sync.{sync_lists_of};
ghost use Rattle.rc_base.specs.Outside.Ends.{use_of};
ghost use Rattle.rc_base.specs.Outside.Transfer.{byte_limit};
ghost use Rattle.rc_base.specs.declared.scene.Limit.{Limit as AnyLimit};
ghost use Rattle.order_model.specs.Report.{is_stuck};
ghost use Rattle.command_line.specs.Filters.{AreNamed};
ghost use Rattle.run_words.specs.Jobs.{origin_of, task_of, AskFiltered, AskPlainly, IsThreaded, Task as AnyTask};
ghost use Rattle.run_words.specs.declared.job.Cluster.{Cluster as AnyCluster};
ghost use Rattle.run_words.specs.declared.job.Job.TheVariants.{Check as ToCheck, Simulate as ToSimulate};
ghost use Rattle.run_words.specs.declared.work.Work.{Work as AnyWork};
ghost use Rattle.render_core.specs.Due.{journal_of};
ghost use Rattle.render_core.specs.Scenes.{limit_for, Found, Gives, Holds};
ghost use Rattle.uses.specs.Jobs.{FollowsSeed, IsUnhindered, ShowsItself};

use rc_base::gate::Gate;
use rc_base::outside::{Sink, Source};
use render_core::{Finish, run_alone, run_filtered};
use spu_chain::Spu;
use std::alloc::Global;
use std::sync::Wait;
use std::thread::Threads;

/// Runs words that start no thread. Where they end with 0 and a record is kept, the image was given the frames of this record, and not those of another
/// order.
pub fn shown_as_kept<S: Source, K: Sink, N: Sink>(
    alloc: Global,
    words: &[String],
    source: &mut S,
    image: &mut K,
    notes: &mut N,
) -> Finish
    requires { IsThreaded words.now → ⊥ }
    ensures { result.status ≡ 0
        → IfSome result.kept (ShowsItself (AskPlainly words.now)
        (use_of S.left S.faults source.old source.new)
        (use_of K.held K.faults image.old image.new)) }
{
    run_alone(alloc, words, source, image, notes)
}

/// Runs words that start no thread. Where they ask for `simulate`, the record that is kept is that of the actors that the seed picks, one after the other, unless
/// something hinders the run.
pub fn seeded<S: Source, K: Sink, N: Sink>(
    alloc: Global,
    words: &[String],
    source: &mut S,
    image: &mut K,
    notes: &mut N,
) -> Finish
    requires { IsThreaded words.now → ⊥ }
    ensures { (seed : ℕ) (cluster : AnyCluster) (work : AnyWork)
        → IsUnhindered (AskPlainly words.now) (task_of [] (ToSimulate seed cluster)) work
        (use_of S.left S.faults source.old source.new)
        (use_of K.held K.faults image.old image.new) (use_of N.held N.faults notes.old notes.new)
        → (result.status ≡ 7) ⊎ FollowsSeed seed cluster work.scene result.kept }
{
    run_alone(alloc, words, source, image, notes)
}

/// Runs words that start no thread. Where they ask for `check`, and the scene's default journal leaves a client waiting, the status says so, unless something
/// hinders the run.
pub fn told_stuck<S: Source, K: Sink, N: Sink>(
    alloc: Global,
    words: &[String],
    source: &mut S,
    image: &mut K,
    notes: &mut N,
) -> Finish
    requires { IsThreaded words.now → ⊥ }
    ensures { (work : AnyWork)
        → IsUnhindered (AskPlainly words.now) (task_of [] ToCheck) work
        (use_of S.left S.faults source.old source.new)
        (use_of K.held K.faults image.old image.new) (use_of N.held N.faults notes.old notes.new)
        → is_stuck (sync_lists_of work.scene) (journal_of work.scene) ≡ true
        → (result.status ≡ 7) ⊎ (result.status ≡ 5) }
{
    run_alone(alloc, words, source, image, notes)
}

/// Runs words with filters. A scene that is past a limit is refused, whatever the filters would leave of it.
pub fn limited<S: Source, K: Sink, N: Sink, G: Gate, R>(
    rt: R,
    alloc: Global,
    chain: &mut Vec<Box<dyn Spu>>,
    words: &[String],
    source: &mut S,
    image: &mut K,
    notes: &mut N,
    gate: &G,
) -> Finish
where
    R: Threads + Wait + Copy + Send + Sync + Drop,
    requires { AreNamed (map string_bytes words.now) (map (λ b. meaning b) chain.old.items) }
    ensures { (task : AnyTask) (input : List ℕ) (found : Found) (limit : AnyLimit)
        → AskFiltered words.now task
        → Holds (origin_of task.job) (use_of S.left S.faults source.old source.new) input
        → length input ≤ byte_limit → Gives (origin_of task.job) input found
        → limit_for task.job found ≡ Some limit → (result.status ≡ 7) ⊎ (result.status ≡ 4) }
{
    run_filtered(rt, alloc, chain, words, source, image, notes, gate)
}
