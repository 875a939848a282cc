//! The top call: the words, the steps of the task that they ask for, and the notes.
ghost use Rattle.std.specs.Prelude.{◌≡◌, ◌≤◌, ◌⊎◌, [], map, string_bytes, IfErr, IfOk, IfSome, OnOk};
ghost use Rattle.rc_base.specs.Outside.Ends.{use_of};
ghost use Rattle.run_words.specs.Lines.{memory_line, usage_line};
ghost use Rattle.command_line.specs.Filters.{AreNamed};
ghost use Rattle.render_core.specs.Finishes.{EndsNoting, IsFinished, IsJobless, IsUnasked};
ghost use Rattle.run_words.specs.Jobs.{AskFiltered, AskPlainly, BeginsPlainly, ForTask, IsJob, IsJobBehind, IsLine, IsThreaded, NoLine, NoneReads, ShowsNothing};
ghost use Rattle.render_core.specs.Outcomes.{Ran, RefusesWhatItFinds, CarriesOutWhatItFinds, IsHeadline, KeepsOrders, IsUnwritten, IsLeft, HasNotes, LeavesMembers};
ghost use Rattle.render_core.specs.Refusals.{kept_for};

use crate::laws::{
    findings_are_one, ordered_records_show_one_image, plain_tasks_are_filtered_ones,
    records_are_foreseen,
};
use crate::steps::{perform, perform_any, perform_in_threads};
use command_line::{
    filters, leading_words_have_one_reading, lines_begin_no_filter, lines_have_one_reading,
    named_rules_begin,
};
use order_model::record::Record;
use rc_base::gate::Gate;
use rc_base::out_of_memory::OutOfMemory;
use rc_base::outside::{Sink, Source};
use run_words::job::{Job, is_threaded, job_of};
use run_words::refusal::{OUT_OF_MEMORY, Refused};
use run_words::{Told, conclude, note, note_refusal};
use spu_chain::Spu;
use std::alloc::Global;
use std::sync::Wait;
use std::thread::Threads;

/// How a run ended.
#[derive(Debug, PartialEq, Drop)]
pub struct Finish {
    /// 0: the job is done. 1: the words are no job. 2: the source failed. 3: the source's bytes spell no scene. 4: a quantity is past its limit.
    /// 5: a client waits for ever. 6: the image failed. 7: there was no memory. 8: the job is done, but the notes failed. 11: nobody waits, and two
    /// commands race. 12: the scene's clients can't be drawn apart.
    pub status: u8,
    /// The record of a cluster that came to its end: of `render`, `simulate` and `demo` with the statuses 0, 5, 6 and 8.
    pub kept: Option<Record>,
}

// The record that is kept: with an image that failed, and with no other refusal.
fn kept_for(status: u8, kept: Option<Record>) -> Option<Record>
    ensures { result ≡ kept_for status kept }
{
    if status == 6 { kept } else { None }
}

// Notes that nothing is asked for, and ends the run so.
#[tactic(auto, unfolding(run_words::specs::Lines::usage_line))]
fn end_unasked<N: Sink>(notes: &mut N) -> Finish
    ensures ended { EndsNoting (use_of N.held N.faults notes.old notes.new) 1 usage_line result }
    ensures later { N.faults notes.old ≤ N.faults notes.new }
{
    note(notes, "rc: usage\n");
    Finish {
        status: 1,
        kept: None,
    }
}

// Notes that there was no memory for the words, and ends the run so.
#[tactic(auto, unfolding(run_words::specs::Lines::memory_line))]
fn end_short<N: Sink>(notes: &mut N) -> Finish
    ensures ended { EndsNoting (use_of N.held N.faults notes.old notes.new) 7 memory_line result }
    ensures later { N.faults notes.old ≤ N.faults notes.new }
{
    note(notes, OUT_OF_MEMORY);
    Finish {
        status: 7,
        kept: None,
    }
}

// The job of the words. Where they name none, or there was no memory for them, that is noted, and the run ends so.
fn job_for<N: Sink>(alloc: Global, words: &[String], notes: &mut N) -> Result<Job, Finish>
    ensures job { IfOk result (IsJob words.now) }
    ensures unnoted { OnOk result (notes.new ≡ notes.old) }
    ensures none { IfErr result (IsJobless words.now (use_of N.held N.faults notes.old notes.new)) }
    ensures later { N.faults notes.old ≤ N.faults notes.new }
{
    match job_of(alloc, words) {
        Ok(Some(job)) => Ok(job),
        Ok(None) => Err(end_unasked(notes)),
        Err(OutOfMemory) => Err(end_short(notes)),
    }
}

// The job of the words behind those of filters, which are a chain's. Where they ask for none so, or there was no memory for them, that is noted, and
// the run ends so.
fn job_behind<N: Sink>(alloc: Global, words: &[String], notes: &mut N) -> Result<Job, Finish>
    ensures asked { IfOk result (IsJobBehind words.now) }
    ensures unnoted { OnOk result (notes.new ≡ notes.old) }
    ensures none { IfErr result (IsUnasked words.now (use_of N.held N.faults notes.old notes.new)) }
    // Words that are no command line and begin with no filter's word are told to be none, whatever memory there is.
    ensures usage { IfErr result (λ finish. BeginsPlainly words.now → NoLine words.now → finish.status ≡ 1) }
    ensures later { N.faults notes.old ≤ N.faults notes.new }
{
    leading_words_have_one_reading();
    lines_begin_no_filter();
    match filters(alloc, words) {
        Ok(Some((_, count))) => job_for(alloc, &words[count..], notes),
        Ok(None) => Err(end_unasked(notes)),
        Err(OutOfMemory) => Err(end_short(notes)),
    }
}

// Tells how a job was carried out, or why it wasn't.
fn finish_of<N: Sink>(alloc: Global, notes: &mut N, performed: Result<Told, Refused>) -> Finish
    ensures finished { IsFinished (use_of N.held N.faults notes.old notes.new) performed result }
    ensures silent { IfOk performed (λ told. told.lines ≡ [] → notes.new ≡ notes.old) }
    ensures later { N.faults notes.old ≤ N.faults notes.new }
{
    match performed {
        Ok(told) => {
            let status = conclude(notes, &told);
            Finish {
                status,
                kept: told.kept,
            }
        }
        Err(Refused { refusal, kept }) => {
            let status = note_refusal(alloc, notes, refusal);
            Finish {
                status,
                kept: kept_for(status, kept),
            }
        }
    }
}

/// Carries out the job that the words name, as `run` does, where their first one is none of `render`, `demo` and `last`. It starts no thread and waits for
/// nobody, so it returns.
pub fn run_alone<S: Source, K: Sink, N: Sink>(
    alloc: Global,
    words: &[String],
    source: &mut S,
    image: &mut K,
    notes: &mut N,
) -> Finish
    requires { IsThreaded words.now → ⊥ }
    // A record that is kept is lawful, its orders are permitted, and the image shows the frames that it tells; where the scene is ordered that image is
    // the one of every permitted order.
    ensures headline { IfSome result.kept (IsHeadline (AskPlainly words.now) (use_of S.left S.faults source.old source.new)
        (use_of K.held K.faults image.old image.new) result.status) }
    // What the status says of the words, the source's bytes, what image and notes were given, and the record that is kept.
    ensures ran { Ran (AskPlainly words.now) (use_of S.left S.faults source.old source.new)
        (use_of K.held K.faults image.old image.new)
        (use_of N.held N.faults notes.old notes.new) result.status result.kept }
    // What a source that doesn't fail holds decides whether it is refused, and with which status.
    ensures refuses { RefusesWhatItFinds (AskPlainly words.now) (use_of S.left S.faults source.old source.new) result.status }
    // What isn't refused is carried out whole, where no end fails.
    ensures completes { CarriesOutWhatItFinds (AskPlainly words.now) (use_of S.left S.faults source.old source.new)
        (use_of K.held K.faults image.old image.new)
        (use_of N.held N.faults notes.old notes.new) result.status result.kept }
    // Each order that a kept record tells keeps each client's order, every barrier and every semaphore grant.
    ensures permitted { IfSome result.kept KeepsOrders }
    // Words that are no command line are told to be none, whatever memory there is.
    ensures usage { NoLine words.now → result.status ≡ 1 }
    // Where the words are no job that reads nothing is read: a job that makes its scene leaves the source as it was.
    ensures unread { NoneReads (AskPlainly words.now) → source.new ≡ source.old }
    // The image is untouched, save where the job is carried out, or where it failed or there was no memory.
    ensures untouched { IsUnwritten result.status → image.new ≡ image.old }
    // A job that shows nothing leaves it alone, whatever the status.
    ensures blank { ForTask (AskPlainly words.now) (λ task. ShowsNothing task.job) → image.new ≡ image.old }
    // Where there was no memory it was given a front of what is due.
    ensures memory { result.status ≡ 7 → (image.new ≡ image.old)
        ⊎ IsLeft (AskPlainly words.now) (use_of S.left S.faults source.old source.new)
        (use_of K.held K.faults image.old image.new) }
    // Notes to which nothing is due stay as they are.
    ensures silent { result.status ≡ 0 → (notes.new ≡ notes.old)
        ⊎ HasNotes (AskPlainly words.now) (use_of S.left S.faults source.old source.new)
        (use_of K.held K.faults image.old image.new)
        (use_of N.held N.faults notes.old notes.new) result.kept }
    // No count of refused calls falls.
    ensures later_source { S.faults source.old ≤ S.faults source.new }
    ensures later_image { K.faults image.old ≤ K.faults image.new }
    ensures later_notes { N.faults notes.old ≤ N.faults notes.new }
{
    lines_have_one_reading();
    findings_are_one();
    ordered_records_show_one_image();
    records_are_foreseen();
    let job = match job_for(alloc, words, notes) {
        Ok(job) => job,
        Err(finish) => return finish,
    };
    let mut chain: Vec<Box<dyn Spu>> = Vec::new(alloc);
    let performed = perform(alloc, &mut chain, job, source, image);
    finish_of(alloc, notes, performed)
}

/// Carries out the job that the words name.
///
/// `render` and `simulate` read scene bytes and run the scene on a cluster of tiles. They write a Netpbm P6 image for each frame, and note the report.
/// For `render` each client, the manager and each tile is a thread of its own, and each passes the gate before each attempt of a step; the call
/// returns once all have ended. `demo` does the same with the scene of its seed, and leaves its source alone. For `simulate` one thread steps them: 4,096 steps that its seed draws, and then rounds. `serial` writes the frames of
/// the scene's default order, and notes the short report by its default journal; `last` does the same by layers, one of each
/// client, that threads draw apart and that are put together by depth, where no command of the scene keeps its clients from that: else the status is 12. `check` writes nothing, and notes the same. `race` writes nothing too, and notes with it
/// whether synchronisation orders every two conflicting commands of that order, or the first two that race: then the status is 11, unless a client waits. `pack` reads the text of
/// a scene and writes its bytes, `unpack` reads bytes and writes the text, and `gen` writes the bytes of the
/// scene of its seed, and leaves its source alone; they note nothing. Where the journal leaves a client waiting the run is
/// stuck: the report says who waits, and the status is 5. A job that is refused is told in one line in the notes, which else stay as they are. A fault
/// of the notes changes the status of a job that is done, and no other. All jobs but `render`, `demo` and `last` are those of
/// `run_alone`.
pub fn run<S: Source, K: Sink, N: Sink, G: Gate, R>(
    rt: R,
    alloc: Global,
    words: &[String],
    source: &mut S,
    image: &mut K,
    notes: &mut N,
    gate: &G,
) -> Finish
where
    R: Threads + Wait + Copy + Send + Sync + Drop,
    // A record that is kept is lawful, its orders are permitted, and the image shows the frames that it tells; where the scene is ordered that image is
    // the one of every permitted order.
    ensures headline { IfSome result.kept (IsHeadline (AskPlainly words.now) (use_of S.left S.faults source.old source.new)
        (use_of K.held K.faults image.old image.new) result.status) }
    // What the status says of the words, the source's bytes, what image and notes were given, and the record that is kept.
    ensures ran { Ran (AskPlainly words.now) (use_of S.left S.faults source.old source.new)
        (use_of K.held K.faults image.old image.new)
        (use_of N.held N.faults notes.old notes.new) result.status result.kept }
    // What a source that doesn't fail holds decides whether it is refused, and with which status.
    ensures refuses { RefusesWhatItFinds (AskPlainly words.now) (use_of S.left S.faults source.old source.new) result.status }
    // What isn't refused is carried out whole, where no end fails.
    ensures completes { CarriesOutWhatItFinds (AskPlainly words.now) (use_of S.left S.faults source.old source.new)
        (use_of K.held K.faults image.old image.new)
        (use_of N.held N.faults notes.old notes.new) result.status result.kept }
    // Each order that a kept record tells keeps each client's order, every barrier and every semaphore grant.
    ensures permitted { IfSome result.kept KeepsOrders }
    // Words that are no command line are told to be none, whatever memory there is.
    ensures usage { NoLine words.now → result.status ≡ 1 }
    // Where the words are no job that reads nothing is read: a job that makes its scene leaves the source as it was.
    ensures unread { NoneReads (AskPlainly words.now) → source.new ≡ source.old }
    // The image is untouched, save where the job is carried out, or where it failed or there was no memory.
    ensures untouched { IsUnwritten result.status → image.new ≡ image.old }
    // A job that shows nothing leaves it alone, whatever the status.
    ensures blank { ForTask (AskPlainly words.now) (λ task. ShowsNothing task.job) → image.new ≡ image.old }
    // Where there was no memory it was given a front of what is due: of what the run would have come to, had it gone on from there.
    ensures memory { result.status ≡ 7 → (image.new ≡ image.old)
        ⊎ IsLeft (AskPlainly words.now) (use_of S.left S.faults source.old source.new)
        (use_of K.held K.faults image.old image.new) }
    // Notes to which nothing is due stay as they are.
    ensures silent { result.status ≡ 0 → (notes.new ≡ notes.old)
        ⊎ HasNotes (AskPlainly words.now) (use_of S.left S.faults source.old source.new)
        (use_of K.held K.faults image.old image.new)
        (use_of N.held N.faults notes.old notes.new) result.kept }
    // No count of refused calls falls.
    ensures later_source { S.faults source.old ≤ S.faults source.new }
    ensures later_image { K.faults image.old ≤ K.faults image.new }
    ensures later_notes { N.faults notes.old ≤ N.faults notes.new }
{
    if !is_threaded(words) {
        return run_alone(alloc, words, source, image, notes);
    }
    lines_have_one_reading();
    findings_are_one();
    ordered_records_show_one_image();
    records_are_foreseen();
    let job = match job_for(alloc, words, notes) {
        Ok(job) => job,
        Err(finish) => return finish,
    };
    let mut chain: Vec<Box<dyn Spu>> = Vec::new(alloc);
    let performed = perform_in_threads(rt, alloc, &mut chain, job, source, image, gate);
    finish_of(alloc, notes, performed)
}

/// Carries out the job behind the filters that the words begin with: `recolour R G B A`, `cull`, `drop NAME` or `count`, at most 16 of them. The jobs
/// that read a scene to draw or to judge it (`render`, `simulate`, `serial`, `last`, `check` and `race`) take each client's stream through the members of
/// the chain, clients rising, with call lists expanded before, and are those of `run` over what comes out. All limits are judged before. Their report has
/// a line `filter K count N` for each member that counts. The other jobs give the members nothing. Words of which no chain or no job can be read are told
/// to be none, with status 1. Without filters this is `run`.
///
/// The chain's members are those that the leading words name, in their order, as `filters` reads them.
pub fn run_filtered<S: Source, K: Sink, N: Sink, G: Gate, R>(
    rt: R,
    alloc: Global,
    chain: &mut Vec<Box<dyn Spu>>,
    words: &[String],
    source: &mut S,
    image: &mut K,
    notes: &mut N,
    gate: &G,
) -> Finish
where
    R: Threads + Wait + Copy + Send + Sync + Drop,
    // The members are those that the leading words name, and there is none where these name no chain.
    requires named { AreNamed (map string_bytes words.now) (map (λ b. meaning b) chain.old.items) }
    // A record that is kept is lawful, its orders are permitted, and the image shows the frames that it tells; where the scene is ordered that image is
    // the one of every permitted order.
    ensures headline { IfSome result.kept (IsHeadline (AskFiltered words.now) (use_of S.left S.faults source.old source.new)
        (use_of K.held K.faults image.old image.new) result.status) }
    // What the status says of the words, the source's bytes, what image and notes were given, and the record that is kept.
    ensures ran { Ran (AskFiltered words.now) (use_of S.left S.faults source.old source.new)
        (use_of K.held K.faults image.old image.new)
        (use_of N.held N.faults notes.old notes.new) result.status result.kept }
    // What a source that doesn't fail holds decides whether it is refused, and with which status.
    ensures refuses { RefusesWhatItFinds (AskFiltered words.now) (use_of S.left S.faults source.old source.new) result.status }
    // What isn't refused is carried out whole, where no end fails.
    ensures completes { CarriesOutWhatItFinds (AskFiltered words.now) (use_of S.left S.faults source.old source.new)
        (use_of K.held K.faults image.old image.new)
        (use_of N.held N.faults notes.old notes.new) result.status result.kept }
    // Each order that a kept record tells keeps each client's order, every barrier and every semaphore grant.
    ensures permitted { IfSome result.kept KeepsOrders }
    // Words that are no command line and begin with no filter's word are told to be none, whatever memory there is.
    ensures usage { BeginsPlainly words.now → NoLine words.now → result.status ≡ 1 }
    // Where the words are no job that reads nothing is read: a job that makes its scene leaves the source as it was.
    ensures unread { NoneReads (AskFiltered words.now) → source.new ≡ source.old }
    // The image is untouched, save where the job is carried out, or where it failed or there was no memory.
    ensures untouched { IsUnwritten result.status → image.new ≡ image.old }
    // A job that shows nothing leaves it alone, whatever the status.
    ensures blank { ForTask (AskFiltered words.now) (λ task. ShowsNothing task.job) → image.new ≡ image.old }
    // Where there was no memory it was given a front of what is due: of what the run would have come to, had it gone on from there.
    ensures memory { result.status ≡ 7 → (image.new ≡ image.old)
        ⊎ IsLeft (AskFiltered words.now) (use_of S.left S.faults source.old source.new)
        (use_of K.held K.faults image.old image.new) }
    // Notes to which nothing is due stay as they are.
    ensures silent { result.status ≡ 0 → (notes.new ≡ notes.old)
        ⊎ HasNotes (AskFiltered words.now) (use_of S.left S.faults source.old source.new)
        (use_of K.held K.faults image.old image.new)
        (use_of N.held N.faults notes.old notes.new) result.kept }
    // What the members are left with.
    ensures members { LeavesMembers (AskFiltered words.now) (use_of S.left S.faults source.old source.new) result.status
        (map (λ b. meaning b) chain.old.items) (map (λ b. meaning b) chain.new.items) }
    // No count of refused calls falls.
    ensures later_source { S.faults source.old ≤ S.faults source.new }
    ensures later_image { K.faults image.old ≤ K.faults image.new }
    ensures later_notes { N.faults notes.old ≤ N.faults notes.new }
{
    leading_words_have_one_reading();
    named_rules_begin();
    plain_tasks_are_filtered_ones();
    lines_have_one_reading();
    findings_are_one();
    ordered_records_show_one_image();
    records_are_foreseen();
    let job = match job_behind(alloc, words, notes) {
        Ok(job) => job,
        Err(finish) => return finish,
    };
    let performed = perform_any(rt, alloc, chain, job, source, image, gate);
    finish_of(alloc, notes, performed)
}
