//! Runs of words on ends in memory.
use crate::row::{Counted, Fails};
use rc_base::gate::OpenGate;
use rc_base::in_memory::{MemSink, MemSource};
use rc_base::out_of_memory::OutOfMemory;
use rc_base::outside::{Sink, Source};
use render_core::{Finish, filters, run};
use render_main::{Filtered, run_with_filters};
use spu_chain::{Rules, SpuRule};
use std::alloc::Global;
use std::sync::Wait;
use std::thread::Threads;

/// The call that carries out the words of a run.
#[derive(Clone, Copy)]
pub(crate) enum Call {
    /// `run`, which knows no filter.
    Plain,
    /// `run_with_filters`.
    Filtered,
}

/// What a run can do: start threads and wait for them.
pub(crate) trait Host: Threads + Wait + Copy + Send + Sync + Drop {}

impl<R: Threads + Wait + Copy + Send + Sync + Drop> Host for R {}

/// The ends of a run, in memory.
#[derive(Drop)]
pub(crate) struct Ends {
    source: MemSource,
    pub(crate) image: MemSink,
    pub(crate) notes: MemSink,
}

/// What a run leaves.
#[derive(Drop)]
pub(crate) struct Left {
    pub(crate) status: u8,
    pub(crate) has_record: bool,
    pub(crate) counts: Counted,
    pub(crate) ends: Ends,
}

// The words of a line, parted by blanks.
fn words_of(alloc: Global, line: &str) -> Result<Vec<String>, OutOfMemory> {
    let mut words = Vec::new(alloc);
    if !line.is_empty() {
        for word in line.split(' ') {
            words.push(String::from_str(alloc, word)?)?;
        }
    }
    Ok(words)
}

// The ends of a run on this input: those of which calls fail carry a byte a call.
fn ends_of(alloc: Global, input: &[u8], fails: Option<Fails>) -> Result<Ends, OutOfMemory> {
    match fails {
        Some(fails) => Ok(Ends {
            source: MemSource::new(alloc, input, 1, &[fails.source])?,
            image: MemSink::new(alloc, 1, &[fails.image])?,
            notes: MemSink::new(alloc, 1, &[fails.notes])?,
        }),
        None => Ok(Ends {
            source: MemSource::new(alloc, input, 7, &[])?,
            image: MemSink::new(alloc, 4, &[])?,
            notes: MemSink::new(alloc, 64, &[])?,
        }),
    }
}

/// Whether the words of a line begin with no filter.
pub(crate) fn begins_with_none(alloc: Global, line: &str) -> Result<bool, OutOfMemory> {
    let words = words_of(alloc, line)?;
    match filters(alloc, words.as_slice())? {
        Some((rules, _)) => Ok(rules.is_empty()),
        None => Ok(true),
    }
}

// The numbers of the rules that count.
fn counts_in(alloc: Global, rules: &Rules) -> Result<Counted, OutOfMemory> {
    let mut counts = Counted::new(alloc);
    for rule in rules.as_slice() {
        if let SpuRule::Count(count) = *rule {
            counts.push(count)?;
        }
    }
    Ok(counts)
}

// How a run on these ends is finished. Its contract says nothing, so that what tells its rows is proved without that of `run`.
fn finish_on<S: Source, K: Sink, N: Sink>(
    rt: &impl Host,
    alloc: Global,
    words: &[String],
    source: &mut S,
    image: &mut K,
    notes: &mut N,
) -> Finish {
    run(*rt, alloc, words, source, image, notes, &OpenGate)
}

// How a run on these ends is finished, with a member for each filter that the words begin with; and what those of them that count have counted.
fn finish_behind<S: Source, K: Sink, N: Sink>(
    rt: &impl Host,
    alloc: Global,
    words: &[String],
    source: &mut S,
    image: &mut K,
    notes: &mut N,
) -> Result<(Finish, Counted), OutOfMemory> {
    let Filtered { finish, rules } = run_with_filters(*rt, alloc, words, source, image, notes)?;
    match rules {
        Some(rules) => Ok((finish, counts_in(alloc, &rules)?)),
        None => Err(OutOfMemory),
    }
}

// How a run on these ends by this call is finished, and what the filters that count have counted.
fn finish_by(
    rt: &impl Host,
    alloc: Global,
    call: Call,
    words: &[String],
    ends: &mut Ends,
) -> Result<(Finish, Counted), OutOfMemory> {
    let Ends {
        source,
        image,
        notes,
    } = ends;
    match call {
        Call::Plain => {
            let finish = finish_on(rt, alloc, words, source, image, notes);
            Ok((finish, Counted::new(alloc)))
        }
        Call::Filtered => finish_behind(rt, alloc, words, source, image, notes),
    }
}

/// What a run of a line's words by this call leaves of this input.
pub(crate) fn left_by(
    rt: &impl Host,
    alloc: Global,
    call: Call,
    line: &str,
    input: &[u8],
    fails: Option<Fails>,
) -> Result<Left, OutOfMemory> {
    let words = words_of(alloc, line)?;
    let mut ends = ends_of(alloc, input, fails)?;
    let (finish, counts) = finish_by(rt, alloc, call, words.as_slice(), &mut ends)?;
    Ok(Left {
        status: finish.status,
        has_record: finish.kept.is_some(),
        counts,
        ends,
    })
}
