//! The status of a run of words.
ghost use Rattle.rc_base.specs.Outside.Ends.{use_of};
ghost use Rattle.render_main.specs.Processes.{AreRun};

use crate::filtered::run_with_filters;
use rc_base::outside::{Sink, Source};
use std::alloc::Global;
use std::sync::Wait;
use std::thread::Threads;

// The status where there is no memory for the words, or for the chain that they name: then nothing is written.
pub(crate) const OUT_OF_MEMORY: u8 = 7;

// The status of a run of the words on these ends, and of want of memory for the chain that they name.
pub(crate) fn status_of_words<S: Source, K: Sink, N: Sink, R>(
    rt: R,
    alloc: Global,
    words: &[String],
    source: &mut S,
    image: &mut K,
    notes: &mut N,
) -> u8
where
    R: Threads + Wait + Copy + Send + Sync + Drop,
    ensures { AreRun words.now (record {
      source = use_of S.left S.faults source.old source.new;
      image = use_of K.held K.faults image.old image.new;
      notes = use_of N.held N.faults notes.old notes.new;
    }) result }
{
    match run_with_filters(rt, alloc, words, source, image, notes) {
        Ok(filtered) => filtered.finish.status,
        Err(_) => OUT_OF_MEMORY,
    }
}
