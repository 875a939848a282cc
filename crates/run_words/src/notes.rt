//! What is told in the notes.
ghost use Rattle.std.specs.Prelude.{◌≡◌, ◌≤◌, [], OnOk, IfErr};
ghost use Rattle.rc_base.specs.Outside.Ends.{use_of, Noted, Took, IsCalm};
ghost use Rattle.run_words.specs.Statuses.{IsConcluded, IsCutOff, IsRefusalTold};

use crate::refusal::{OUT_OF_MEMORY, Refusal};
use crate::told::{Ending, Told};
use rc_base::outside::Sink;
use rc_base::transfer::{WriteFault, write_all};
use std::alloc::Global;

/// Writes a line, or as much of it as the notes take.
pub fn note<N: Sink>(notes: &mut N, line: &str)
    ensures noted { Noted (use_of N.held N.faults notes.old notes.new) line.now }
    ensures later { N.faults notes.old ≤ N.faults notes.new }
{
    let _ = write_all(notes, line.as_bytes());
}

/// Notes a refusal, and gives the status of the run. Where there is no memory for its line, that is noted in its place.
#[tactic(auto, unfolding(crate::specs::Lines::memory_line))]
pub fn note_refusal<N: Sink>(alloc: Global, notes: &mut N, refusal: Refusal) -> u8
    ensures told { IsRefusalTold (use_of N.held N.faults notes.old notes.new) refusal result }
    ensures later { N.faults notes.old ≤ N.faults notes.new }
{
    match refusal.line(alloc) {
        Ok(line) => {
            note(notes, line.as_str());
            refusal.status()
        }
        Err(_) => {
            note(notes, OUT_OF_MEMORY);
            7
        }
    }
}

// Writes what is due to the notes behind a job that is carried out. Where that is nothing they are not called.
fn report<N: Sink>(notes: &mut N, lines: &[u8]) -> Result<(), WriteFault>
    ensures told { OnOk result (Took (use_of N.held N.faults notes.old notes.new) lines.now) }
    ensures calm { OnOk result (IsCalm (use_of N.held N.faults notes.old notes.new)) }
    ensures part { IfErr result (IsCutOff (use_of N.held N.faults notes.old notes.new) lines.now) }
    ensures untouched { lines.now ≡ [] → notes.new ≡ notes.old }
    ensures later { N.faults notes.old ≤ N.faults notes.new }
{
    if lines.is_empty() {
        return Ok(());
    }
    write_all(notes, lines)
}

/// Tells what is left to tell of a job that is carried out, and gives the status of the run. Failing notes change the status of a job that is done, and
/// no other.
pub fn conclude<N: Sink>(notes: &mut N, told: &Told) -> u8
    ensures concluded { IsConcluded (use_of N.held N.faults notes.old notes.new) told.now result }
    ensures silent { told.now.lines ≡ [] → notes.new ≡ notes.old }
    ensures later { N.faults notes.old ≤ N.faults notes.new }
{
    let reported = report(notes, told.lines.as_slice());
    match told.ending {
        Ending::Complete => match reported {
            Ok(()) => 0,
            Err(_) => 8,
        },
        Ending::Stuck => 5,
        Ending::RaceFound => 11,
    }
}
