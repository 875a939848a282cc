//! The program, from the words of its process to its exit.
ghost use Rattle.std.specs.Prelude.{◌≡◌, IfErr, IfOk, IsErrAnd, MatchResult, drop};
ghost use Rattle.std.specs.IoError.{error_kind};
ghost use Rattle.std.specs.Vec.Iter.{into_iter_items};
ghost use Rattle.std.specs.declared.io.ErrorKind.TheVariants.{OutOfMemory as OutOfMemoryKind};
ghost use Rattle.rc_base.specs.Outside.Ends.{use_of, Noted};
ghost use Rattle.run_words.specs.Lines.{usage_line};
ghost use Rattle.render_main.specs.Exits.{ends_of};
ghost use Rattle.render_main.specs.Processes.{AreRun, IsNoText, LacksWords};
ghost use Rattle.render_main.specs.declared.process.NoWords.TheVariants.{NotText, OutOfMemory as NoMemory};

use crate::exit::Exit;
use crate::status::{OUT_OF_MEMORY, status_of_words};
use rc_base::outside::Sink;
use rc_base::standard::{StdSink, StdSource};
use run_words::note;
use std::alloc::Global;
use std::env::Args;
use std::io;
use std::io::{ErrorKind, Read, Write};
use std::sync::Wait;
use std::thread::Threads;

// Why a process has no words.
enum NoWords {
    // One of them is not UTF-8.
    NotText,
    OutOfMemory,
}

// The words behind the program's name.
fn words_of(alloc: Global, args: io::Result<Args>) -> Result<Vec<String>, NoWords>
    ensures given { IfOk args (λ all. MatchResult result (λ words. words.items ≡ drop 1 (into_iter_items all)) (λ none. none ≡ NoMemory)) }
    ensures memory { IfErr args (λ why. error_kind why ≡ OutOfMemoryKind → IsErrAnd result (λ none. none ≡ NoMemory)) }
    ensures text { IfErr args (λ why. (error_kind why ≡ OutOfMemoryKind → ⊥) → IsErrAnd result (λ none. none ≡ NotText)) }
{
    match args {
        Ok(args) => match args.skip(1).collect(alloc) {
            Ok(words) => Ok(words),
            Err(_) => Err(NoWords::OutOfMemory),
        },
        Err(error) if error.kind() == ErrorKind::OutOfMemory => Err(NoWords::OutOfMemory),
        Err(_) => Err(NoWords::NotText),
    }
}

// Notes that the words are no command line, and gives the status of that.
#[tactic(auto, unfolding(run_words::specs::Lines::usage_line))]
fn note_usage<N: Sink>(notes: &mut N) -> u8
    ensures status { result ≡ 1 }
    ensures noted { Noted (use_of N.held N.faults notes.old notes.new) usage_line }
{
    note(notes, "rc: usage\n");
    1
}

/// Carries out the job of the words that a process is given, of which the first is the program's name, as `run_filtered` does, with a member for each
/// filter that they begin with: its source is `input`, its image `output`, and its notes `error`. Each attempt of a step passes an open gate.
///
/// Where one of the words isn't UTF-8 they are no command line. Where there is no memory for the words, or for the chain that they name, the status is 7
/// and no end is called.
pub fn run_process<I: Read, O: Write, E: Write, R>(
    rt: R,
    alloc: Global,
    args: io::Result<Args>,
    input: I,
    output: O,
    error: E,
) -> Exit<I, O, E>
where
    R: Threads + Wait + Copy + Send + Sync + Drop,
    ensures ran { IfOk args (λ all. AreRun (drop 1 (into_iter_items all)) (ends_of (I.remaining input) (O.contents output) (E.contents error) result) result.status) }
    ensures usage { IfErr args (λ why. (error_kind why ≡ OutOfMemoryKind → ⊥)
        → IsNoText (ends_of (I.remaining input) (O.contents output) (E.contents error) result) result.status) }
    ensures memory { IfErr args (λ why. error_kind why ≡ OutOfMemoryKind
        → LacksWords (ends_of (I.remaining input) (O.contents output) (E.contents error) result) result.status) }
{
    let mut source = StdSource::new(input);
    let mut image = StdSink::new(output);
    let mut notes = StdSink::new(error);
    let status = match words_of(alloc, args) {
        Ok(words) => status_of_words(
            rt,
            alloc,
            words.as_slice(),
            &mut source,
            &mut image,
            &mut notes,
        ),
        Err(NoWords::NotText) => note_usage(&mut notes),
        Err(NoWords::OutOfMemory) => OUT_OF_MEMORY,
    };
    Exit {
        status,
        source,
        image,
        notes,
    }
}
