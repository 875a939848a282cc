//! The program, from the words of its process to its exit.
ghost use Rattle.std.specs.Prelude.{◌≡◌, ◌≢◌, ◌⊎◌, IfErr, IfOk, drop};
ghost use Rattle.std.specs.Io.KnownBytes.{Appends};
ghost use Rattle.std.specs.IoError.{error_kind};
ghost use Rattle.std.specs.Process.{exit_status};
ghost use Rattle.std.specs.Vec.Iter.{into_iter_items};
ghost use Rattle.std.specs.declared.io.ErrorKind.TheVariants.{OutOfMemory};
ghost use Rattle.run_words.specs.Jobs.{AskFiltered, Task as AnyTask};
ghost use Rattle.run_words.specs.Lines.{usage_line};

use render_main::{Exit, run_process};
use std::alloc::Global;
use std::env::Args;
use std::io;
use std::io::{Eprint, Read, Write};
use std::process::{ExitCode, Termination};
use std::sync::Wait;
use std::thread::Threads;

/// Carries out the words of a process. Where one of them is no text, the writer of the notes holds the line of usage, unless it failed: the notes go nowhere
/// else, and such words aren't taken for want of memory.
pub fn told_of_no_text<I: Read, O: Write, E: Write, R>(
    rt: R,
    alloc: Global,
    args: io::Result<Args>,
    input: I,
    output: O,
    error: E,
) -> Exit<I, O, E>
where
    R: Threads + Wait + Copy + Send + Sync + Drop,
    ensures { IfErr args (λ why. error_kind why ≢ OutOfMemory → result.notes.faults ≡ 0
        → Appends (E.contents error) result.notes.held usage_line) }
{
    run_process(rt, alloc, args, input, output, error)
}

/// Carries out the words of a process. Where they ask for nothing, the writer of the notes holds the line of usage, unless it failed, or there was no memory:
/// what a run notes goes nowhere else.
pub fn told_of_no_task<I: Read, O: Write, E: Write, R>(
    rt: R,
    alloc: Global,
    args: io::Result<Args>,
    input: I,
    output: O,
    error: E,
) -> Exit<I, O, E>
where
    R: Threads + Wait + Copy + Send + Sync + Drop,
    ensures { IfOk args (λ all. ((task : AnyTask) → AskFiltered (drop 1 (into_iter_items all)) task
        → ⊥)
        → (result.status ≡ 7) ⊎ (result.notes.faults ≡ 0
        → Appends (E.contents error) result.notes.held usage_line)) }
{
    run_process(rt, alloc, args, input, output, error)
}

/// Carries out the words of a process, and ends it. Where there is no memory for the words, it ends with 7.
pub fn ended_for_want_of_memory<I: Read + Drop, O: Write + Drop, E: Write + Drop, R>(
    rt: R,
    alloc: Global,
    args: io::Result<Args>,
    input: I,
    output: O,
    error: E,
) -> ExitCode
where
    R: Threads + Wait + Eprint + Copy + Send + Sync + Drop,
    ensures { IfErr args (λ why. error_kind why ≡ OutOfMemory → exit_status result ≡ 7) }
{
    run_process(rt, alloc, args, input, output, error).report(&rt)
}

/// Carries out the words of a process, and ends it. Where they ask for something it doesn't end with 1, whatever came of that: not where two commands race, for
/// one, or where the scene's clients can't be drawn apart, of which the statuses are the highest.
pub fn ended_as_asked<I: Read + Drop, O: Write + Drop, E: Write + Drop, R>(
    rt: R,
    alloc: Global,
    args: io::Result<Args>,
    input: I,
    output: O,
    error: E,
) -> ExitCode
where
    R: Threads + Wait + Eprint + Copy + Send + Sync + Drop,
    ensures { IfOk args (λ all. (task : AnyTask) → AskFiltered (drop 1 (into_iter_items all)) task
        → exit_status result ≢ 1) }
{
    run_process(rt, alloc, args, input, output, error).report(&rt)
}
