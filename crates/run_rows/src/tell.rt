//! What is told of the rows of a table.
ghost use Rattle.std.specs.Prelude.{◌↔◌, IfOk, IsTrue};
ghost use Rattle.run_rows.specs.Due.{IsAsDue};

use crate::contents::{contents_of, malformed};
use crate::refusal::Refusal;
use crate::row::{Row, rows_of};
use crate::table::{Form, Line, lines_of};
use crate::trial::{Call, Host, Left, begins_with_none, left_by};
use crate::verdict::{are_counts_due, are_due, is_as_due, is_record_due};
use rc_base::command::Bytes;
use rc_base::out_of_memory::OutOfMemory;
use std::alloc::Global;
use std::io;

/// How many runs left what is due, and how many didn't.
#[derive(Clone, Copy)]
pub(crate) struct Tally {
    pub(crate) right: u64,
    pub(crate) wrong: u64,
}

impl Tally {
    // Counts one run more.
    fn add(&mut self, is_right: bool) {
        if is_right {
            self.right = self.right.saturating_add(1);
        } else {
            self.wrong = self.wrong.saturating_add(1);
        }
    }
}

// The bytes of the scene of a text, by the job that makes them.
fn packed(rt: &impl Host, alloc: Global, line: &Line, text: &[u8]) -> Result<Bytes, Refusal> {
    let left = left_by(rt, alloc, Call::Plain, "pack", text, None)?;
    if left.status != 0 {
        return Err(malformed(line, "the lines behind it spell no scene"));
    }
    Ok(Bytes::from_slice(alloc, left.ends.image.bytes())?)
}

// What a row is given.
fn given_of(rt: &impl Host, alloc: Global, lines: &[Line]) -> Result<Bytes, Refusal> {
    match lines.first() {
        Some(first) => {
            let contents = contents_of(alloc, &lines[1..])?;
            if first.form == Form::Scene {
                packed(rt, alloc, first, contents.as_slice())
            } else {
                Ok(contents)
            }
        }
        None => Ok(Bytes::new(alloc)),
    }
}

// Tells what a run left that isn't due.
fn tell_difference(rt: &impl Print, row: &Row, words: &str, left: &Left) -> io::Result<()> {
    let name = row.name;
    println!(rt; "row {name}: not as wanted by: {words}")?;
    if left.status != row.due.status {
        let status = left.status;
        println!(rt; "    its status is {status}")?;
    }
    if !is_record_due(row.due.has_record, left.has_record) {
        println!(rt; "    a record is kept, or is missing")?;
    }
    if !are_counts_due(&row.due.counts, left.counts.as_slice()) {
        println!(rt; "    its filters have counted something else")?;
    }
    if !are_due(&row.due.image, left.ends.image.bytes()) {
        println!(rt; "    its image is another one")?;
    }
    if !are_due(&row.due.notes, left.ends.notes.bytes()) {
        println!(rt; "    its notes are others")?;
    }
    Ok(())
}

// Whether a run left what is due. Where it didn't, that is told.
fn is_right(rt: &impl Print, row: &Row, words: &str, left: &Left) -> Result<bool, Refusal>
    ensures { IfOk result (λ it. IsTrue it ↔ IsAsDue row.now.due left.now.status left.now.has_record left.now.counts left.now.ends.image.held left.now.ends.notes.held) }
{
    if is_as_due(&row.due, left) {
        return Ok(true);
    }
    match tell_difference(rt, row, words, left) {
        Ok(()) => Ok(false),
        Err(_) => Err(Refusal::Untold),
    }
}

// Whether a run of these words by this call leaves what is due.
fn runs_right(
    rt: &(impl Host + Print),
    alloc: Global,
    row: &Row,
    call: Call,
    words: &str,
    input: &[u8],
) -> Result<bool, Refusal> {
    let left = left_by(rt, alloc, call, words, input, row.fails)?;
    is_right(rt, row, words, &left)
}

// Whether a run of these words leaves what is due behind the filters that they begin with, and, where they begin with none, by itself too.
fn is_as_wanted(
    rt: &(impl Host + Print),
    alloc: Global,
    row: &Row,
    words: &str,
    input: &[u8],
) -> Result<bool, Refusal> {
    if begins_with_none(alloc, words)? && !runs_right(rt, alloc, row, Call::Plain, words, input)? {
        return Ok(false);
    }
    runs_right(rt, alloc, row, Call::Filtered, words, input)
}

// Makes what a row's first run left due of its other runs, as far as they are to be alike.
fn take_over(alloc: Global, row: &mut Row, left: &Left) -> Result<(), OutOfMemory> {
    if row.alike.image {
        row.due.image = Some(Bytes::from_slice(alloc, left.ends.image.bytes())?);
    }
    if row.alike.notes {
        row.due.notes = Some(Bytes::from_slice(alloc, left.ends.notes.bytes())?);
    }
    Ok(())
}

// Runs the first words of a row whose runs are to be alike, to learn what is due.
fn learn(rt: &impl Host, alloc: Global, row: &mut Row, input: &[u8]) -> Result<(), OutOfMemory> {
    if !row.alike.image && !row.alike.notes {
        return Ok(());
    }
    match row.lines.first() {
        Some(line) => {
            let left = left_by(rt, alloc, Call::Filtered, line.rest, input, row.fails)?;
            take_over(alloc, row, &left)
        }
        None => Ok(()),
    }
}

// Runs the words of a row and counts them. Whether all left what is due.
fn run_row(
    rt: &(impl Host + Print),
    alloc: Global,
    row: &Row,
    input: &[u8],
    tally: &mut Tally,
) -> Result<bool, Refusal> {
    let before = tally.wrong;
    for line in row.lines {
        if line.form != Form::Words {
            break;
        }
        tally.add(is_as_wanted(rt, alloc, row, line.rest, input)?);
    }
    Ok(tally.wrong == before)
}

// The same of what the row is given.
fn are_as_wanted(
    rt: &(impl Host + Print),
    alloc: Global,
    row: &mut Row,
    tally: &mut Tally,
) -> Result<bool, Refusal> {
    let input = given_of(rt, alloc, row.given)?;
    learn(rt, alloc, row, input.as_slice())?;
    run_row(rt, alloc, row, input.as_slice(), tally)
}

// Tells a row whose runs were as wanted.
fn tell_right(rt: &impl Print, name: &str) -> Result<(), Refusal> {
    match println!(rt; "row {name}: as wanted") {
        Ok(()) => Ok(()),
        Err(_) => Err(Refusal::Untold),
    }
}

// Runs the words of a row, counts them, and tells the row.
fn tell_row(
    rt: &(impl Host + Print),
    alloc: Global,
    row: &mut Row,
    tally: &mut Tally,
) -> Result<(), Refusal> {
    if are_as_wanted(rt, alloc, row, tally)? {
        tell_right(rt, row.name)?;
    }
    Ok(())
}

/// Runs the rows of a table, and tells each.
pub(crate) fn tell_table(
    rt: &(impl Host + Print),
    alloc: Global,
    table: &[u8],
) -> Result<Tally, Refusal> {
    let Ok(text) = str::from_utf8(table) else {
        return Err(Refusal::Unread);
    };
    let lines = lines_of(alloc, text)?;
    let mut rows = rows_of(alloc, lines.as_slice())?;
    let mut tally = Tally { right: 0, wrong: 0 };
    for row in &mut rows {
        tell_row(rt, alloc, row, &mut tally)?;
    }
    Ok(tally)
}
