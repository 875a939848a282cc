//! The rows of a table, and what a run is to leave by them.
ghost use Rattle.std.specs.Prelude.{◌≡◌, ◌<◌, IfOk, IfSome, length, map};
ghost use Rattle.run_rows.specs.Rows.{names_in};

use crate::contents::{contents_of, malformed};
use crate::refusal::Refusal;
use crate::table::{Form, Line};
use rc_base::command::Bytes;
use rc_base::items::Items;
use std::alloc::Global;

/// What filters that count have counted, in their order.
pub(crate) type Counted = Items<u64>;

/// What a run is to leave; nothing is asked of what is `None`.
#[derive(Drop)]
pub(crate) struct Due {
    pub(crate) status: u8,
    pub(crate) has_record: Option<bool>,
    pub(crate) counts: Option<Counted>,
    pub(crate) image: Option<Bytes>,
    pub(crate) notes: Option<Bytes>,
}

/// The numbers of the calls that fail, and 0 where none does.
#[derive(Clone, Copy)]
pub(crate) struct Fails {
    pub(crate) source: u64,
    pub(crate) image: u64,
    pub(crate) notes: u64,
}

/// What each run of a row leaves as its first run does.
#[derive(Clone, Copy)]
pub(crate) struct Alike {
    pub(crate) image: bool,
    pub(crate) notes: bool,
}

/// A row: its name, the lines from those on that spell what it is given, its lines, of which the first ones are words, the calls that fail, where the ends
/// carry a byte a call, and what each run of these words is to leave.
#[derive(Drop)]
pub(crate) struct Row<'a> {
    pub(crate) name: &'a str,
    pub(crate) given: &'a [Line<'a>],
    pub(crate) lines: &'a [Line<'a>],
    pub(crate) fails: Option<Fails>,
    pub(crate) alike: Alike,
    pub(crate) due: Due,
}

// Where the first line of a form stands, before those of the next row.
fn place_of(lines: &[Line], form: Form) -> Option<usize>
    ensures { IfSome result (λ at. at < length lines.now) }
{
    for i in 0..lines.len() {
        match lines[i].form {
            Form::Input | Form::Scene | Form::Row => return None,
            other if other == form => return Some(i),
            _ => {}
        }
    }
    None
}

// Whether the line of a form says that all runs are alike.
fn are_alike(lines: &[Line], form: Form) -> bool {
    match place_of(lines, form) {
        Some(at) => lines[at].rest == "alike",
        None => false,
    }
}

// The bytes that are spelt behind the line of a form.
fn bytes_behind(alloc: Global, lines: &[Line], form: Form) -> Result<Option<Bytes>, Refusal> {
    if are_alike(lines, form) {
        return Ok(None);
    }
    match place_of(lines, form) {
        Some(at) => Ok(Some(contents_of(alloc, &lines[at + 1..])?)),
        None => Ok(None),
    }
}

fn status_in(lines: &[Line]) -> Result<u8, Refusal> {
    let Some(at) = place_of(lines, Form::Status) else {
        return Err(Refusal::Malformed {
            line: 0,
            why: "a row has no status",
        });
    };
    match lines[at].rest.parse::<u8>() {
        Ok(status) => Ok(status),
        Err(_) => Err(malformed(&lines[at], "it wants a number from 0 to 255")),
    }
}

fn record_in(lines: &[Line]) -> Result<Option<bool>, Refusal> {
    let Some(at) = place_of(lines, Form::Record) else {
        return Ok(None);
    };
    match lines[at].rest.as_bytes() {
        b"yes" => Ok(Some(true)),
        b"no" => Ok(Some(false)),
        _ => Err(malformed(&lines[at], "it wants yes or no")),
    }
}

// Adds the numbers of a line.
fn add_numbers(counts: &mut Counted, line: &Line) -> Result<(), Refusal> {
    if line.rest.is_empty() {
        return Ok(());
    }
    for word in line.rest.split(' ') {
        match word.parse::<u64>() {
            Ok(number) => counts.push(number)?,
            Err(_) => return Err(malformed(line, "it wants numbers")),
        }
    }
    Ok(())
}

// The numbers of the line of a form.
fn numbers_in(alloc: Global, lines: &[Line], form: Form) -> Result<Option<Counted>, Refusal> {
    match place_of(lines, form) {
        Some(at) => {
            let mut counts = Counted::new(alloc);
            add_numbers(&mut counts, &lines[at])?;
            Ok(Some(counts))
        }
        None => Ok(None),
    }
}

fn fails_in(alloc: Global, lines: &[Line]) -> Result<Option<Fails>, Refusal> {
    let Some(numbers) = numbers_in(alloc, lines, Form::Fails)? else {
        return Ok(None);
    };
    match *numbers.as_slice() {
        [source, image, notes] => Ok(Some(Fails {
            source,
            image,
            notes,
        })),
        _ => Err(Refusal::Malformed {
            line: 0,
            why: "a row has not three calls that fail",
        }),
    }
}

fn due_in(alloc: Global, lines: &[Line]) -> Result<Due, Refusal> {
    let status = status_in(lines)?;
    let has_record = record_in(lines)?;
    let counts = numbers_in(alloc, lines, Form::Counts)?;
    let image = bytes_behind(alloc, lines, Form::Image)?;
    let notes = bytes_behind(alloc, lines, Form::Notes)?;
    Ok(Due {
        status,
        has_record,
        counts,
        image,
        notes,
    })
}

// The row of this name, which is given this, and whose lines are those on the front.
fn row_of<'a>(
    alloc: Global,
    name: &'a str,
    given: &'a [Line<'a>],
    lines: &'a [Line<'a>],
) -> Result<Row<'a>, Refusal>
    ensures { IfOk result (λ row. row.name.now ≡ name.now) }
{
    let fails = fails_in(alloc, lines)?;
    let due = due_in(alloc, lines)?;
    Ok(Row {
        name,
        given,
        lines,
        fails,
        alike: Alike {
            image: are_alike(lines, Form::Image),
            notes: are_alike(lines, Form::Notes),
        },
        due,
    })
}

/// The rows of a table, none left out.
pub(crate) fn rows_of<'a>(alloc: Global, lines: &'a [Line<'a>]) -> Result<Vec<Row<'a>>, Refusal>
    ensures named { IfOk result (λ rows. map (λ row. row.name.now) rows.items ≡ names_in lines.now) }
{
    let mut rows = Vec::new(alloc);
    let mut given = lines;
    for i in 0..lines.len() {
        match lines[i].form {
            Form::Input | Form::Scene => given = &lines[i..],
            Form::Row => {
                let row = row_of(alloc, lines[i].rest, given, &lines[i + 1..])?;
                rows.push(row)?;
            }
            _ => {}
        }
    }
    Ok(rows)
}
