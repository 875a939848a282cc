//! Tables of rows, line by line.
//!
//! A line says by its first word what it is, and a blank stands behind that word. Empty lines and lines that begin with `#` are nothing.
use crate::refusal::Refusal;
use std::alloc::Global;

/// What a line is.
#[derive(Clone, Copy, PartialEq, Eq)]
pub(crate) enum Form {
    /// `input`: what the rows below are given is spelt by the lines behind it.
    Input,
    /// `scene`: the rows below are given the bytes of the scene whose text is spelt by the lines behind it.
    Scene,
    /// `row NAME`: a row.
    Row,
    /// `words WORD ..`: the words of a run.
    Words,
    /// `fails N N N`: the ends carry a byte a call, and these calls of source, image and notes fail.
    Fails,
    /// `status N`: the status that is due.
    Status,
    /// `record yes` or `record no`: whether a record is to be kept.
    Record,
    /// `counts N ..`: what the filters that count are to have counted.
    Counts,
    /// `image`: the image that is due is spelt by the lines behind it. `image alike`: it is that of the row's first run.
    Image,
    /// `notes`, `notes alike`: the same of the notes.
    Notes,
    /// `| TEXT`: a line of text.
    Text,
    /// `x HEX`, or `x HEX * N`: bytes, and so many times.
    Bytes,
}

/// A line of a table: its number, from 1 on, what it is, and the rest of it.
#[derive(Clone, Copy)]
pub(crate) struct Line<'a> {
    pub(crate) number: usize,
    pub(crate) form: Form,
    pub(crate) rest: &'a str,
}

fn form_named(word: &str) -> Option<Form> {
    match word.as_bytes() {
        b"input" => Some(Form::Input),
        b"scene" => Some(Form::Scene),
        b"row" => Some(Form::Row),
        b"words" => Some(Form::Words),
        b"fails" => Some(Form::Fails),
        b"status" => Some(Form::Status),
        b"record" => Some(Form::Record),
        b"counts" => Some(Form::Counts),
        b"image" => Some(Form::Image),
        b"notes" => Some(Form::Notes),
        b"|" => Some(Form::Text),
        b"x" => Some(Form::Bytes),
        _ => None,
    }
}

// Whether a line of this form may stand behind one of the last form, contents left out; at the front of a table there is none.
fn may_follow(last: Option<Form>, form: Form) -> bool {
    match form {
        Form::Input | Form::Scene => !matches!(last, Some(Form::Row | Form::Words | Form::Fails)),
        Form::Row => !matches!(last, None | Some(Form::Row | Form::Words | Form::Fails)),
        Form::Words => matches!(last, Some(Form::Row | Form::Words)),
        Form::Fails => matches!(last, Some(Form::Words)),
        Form::Status => matches!(last, Some(Form::Words | Form::Fails)),
        Form::Record => matches!(last, Some(Form::Status)),
        Form::Counts => matches!(last, Some(Form::Status | Form::Record)),
        Form::Image => matches!(last, Some(Form::Status | Form::Record | Form::Counts)),
        Form::Notes => {
            matches!(
                last,
                Some(Form::Status | Form::Record | Form::Counts | Form::Image)
            )
        }
        Form::Text | Form::Bytes => {
            matches!(
                last,
                Some(Form::Input | Form::Scene | Form::Image | Form::Notes)
            )
        }
    }
}

fn line_of<'a>(number: usize, text: &'a str) -> Result<Line<'a>, Refusal> {
    let (word, rest) = match text.split_once(' ') {
        Some(parts) => parts,
        None => (text, ""),
    };
    match form_named(word) {
        Some(form) => Ok(Line { number, form, rest }),
        None => Err(Refusal::Malformed {
            line: number,
            why: "its first word is none of a table",
        }),
    }
}

/// The lines of a table, without empty ones and comments.
pub(crate) fn lines_of<'a>(alloc: Global, text: &'a str) -> Result<Vec<Line<'a>>, Refusal> {
    let mut lines = Vec::new(alloc);
    let mut last = None;
    let mut number: usize = 0;
    for text in text.lines() {
        number = number.saturating_add(1);
        if text.is_empty() || text.as_bytes().starts_with(b"#") {
            continue;
        }
        let line = line_of(number, text)?;
        if !may_follow(last, line.form) {
            return Err(Refusal::Malformed {
                line: number,
                why: "it can't stand behind the lines before it",
            });
        }
        if line.form != Form::Text && line.form != Form::Bytes {
            last = Some(line.form);
        }
        lines.push(line)?;
    }
    if !may_follow(last, Form::Input) {
        return Err(Refusal::Malformed {
            line: number,
            why: "its row has no status",
        });
    }
    Ok(lines)
}
