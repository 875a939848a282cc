//! What streams with call lists mean, as the text of version 2, made by replacing calls.
use super::spelled::Step;
use crate::runs::Host;
use std::alloc::Global;

// What was taken of a stream: its lists by name, the recording and its name, 0 where there is none, and what the stream means so far, in which no call is.
#[derive(Drop)]
struct Taken {
    lists: Vec<Vec<Step>>,
    name: u8,
    recording: Vec<Step>,
    meaning: Vec<Step>,
}

fn nothing_taken(rt: &impl Host, alloc: Global) -> Taken {
    let mut lists = Vec::new(alloc);
    for _ in 0..65u32 {
        lists.push(Vec::new(alloc)).expect(rt, "memory");
    }
    Taken {
        lists,
        name: 0,
        recording: Vec::new(alloc),
        meaning: Vec::new(alloc),
    }
}

// The steps of a list, and none where it doesn't exist.
fn list_of(lists: &[Vec<Step>], name: u8) -> &[Step] {
    match lists.get(name as usize) {
        Some(list) => list.as_slice(),
        None => &[],
    }
}

// The steps with the steps of its list in place of each call.
fn replaced(rt: &impl Host, alloc: Global, lists: &[Vec<Step>], steps: &[Step]) -> Vec<Step> {
    let mut all = Vec::new(alloc);
    for step in steps {
        match *step {
            Step::Call(name) => all
                .extend_from_slice(list_of(lists, name))
                .expect(rt, "memory"),
            other => all.push(other).expect(rt, "memory"),
        }
    }
    all
}

// What a list gives where it is called. The calls that are left are in the eighth list, and give nothing.
fn called(rt: &impl Host, alloc: Global, lists: &[Vec<Step>], name: u8) -> Vec<Step> {
    let mut steps = Vec::from_slice(alloc, list_of(lists, name)).expect(rt, "memory");
    for _ in 0..7u32 {
        steps = replaced(rt, alloc, lists, steps.as_slice());
    }
    steps
}

// Ends the recording: it is the list of its name.
fn end_list(rt: &impl Host, alloc: Global, taken: &mut Taken) {
    if let Some(list) = taken.lists.get_mut(taken.name as usize) {
        *list = Vec::from_slice(alloc, taken.recording.as_slice()).expect(rt, "memory");
    }
    taken.name = 0;
}

// Takes a step that isn't refused.
fn take(rt: &impl Host, alloc: Global, taken: &mut Taken, step: Step) {
    match step {
        Step::New(name) => {
            taken.name = name;
            taken.recording = Vec::new(alloc);
        }
        Step::End => end_list(rt, alloc, taken),
        _ if taken.name > 0 => taken.recording.push(step).expect(rt, "memory"),
        Step::Call(name) => {
            let steps = called(rt, alloc, taken.lists.as_slice(), name);
            taken
                .meaning
                .extend_from_slice(steps.as_slice())
                .expect(rt, "memory");
        }
        Step::Plain(_) => taken.meaning.push(step).expect(rt, "memory"),
    }
}

// Why a step is refused.
fn refusal(is_recording: bool, step: Step) -> Option<&'static str> {
    match step {
        Step::New(_) if is_recording => Some("INVALID_OPERATION"),
        Step::End if !is_recording => Some("INVALID_OPERATION"),
        Step::New(name) | Step::Call(name) if name == 0 || name > 64 => Some("INVALID_VALUE"),
        _ => None,
    }
}

// How many commands a step is.
fn commands_in(step: Step) -> usize {
    let mut count: usize = 1;
    if let Step::Plain(lines) = step {
        for byte in lines.as_bytes() {
            if *byte == b'\n' {
                count = count.saturating_add(1);
            }
        }
    }
    count
}

// The text of what a scene means, and the lines of its refused list commands.
#[derive(Drop)]
pub(super) struct Meaning {
    pub(super) text: Vec<u8>,
    pub(super) refused: Vec<u8>,
}

fn add(rt: &impl Host, bytes: &mut Vec<u8>, more: &str) {
    bytes
        .extend_from_slice(more.as_bytes())
        .expect(rt, "memory");
}

fn add_refused(
    rt: &impl Host,
    alloc: Global,
    lines: &mut Vec<u8>,
    client: usize,
    name: &str,
    place: usize,
) {
    let line = format!(in alloc; "client {client} list fault {name} at {place}\n").expect(
        rt, "memory",
    );
    add(rt, lines, line.as_str());
}

fn add_text(rt: &impl Host, text: &mut Vec<u8>, steps: &[Step]) {
    add(rt, text, "client\n");
    for step in steps {
        if let Step::Plain(lines) = *step {
            add(rt, text, lines);
            add(rt, text, "\n");
        }
    }
}

// Adds what a client's stream means.
fn add_client(rt: &impl Host, alloc: Global, meaning: &mut Meaning, client: usize, steps: &[Step]) {
    let mut taken = nothing_taken(rt, alloc);
    let mut place: usize = 0;
    for step in steps {
        match refusal(taken.name > 0, *step) {
            Some(name) => add_refused(rt, alloc, &mut meaning.refused, client, name, place),
            None => take(rt, alloc, &mut taken, *step),
        }
        place = place.saturating_add(commands_in(*step));
    }
    add_text(rt, &mut meaning.text, taken.meaning.as_slice());
}

// What the scene of these streams means, in a window of 2 by 2.
pub(super) fn meaning_of(rt: &impl Host, alloc: Global, streams: &[&[Step]]) -> Meaning {
    let mut meaning = Meaning {
        text: Vec::new(alloc),
        refused: Vec::new(alloc),
    };
    add(rt, &mut meaning.text, "scene 2 2 2\n");
    for client in 0..streams.len() {
        add_client(rt, alloc, &mut meaning, client, streams[client]);
    }
    meaning
}
