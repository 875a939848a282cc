//! Scenes with call lists, from steps to bytes: no text spells them.
use crate::runs::{Host, run_on};
use std::alloc::Global;

// A packet of a stream: one of the three list commands, or plain commands as lines of text.
#[derive(Clone, Copy)]
pub(super) enum Step {
    New(u8),
    End,
    Call(u8),
    Plain(&'static str),
}

// A triangle that covers the window, in five commands.
pub(super) const FULL: Step = Step::Plain(
    "Begin 0
Vertex -65536 -65536 0 65536
Vertex 196608 -65536 0 65536
Vertex -65536 196608 0 65536
End",
);

// Adds the packet of plain commands.
fn add_plain(rt: &impl Host, alloc: Global, stream: &mut Vec<u8>, lines: &str) {
    let text = format!(in alloc; "scene 2 1 1\nclient\n{lines}\n").expect(rt, "memory");
    let packed = run_on(rt, alloc, &["pack"], text.as_bytes());
    let packet = packed.image.bytes().get(16..).expect(rt, "a packet");
    stream.extend_from_slice(packet).expect(rt, "memory");
}

fn add_packet(rt: &impl Host, alloc: Global, stream: &mut Vec<u8>, step: Step) {
    match step {
        Step::New(name) => stream
            .extend_from_slice(&[1, 0, 0x25, name])
            .expect(rt, "memory"),
        Step::End => stream.extend_from_slice(&[1, 0, 0x26]).expect(rt, "memory"),
        Step::Call(name) => stream
            .extend_from_slice(&[1, 0, 0x27, name])
            .expect(rt, "memory"),
        Step::Plain(lines) => add_plain(rt, alloc, stream, lines),
    }
}

// Adds a stream behind its length.
fn add_stream(rt: &impl Host, alloc: Global, scene: &mut Vec<u8>, steps: &[Step]) {
    let mut stream = Vec::new(alloc);
    for step in steps {
        add_packet(rt, alloc, &mut stream, *step);
    }
    let length = u32::try_from(stream.len()).expect(rt, "a short stream");
    scene
        .extend_from_slice(&length.to_le_bytes())
        .expect(rt, "memory");
    scene
        .extend_from_slice(stream.as_slice())
        .expect(rt, "memory");
}

// The header of a scene with so many clients, whose declaration is that of a text behind its version.
fn header(rt: &impl Host, alloc: Global, declared: &str, clients: usize) -> Vec<u8> {
    let mut text = format!(in alloc; "scene 2 {declared}\n").expect(rt, "memory");
    for _ in 0..clients {
        text.push_str("client\n").expect(rt, "memory");
    }
    let packed = run_on(rt, alloc, &["pack"], text.as_bytes());
    let bytes = packed.image.bytes();
    let end = bytes.len().saturating_sub(clients.saturating_mul(4));
    let mut header = Vec::from_slice(alloc, b"RCS3").expect(rt, "memory");
    header
        .extend_from_slice(bytes.get(4..end).expect(rt, "a header"))
        .expect(rt, "memory");
    header
}

// The bytes of a scene with call lists.
pub(super) fn spelled(
    rt: &impl Host,
    alloc: Global,
    declared: &str,
    streams: &[&[Step]],
) -> Vec<u8> {
    let mut scene = header(rt, alloc, declared, streams.len());
    for steps in streams {
        add_stream(rt, alloc, &mut scene, *steps);
    }
    scene
}
