use rc_base::scene::TextKind;
use scene_text::{TextSceneFault, parse_scene, print_scene};
use std::alloc::Global;
use std::process::Abort;
use test_scenes::RED_CLEAR_TEXT;

/// What is parsed is printed so.
fn prints_as(alloc: Global, text: &[u8], printed: &[u8]) -> bool {
    match parse_scene(alloc, text) {
        Ok(scene) => match print_scene(alloc, &scene) {
            Ok(bytes) => bytes.as_slice() == printed,
            Err(_) => false,
        },
        Err(_) => false,
    }
}

fn fails_with(alloc: Global, text: &[u8], line: usize, kind: TextKind) -> bool {
    match parse_scene(alloc, text) {
        Ok(_) => false,
        Err(fault) => fault == TextSceneFault::Text { line, kind },
    }
}

#[test]
fn red_clear_is_parsed_and_printed(rt: HostRuntime) {
    assert!(rt; prints_as(rt.alloc(), RED_CLEAR_TEXT, RED_CLEAR_TEXT));
    assert!(rt;
        prints_as(
            rt.alloc(),
            b"# red\r\n\n  scene  01 2 0002 \r\n   \nclient\r\nClearColor 255 0 -0 255\nClear 1\nSwap",
            RED_CLEAR_TEXT
        )
    );
}

const FAULTY: [(&[u8], TextKind); 22] = [
    (b"Clear 300", TextKind::BadNumber),
    (b"Clear +1", TextKind::BadNumber),
    (b"Clear 00000000001", TextKind::BadNumber),
    (b"Clear -", TextKind::BadNumber),
    (b"Vertex 0 0 0 2147483648", TextKind::BadNumber),
    (b"Clera 1", TextKind::UnknownWord),
    (b"clear 1", TextKind::UnknownWord),
    (b" # Clear 1", TextKind::UnknownWord),
    (b"Clear", TextKind::WrongCount),
    (b"Clear 1 1", TextKind::WrongCount),
    (b"Clear\t1", TextKind::NotText),
    (b"# \x80", TextKind::NotText),
    (b"Clear 1\r\r\n", TextKind::NotText),
    (b"Clear 1\r", TextKind::NotText),
    (b"scene 1 2 2", TextKind::OutOfPlace),
    (b"barrier 2", TextKind::OutOfPlace),
    (b"TexImage 1 1 1 0102030", TextKind::BadHex),
    (b"TexImage 1 1 1 0102030g", TextKind::BadHex),
    (b"TexImage 1 1 1", TextKind::WrongCount),
    (b"TexImage 1 0 1 00", TextKind::WrongCount),
    (b"TexImage 1 70000 1", TextKind::BadNumber),
    (b"TexImage 1 -1 1 00", TextKind::BadNumber),
];

/// Whether a line is refused as the fourth one, behind a clear colour.
fn line_fails(rt: &impl Abort, alloc: Global, line: &[u8], kind: TextKind) -> bool {
    let front = b"scene 1 2 2\nclient\nClearColor 255 0 0 255\n";
    let mut text = Vec::from_slice(alloc, front).expect(rt, "memory");
    text.extend_from_slice(line).expect(rt, "memory");
    fails_with(alloc, text.as_slice(), 4, kind)
}

#[test]
fn each_fault_has_its_kind_and_line(rt: HostRuntime) {
    for (line, kind) in &FAULTY {
        assert!(rt; line_fails(&rt, rt.alloc(), *line, *kind));
    }
}

/// The quantity of a text that is past its limit, and its number.
fn limit(alloc: Global, text: &[u8]) -> Option<(u8, u64)> {
    match parse_scene(alloc, text) {
        Err(TextSceneFault::Limit { what, value }) => Some((what, value)),
        _ => None,
    }
}

#[test]
fn a_text_needs_its_lines_in_order(rt: HostRuntime) {
    assert!(rt; fails_with(rt.alloc(), b"", 1, TextKind::NoScene));
    assert!(rt; fails_with(rt.alloc(), b"\n# nothing\n", 1, TextKind::NoScene));
    assert!(rt; fails_with(rt.alloc(), b"client", 1, TextKind::OutOfPlace));
    assert!(rt; fails_with(rt.alloc(), b"scene 1 2 2\nSwap", 2, TextKind::OutOfPlace));
    assert!(rt; fails_with(rt.alloc(), b"scene 0 2 2", 1, TextKind::BadNumber));
    assert!(rt; fails_with(rt.alloc(), b"scene 3 2 2", 1, TextKind::BadNumber));
    assert!(rt; limit(rt.alloc(), b"scene 1 0 2\nclient") == Some((2, 0)));
}

/// A text, a line so many times, and another text behind it.
fn text_of(
    rt: &impl Abort,
    alloc: Global,
    front: &[u8],
    line: &[u8],
    times: u32,
    back: &[u8],
) -> Vec<u8> {
    let mut text = Vec::from_slice(alloc, front).expect(rt, "memory");
    for _ in 0..times {
        text.extend_from_slice(line).expect(rt, "memory");
    }
    text.extend_from_slice(back).expect(rt, "memory");
    text
}

/// Whether eleven clients are told, and a wrong line behind them before that.
fn counts_clients(rt: &impl Abort, alloc: Global) -> bool {
    let text = text_of(rt, alloc, b"scene 1 2 2\n", b"client\nEnd\n", 11, b"");
    let wrong = text_of(
        rt,
        alloc,
        b"scene 1 2 2\n",
        b"client\nEnd\n",
        11,
        b"Clera 1\n",
    );
    limit(alloc, text.as_slice()) == Some((4, 11))
        && fails_with(alloc, wrong.as_slice(), 24, TextKind::UnknownWord)
}

// Told from the counts, where nothing more is stored.
#[test]
fn too_many_clients_are_counted(rt: HostRuntime) {
    assert!(rt; counts_clients(&rt, rt.alloc()));
}

fn counts_commands(rt: &impl Abort, alloc: Global) -> bool {
    let back = b"client\nSwap\n";
    let text = text_of(
        rt,
        alloc,
        b"scene 1 2 2\nclient\n",
        b"End\n",
        1_048_580,
        back,
    );
    limit(alloc, text.as_slice()) == Some((11, 1_048_581))
}

#[test]
fn too_many_commands_are_counted(rt: HostRuntime) {
    assert!(rt; counts_commands(&rt, rt.alloc()));
}

#[test]
fn every_command_is_parsed_and_printed(rt: HostRuntime) {
    let text = b"scene 1 640 480
shared 2 1
shared 16 16
barrier 2
semaphore 0
semaphore 65535
client
Begin 0
Vertex -2147483648 2147483647 0 65536
Color 1 2 3 4
TexCoord -1 65536
End
Enable 5
Disable 0
MatrixMode 1
LoadIdentity
LoadMatrix 1 2 3 4 5 6 7 8 9 10 11 12 13 14 15 -16
MultMatrix 65536 0 0 0 0 65536 0 0 0 0 65536 0 0 0 0 65536
PushMatrix
PopMatrix
Viewport 0 0 640 480
DepthRange 0 65536
Scissor -5 6 7 8
AlphaFunc 7 128
DepthFunc 1
DepthMask 1
BlendFunc 6 7
ColorMask 1 0 1 255
ClearColor 255 0 0 255
ClearDepth 65536
Clear 3
CullFace 1
FrontFace 0
BindTexture 1 2
TexEnv 1
TexWrap 0 1
TexImage 1 1 1 0a0b0cff
TexImage 2 0 7
TexPart 1 0 0 1 1 01020304
SharedImage 1 1 0 1 1 a0b0c0d0
Barrier 1
SemP 1
SemV 2
Swap
client
Swap
";
    assert!(rt; prints_as(rt.alloc(), text, text));
}
