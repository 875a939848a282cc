use rc_base::command::{Command, Rgba};
use rc_base::list_command::ListCommand;
use rc_base::scene::{Scene, SceneKind};
use scene_file::{ListScene, SceneFault, read_list_scene, read_scene, write_scene};
use scene_text::{parse_scene, print_scene};
use std::alloc::Global;
use std::process::Abort;
use test_scenes::RED_CLEAR;

/// Whether the bytes have this first fault.
fn fails(rt: &HostRuntime, bytes: &[u8], fault: SceneFault) -> bool {
    match read_scene(rt.alloc(), bytes) {
        Ok(_) => false,
        Err(found) => found == fault,
    }
}

/// Whether the bytes are read and written again as they stand.
fn comes_back(rt: &HostRuntime, bytes: &[u8]) -> bool {
    match read_scene(rt.alloc(), bytes) {
        Ok(scene) => match write_scene(rt.alloc(), &scene) {
            Ok(written) => written.as_slice() == bytes,
            Err(_) => false,
        },
        Err(_) => false,
    }
}

fn is_red(scene: &Scene, version: u8) -> bool {
    let decl = &scene.decl;
    if decl.version != version || decl.width != 2 || decl.height != 2 || decl.shared.len() != 0 {
        return false;
    }
    match scene.streams.as_slice() {
        [stream] => match stream.as_slice() {
            [
                Command::ClearColor(color),
                Command::Clear { mask: 1 },
                Command::Swap,
            ] => {
                *color
                    == (Rgba {
                        r: 255,
                        g: 0,
                        b: 0,
                        a: 255,
                    })
            }
            _ => false,
        },
        _ => false,
    }
}

/// Whether the bytes with this digit behind the letters are read as the scene in this version, and written again as they stand.
fn is_red_in(rt: &HostRuntime, digit: u8, version: u8) -> bool {
    let mut bytes = RED_CLEAR;
    bytes[3] = digit;
    match read_scene(rt.alloc(), &bytes) {
        Ok(scene) => is_red(&scene, version) && comes_back(rt, &bytes),
        Err(_) => false,
    }
}

#[test]
fn red_scene_is_read_and_written(rt: HostRuntime) {
    assert!(rt; is_red_in(&rt, 0x31, 1));
    assert!(rt; is_red_in(&rt, 0x32, 2));
}

/// Whether a text is spelled by these bytes as well: each is read and written as the other.
fn are_one_scene(rt: &impl Abort, alloc: Global, text: &[u8], bytes: &[u8]) -> bool {
    let parsed = parse_scene(alloc, text).expect(rt, "a scene");
    let written = write_scene(alloc, &parsed).expect(rt, "memory");
    let read = read_scene(alloc, bytes).expect(rt, "a scene");
    let printed = print_scene(alloc, &read).expect(rt, "memory");
    written.as_slice() == bytes && printed.as_slice() == text
}

#[test]
fn a_scene_of_version_2_goes_there_and_back(rt: HostRuntime) {
    let mut bytes = RED_CLEAR;
    bytes[3] = 0x32;
    let text = b"scene 2 2 2\nclient\nClearColor 255 0 0 255\nClear 1\nSwap\n";
    assert!(rt; are_one_scene(&rt, rt.alloc(), text, &bytes));
}

/// Whether the red scene with two bytes changed at a place has this first fault.
fn fails_changed(rt: &HostRuntime, place: usize, bytes: [u8; 2], fault: SceneFault) -> bool {
    let mut scene = RED_CLEAR;
    if place < 25 {
        scene[place] = bytes[0];
        scene[place + 1] = bytes[1];
    }
    fails(rt, &scene, fault)
}

/// A place, two bytes that are changed there, and the kind and the place of the first fault.
const CHANGED: [(usize, [u8; 2], SceneKind, usize); 9] = [
    (2, [0x54, 0x31], SceneKind::BadMagic, 2),
    (2, [0x53, 0x30], SceneKind::BadMagic, 3),
    (2, [0x53, 0x33], SceneKind::BadMagic, 3),
    (2, [0x53, 0x34], SceneKind::BadMagic, 3),
    (16, [0, 0], SceneKind::BadCount, 16),
    (16, [1, 4], SceneKind::BadCount, 16),
    (18, [0, 0x18], SceneKind::UnknownOpcode, 18),
    (12, [9, 0], SceneKind::Truncated, 25),
    (12, [11, 0], SceneKind::Truncated, 26),
];

/// The red scene with a byte more.
const LONGER: &[u8] = b"RCS1\x02\0\x02\0\x01\0\0\0\x0a\0\0\0\x03\0\x16\x18\x24\xff\0\0\xff\x01\0";

#[test]
fn each_fault_stands_at_its_place(rt: HostRuntime) {
    for n in 0..26 {
        let fault = SceneFault::Malformed {
            kind: SceneKind::Truncated,
            at: n,
        };
        assert!(rt; fails(&rt, &RED_CLEAR[..n], fault));
    }
    for (place, bytes, kind, at) in &CHANGED {
        let fault = SceneFault::Malformed {
            kind: *kind,
            at: *at,
        };
        assert!(rt; fails_changed(&rt, *place, *bytes, fault));
    }
    let fault = SceneFault::Malformed {
        kind: SceneKind::Trailing,
        at: 26,
    };
    assert!(rt; fails(&rt, LONGER, fault));
    let narrow = SceneFault::Limit { what: 2, value: 0 };
    assert!(rt; fails_changed(&rt, 4, [0, 0], narrow));
}

/// A window of 5 by 7 with two shared textures, a barrier and a semaphore, and a stream without commands.
const DECLARED: [u8; 27] = [
    0x52, 0x43, 0x53, 0x31, 5, 0, 7, 0, 1, 2, 1, 1, 2, 0, 1, 0, 3, 0, 4, 0, 8, 2, 1, 0, 0, 0, 0,
];

fn is_declared(scene: &Scene) -> bool {
    let decl = &scene.decl;
    decl.width == 5
        && decl.height == 7
        && scene.streams.len() == 1
        && decl.shared.as_slice() == [[2, 1], [3, 4]].as_slice()
        && decl.barriers.as_slice() == [8].as_slice()
        && decl.semaphores.as_slice() == [258].as_slice()
}

/// Whether the declarations are read.
fn are_declared(rt: &HostRuntime) -> bool {
    match read_scene(rt.alloc(), &DECLARED) {
        Ok(scene) => is_declared(&scene),
        Err(_) => false,
    }
}

#[test]
fn declarations_are_read_and_written(rt: HostRuntime) {
    assert!(rt; are_declared(&rt) && comes_back(&rt, &DECLARED));
}

/// A window of 2 by 2, and one stream in which a list of one Swap is made and called.
const LIST_SCENE: &[u8] = b"RCS3\x02\0\x02\0\x01\0\0\0\x08\0\0\0\x04\0\x25\x24\x26\x27\x07\x07";

fn makes_a_list(scene: &ListScene) -> bool {
    if scene.decl.width != 2 || scene.decl.height != 2 {
        return false;
    }
    match scene.streams.as_slice() {
        [stream] => matches!(
            stream.as_slice(),
            [
                ListCommand::NewList(7),
                ListCommand::Plain(Command::Swap),
                ListCommand::EndList,
                ListCommand::CallList(7),
            ]
        ),
        _ => false,
    }
}

/// What the bytes are as a scene with call lists: whether it is the one above, or their first fault.
fn read_lists(rt: &HostRuntime, bytes: &[u8]) -> Result<bool, SceneFault> {
    let scene = read_list_scene(rt.alloc(), bytes)?;
    Ok(makes_a_list(&scene))
}

#[test]
fn scenes_with_call_lists_are_read(rt: HostRuntime) {
    assert!(rt; read_lists(&rt, LIST_SCENE) == Ok(true));
    let bad = SceneFault::Malformed {
        kind: SceneKind::BadMagic,
        at: 3,
    };
    assert!(rt; read_lists(&rt, &RED_CLEAR) == Err(bad));
    let short = SceneFault::Malformed {
        kind: SceneKind::Truncated,
        at: 12,
    };
    assert!(rt; read_lists(&rt, &LIST_SCENE[..12]) == Err(short));
}
