//! Streams by hand: every command byte for byte, packets of 1,024, and the first fault of bytes that spell nothing.
use cmd_pack::{PackFault, decode, decode_lists, decode_lists_within, decode_within, encode};
use rc_base::command::{Command, Commands, Mat4, Part, Rgba, Texels};
use rc_base::list_command::{ListCommand, ListCommands};
use rc_base::out_of_memory::OutOfMemory;
use std::alloc::Global;
use std::process::Abort;

// The 36 commands in the order of their opcodes, spelled by hand from the table.
const EVERY_COMMAND: &[u8] = b"\x24\x00\
        \x01\x02\x03\x04\x05\x06\x07\x08\x09\x0a\x0b\x0c\x0d\x0e\x0f\x10\x11\x12\x13\x14\x15\x16\x17\x18\x19\x1a\x1b\x1c\x1d\x1e\x1f\x20\x21\x22\x23\x24\
        \x02\
        \x00\x00\x01\x00\xff\xff\xff\xff\x00\x00\x00\x00\x00\x00\x00\x80\
        \x01\x02\x03\x04\
        \x04\x03\x02\x01\xfe\xff\xff\xff\
        \x05\
        \x00\
        \x01\
        \x01\x00\x00\x00\x02\x00\x00\x00\x03\x00\x00\x00\x04\x00\x00\x00\x05\x00\x00\x00\x06\x00\x00\x00\x07\x00\x00\x00\x08\x00\x00\x00\x09\x00\x00\x00\x0a\x00\x00\x00\x0b\x00\x00\x00\x0c\x00\x00\x00\x0d\x00\x00\x00\x0e\x00\x00\x00\x0f\x00\x00\x00\x10\x00\x00\x00\
        \x01\x00\x00\x00\x02\x00\x00\x00\x03\x00\x00\x00\x04\x00\x00\x00\x05\x00\x00\x00\x06\x00\x00\x00\x07\x00\x00\x00\x08\x00\x00\x00\x09\x00\x00\x00\x0a\x00\x00\x00\x0b\x00\x00\x00\x0c\x00\x00\x00\x0d\x00\x00\x00\x0e\x00\x00\x00\x0f\x00\x00\x00\x10\x00\x00\x00\
        \x01\x00\x00\x00\x02\x00\x00\x00\x03\x00\x00\x00\x04\x00\x00\x00\
        \x00\x00\x00\x00\x00\x00\x01\x00\
        \xff\xff\xff\xff\x05\x00\x00\x00\x06\x00\x00\x00\x07\x00\x00\x00\
        \x04\x80\
        \x01\
        \x01\
        \x04\x05\
        \x01\x00\x01\x00\
        \xff\x00\x00\xff\
        \x00\x00\x01\x00\
        \x03\
        \x02\
        \x01\
        \x01\x07\
        \x01\
        \x00\x01\
        \x02\x01\x00\x02\x00\x0a\x0b\x0c\x0d\x0e\x0f\x10\x11\
        \x03\x01\x00\x02\x01\x01\x00\x01\x00\x14\x15\x16\x17\
        \x00\x00\x00\x00\x00\x02\x00\x00\x00\
        \x01\
        \x02\
        \x03";

fn matrix() -> Mat4 {
    Mat4 {
        m: [1, 2, 3, 4, 5, 6, 7, 8, 9, 10, 11, 12, 13, 14, 15, 16],
    }
}

fn add_drawing(commands: &mut Commands) -> Result<(), OutOfMemory> {
    commands.push(Command::Begin { mode: 2 })?;
    commands.push(Command::End)?;
    commands.push(Command::Vertex {
        pos: [65536, -1, 0, -2147483648],
    })?;
    commands.push(Command::Color(Rgba {
        r: 1,
        g: 2,
        b: 3,
        a: 4,
    }))?;
    commands.push(Command::TexCoord {
        s: 0x01020304,
        t: -2,
    })?;
    commands.push(Command::Enable { capability: 5 })?;
    commands.push(Command::Disable { capability: 0 })?;
    commands.push(Command::MatrixMode { mode: 1 })?;
    commands.push(Command::LoadIdentity)?;
    commands.push(Command::LoadMatrix(matrix()))?;
    commands.push(Command::MultMatrix(matrix()))?;
    commands.push(Command::PushMatrix)?;
    commands.push(Command::PopMatrix)?;
    Ok(())
}

fn add_state(commands: &mut Commands) -> Result<(), OutOfMemory> {
    commands.push(Command::Viewport { area: [1, 2, 3, 4] })?;
    commands.push(Command::DepthRange {
        near: 0,
        far: 65536,
    })?;
    commands.push(Command::Scissor {
        area: [-1, 5, 6, 7],
    })?;
    commands.push(Command::AlphaFunc {
        function: 4,
        reference: 128,
    })?;
    commands.push(Command::DepthFunc { function: 1 })?;
    commands.push(Command::DepthMask { flag: 1 })?;
    commands.push(Command::BlendFunc {
        source: 4,
        destination: 5,
    })?;
    commands.push(Command::ColorMask {
        flags: [1, 0, 1, 0],
    })?;
    commands.push(Command::ClearColor(Rgba {
        r: 255,
        g: 0,
        b: 0,
        a: 255,
    }))?;
    commands.push(Command::ClearDepth { depth: 65536 })?;
    commands.push(Command::Clear { mask: 3 })?;
    commands.push(Command::CullFace { face: 2 })?;
    commands.push(Command::FrontFace { direction: 1 })?;
    Ok(())
}

fn add_textures(alloc: Global, commands: &mut Commands) -> Result<(), OutOfMemory> {
    commands.push(Command::BindTexture { kind: 1, name: 7 })?;
    commands.push(Command::TexEnv { environment: 1 })?;
    commands.push(Command::TexWrap { s: 0, t: 1 })?;
    let image = Texels::from_slice(alloc, &[10, 11, 12, 13, 14, 15, 16, 17])?;
    commands.push(Command::TexImage {
        name: 2,
        w: 1,
        h: 2,
        texels: image,
    })?;
    let texel = Texels::from_slice(alloc, &[20, 21, 22, 23])?;
    let part = Part {
        name: 3,
        x: 1,
        y: 258,
        w: 1,
        h: 1,
        texels: texel,
    };
    commands.push(Command::TexPart(part))?;
    let none = Texels::new(alloc);
    let part = Part {
        name: 0,
        x: 0,
        y: 0,
        w: 2,
        h: 0,
        texels: none,
    };
    commands.push(Command::SharedImage(part))?;
    Ok(())
}

fn add_waits(commands: &mut Commands) -> Result<(), OutOfMemory> {
    commands.push(Command::Barrier { name: 1 })?;
    commands.push(Command::SemP { name: 2 })?;
    commands.push(Command::SemV { name: 3 })?;
    commands.push(Command::Swap)?;
    Ok(())
}

fn every_command(alloc: Global) -> Result<Commands, OutOfMemory> {
    let mut commands = Commands::new(alloc);
    add_drawing(&mut commands)?;
    add_state(&mut commands)?;
    add_textures(alloc, &mut commands)?;
    add_waits(&mut commands)?;
    Ok(commands)
}

// Whether the bytes are read as these commands.
fn is_read(alloc: Global, bytes: &[u8], commands: &Commands) -> bool {
    match decode(alloc, bytes) {
        Ok(read) => read == *commands,
        Err(_) => false,
    }
}

// Whether the 36 commands are spelled so, and read again.
fn are_spelled(rt: &impl Abort, alloc: Global) -> bool {
    let commands = every_command(alloc).expect(rt, "memory");
    let bytes = encode(alloc, &commands).expect(rt, "memory");
    bytes.as_slice() == EVERY_COMMAND && is_read(alloc, EVERY_COMMAND, &commands)
}

#[test]
fn every_command_is_spelled_and_read(rt: HostRuntime) {
    assert!(rt; are_spelled(&rt, rt.alloc()));
}

// 1,025 gifts of a unit, and a Swap.
fn many(alloc: Global) -> Result<Commands, OutOfMemory> {
    let mut commands = Commands::new(alloc);
    for _ in 0..1025 {
        commands.push(Command::SemV { name: 1 })?;
    }
    commands.push(Command::Swap)?;
    Ok(commands)
}

// Whether they are spelled in two packets, and read again.
fn are_in_packets(rt: &impl Abort, alloc: Global) -> bool {
    let commands = many(alloc).expect(rt, "memory");
    let encoded = encode(alloc, &commands).expect(rt, "memory");
    let bytes = encoded.as_slice();
    bytes.len() == 2055
        && bytes.get(..3) == Some(&[0, 4, 0x23][..])
        && bytes.get(2050..) == Some(&[2, 0, 0x23, 0x24, 1][..])
        && is_read(alloc, bytes, &commands)
}

#[test]
fn packets_have_1024_commands(rt: HostRuntime) {
    assert!(rt; are_in_packets(&rt, rt.alloc()));
}

// How many commands the bytes spell, or their first fault.
fn read_of(alloc: Global, bytes: &[u8]) -> Result<usize, PackFault> {
    let commands = decode(alloc, bytes)?;
    Ok(commands.len())
}

const FAULTY: [(&[u8], PackFault); 10] = [
    (&[1], PackFault::Truncated { at: 1 }),
    (&[1, 0], PackFault::Truncated { at: 2 }),
    (&[1, 0, 0x18], PackFault::Truncated { at: 3 }),
    (&[1, 0, 0x00], PackFault::UnknownOpcode { at: 2 }),
    (&[1, 0, 0x25], PackFault::UnknownOpcode { at: 2 }),
    (&[0, 0], PackFault::BadCount { at: 0 }),
    (&[1, 4], PackFault::BadCount { at: 0 }),
    (&[1, 0, 0x24, 0, 0], PackFault::BadCount { at: 3 }),
    (&[2, 0, 0x18, 0x25], PackFault::UnknownOpcode { at: 3 }),
    (&[2, 0, 0x24], PackFault::Truncated { at: 3 }),
];

#[test]
fn the_first_fault_is_told(rt: HostRuntime) {
    for (bytes, fault) in &FAULTY {
        assert!(rt; read_of(rt.alloc(), *bytes) == Err(*fault));
    }
    assert!(rt; read_of(rt.alloc(), &[]) == Ok(0));
}

// Commands, Swaps and stored commands of bytes for which there is so much room.
fn counted(alloc: Global, room: usize, bytes: &[u8]) -> Result<(usize, usize, usize), PackFault> {
    let decoded = decode_within(alloc, room, bytes)?;
    Ok((decoded.count, decoded.swaps, decoded.commands.len()))
}

const STORED: [(usize, usize); 5] = [(0, 0), (35, 0), (36, 36), (71, 36), (72, 72)];

// Whether each room takes as much of the 36 commands twice as it should.
fn are_counted(alloc: Global, bytes: &[u8]) -> bool {
    for (room, stored) in &STORED {
        if counted(alloc, *room, bytes) != Ok((72, 2, *stored)) {
            return false;
        }
    }
    true
}

// The same, and a byte behind them is told.
fn are_counted_twice(rt: &impl Abort, alloc: Global) -> bool {
    let mut bytes = Vec::from_slice(alloc, EVERY_COMMAND).expect(rt, "memory");
    bytes.extend_from_slice(EVERY_COMMAND).expect(rt, "memory");
    let whole = are_counted(alloc, bytes.as_slice());
    bytes.push(1).expect(rt, "memory");
    let fault = PackFault::Truncated { at: bytes.len() };
    whole && counted(alloc, 0, bytes.as_slice()) == Err(fault)
}

#[test]
fn what_has_no_room_is_counted(rt: HostRuntime) {
    assert!(rt; are_counted_twice(&rt, rt.alloc()));
}

// A list of one Swap is made, and called.
const LIST_COMMANDS: [u8; 8] = [4, 0, 0x25, 0x24, 0x26, 0x27, 7, 7];

fn list_commands(alloc: Global) -> Result<ListCommands, OutOfMemory> {
    let mut commands = ListCommands::new(alloc);
    commands.push(ListCommand::NewList(7))?;
    commands.push(ListCommand::Plain(Command::Swap))?;
    commands.push(ListCommand::EndList)?;
    commands.push(ListCommand::CallList(7))?;
    Ok(commands)
}

// Commands, Swaps and stored commands of bytes with call lists for which there is so much room.
fn listed(alloc: Global, room: usize, bytes: &[u8]) -> Result<(usize, usize, usize), PackFault> {
    let decoded = decode_lists_within(alloc, room, bytes)?;
    Ok((decoded.count, decoded.swaps, decoded.commands.len()))
}

// A stream without call lists is read as its commands are.
fn reads_plainly(alloc: Global, bytes: &[u8]) -> Result<bool, PackFault> {
    let plain = decode(alloc, bytes)?;
    let mut commands = ListCommands::new(alloc);
    for command in plain.into_vec() {
        commands.push(ListCommand::Plain(command))?;
    }
    Ok(decode_lists(alloc, bytes)? == commands)
}

// Whether the list commands are read.
fn are_listed(rt: &impl Abort, alloc: Global) -> bool {
    let commands = list_commands(alloc).expect(rt, "memory");
    match decode_lists(alloc, &LIST_COMMANDS) {
        Ok(read) => read == commands,
        Err(_) => false,
    }
}

// How many commands the bytes spell with call lists, or their first fault.
fn lists_of(alloc: Global, bytes: &[u8]) -> Result<usize, PackFault> {
    let commands = decode_lists(alloc, bytes)?;
    Ok(commands.len())
}

const FAULTY_LISTS: [(&[u8], PackFault); 4] = [
    (&[1, 0, 0x28], PackFault::UnknownOpcode { at: 2 }),
    (&[1, 0, 0x25], PackFault::Truncated { at: 3 }),
    (&[0, 0], PackFault::BadCount { at: 0 }),
    (&[2, 0, 0x26, 0x00], PackFault::UnknownOpcode { at: 3 }),
];

#[test]
fn streams_with_call_lists_are_read(rt: HostRuntime) {
    assert!(rt; are_listed(&rt, rt.alloc()));
    assert!(rt; reads_plainly(rt.alloc(), EVERY_COMMAND) == Ok(true));
    assert!(rt; listed(rt.alloc(), 3, &LIST_COMMANDS) == Ok((4, 1, 0)));
    assert!(rt; listed(rt.alloc(), 4, &LIST_COMMANDS) == Ok((4, 1, 4)));
    for (bytes, fault) in &FAULTY_LISTS {
        assert!(rt; lists_of(rt.alloc(), *bytes) == Err(*fault));
    }
}
