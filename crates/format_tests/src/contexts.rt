//! Refusals, each with the context before and after it, and values computed by hand.
ghost use Rattle.std.specs.Prelude.{IsTrue};
ghost use Rattle.gl_context.specs.Arguments.{HasTexels};

use gl_context::{Context, marks};
use rc_base::command::{Command, Mat4, Part, Rgba, Texels};
use rc_base::out_of_memory::OutOfMemory;
use rc_base::scene::{Counts, Decl, Sizes, Units};
use rc_base::state::{Effect, Fault};
use rc_base::sync::SyncOp;
use std::alloc::Global;
use std::process::Abort;

const ONE: i32 = 65_536;

// A context of a window of 2 by 1 pixels, with one shared texture of 3 by 2, two barriers and one semaphore.
fn fresh(alloc: Global) -> Result<Context, OutOfMemory> {
    fresh_in(alloc, 1)
}

// The same in a scene of this version.
fn fresh_in(alloc: Global, version: u8) -> Result<Context, OutOfMemory> {
    let decl = Decl {
        version,
        width: 2,
        height: 1,
        shared: Sizes::from_slice(alloc, &[[3, 2]])?,
        barriers: Counts::from_slice(alloc, &[1, 2])?,
        semaphores: Units::from_slice(alloc, &[0])?,
    };
    Context::new(alloc, &decl)
}

fn texels(alloc: Global, count: usize, value: u8) -> Result<Texels, OutOfMemory> {
    let mut bytes = Vec::new(alloc);
    bytes.resize(count, value)?;
    Ok(Texels::from_vec(bytes))
}

fn has_texels(command: &Command) -> bool
    ensures { IsTrue result → HasTexels command.now }
{
    match command {
        Command::TexImage { w, h, texels, .. } => {
            texels.len() == 4 * (usize::from(*w) * usize::from(*h))
        }
        Command::TexPart(part) => {
            let Part { w, h, texels, .. } = part;
            texels.len() == 4 * (usize::from(*w) * usize::from(*h))
        }
        _ => true,
    }
}

// None where memory is wanting, or where the command may not be issued.
fn issue(context: &mut Context, place: u32, command: &Command) -> Option<Effect> {
    if !has_texels(command) {
        return None;
    }
    for name in 1..65_u8 {
        if context.edit(name) == u32::MAX {
            return None;
        }
    }
    context.issue(place, command).ok()
}

// Whether the command is accepted, and nothing is due for it.
fn is_quiet(context: &mut Context, command: &Command) -> bool {
    issue(context, 0, command) == Some(Effect::Quiet)
}

// Whether that holds of each of these commands.
fn are_quiet(context: &mut Context, commands: &[Command]) -> bool {
    for command in commands {
        if !is_quiet(context, command) {
            return false;
        }
    }
    true
}

// Whether that holds of the command so many times.
fn repeats(context: &mut Context, command: &Command, count: u16) -> bool {
    for _ in 0..count {
        if !is_quiet(context, command) {
            return false;
        }
    }
    true
}

// Whether two contexts have the same scalar elements and private textures.
fn look_alike(a: &Context, b: &Context) -> bool {
    if a.state() != b.state() {
        return false;
    }
    for name in 1..65_u8 {
        let one = a.private().get(name);
        let other = b.private().get(name);
        if a.edit(name) != b.edit(name)
            || one.sides() != other.sides()
            || one.texels() != other.texels()
        {
            return false;
        }
    }
    true
}

fn image(alloc: Global, name: u8, w: u16, h: u16) -> Result<Command, OutOfMemory> {
    Ok(Command::TexImage {
        name,
        w,
        h,
        texels: texels(alloc, 4 * (usize::from(w) * usize::from(h)), name)?,
    })
}

// A part of a private texture (kind 0) or of a shared one: kind, name, x, y, w, h.
fn texture_part(
    alloc: Global,
    numbers: (u8, u8, u16, u16, u16, u16),
) -> Result<Command, OutOfMemory> {
    let (kind, name, x, y, w, h) = numbers;
    let texels = texels(alloc, 4 * (usize::from(w) * usize::from(h)), 9)?;
    let part = Part {
        name,
        x,
        y,
        w,
        h,
        texels,
    };
    Ok(if kind == 0 {
        Command::TexPart(part)
    } else {
        Command::SharedImage(part)
    })
}

// Mode and number of vertices of a block that is drawn.
fn drawn_block(effect: &Option<Effect>) -> Option<(u8, usize)> {
    match effect {
        Some(Effect::Block(block)) => Some((block.mode, block.vertices.len())),
        _ => None,
    }
}

fn vertex(x: i32) -> Command {
    Command::Vertex {
        pos: [x, 0, 0, ONE],
    }
}

fn matrix(diagonal: i32) -> Mat4 {
    Mat4 {
        m: [
            diagonal, 0, 0, 0, 0, diagonal, 0, 0, 0, 0, diagonal, 0, 0, 0, 0, diagonal,
        ],
    }
}

// An entry of 2147483647, and 0 everywhere else.
const CORNER_MATRIX: Mat4 = Mat4 {
    m: [i32::MAX, 0, 0, 0, 0, 0, 0, 0, 0, 0, 0, 0, 0, 0, 0, 0],
};

// Whether the command is refused, and leaves the context as it was but for one more fault.
fn is_refused(context: &mut Context, twin: &Context, command: &Command, fault: Fault) -> bool {
    let count = context.faults().len();
    let refused = issue(context, 7, command) == Some(Effect::Refused(fault));
    let faults = context.faults().as_slice();
    refused
        && faults.len() > count
        && faults.len() - count == 1
        && faults[count] == (7, fault)
        && look_alike(context, twin)
}

// Whether End makes a block of this mode and so many vertices.
fn is_block(context: &mut Context, due: Option<(u8, usize)>) -> bool {
    drawn_block(&issue(context, 0, &Command::End)) == due
}

// Mode and number of vertices of a block without any, which is begun with this argument in a scene of this version.
fn empty_block(alloc: Global, version: u8, kind: u8) -> Option<(u8, usize)> {
    let mut context = fresh_in(alloc, version).ok()?;
    if !is_quiet(&mut context, &Command::Begin { mode: kind }) {
        return None;
    }
    drawn_block(&issue(&mut context, 0, &Command::End))
}

// A version, the argument of Begin, and the mode and number of vertices of its block. The argument keeps its codes.
const MODES: [(u8, u8, Option<(u8, usize)>); 7] = [
    (1, 0, Some((0, 0))),
    (1, 2, Some((2, 0))),
    (2, 0, Some((16, 0))),
    (2, 1, Some((17, 0))),
    (2, 2, Some((18, 0))),
    (2, 3, None),
    (2, 16, None),
];

#[test]
fn blocks_of_version_2_have_modes_of_their_own(rt: HostRuntime) {
    for (version, kind, due) in &MODES {
        assert!(rt; empty_block(rt.alloc(), *version, *kind) == *due);
    }
}

const SMALL: Mat4 = Mat4 {
    m: [2, 0, 0, 0, 0, 2, 0, 0, 0, 0, 2, 0, 0, 0, 0, 2],
};

// All commands without texels but Vertex, Color, TexCoord and End, with arguments that are right outside a block.
const OUTSIDE_ALONE: [Command; 29] = [
    Command::Begin { mode: 0 },
    Command::Enable { capability: 0 },
    Command::Disable { capability: 0 },
    Command::MatrixMode { mode: 1 },
    Command::LoadIdentity,
    Command::LoadMatrix(SMALL),
    Command::MultMatrix(SMALL),
    Command::PushMatrix,
    Command::PopMatrix,
    Command::Viewport { area: [1, 1, 1, 1] },
    Command::DepthRange { near: 1, far: 2 },
    Command::Scissor { area: [1, 1, 1, 1] },
    Command::AlphaFunc {
        function: 1,
        reference: 1,
    },
    Command::DepthFunc { function: 3 },
    Command::DepthMask { flag: 0 },
    Command::BlendFunc {
        source: 2,
        destination: 2,
    },
    Command::ColorMask {
        flags: [0, 0, 0, 0],
    },
    Command::ClearColor(Rgba {
        r: 1,
        g: 2,
        b: 3,
        a: 4,
    }),
    Command::ClearDepth { depth: 3 },
    Command::Clear { mask: 3 },
    Command::CullFace { face: 2 },
    Command::FrontFace { direction: 1 },
    Command::BindTexture { kind: 0, name: 2 },
    Command::TexEnv { environment: 1 },
    Command::TexWrap { s: 1, t: 1 },
    Command::Barrier { name: 1 },
    Command::SemP { name: 1 },
    Command::SemV { name: 1 },
    Command::Swap,
];

// The three commands with texels, with arguments that are right outside a block, once private texture 1 has an image: an image of one texel, and a part of one
// texel of private texture 1 and of shared texture 1.
const SQUARE: (u8, u16, u16) = (1, 1, 1);

const SPOTS: [(u8, u8, u16, u16, u16, u16); 2] = [(0, 1, 0, 0, 1, 1), (1, 1, 0, 0, 1, 1)];

// What begins a block of one vertex.
const INSIDE: [Command; 4] = [
    Command::Begin { mode: 2 },
    Command::Color(Rgba {
        r: 1,
        g: 2,
        b: 3,
        a: 4,
    }),
    Command::TexCoord { s: 5, t: 6 },
    Command::Vertex {
        pos: [7, 0, 0, ONE],
    },
];

const INSIDE_ALONE: [Command; 2] = [
    Command::Vertex {
        pos: [7, 0, 0, ONE],
    },
    Command::End,
];

// Whether each of these images is refused for this fault.
fn are_refused_images(
    context: &mut Context,
    twin: &Context,
    alloc: Global,
    images: &[(u8, u16, u16)],
    fault: Fault,
) -> bool {
    for (name, w, h) in images {
        let Ok(command) = image(alloc, *name, *w, *h) else {
            return false;
        };
        if !is_refused(context, twin, &command, fault) {
            return false;
        }
    }
    true
}

// Whether each of these parts is refused for this fault.
fn are_refused_parts(
    context: &mut Context,
    twin: &Context,
    alloc: Global,
    parts: &[(u8, u8, u16, u16, u16, u16)],
    fault: Fault,
) -> bool {
    for numbers in parts {
        let Ok(command) = texture_part(alloc, *numbers) else {
            return false;
        };
        if !is_refused(context, twin, &command, fault) {
            return false;
        }
    }
    true
}

// Whether each command is refused for this fault.
fn are_refused(context: &mut Context, twin: &Context, commands: &[Command], fault: Fault) -> bool {
    for command in commands {
        if !is_refused(context, twin, command, fault) {
            return false;
        }
    }
    true
}

// Whether a context with an open block takes four commands alone, and one without it none of two.
fn accepts_four(rt: &impl Abort, alloc: Global) -> bool {
    let mut context = prepared(rt, alloc);
    let mut twin = prepared(rt, alloc);
    let fault = Fault::InvalidOperation;
    are_quiet(&mut context, &INSIDE)
        && are_quiet(&mut twin, &INSIDE)
        && are_refused(&mut context, &twin, &OUTSIDE_ALONE, fault)
        && are_refused_images(&mut context, &twin, alloc, &[SQUARE], fault)
        && are_refused_parts(&mut context, &twin, alloc, &SPOTS, fault)
        && is_block(&mut context, Some((2, 1)))
        && is_block(&mut twin, Some((2, 1)))
        && are_refused(&mut context, &twin, &INSIDE_ALONE, fault)
}

#[test]
fn inside_a_block_four_commands_are_accepted(rt: HostRuntime) {
    assert!(rt; accepts_four(&rt, rt.alloc()));
}

// Each argument with codes, behind the last of them.
const WRONG_CODES: [Command; 15] = [
    Command::Begin { mode: 3 },
    Command::Enable { capability: 6 },
    Command::Disable { capability: 255 },
    Command::MatrixMode { mode: 2 },
    Command::AlphaFunc {
        function: 8,
        reference: 0,
    },
    Command::DepthFunc { function: 8 },
    Command::BlendFunc {
        source: 10,
        destination: 0,
    },
    Command::BlendFunc {
        source: 0,
        destination: 10,
    },
    Command::CullFace { face: 3 },
    Command::FrontFace { direction: 2 },
    // its name would be wrong too
    Command::BindTexture { kind: 2, name: 0 },
    Command::TexEnv { environment: 2 },
    Command::TexWrap { s: 2, t: 0 },
    Command::TexWrap { s: 0, t: 2 },
    Command::MatrixMode { mode: 255 },
];

// Values outside their ranges, each on one side of one of them.
const WRONG_VALUES: [Command; 15] = [
    Command::Viewport {
        area: [0, 0, 2049, 1],
    },
    Command::Viewport {
        area: [0, 0, 1, -1],
    },
    Command::Viewport {
        area: [32_768, 0, 1, 1],
    },
    Command::Viewport {
        area: [0, -32_769, 1, 1],
    },
    Command::Scissor {
        area: [0, 0, -1, 1],
    },
    Command::Scissor {
        area: [0, 0, 1, -1],
    },
    Command::Clear { mask: 4 },
    Command::BindTexture { kind: 0, name: 0 },
    Command::BindTexture { kind: 0, name: 65 },
    Command::BindTexture { kind: 1, name: 2 },
    Command::Barrier { name: 0 },
    Command::Barrier { name: 3 },
    Command::SemP { name: 2 },
    Command::SemV { name: 0 },
    Command::MultMatrix(CORNER_MATRIX),
];

// Names and sides of images that are refused.
const WRONG_IMAGES: [(u8, u16, u16); 4] = [(0, 1, 1), (65, 1, 1), (1, 0, 1), (1, 1, 257)];

// Parts with wrong names, and parts that don't lie in private texture 1 of 2 by 2, or in the shared one.
const WRONG_PARTS: [(u8, u8, u16, u16, u16, u16); 10] = [
    (0, 0, 0, 0, 1, 1),
    (0, 65, 0, 0, 1, 1),
    (1, 0, 0, 0, 1, 1),
    (1, 2, 0, 0, 1, 1),
    (0, 1, 1, 0, 2, 1),
    (0, 1, 0, 3, 0, 0),
    (0, 1, 65_535, 0, 2, 0),
    (1, 1, 2, 0, 2, 1),
    (1, 1, 0, 65_535, 0, 1),
    (1, 1, 0, 0, 3, 3),
];

// A context in which private texture 1 has an image and the modelview a matrix of its own.
fn prepared(rt: &impl Abort, alloc: Global) -> Context {
    let mut context = fresh(alloc).expect(rt, "memory");
    let square = image(alloc, 1, 2, 2).expect(rt, "memory");
    assert!(rt; is_quiet(&mut context, &square));
    assert!(rt; is_quiet(&mut context, &Command::LoadMatrix(CORNER_MATRIX)));
    context
}

// Whether each wrong command is refused outside a block. Without an image even a part outside of it is an operation that isn't valid.
fn are_all_refused(rt: &impl Abort, alloc: Global) -> bool {
    let mut context = prepared(rt, alloc);
    let twin = prepared(rt, alloc);
    are_refused(&mut context, &twin, &WRONG_CODES, Fault::InvalidEnum)
        && are_refused(&mut context, &twin, &WRONG_VALUES, Fault::InvalidValue)
        && are_refused_images(
            &mut context,
            &twin,
            alloc,
            &WRONG_IMAGES,
            Fault::InvalidValue,
        )
        && are_refused_parts(
            &mut context,
            &twin,
            alloc,
            &WRONG_PARTS,
            Fault::InvalidValue,
        )
        && are_refused_parts(
            &mut context,
            &twin,
            alloc,
            &[(0, 2, 9, 0, 1, 1)],
            Fault::InvalidOperation,
        )
        && is_refused(
            &mut context,
            &twin,
            &Command::PopMatrix,
            Fault::StackUnderflow,
        )
        && context.state().modelview == CORNER_MATRIX
}

#[test]
fn codes_values_and_images_are_refused_outside_a_block(rt: HostRuntime) {
    assert!(rt; are_all_refused(&rt, rt.alloc()));
}

// Whether so many matrices are pushed, and then one more is refused.
fn are_pushed(context: &mut Context, twin: &Context, count: u16) -> bool {
    repeats(context, &Command::PushMatrix, count)
        && is_refused(context, twin, &Command::PushMatrix, Fault::StackOverflow)
}

// Whether so many are popped, and then one more is refused.
fn are_popped(context: &mut Context, twin: &Context, count: u16) -> bool {
    repeats(context, &Command::PopMatrix, count)
        && is_refused(context, twin, &Command::PopMatrix, Fault::StackUnderflow)
}

// Whether the top is multiplied to this matrix.
fn is_multiplied(context: &mut Context, by: Mat4, top: Mat4) -> bool {
    is_quiet(context, &Command::MultMatrix(by)) && context.state().modelview == top
}

// Whether a block takes so many vertices and no more.
fn is_filled(context: &mut Context, twin: &Context, count: u16) -> bool {
    is_quiet(context, &Command::Begin { mode: 1 })
        && repeats(context, &vertex(7), count)
        && is_refused(context, twin, &vertex(0), Fault::InvalidValue)
}

// Whether the stack of matrices has 32 places, and a block 16,383 vertices.
fn are_deepest(rt: &impl Abort, alloc: Global) -> bool {
    let mut context = fresh(alloc).expect(rt, "memory");
    let twin = fresh(alloc).expect(rt, "memory");
    are_pushed(&mut context, &twin, 31)
        && is_multiplied(&mut context, matrix(2 * ONE), matrix(2 * ONE))
        && are_popped(&mut context, &twin, 31)
        && is_filled(&mut context, &twin, 16_383)
        && is_block(&mut context, Some((1, 16_383)))
}

#[test]
fn the_deepest_stack_and_the_largest_block(rt: HostRuntime) {
    assert!(rt; are_deepest(&rt, rt.alloc()));
}

// The edit number of a private texture after an image of so many texels along each side, where it is accepted.
fn edit_of_image(alloc: Global, context: &mut Context, name: u8, side: u16) -> Option<u32> {
    let command = image(alloc, name, side, side).ok()?;
    if !is_quiet(context, &command) || name == 0 || name > 64 {
        return None;
    }
    Some(context.edit(name))
}

// Whether a part of private texture 64 of so many texels along each side is written.
fn is_written(alloc: Global, context: &mut Context, x: u16, y: u16, side: u16) -> bool {
    match texture_part(alloc, (0, 64, x, y, side, side)) {
        Ok(command) => is_quiet(context, &command),
        Err(_) => false,
    }
}

// How many bytes of private texture 64 are 9, and whether those at these places are.
fn nines(context: &Context, places: [usize; 4]) -> (usize, bool) {
    let bytes = context.private().get(64).texels().unwrap_or(&[]);
    let mut all = bytes.len() == 262_144;
    for place in places {
        all = all && bytes.get(place) == Some(&9);
    }
    (bytes.iter().filter(|b| **b == 9).count(), all)
}

// Whether each private texture takes an image of one texel.
fn take_images(alloc: Global, context: &mut Context) -> bool {
    for name in 1..65_u8 {
        if edit_of_image(alloc, context, name, 1) != Some(1) {
            return false;
        }
    }
    true
}

// A texel at each corner, and a part without texels at the far one.
const CORNERS: [(u16, u16, u16); 5] = [
    (0, 0, 1),
    (255, 0, 1),
    (0, 255, 1),
    (255, 255, 1),
    (256, 256, 0),
];

// Whether parts of private texture 64 are written at its corners.
fn are_written(alloc: Global, context: &mut Context) -> bool {
    for (x, y, side) in &CORNERS {
        if !is_written(alloc, context, *x, *y, *side) {
            return false;
        }
    }
    true
}

// Whether private textures take images and parts, and count both.
fn are_private(rt: &impl Abort, alloc: Global) -> bool {
    let mut context = fresh(alloc).expect(rt, "memory");
    take_images(alloc, &mut context)
        && edit_of_image(alloc, &mut context, 64, 256) == Some(2)
        && are_written(alloc, &mut context)
        && context.edit(64) == 7
        && nines(&context, [0, 1020, 261_120, 262_140]) == (16, true)
}

#[test]
fn private_images_and_their_parts(rt: HostRuntime) {
    assert!(rt; marks(&Command::PopMatrix, 1) == Some(1));
    assert!(rt; are_private(&rt, rt.alloc()));
}

// What is due for a command of one part or of none: its texels' bytes, or its operation.
fn due(effect: &Option<Effect>) -> Option<(usize, Option<SyncOp>)> {
    match effect {
        Some(Effect::Shared(part)) => Some((part.texels.len(), None)),
        Some(Effect::Sync(op)) => Some((0, Some(*op))),
        _ => None,
    }
}

// What is due for a part of six texels of the shared texture, and for a wait behind it.
fn due_in_turn(
    rt: &impl Abort,
    alloc: Global,
) -> (
    Option<(usize, Option<SyncOp>)>,
    Option<(usize, Option<SyncOp>)>,
) {
    let mut context = fresh(alloc).expect(rt, "memory");
    let whole = texture_part(alloc, (1, 1, 0, 0, 3, 2)).expect(rt, "memory");
    (
        due(&issue(&mut context, 0, &whole)),
        due(&issue(&mut context, 0, &Command::Barrier { name: 2 })),
    )
}

#[test]
fn shared_parts_and_waits_are_due(rt: HostRuntime) {
    let wait = Some((0, Some(SyncOp::Barrier(2))));
    assert!(rt; due_in_turn(&rt, rt.alloc()) == (Some((24, None)), wait));
}
