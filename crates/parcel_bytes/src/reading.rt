//! The reader of parcels, with the first fault from the left.
ghost use Rattle.std.specs.Prelude.{◌≡◌, [], length};
ghost use Rattle.std.specs.Int.{w16, w32};
ghost use Rattle.byte_codec.specs.Reading.{Gives, Reads, read_word};
ghost use Rattle.parcel_bytes.specs.Reading.{element_from, read_tag, read_times, read_flag, read_color, read_texels, read_value, read_set, read_sets, read_vertex, read_vertices, read_part, read_op, read_act, read_parcel};

use crate::room::Room;
use byte_codec::fault::{Form, ReadError};
use byte_codec::fields::{read_byte, read_half, read_long, read_word, take_bytes};
use element_table::{ELEMENT_COUNT, ValueKind, kind_of};
use rc_base::command::{Mat4, Part, Rgba, Texels};
use rc_base::state::{Act, Block, ElementSet, ElementValue, Parcel, Sets, Vertex, Vertices};
use rc_base::sync::SyncOp;
use std::alloc::Global;

// Fills the room with words, and gives the bytes behind them.
#[inline(always)]
fn read_words<'a>(room: &mut [i32], bytes: &'a [u8]) -> Result<&'a [u8], Form>
    ensures { Reads (λ rest. (room.new, rest.now)) result (read_times read_word (length room.old) bytes.now) }
{
    let mut rest = bytes;
    for i in 0..room.len() {
        let (number, after) = read_word(rest)?;
        room[i] = number;
        rest = after;
    }
    Ok(rest)
}

#[tactic(auto, unfolding(crate::specs::Reading::read_flag))]
fn read_flag(bytes: &[u8]) -> Result<(bool, &[u8]), Form>
    ensures { Reads (λ x. (x.0, x.1.now)) result (read_flag bytes.now) }
{
    let (byte, rest) = read_byte(bytes)?;
    match byte {
        0 => Ok((false, rest)),
        1 => Ok((true, rest)),
        _ => Err(Form::Unknown { left: bytes.len() }),
    }
}

#[tactic(auto, unfolding(crate::specs::Reading::read_times))]
fn read_mask(bytes: &[u8]) -> Result<([bool; 4], &[u8]), Form>
    ensures { Reads (λ x. (x.0, x.1.now)) result (read_times read_flag 4 bytes.now) }
{
    let (r, rest) = read_flag(bytes)?;
    let (g, rest) = read_flag(rest)?;
    let (b, rest) = read_flag(rest)?;
    let (a, rest) = read_flag(rest)?;
    Ok(([r, g, b, a], rest))
}

#[tactic(auto, unfolding(crate::specs::Reading::read_color))]
fn read_color(bytes: &[u8]) -> Result<(Rgba, &[u8]), Form>
    ensures { Reads (λ x. (x.0, x.1.now)) result (read_color bytes.now) }
{
    let (r, rest) = read_byte(bytes)?;
    let (g, rest) = read_byte(rest)?;
    let (b, rest) = read_byte(rest)?;
    let (a, rest) = read_byte(rest)?;
    Ok((Rgba { r, g, b, a }, rest))
}

// The sides of a picture and its texels.
fn read_texels(alloc: Global, bytes: &[u8]) -> Result<(u16, u16, Texels, &[u8]), ReadError>
    ensures { Gives (λ x. (((x.0, x.1), x.2), x.3.now)) result (read_texels bytes.now) }
{
    let (w, rest) = read_half(bytes)?;
    let (h, rest) = read_half(rest)?;
    let (texels, rest) = take_bytes(4 * (usize::from(w) * usize::from(h)), rest)?;
    Ok((w, h, Texels::from_slice(alloc, texels)?, rest))
}

// A value of the kind.
#[tactic(auto, unfolding(crate::specs::Reading::read_value))]
fn read_value(
    alloc: Global,
    kind: ValueKind,
    bytes: &[u8],
) -> Result<(ElementValue, &[u8]), ReadError>
    ensures { Gives (λ x. (x.0, x.1.now)) result (read_value kind bytes.now) }
{
    match kind {
        ValueKind::Matrix => {
            let mut m = [0; 16];
            let rest = read_words(&mut m, bytes)?;
            Ok((ElementValue::Matrix(Mat4 { m }), rest))
        }
        ValueKind::Area => {
            let mut area = [0; 4];
            let rest = read_words(&mut area, bytes)?;
            Ok((ElementValue::Area(area), rest))
        }
        ValueKind::Range => {
            let mut range = [0; 2];
            let rest = read_words(&mut range, bytes)?;
            Ok((ElementValue::Range(range), rest))
        }
        ValueKind::Flag => {
            let (flag, rest) = read_flag(bytes)?;
            Ok((ElementValue::Flag(flag), rest))
        }
        ValueKind::Code => {
            let (code, rest) = read_byte(bytes)?;
            Ok((ElementValue::Code(code), rest))
        }
        ValueKind::Pair => {
            let (pair, rest) = take_bytes(2, bytes)?;
            Ok((ElementValue::Pair([pair[0], pair[1]]), rest))
        }
        ValueKind::Mask => {
            let (mask, rest) = read_mask(bytes)?;
            Ok((ElementValue::Mask(mask), rest))
        }
        ValueKind::Color => {
            let (color, rest) = read_color(bytes)?;
            Ok((ElementValue::Color(color), rest))
        }
        ValueKind::Depth => {
            let (depth, rest) = read_word(bytes)?;
            Ok((ElementValue::Depth(depth), rest))
        }
        ValueKind::Mode => {
            let (mode, rest) = take_bytes(3, bytes)?;
            Ok((ElementValue::Mode([mode[0], mode[1], mode[2]]), rest))
        }
        ValueKind::Image => {
            let (edit, rest) = read_long(bytes)?;
            let (w, h, texels, rest) = read_texels(alloc, rest)?;
            Ok((ElementValue::Image { edit, w, h, texels }, rest))
        }
    }
}

fn read_element(bytes: &[u8]) -> Result<(u8, &[u8]), Form>
    ensures { Reads (λ x. (x.0, x.1.now)) result (read_tag element_from bytes.now) }
{
    let (element, rest) = read_byte(bytes)?;
    if element < ELEMENT_COUNT {
        Ok((element, rest))
    } else {
        Err(Form::Unknown { left: bytes.len() })
    }
}

#[tactic(auto, unfolding(crate::specs::Reading::read_set))]
fn read_set(alloc: Global, bytes: &[u8]) -> Result<(ElementSet, &[u8]), ReadError>
    ensures { Gives (λ x. (x.0, x.1.now)) result (read_set bytes.now) }
{
    let (element, rest) = read_element(bytes)?;
    let (value, rest) = read_value(alloc, kind_of(element), rest)?;
    Ok((ElementSet { element, value }, rest))
}

fn read_each_set(alloc: Global, count: u8, bytes: &[u8]) -> Result<(Sets, &[u8]), ReadError>
    ensures { Gives (λ x. (x.0, x.1.now)) result (read_times read_set count bytes.now) }
{
    let mut sets = Sets::with_capacity(alloc, usize::from(count))?;
    let mut rest = bytes;
    for _ in 0..count {
        let (set, after) = read_set(alloc, rest)?;
        sets.push(set)?;
        rest = after;
    }
    Ok((sets, rest))
}

#[tactic(auto, unfolding(crate::specs::Reading::read_sets))]
fn read_sets(alloc: Global, bytes: &[u8]) -> Result<(Sets, &[u8]), ReadError>
    ensures { Gives (λ x. (x.0, x.1.now)) result (read_sets bytes.now) }
{
    let (count, rest) = read_byte(bytes)?;
    read_each_set(alloc, count, rest)
}

#[inline(always)]
#[tactic(auto, unfolding(crate::specs::Reading::read_vertex))]
fn read_vertex(bytes: &[u8]) -> Result<(Vertex, &[u8]), Form>
    ensures { Reads (λ x. (x.0, x.1.now)) result (read_vertex bytes.now) }
{
    // With this the checks of the fields' lengths are left out when this is compiled.
    if bytes.len() < 28 {
        return Err(Form::Truncated);
    }
    let mut pos = [0; 4];
    let rest = read_words(&mut pos, bytes)?;
    let (color, rest) = read_color(rest)?;
    let (s, rest) = read_word(rest)?;
    let (t, rest) = read_word(rest)?;
    Ok((Vertex { pos, color, s, t }, rest))
}

// Room is asked for once: the list has none of them yet.
fn read_each_vertex(
    mut vertices: Vertices,
    count: u16,
    bytes: &[u8],
) -> Result<(Vertices, &[u8]), ReadError>
    requires { vertices ≡ [] }
    ensures { Gives (λ x. (x.0, x.1.now)) result (read_times read_vertex count bytes.now) }
{
    vertices.reserve(usize::from(count))?;
    let mut rest = bytes;
    for _ in 0..count {
        let (vertex, after) = read_vertex(rest)?;
        vertices.push(vertex)?;
        rest = after;
    }
    Ok((vertices, rest))
}

#[tactic(auto, unfolding(crate::specs::Reading::read_vertices))]
fn read_vertices<'a>(
    alloc: Global,
    room: &mut Room,
    bytes: &'a [u8],
) -> Result<(Vertices, &'a [u8]), ReadError>
    ensures { Gives (λ x. (x.0, x.1.now)) result (read_vertices bytes.now) }
{
    let (count, rest) = read_half(bytes)?;
    read_each_vertex(room.take(alloc), count, rest)
}

#[tactic(auto, unfolding(crate::specs::Reading::read_part))]
fn read_part(alloc: Global, bytes: &[u8]) -> Result<(Part, &[u8]), ReadError>
    ensures { Gives (λ x. (x.0, x.1.now)) result (read_part bytes.now) }
{
    let (name, rest) = read_byte(bytes)?;
    let (x, rest) = read_half(rest)?;
    let (y, rest) = read_half(rest)?;
    let (w, h, texels, rest) = read_texels(alloc, rest)?;
    Ok((
        Part {
            name,
            x,
            y,
            w,
            h,
            texels,
        },
        rest,
    ))
}

#[tactic(auto, unfolding(crate::specs::Reading::read_op, crate::specs::Reading::read_op_name))]
fn read_op(bytes: &[u8]) -> Result<(SyncOp, &[u8]), Form>
    ensures { Reads (λ x. (x.0, x.1.now)) result (read_op bytes.now) }
{
    let (kind, rest) = read_byte(bytes)?;
    if kind > 3 {
        return Err(Form::Unknown { left: bytes.len() });
    }
    let (name, after) = read_byte(rest)?;
    match kind {
        0 => Ok((SyncOp::Barrier(name), after)),
        1 => Ok((SyncOp::SemP(name), after)),
        2 => Ok((SyncOp::SemV(name), after)),
        _ => {
            if name == 0 {
                Ok((SyncOp::Swap, after))
            } else {
                Err(Form::Unknown { left: rest.len() })
            }
        }
    }
}

#[tactic(auto, unfolding(crate::specs::Reading::read_act, crate::specs::Reading::read_act_body))]
fn read_act<'a>(
    alloc: Global,
    room: &mut Room,
    bytes: &'a [u8],
) -> Result<(Act, &'a [u8]), ReadError>
    ensures { Gives (λ x. (x.0, x.1.now)) result (read_act bytes.now) }
{
    let (tag, rest) = read_byte(bytes)?;
    match tag {
        0 => {
            let (mode, rest) = read_byte(rest)?;
            let (vertices, rest) = read_vertices(alloc, room, rest)?;
            Ok((Act::Draw(Block { mode, vertices }), rest))
        }
        1 => {
            let (mask, rest) = read_byte(rest)?;
            Ok((Act::Clear(mask), rest))
        }
        2 => {
            let (part, rest) = read_part(alloc, rest)?;
            Ok((Act::Shared(part), rest))
        }
        3 => {
            let (op, rest) = read_op(rest)?;
            Ok((Act::Sync(op), rest))
        }
        4 => Ok((Act::End, rest)),
        _ => Err(Form::Unknown { left: bytes.len() }.into()),
    }
}

/// The parcel at the front, and the bytes behind it. A block's vertices take the memory of the room.
#[tactic(auto, unfolding(crate::specs::Reading::read_parcel))]
pub(crate) fn read_parcel_in<'a>(
    alloc: Global,
    room: &mut Room,
    bytes: &'a [u8],
) -> Result<(Parcel, &'a [u8]), ReadError>
    ensures { Gives (λ x. (x.0, x.1.now)) result (read_parcel bytes.now) }
{
    let (place, rest) = read_long(bytes)?;
    let (sets, rest) = read_sets(alloc, rest)?;
    let (act, rest) = read_act(alloc, room, rest)?;
    Ok((Parcel { place, sets, act }, rest))
}

/// The parcel at the front, and the bytes behind it.
pub(crate) fn read_parcel(alloc: Global, bytes: &[u8]) -> Result<(Parcel, &[u8]), ReadError>
    ensures { Gives (λ x. (x.0, x.1.now)) result (read_parcel bytes.now) }
{
    let mut room = Room::new(alloc);
    read_parcel_in(alloc, &mut room, bytes)
}
