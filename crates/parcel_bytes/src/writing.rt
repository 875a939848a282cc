//! The writer of parcels: each function adds the bytes of its argument behind those that stand.
ghost use Rattle.std.specs.Prelude.{◌≡◌, [], ◌++◌, ◌∷◌, ◌*◌, ◌^◌, ◌<◌, ◌≤◌, length, take, drop, FitsSigned, IfOk, IsTrue, OnOk};
ghost use Rattle.std.specs.Int.{w32};
ghost use Rattle.std.specs.List.{flat_map, AllByRecursion};
ghost use Rattle.rc_base.specs.Formats.Spelling.{half, long, word};
ghost use Rattle.parcel_bytes.specs.Fronts.{IsWritten};
ghost use Rattle.parcel_bytes.specs.Spelling.{ArePackable, IsAct, IsColor, IsPackable, IsPart, IsOp, IsSet, IsValue, IsVertex, IsWholeAct, IsWholeSet, IsWholeValue, act_bytes, color_bytes, flag_bytes, op_bytes, part_bytes, set_bytes, value_bytes, vertex_bytes};

use byte_codec::writing::{write_byte, write_bytes, write_half, write_long, write_word};
use rc_base::command::{Bytes, Part, Rgba};
use rc_base::out_of_memory::OutOfMemory;
use rc_base::state::{Act, Block, ElementSet, ElementValue, Parcel, Vertex};
use rc_base::sync::SyncOp;
use std::alloc::Global;

fn write_words(out: &mut Bytes, words: &[i32]) -> Result<(), OutOfMemory>
    ensures added { OnOk result (out.new ≡ out.old ++ flat_map word words.now) }
    ensures typed { OnOk result (AllByRecursion (FitsSigned w32) words.now) }
{
    for number in words {
        write_word(out, *number)?;
    }
    Ok(())
}

fn write_flag(out: &mut Bytes, flag: bool) -> Result<(), OutOfMemory>
    ensures added { OnOk result (out.new ≡ out.old ++ flag_bytes flag) }
{
    write_byte(out, if flag { 1 } else { 0 })
}

fn write_mask(out: &mut Bytes, flags: [bool; 4]) -> Result<(), OutOfMemory>
    ensures added { OnOk result (out.new ≡ out.old ++ flat_map flag_bytes flags) }
    ensures typed { OnOk result (length flags ≡ 4) }
{
    write_flag(out, flags[0])?;
    write_flag(out, flags[1])?;
    write_flag(out, flags[2])?;
    write_flag(out, flags[3])
}

fn write_color(out: &mut Bytes, color: Rgba) -> Result<(), OutOfMemory>
    ensures added { OnOk result (out.new ≡ out.old ++ color_bytes color) }
    ensures typed { OnOk result (IsColor color) }
{
    write_bytes(out, &[color.r, color.g, color.b, color.a])
}

fn write_value(out: &mut Bytes, value: &ElementValue) -> Result<(), OutOfMemory>
    requires { IsWholeValue value.now }
    ensures added { OnOk result (out.new ≡ out.old ++ value_bytes value.now) }
    ensures typed { OnOk result (IsValue value.now) }
{
    match value {
        ElementValue::Matrix(m) => write_words(out, &m.m),
        ElementValue::Area(area) => write_words(out, area),
        ElementValue::Range(range) => write_words(out, range),
        ElementValue::Flag(flag) => write_flag(out, *flag),
        ElementValue::Code(code) => write_byte(out, *code),
        ElementValue::Pair(pair) => write_bytes(out, pair),
        ElementValue::Mask(mask) => write_mask(out, *mask),
        ElementValue::Color(color) => write_color(out, *color),
        ElementValue::Depth(depth) => write_word(out, *depth),
        ElementValue::Mode(mode) => write_bytes(out, mode),
        ElementValue::Image { edit, w, h, texels } => {
            write_long(out, *edit)?;
            write_half(out, *w)?;
            write_half(out, *h)?;
            write_bytes(out, texels.as_slice())
        }
    }
}

fn write_set(out: &mut Bytes, set: &ElementSet) -> Result<(), OutOfMemory>
    requires { IsWholeSet set.now }
    ensures added { OnOk result (out.new ≡ out.old ++ set_bytes set.now) }
    ensures typed { OnOk result (IsSet set.now) }
{
    write_byte(out, set.element)?;
    write_value(out, &set.value)
}

fn write_sets(out: &mut Bytes, sets: &[ElementSet]) -> Result<(), OutOfMemory>
    requires { AllByRecursion IsWholeSet sets.now }
    ensures added { OnOk result (out.new ≡ out.old ++ flat_map set_bytes sets.now) }
    ensures typed { OnOk result (AllByRecursion IsSet sets.now) }
{
    for set in sets {
        write_set(out, set)?;
    }
    Ok(())
}

#[inline(always)]
fn word_bytes(number: i32) -> [u8; 4]
    ensures text { result ≡ word number }
    ensures typed { FitsSigned w32 number }
{
    number.to_le_bytes()
}

// The fields of a vertex, one after the other.
#[inline(always)]
fn joined(
    x: [u8; 4],
    y: [u8; 4],
    z: [u8; 4],
    w: [u8; 4],
    c: Rgba,
    s: [u8; 4],
    t: [u8; 4],
) -> [u8; 28]
    ensures { result ≡ x ++ (y ++ (z ++ (w ++ (color_bytes c ++ (s ++ t))))) }
{
    [
        x[0], x[1], x[2], x[3], y[0], y[1], y[2], y[3], z[0], z[1], z[2], z[3], w[0], w[1], w[2],
        w[3], c.r, c.g, c.b, c.a, s[0], s[1], s[2], s[3], t[0], t[1], t[2], t[3],
    ]
}

#[inline(always)]
fn vertex_bytes(vertex: Vertex) -> [u8; 28]
    ensures text { result ≡ vertex_bytes vertex }
    ensures typed { IsVertex vertex }
{
    let Vertex { pos, color, s, t } = vertex;
    joined(
        word_bytes(pos[0]),
        word_bytes(pos[1]),
        word_bytes(pos[2]),
        word_bytes(pos[3]),
        color,
        word_bytes(s),
        word_bytes(t),
    )
}

#[inline(always)]
fn write_vertex(out: &mut Bytes, vertex: &Vertex) -> Result<(), OutOfMemory>
    ensures added { OnOk result (out.new ≡ out.old ++ vertex_bytes vertex.now) }
    ensures typed { OnOk result (IsVertex vertex.now) }
{
    write_bytes(out, &vertex_bytes(*vertex))
}

fn write_vertices(out: &mut Bytes, vertices: &[Vertex]) -> Result<(), OutOfMemory>
    ensures added { OnOk result (out.new ≡ out.old ++ flat_map vertex_bytes vertices.now) }
    ensures typed { OnOk result (AllByRecursion IsVertex vertices.now) }
{
    for vertex in vertices {
        write_vertex(out, vertex)?;
    }
    Ok(())
}

fn write_block(out: &mut Bytes, block: &Block) -> Result<(), OutOfMemory>
    requires { length block.now.vertices ≤ 65535 }
    ensures added { OnOk result (out.new ≡ out.old ++ block.now.mode ∷ (half (length block.now.vertices) ++ flat_map vertex_bytes block.now.vertices)) }
    ensures typed { OnOk result ((block.now.mode < 256) × (length block.now.vertices < 2 ^ 16) × AllByRecursion IsVertex block.now.vertices) }
{
    write_byte(out, block.mode)?;
    write_half(out, block.vertices.len() as u16)?;
    write_vertices(out, block.vertices.as_slice())
}

fn write_part(out: &mut Bytes, part: &Part) -> Result<(), OutOfMemory>
    requires { length part.now.texels ≡ 4 * (part.now.w * part.now.h) }
    ensures added { OnOk result (out.new ≡ out.old ++ part_bytes part.now) }
    ensures typed { OnOk result (IsPart part.now) }
{
    write_byte(out, part.name)?;
    write_half(out, part.x)?;
    write_half(out, part.y)?;
    write_half(out, part.w)?;
    write_half(out, part.h)?;
    write_bytes(out, part.texels.as_slice())
}

fn write_op(out: &mut Bytes, op: SyncOp) -> Result<(), OutOfMemory>
    ensures added { OnOk result (out.new ≡ out.old ++ op_bytes op) }
    ensures typed { OnOk result (IsOp op) }
{
    match op {
        SyncOp::Barrier(name) => write_bytes(out, &[0, name]),
        SyncOp::SemP(name) => write_bytes(out, &[1, name]),
        SyncOp::SemV(name) => write_bytes(out, &[2, name]),
        SyncOp::Swap => write_bytes(out, &[3, 0]),
    }
}

fn write_act(out: &mut Bytes, act: &Act) -> Result<(), OutOfMemory>
    requires { IsWholeAct act.now }
    ensures added { OnOk result (out.new ≡ out.old ++ act_bytes act.now) }
    ensures typed { OnOk result (IsAct act.now) }
{
    match act {
        Act::Draw(block) => {
            write_byte(out, 0)?;
            write_block(out, block)
        }
        Act::Clear(mask) => write_bytes(out, &[1, *mask]),
        Act::Shared(part) => {
            write_byte(out, 2)?;
            write_part(out, part)
        }
        Act::Sync(op) => {
            write_byte(out, 3)?;
            write_op(out, *op)
        }
        Act::End => write_byte(out, 4),
    }
}

// How many bytes are about to be written, so that there is room for all of them at once.
fn act_size(act: &Act) -> usize {
    match act {
        Act::Draw(block) => block.vertices.len().saturating_mul(28).saturating_add(4),
        Act::Clear(_) => 2,
        Act::Shared(part) => part.texels.len().saturating_add(10),
        Act::Sync(_) => 3,
        Act::End => 1,
    }
}

fn set_size(set: &ElementSet) -> usize {
    match &set.value {
        ElementValue::Matrix(_) => 65,
        ElementValue::Image { texels, .. } => texels.len().saturating_add(9),
        _ => 17,
    }
}

fn front_size(sets: &[ElementSet]) -> usize {
    let mut size = 5usize;
    for set in sets {
        size = size.saturating_add(set_size(set));
    }
    size
}

/// The bytes of a parcel, and where its act begins.
pub(crate) struct Written {
    pub bytes: Bytes,
    pub act: usize,
}

// What stands before the act, behind these bytes of the place.
fn write_front(out: &mut Bytes, place: &[u8], sets: &[ElementSet]) -> Result<(), OutOfMemory>
    requires { ArePackable sets.now }
    ensures added { OnOk result (out.new ≡ out.old ++ (place.now ++ (length sets.now ∷ flat_map set_bytes sets.now))) }
    ensures typed { OnOk result (AllByRecursion IsSet sets.now) }
{
    write_bytes(out, place)?;
    write_byte(out, sets.len() as u8)?;
    write_sets(out, sets)
}

// What stands before the act of a parcel, in an empty list with room for so many bytes.
fn front_of(
    mut front: Bytes,
    size: usize,
    place: u32,
    sets: &[ElementSet],
) -> Result<Bytes, OutOfMemory>
    requires empty { front ≡ [] }
    requires sets { ArePackable sets.now }
    ensures front { IfOk result (λ front. front ≡ long place ++ (length sets.now ∷ flat_map set_bytes sets.now)) }
    ensures typed { OnOk result ((place < 2 ^ 32) × AllByRecursion IsSet sets.now) }
{
    front.reserve(size)?;
    write_front(&mut front, &place.to_le_bytes(), sets)?;
    Ok(front)
}

/// The bytes of a parcel, in an empty list.
pub(crate) fn parcel_bytes(room: Bytes, parcel: &Parcel) -> Result<Written, OutOfMemory>
    requires empty { room ≡ [] }
    requires packable { IsPackable parcel.now }
    ensures { IfOk result (λ written. IsWritten written.bytes written.act parcel.now) }
{
    let sets = parcel.sets.as_slice();
    let size = front_size(sets).saturating_add(act_size(&parcel.act));
    let mut bytes = front_of(room, size, parcel.place, sets)?;
    let act = bytes.len();
    write_act(&mut bytes, &parcel.act)?;
    Ok(Written { bytes, act })
}

/// What stands before the act of a parcel with these sets, whose place is that of the bytes.
pub(crate) fn front_with(
    alloc: Global,
    bytes: &[u8],
    sets: &[ElementSet],
) -> Result<Bytes, OutOfMemory>
    requires place { 4 ≤ length bytes.now }
    requires sets { ArePackable sets.now }
    ensures front { IfOk result (λ front. front ≡ take 4 bytes.now ++ (length sets.now ∷ flat_map set_bytes sets.now)) }
    ensures typed { OnOk result (AllByRecursion IsSet sets.now) }
{
    let mut front = Bytes::with_capacity(alloc, front_size(sets))?;
    write_front(&mut front, &bytes[..4], sets)?;
    Ok(front)
}

/// Whether the front is what stands before the act.
pub(crate) fn is_front(front: &Bytes, bytes: &[u8], act: usize) -> bool
    requires { act ≤ length bytes.now }
    ensures { IsTrue result → front.now ≡ take act bytes.now }
{
    front.as_slice() == &bytes[..act]
}

/// A front, and behind it the act of other bytes, which begins there.
pub(crate) fn with_act(mut front: Bytes, bytes: &[u8], act: usize) -> Result<Written, OutOfMemory>
    requires { act ≤ length bytes.now }
    ensures bytes { IfOk result (λ written. written.bytes ≡ front ++ drop act bytes.now) }
    ensures act { IfOk result (λ written. written.act ≡ length front) }
{
    let begin = front.len();
    front.reserve(bytes.len() - act)?;
    write_bytes(&mut front, &bytes[act..])?;
    Ok(Written {
        bytes: front,
        act: begin,
    })
}
