//! A parcel as the bytes that spell it.
ghost use Rattle.std.specs.Prelude.{◌≡◌, [], ◌≤◌, IfOk, MatchOption, length};
ghost use Rattle.parcel_bytes.specs.Blocks.{IsNoDraw};
ghost use Rattle.parcel_bytes.specs.Fronts.{IsWritten};
ghost use Rattle.parcel_bytes.specs.Reading.{parcel_in};
ghost use Rattle.parcel_bytes.specs.Spelling.{IsAct, IsPackable, SpellsParcel, act_bytes};
ghost use Rattle.rc_base.specs.declared.state.Act.{Act as ActValue};
ghost use Rattle.rc_base.specs.declared.state.Act.TheVariants as act;
ghost use Rattle.rc_base.specs.declared.state.Parcel.{Parcel as ParcelValue};
ghost use Rattle.vertex_bytes.specs.Spelt.{spelt_block};
ghost use Rattle.rc_base.specs.Cluster.Parcels.{is_end};

use crate::pool::Pool;
use crate::reading::{read_parcel, read_parcel_in};
use crate::room::Room;
use crate::writing::{Written, front_with, is_front, parcel_bytes, with_act};
use rc_base::command::Bytes;
use rc_base::out_of_memory::OutOfMemory;
use rc_base::state::{Act, ElementSet, Parcel};
use std::alloc::{AllocError, Global};
use std::marker::Model;
use std::sync::Arc;
use vertex_bytes::{SpeltBlock, SpeltVertices};

/// The bytes of one parcel, as `encode_parcel` makes them. Contracts see the parcel.
///
/// A clone shares the bytes and takes no memory.
#[derive(Debug, Drop)]
pub struct Packed {
    alloc: Global,
    bytes: Arc<Bytes, Global>,
    sets: usize,
    // where the act begins among the bytes
    act: usize,
    end: bool,
}

impl Model for Packed {
    ghost use Rattle.std.specs.Prelude.{◌≡◌, length};
    ghost use Rattle.rc_base.specs.declared.state.Parcel.{Parcel};

    ghost Value = { Parcel };

    ghost use Rattle.std.specs.Arc.{arc_value};
    ghost use Rattle.parcel_bytes.specs.Fronts.{IsWritten};
    ghost use Rattle.rc_base.specs.Cluster.Parcels.{is_end};
    ghost use Rattle.parcel_bytes.specs.Reading.{parcel_in};

    ghost view = { λ a. parcel_in (arc_value a.bytes) };

    ghost invariant = { λ a. IsWritten (arc_value a.bytes) a.act (parcel_in (arc_value a.bytes)) × (a.sets ≡ length (parcel_in (arc_value a.bytes)).sets) × (a.end ≡ is_end (parcel_in (arc_value a.bytes)).act) };
}

impl Packed {
    ghost use Rattle.std.specs.Prelude.{◌≡◌, ◌≤◌, IfOk, length};
    ghost use Rattle.std.specs.List.{AllByRecursion};
    ghost use Rattle.parcel_bytes.specs.Fronts.{IsWritten};
    ghost use Rattle.parcel_bytes.specs.Spelling.{IsWholeSet, SpellsParcel};
    ghost use Rattle.rc_base.specs.Cluster.Parcels.{is_end};

    /// The bytes that spell the parcel. Takes no memory.
    pub fn bytes(&self) -> &[u8]
        ensures { SpellsParcel result.now self.now }
    {
        let bytes: &Bytes = &self.bytes;
        bytes.as_slice()
    }

    // The bytes, and where the act begins among them.
    fn parts(&self) -> (&[u8], usize)
        ensures { IsWritten result.0.now result.1 self.now }
    {
        let bytes: &Bytes = &self.bytes;
        (bytes.as_slice(), self.act)
    }

    /// How many sets the parcel has. Takes no memory.
    pub fn set_count(&self) -> usize
        ensures { result ≡ length self.now.sets }
    {
        self.sets
    }

    /// Whether the parcel is its client's last one. Takes no memory.
    pub fn is_end(&self) -> bool
        ensures { result ≡ is_end self.now.act }
    {
        self.end
    }

    /// The place of the parcel's command. Takes no memory.
    pub fn place(&self) -> u32
        ensures { result ≡ self.now.place }
    {
        place_in(self.bytes())
    }

    /// The block of a parcel that draws, as the bytes that spell it. Takes no memory.
    pub fn block(&self) -> Option<SpeltBlock<'_>>
        ensures { MatchOption result (IsNoDraw self.now.act) (λ b. self.now.act ≡ act.Draw (spelt_block b)) }
    {
        let (bytes, at) = self.parts();
        block_in(act_in(bytes, at))
    }

    /// The parcel that the bytes spell.
    #[tactic(auto, unfolding(crate::specs::Reading::parcel_in))]
    pub fn parcel(&self) -> Result<Parcel, OutOfMemory>
        ensures { IfOk result (λ p. p ≡ self.now) }
    {
        match read_parcel(self.alloc, self.bytes()) {
            Ok((parcel, _)) => Ok(parcel),
            Err(_) => Err(OutOfMemory),
        }
    }

    /// The parcel that the bytes spell. A block's vertices take the memory of the room, and more only where that is too little.
    #[tactic(auto, unfolding(crate::specs::Reading::parcel_in))]
    pub fn parcel_in(&self, room: &mut Room) -> Result<Parcel, OutOfMemory>
        ensures { IfOk result (λ p. p ≡ self.now) }
    {
        match read_parcel_in(self.alloc, room, self.bytes()) {
            Ok((parcel, _)) => Ok(parcel),
            Err(_) => Err(OutOfMemory),
        }
    }

    /// The parcel of the same place and act with these sets, of which there are at most 255, each with a value of its element's kind. Where they are
    /// those of this parcel, it is this one; otherwise the act's bytes are copied as they stand.
    pub fn with_sets(self, sets: &[ElementSet]) -> Result<Packed, OutOfMemory>
        requires few { length sets.now ≤ 255 }
        requires whole { AllByRecursion IsWholeSet sets.now }
        ensures { IfOk result (λ packed. packed ≡ record self { sets = sets.now }) }
    {
        if self.sets == 0 && sets.is_empty() {
            return Ok(self);
        }
        let (bytes, act) = self.parts();
        let front = front_with(self.alloc, bytes, sets)?;
        if is_front(&front, bytes, act) {
            return Ok(self);
        }
        let written = with_act(front, bytes, act)?;
        pack(self.alloc, written, sets.len(), self.is_end())
    }
}

impl Clone for Packed {
    ghost use Rattle.std.specs.Prelude.{◌≡◌};

    ghost is_clone = { λ packed copy. copy ≡ packed };

    fn clone(&self) -> Result<Packed, AllocError> {
        Ok(Packed {
            alloc: self.alloc,
            bytes: self.bytes.clone()?,
            sets: self.sets,
            act: self.act,
            end: self.end,
        })
    }
}

// Whether the act is the client's last.
fn is_end(act: &Act) -> bool
    ensures { result ≡ is_end act.now }
{
    match act {
        Act::End => true,
        _ => false,
    }
}

// The place of the parcel that the bytes spell.
fn place_in(bytes: &[u8]) -> u32
    ensures { (p : ParcelValue) → SpellsParcel bytes.now p → result ≡ p.place }
{
    if bytes.len() < 4 {
        return 0;
    }
    u32::from_le_bytes([bytes[0], bytes[1], bytes[2], bytes[3]])
}

// The bytes of the act of a parcel that the bytes spell.
fn act_in(bytes: &[u8], at: usize) -> &[u8]
    requires { at ≤ length bytes.now }
    ensures { (p : ParcelValue) → IsWritten bytes.now at p → IsAct p.act × (result.now ≡ act_bytes p.act) }
{
    &bytes[at..]
}

// The block of an act that the bytes spell, if it is one.
fn block_in(bytes: &[u8]) -> Option<SpeltBlock<'_>>
    ensures { (a : ActValue) → IsAct a → bytes.now ≡ act_bytes a → MatchOption result (IsNoDraw a) (λ b. a ≡ act.Draw (spelt_block b)) }
{
    if bytes.len() < 4 {
        return None;
    }
    if bytes[0] != 0 {
        return None;
    }
    Some(SpeltBlock {
        mode: bytes[1],
        vertices: SpeltVertices { bytes: &bytes[4..] },
    })
}

// The bytes with what is asked of their parcel without reading it.
fn pack(alloc: Global, written: Written, sets: usize, end: bool) -> Result<Packed, OutOfMemory>
    requires written { IsWritten written.bytes written.act (parcel_in written.bytes) }
    requires sets { sets ≡ length (parcel_in written.bytes).sets }
    requires end { end ≡ is_end (parcel_in written.bytes).act }
    ensures { IfOk result (λ packed. packed ≡ parcel_in written.bytes) }
{
    let Written { bytes, act } = written;
    let bytes = Arc::new(alloc, bytes)?;
    Ok(Packed {
        alloc,
        bytes,
        sets,
        act,
        end,
    })
}

// The parcel as bytes, in an empty list.
fn packed_in(alloc: Global, room: Bytes, parcel: &Parcel) -> Result<Packed, OutOfMemory>
    requires empty { room ≡ [] }
    requires packable { IsPackable parcel.now }
    ensures { IfOk result (λ packed. packed ≡ parcel.now) }
{
    let written = parcel_bytes(room, parcel)?;
    pack(alloc, written, parcel.sets.len(), is_end(&parcel.act))
}

/// The parcel as bytes. It has at most 255 sets, each with a value of its element's kind, at most 65,535 vertices, and four bytes for each texel.
pub fn encode_parcel(alloc: Global, parcel: &Parcel) -> Result<Packed, OutOfMemory>
    requires { IsPackable parcel.now }
    ensures { IfOk result (λ packed. packed ≡ parcel.now) }
{
    packed_in(alloc, Bytes::new(alloc), parcel)
}

/// The same, in memory of earlier parcels that all are done with, where the pool has such.
pub fn encode_parcel_in(
    alloc: Global,
    pool: &mut Pool,
    parcel: &Parcel,
) -> Result<Packed, OutOfMemory>
    requires { IsPackable parcel.now }
    ensures { IfOk result (λ packed. packed ≡ parcel.now) }
{
    let room = pool.take(alloc);
    let packed = packed_in(alloc, room, parcel)?;
    pool.keep(&packed.bytes);
    Ok(packed)
}
