//! The blocks that were taken and aren't drawn yet.
ghost use Rattle.std.specs.Prelude.{◌≡◌, ◌≤◌, ◌==◌, ◌++◌, [], ◌∷◌, true, length, option_to_list, IfOk, IfNone};
ghost use Rattle.parcel_bytes.specs.Spelling.{parcel_bytes};
ghost use Rattle.tile_server.specs.Waits.{has_room};

use parcel_bytes::Packed;
use rc_base::out_of_memory::OutOfMemory;
use std::alloc::Global;
use std::collections::VecDeque;
use std::marker::Model;

// So many blocks wait at most, and so many bytes of them.
const MOST_BLOCKS: usize = 1_024;

const MOST_BYTES: usize = 1_048_576;

/// A block that was taken of a client and isn't drawn yet.
#[derive(Drop)]
pub struct WaitingBlock {
    pub client: u8,
    pub parcel: Packed,
}

/// Blocks in the order in which they were taken: at most 1,024, whose parcels have at most 1 MiB of bytes. The memory for so many is there from the
/// start. Contracts see the list.
#[derive(Drop)]
pub struct Waiting {
    blocks: VecDeque<WaitingBlock>,
    bytes: usize,
}

impl Model for Waiting {
    ghost use Rattle.std.specs.Prelude.{List};
    ghost use Rattle.tile_server.specs.declared.waiting.WaitingBlock.{WaitingBlock};
    ghost use Rattle.tile_server.specs.Waits.{IsBounded};
    ghost use Rattle.std.specs.VecDeque.{deque_capacity};

    ghost Value = { List WaitingBlock };

    ghost view = { λ a. a.blocks.items };

    ghost invariant = { λ a. IsBounded (deque_capacity a.blocks) a.bytes a.blocks.items };
}

impl Waiting {
    /// None, with the memory for as many as may wait.
    pub(crate) fn new(alloc: Global) -> Result<Waiting, OutOfMemory>
        ensures { IfOk result (λ w. w ≡ []) }
    {
        Ok(Waiting {
            blocks: VecDeque::with_capacity(alloc, MOST_BLOCKS)?,
            bytes: 0,
        })
    }

    /// How many they are.
    pub(crate) fn len(&self) -> usize
        ensures count { result ≡ length self.now }
        ensures few { result ≤ 1024 }
    {
        self.blocks.len()
    }

    /// Whether one more may wait whose parcel has so many bytes.
    pub(crate) fn has_room(&self, size: usize) -> bool
        ensures { result ≡ has_room self.now size }
    {
        self.blocks.len() < MOST_BLOCKS && size <= MOST_BYTES - self.bytes
    }

    /// One more waits.
    pub(crate) fn push(&mut self, block: WaitingBlock)
        requires { has_room self.old (length (parcel_bytes block.parcel)) ≡ true }
        ensures { self.new ≡ self.old ++ block ∷ [] }
    {
        self.bytes += block.parcel.bytes().len();
        self.blocks.push_back_reserved(block);
    }

    /// The one that waits longest waits no more.
    pub(crate) fn pop(&mut self) -> Option<WaitingBlock>
        ensures items { self.old ≡ option_to_list result ++ self.new }
        ensures none { IfNone result (self.old ≡ []) }
    {
        let block = self.blocks.pop_front()?;
        self.bytes -= block.parcel.bytes().len();
        Some(block)
    }
}
