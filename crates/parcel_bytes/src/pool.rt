//! Memory for the bytes of parcels that are packed one after the other.
ghost use Rattle.std.specs.Prelude.{◌≡◌, ◌<◌, [], length};

use rc_base::command::Bytes;
use rc_base::out_of_memory::OutOfMemory;
use std::alloc::Global;
use std::marker::Model;
use std::sync::Arc;

// How many parcels' bytes are kept, and the most bytes of one of them. So a pool keeps at most some 2 MiB.
const SLOTS: usize = 256;

const MOST: usize = 4096;

/// The bytes of the parcels that were packed last. Once all who got such a parcel are done with it, its memory is taken for another one: so memory that one
/// thread takes isn't given back by another. Contracts see nothing of it.
#[derive(Drop)]
pub struct Pool {
    slots: Vec<Option<Arc<Bytes, Global>>>,
    // the slot that was asked last
    at: usize,
}

impl Model for Pool {
    ghost use Rattle.std.specs.Prelude.{◌≡◌, ◌<◌, length};

    ghost Value = { Unit {0} };

    ghost view = { λ _. tt };

    ghost invariant = { λ a. (length a.slots.items ≡ 256) × (a.at < 256) };
}

// The slot behind this one, around.
fn behind(at: usize) -> usize
    requires { at < 256 }
    ensures { result < 256 }
{
    (at + 1) % SLOTS
}

// An empty list in the memory of these bytes.
fn emptied(bytes: Bytes) -> Bytes
    ensures { result ≡ [] }
{
    let mut bytes = bytes.into_vec();
    bytes.clear();
    Bytes::from_vec(bytes)
}

impl Pool {
    /// No bytes yet.
    pub fn new(alloc: Global) -> Result<Pool, OutOfMemory> {
        let mut slots = Vec::new(alloc);
        slots.resize_with(SLOTS, || None)?;
        Ok(Pool { slots, at: 0 })
    }

    /// An empty list, in memory that all are done with where the next slot has such.
    #[inline(always)]
    pub(crate) fn take(&mut self, alloc: Global) -> Bytes
        ensures { result ≡ [] }
    {
        self.at = behind(self.at);
        let Some(bytes) = self.slots[self.at].take() else {
            return Bytes::new(alloc);
        };
        match Arc::try_unwrap(bytes) {
            Ok(bytes) => emptied(bytes),
            Err(bytes) => {
                self.slots[self.at] = Some(bytes);
                Bytes::new(alloc)
            }
        }
    }

    /// Keeps the bytes of a parcel, where the slot that was asked last is free and they aren't many.
    #[inline(always)]
    pub(crate) fn keep(&mut self, bytes: &Arc<Bytes, Global>) {
        if bytes.len() > MOST || self.slots[self.at].is_some() {
            return;
        }
        self.slots[self.at] = bytes.clone().ok();
    }
}
