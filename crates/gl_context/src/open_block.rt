//! A block that takes vertices.
ghost use Rattle.std.specs.Prelude.{◌≡◌, ◌<◌, ◌++◌, ◌∷◌, [], OnOk, OnErr};
ghost use Rattle.std.specs.Vec.{vec_len, vec_capacity};

use rc_base::out_of_memory::OutOfMemory;
use rc_base::state::{Block, Vertex, Vertices};
use std::marker::Model;

/// A block that is open, with the room of its vertices at hand.
#[derive(Drop)]
pub(crate) struct OpenBlock {
    pub(crate) mode: u8,
    pub(crate) vertices: Vec<Vertex>,
}

impl Model for OpenBlock {
    ghost use Rattle.rc_base.specs.declared.state.Block.{Block};

    ghost Value = { Block };

    ghost view = { λ a. record { mode = a.mode; vertices = a.vertices.items } };
}

// Makes room for one more.
#[inline(never)]
fn grow(vertices: &mut Vec<Vertex>) -> Result<(), OutOfMemory>
    ensures items { vertices.new.items ≡ vertices.old.items }
    ensures room { OnOk result (vec_len vertices.new < vec_capacity vertices.new) }
{
    vertices.reserve(1)?;
    Ok(())
}

impl OpenBlock {
    /// Adds a vertex. Where memory is wanting, nothing is changed.
    #[inline(always)]
    pub(crate) fn push(&mut self, vertex: Vertex) -> Result<(), OutOfMemory>
        ensures ok { OnOk result
            (self.new ≡ record self.old { vertices = self.old.vertices ++ vertex ∷ [] }) }
        ensures err { OnErr result (self.new ≡ self.old) }
    {
        if self.vertices.len() == self.vertices.capacity() {
            grow(&mut self.vertices)?;
        }
        self.vertices.push_reserved(vertex);
        Ok(())
    }

    /// The block as it is drawn.
    pub(crate) fn into_block(self) -> Block
        ensures { result ≡ self }
    {
        let OpenBlock { mode, vertices } = self;
        Block {
            mode,
            vertices: Vertices::from_vec(vertices),
        }
    }
}
