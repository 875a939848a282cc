//! The triangles of a block, as triples of vertex indices.
ghost use Rattle.std.specs.Prelude.{◌≡◌, ◌-◌, ◌/◌, ◌<◌, ◌+◌, ◌∷◌, length, slice_index};
ghost use Rattle.std.specs.Iterator.{YieldsFirst, item_count};
ghost use Rattle.std.specs.List.{All};
ghost use Rattle.rc_base.specs.Drawing.Triangles.{triangles_of, separate, strip, fan, shape_of, triangles_in};
ghost use Rattle.rc_base.specs.Drawing.Kept.{vertex_at};
ghost use Rattle.geometry.specs.Items.{rest_from, triple_at, AreBelow};
ghost use Rattle.geometry.specs.Listed.{listed, listed_block};
ghost use Rattle.vertex_bytes.specs.Spelt.{spelt_block};

use crate::list::VertexList;
use rc_base::state::{Block, CUT_MODES, Vertex};
use vertex_bytes::SpeltBlock;

// What a block of a mode is.
fn shape_of(mode: u8) -> u8
    ensures { result ≡ shape_of mode }
{
    if mode < CUT_MODES {
        mode
    } else {
        mode - CUT_MODES
    }
}

// How many triangles `n` vertices make.
fn count(mode: u8, n: usize) -> usize
    ensures { result ≡ length (triangles_of mode n) }
{
    if mode == 0 {
        n / 3
    } else if mode < 3 {
        n.saturating_sub(2)
    } else {
        0
    }
}

fn separate_at(n: usize, i: usize) -> [usize; 3]
    requires { i < n / 3 }
    ensures { result ≡ separate i }
{
    [3 * i, 3 * i + 1, 3 * i + 2]
}

fn strip_at(n: usize, i: usize) -> [usize; 3]
    requires { i < n - 2 }
    ensures { result ≡ strip i }
{
    if i % 2 == 1 {
        [i + 1, i, i + 2]
    } else {
        [i, i + 1, i + 2]
    }
}

fn fan_at(n: usize, i: usize) -> [usize; 3]
    requires { i < n - 2 }
    ensures { result ≡ fan i }
{
    [0, i + 1, i + 2]
}

// The indices of triangle `i`.
fn triple(mode: u8, n: usize, i: usize) -> [usize; 3]
    requires { i < length (triangles_of mode n) }
    ensures { result ≡ triple_at mode n i }
{
    if mode == 0 {
        separate_at(n, i)
    } else if mode == 1 {
        strip_at(n, i)
    } else {
        fan_at(n, i)
    }
}

/// The triangles of a block after the first `given`, as triples of indices of its vertices.
#[derive(Drop)]
pub struct TriangleIter<'a> {
    pub block: &'a Block,
    pub given: usize,
}

impl Iterator for TriangleIter<'_> {
    type Item = [usize; 3];

    ghost next_gives = { YieldsFirst (λ s. rest_from s.block.now s.given) };

    ghost remaining = { item_count (λ s. rest_from s.block.now s.given) };

    fn next(&mut self) -> Option<[usize; 3]> {
        let n = self.block.vertices.len();
        let shape = shape_of(self.block.mode);
        if self.given >= count(shape, n) {
            return None;
        }
        let corners = triple(shape, n, self.given);
        self.given += 1;
        Some(corners)
    }
}

/// The triangles of a block in their order: of triangles, a strip or a fan, as OpenGL makes them from the block's vertices. Vertices that are
/// left over make none, and a block of another mode has none. Each index is that of a vertex.
pub fn triangles(block: &Block) -> TriangleIter<'_>
    ensures rest { rest_from result.block.now result.given ≡ triangles_in block.now }
    ensures indices { All (AreBelow (length block.now.vertices)) (triangles_in block.now) }
{
    TriangleIter { block, given: 0 }
}

/// A block whose vertices are stored or spelt by bytes.
#[derive(Clone, Copy)]
pub struct ListedBlock<'a> {
    pub mode: u8,
    pub vertices: VertexList<'a>,
}

impl ListedBlock<'_> {
    /// How many triangles the block has.
    pub fn triangle_count(&self) -> usize
        ensures { result ≡ length (triangles_in (listed_block self.now)) }
    {
        count(shape_of(self.mode), self.vertices.count())
    }

    /// The vertex indices of the triangle of a number.
    pub fn corners(&self, i: usize) -> [usize; 3]
        requires { i < length (triangles_in (listed_block self.now)) }
        ensures next { rest_from (listed_block self.now) i ≡ result ∷ rest_from (listed_block self.now) (i + 1) }
        ensures below { AreBelow (length (listed self.now.vertices)) result }
    {
        triple(shape_of(self.mode), self.vertices.count(), i)
    }
}

/// A block as it is stored.
pub fn listed(block: &Block) -> ListedBlock<'_>
    ensures { listed_block result ≡ block.now }
{
    ListedBlock {
        mode: block.mode,
        vertices: VertexList::Stored(block.vertices.as_slice()),
    }
}

/// A block as bytes spell it.
pub fn spelt(block: SpeltBlock<'_>) -> ListedBlock<'_>
    ensures { listed_block result ≡ spelt_block block.entry }
{
    ListedBlock {
        mode: block.mode,
        vertices: VertexList::Spelt(block.vertices),
    }
}

/// Three vertices of a list, by their indices.
pub fn vertices_at(vertices: &[Vertex], corners: [usize; 3]) -> [Vertex; 3]
    requires { AreBelow (length vertices.now) corners }
    ensures first { vertex_at result 0 ≡ vertex_at vertices.now (slice_index corners 0) }
    ensures second { vertex_at result 1 ≡ vertex_at vertices.now (slice_index corners 1) }
    ensures third { vertex_at result 2 ≡ vertex_at vertices.now (slice_index corners 2) }
{
    [
        vertices[corners[0]],
        vertices[corners[1]],
        vertices[corners[2]],
    ]
}
