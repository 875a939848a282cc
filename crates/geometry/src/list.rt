//! Lists of vertices, stored or spelt by bytes.
ghost use Rattle.std.specs.Prelude.{◌≡◌, ◌<◌, length, slice_index};
ghost use Rattle.rc_base.specs.Drawing.Kept.{vertex_at};
ghost use Rattle.geometry.specs.Items.{AreBelow};
ghost use Rattle.geometry.specs.Listed.{listed};

use rc_base::state::Vertex;
use vertex_bytes::SpeltVertices;

#[inline(always)]
fn stored(vertices: &[Vertex], index: usize) -> Vertex
    requires { index < length vertices.now }
    ensures { result ≡ vertex_at vertices.now index }
{
    vertices[index]
}

/// Vertices, as they are stored or as bytes that spell them.
#[derive(Clone, Copy)]
pub enum VertexList<'a> {
    Stored(&'a [Vertex]),
    Spelt(SpeltVertices<'a>),
}

impl VertexList<'_> {
    /// How many they are.
    pub fn count(&self) -> usize
        ensures { result ≡ length (listed self.now) }
    {
        match self {
            VertexList::Stored(vertices) => vertices.len(),
            VertexList::Spelt(vertices) => vertices.count(),
        }
    }

    /// The vertex of an index.
    #[inline(always)]
    pub fn vertex(&self, index: usize) -> Vertex
        requires { index < length (listed self.now) }
        ensures { result ≡ vertex_at (listed self.now) index }
    {
        match self {
            VertexList::Stored(vertices) => stored(vertices, index),
            VertexList::Spelt(vertices) => vertices.vertex(index),
        }
    }

    /// Three vertices, by their indices.
    pub fn three(&self, corners: [usize; 3]) -> [Vertex; 3]
        requires { AreBelow (length (listed self.now)) corners }
        ensures first { vertex_at result 0 ≡ vertex_at (listed self.now) (slice_index corners 0) }
        ensures second { vertex_at result 1 ≡ vertex_at (listed self.now) (slice_index corners 1) }
        ensures third { vertex_at result 2 ≡ vertex_at (listed self.now) (slice_index corners 2) }
    {
        [
            self.vertex(corners[0]),
            self.vertex(corners[1]),
            self.vertex(corners[2]),
        ]
    }
}
