//! Vertices as bytes.
ghost use Rattle.std.specs.Prelude.{◌≡◌, ◌+◌, ◌*◌, ◌≤◌, ◌<◌, length, take, drop};
ghost use Rattle.rc_base.specs.Drawing.Kept.{vertex_at};
ghost use Rattle.vertex_bytes.specs.Spelt.{color_in, spelt_vertices, vertex_in, word_in};

use rc_base::command::Rgba;
use rc_base::state::Vertex;

// The number that four of the bytes spell, the low byte first.
#[inline(always)]
fn word_at(bytes: &[u8], at: usize) -> i32
    requires { at + 4 ≤ length bytes.now }
    ensures { result ≡ word_in bytes.now at }
{
    i32::from_le_bytes([bytes[at], bytes[at + 1], bytes[at + 2], bytes[at + 3]])
}

#[inline(always)]
fn color_at(bytes: &[u8], at: usize) -> Rgba
    requires { at + 4 ≤ length bytes.now }
    ensures { result ≡ color_in bytes.now at }
{
    Rgba {
        r: bytes[at],
        g: bytes[at + 1],
        b: bytes[at + 2],
        a: bytes[at + 3],
    }
}

// The vertex that 28 bytes spell.
#[inline(always)]
#[tactic(auto, unfolding(crate::specs::Spelt::vertex_in))]
fn vertex_of(bytes: &[u8]) -> Vertex
    requires { length bytes.now ≡ 28 }
    ensures { result ≡ vertex_in bytes.now }
{
    Vertex {
        pos: [
            word_at(bytes, 0),
            word_at(bytes, 4),
            word_at(bytes, 8),
            word_at(bytes, 12),
        ],
        color: color_at(bytes, 16),
        s: word_at(bytes, 20),
        t: word_at(bytes, 24),
    }
}

// The bytes of the vertex of an index.
#[inline(always)]
fn bytes_of(bytes: &[u8], index: usize) -> &[u8]
    requires { 28 * index + 28 ≤ length bytes.now }
    ensures part { result.now ≡ take 28 (drop (28 * index) bytes.now) }
    ensures size { length result.now ≡ 28 }
{
    let from = 28 * index;
    &bytes[from..from + 28]
}

/// Vertices, each as 28 bytes: its position, its colour and its texture coordinate, each number of 32 bits with its low byte first. Bytes that are left
/// over spell none.
#[derive(Clone, Copy)]
pub struct SpeltVertices<'a> {
    pub bytes: &'a [u8],
}

impl SpeltVertices<'_> {
    /// How many they are.
    #[tactic(auto, using(crate::proofs::SpeltInTurn::spelt_count))]
    pub fn count(&self) -> usize
        ensures { result ≡ length (spelt_vertices self.now.bytes.now) }
    {
        self.bytes.len() / 28
    }

    /// The vertex of an index.
    #[inline(always)]
    pub fn vertex(&self, index: usize) -> Vertex
        requires { index < length (spelt_vertices self.now.bytes.now) }
        ensures { result ≡ vertex_at (spelt_vertices self.now.bytes.now) index }
    {
        vertex_of(bytes_of(self.bytes, index))
    }
}
