//! The vertices of a block on their way to the window: a post-transform vertex cache, as graphics processors have it.
ghost use Rattle.std.specs.Prelude.{◌≡◌};
ghost use Rattle.std.proofs.Props.{props};
ghost use Rattle.geometry.specs.Listed.{listed};
ghost use Rattle.geometry.specs.Placed.{AreIdentities, are_still, IsCached};

use crate::identities::Identities;
use crate::list::VertexList;
use rc_base::state::State;
use rc_base::triangle::WindowTriangle;
use rc_base::window::WindowVertex;

/// A vertex by its index; where it stands in the window, if it does; and whether it stands in front of the near plane.
#[derive(Clone, Copy)]
pub struct Corner {
    pub index: usize,
    pub at: Option<WindowVertex>,
    pub front: bool,
}

/// What a cache tells of a triangle of a block whose triangles are cut at the near plane.
#[derive(Clone, Copy)]
pub enum Uncut {
    /// All its vertices stand in front, so it is its own one piece: here it is, as `triangle_near` gives it.
    Whole(Option<WindowTriangle>),
    /// One of its vertices doesn't stand in front, so that it may have to be cut.
    No,
}

/// Vertices that a state brings to the window. The corners of the triangle before are kept, so that a strip and a fan bring each of their
/// vertices to the window once.
#[derive(Drop)]
pub struct VertexCache<'a> {
    pub state: &'a State,
    pub vertices: VertexList<'a>,
    pub(crate) identities: Identities,
    pub(crate) still: bool,
    pub(crate) first: Corner,
    pub(crate) second: Corner,
    pub(crate) third: Corner,
    ghost products: { AreIdentities state.now identities },
    ghost stillness: { still ≡ are_still identities },
    ghost first_cached: { IsCached state.now (listed vertices) first } by { Prim.hlevel props },
    ghost second_cached: { IsCached state.now (listed vertices) second } by { Prim.hlevel props },
    ghost third_cached: { IsCached state.now (listed vertices) third } by { Prim.hlevel props },
}
