//! From a block of vertices to triangles of the window: which vertices make a triangle, and where its corners lie.
//!
//! The definitions are those of `rc_base::specs::Drawing`. Stands on `rc_base`'s types and `fixed_math`. No call takes memory.
#![tactic(auto)]

mod bringing;
mod cache;
mod clipping;
mod cut_triangle;
mod cutting;
mod fraction;
mod identities;
mod law;
mod list;
mod near;
mod primitives;
mod reject;
mod sides;
mod still;
mod vertex;
mod window;

pub use cache::{Uncut, VertexCache};
pub use cut_triangle::Pieces;
pub use cutting::pieces;
pub use identities::{Identities, identities_of, is_identity};
pub use law::uncut_triangles_are_their_piece;
pub use list::VertexList;
pub use near::{Surrounds, surrounds_of};
pub use primitives::{ListedBlock, TriangleIter, listed, spelt, triangles, vertices_at};
pub use reject::clip_bounds;
pub use sides::ClipBounds;
pub use vertex::{NEAR_W, unit_axis};
pub use window::to_window;
