//! What the kept triangles of a block of version 1 span.
ghost use Rattle.std.specs.Prelude.{◌≡◌, ◌<◌, List, [], ◌∷◌, ◌++◌, length, option_to_list, ℤ};
ghost use Rattle.std.specs.Int.{int_min, int_max};
ghost use Rattle.rc_base.specs.declared.window.WindowVertex.{WindowVertex as Corner};
ghost use Rattle.rc_base.specs.Cluster.Tiles.{kept_corners, corners_in};
ghost use Rattle.rc_base.specs.Drawing.Kept.{kept_whole};
ghost use Rattle.geometry.specs.Pieces.{found};
ghost use Rattle.rc_base.specs.Drawing.Triangles.{cut_modes};
ghost use Rattle.geometry.specs.Items.{AreBelow};
ghost use Rattle.geometry.specs.Listed.{listed};
ghost use Rattle.bounds_bucket.specs.Extents.{IsGrown, IsHull, IsJoined, Spans, corner_values};
ghost use Rattle.bounds_bucket.specs.Still.{SpansIfAny};

use crate::extent::{Ends, Extent};
use crate::still::still_extent;
use geometry::{VertexCache, triangles};
use rc_base::state::{Block, State};
use rc_base::triangle::WindowTriangle;

fn least_of(a: i32, b: i32, c: i32) -> i32
    ensures { result ≡ int_min (int_min a b) c }
{
    a.min(b).min(c)
}

fn greatest_of(a: i32, b: i32, c: i32) -> i32
    ensures { result ≡ int_max (int_max a b) c }
{
    a.max(b).max(c)
}

fn ends_of(a: i32, b: i32, c: i32) -> Ends
    ensures { IsHull result (a ∷ b ∷ c ∷ []) }
{
    Ends {
        least: least_of(a, b, c),
        greatest: greatest_of(a, b, c),
    }
}

fn both(a: Ends, b: Ends) -> Ends
    ensures { (zs ws : List ℤ) → IsHull a zs → IsHull b ws → IsHull result (zs ++ ws) }
{
    Ends {
        least: least_of(a.least, a.least, b.least),
        greatest: greatest_of(a.greatest, a.greatest, b.greatest),
    }
}

fn extent_of(tri: &WindowTriangle) -> Extent
    ensures across { IsHull result.across (corner_values (λ (c : Corner). c.x) tri.now.v) }
    ensures up { IsHull result.up (corner_values (λ (c : Corner). c.y) tri.now.v) }
    ensures three { length tri.now.v ≡ 3 }
{
    Extent {
        across: ends_of(tri.v[0].x, tri.v[1].x, tri.v[2].x),
        up: ends_of(tri.v[0].y, tri.v[1].y, tri.v[2].y),
    }
}

fn joined(a: Extent, b: Extent) -> Extent
    ensures { IsJoined a b result }
{
    Extent {
        across: both(a.across, b.across),
        up: both(a.up, b.up),
    }
}

// Adds the corners of a triangle.
fn with_triangle(extent: Option<Extent>, tri: &WindowTriangle) -> Option<Extent>
    ensures { IsGrown tri.now.v extent result }
{
    let more = extent_of(tri);
    match extent {
        None => Some(more),
        Some(e) => Some(joined(e, more)),
    }
}

// Adds the corners of a triangle, if there is one.
fn with_found(extent: Option<Extent>, tri: &Option<WindowTriangle>) -> Option<Extent>
    ensures { IsGrown (corners_in (found tri.now)) extent result }
{
    match tri {
        None => extent,
        Some(t) => with_triangle(extent, t),
    }
}

// Adds the corners of a triangle of vertices, where it is kept.
fn grown(extent: Option<Extent>, cache: &mut VertexCache<'_>, corners: [usize; 3]) -> Option<Extent>
    requires { AreBelow (length (listed cache.old.vertices)) corners }
    ensures state { cache.new.state.now ≡ cache.old.state.now }
    ensures vertices { listed cache.new.vertices ≡ listed cache.old.vertices }
    ensures grown { let kept = kept_whole cache.old.state.now (listed cache.old.vertices) corners in
        IsGrown (corners_in (option_to_list kept)) extent result }
{
    let tri = cache.triangle(corners);
    with_found(extent, &tri)
}

// The same in any numbers.
fn any_extent(state: &State, block: &Block) -> Option<Extent>
    requires { block.now.mode < cut_modes }
    ensures { Spans (kept_corners state.now block.now) result }
{
    let mut cache = VertexCache::new(state, block.vertices.as_slice());
    let mut extent = None;
    'block: for corners in triangles(block) {
        extent = grown(extent, &mut cache, corners);
    }
    extent
}

// The extent, if a corner was there.
fn if_any(extent: Extent) -> Option<Extent>
    ensures { (corners : List Corner) → SpansIfAny corners extent → Spans corners result }
{
    if extent.across.least <= extent.across.greatest {
        Some(extent)
    } else {
        None
    }
}

/// What the corners of all kept triangles of a block span, in a mode whose triangles aren't cut; none where it has no kept triangle.
pub(crate) fn block_extent(state: &State, block: &Block) -> Option<Extent>
    requires { block.now.mode < cut_modes }
    ensures { Spans (kept_corners state.now block.now) result }
{
    match still_extent(state, block) {
        Some(extent) => if_any(extent),
        None => any_extent(state, block),
    }
}
