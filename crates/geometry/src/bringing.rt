//! How a cache brings vertices to the window, and what it tells of their triangles.
ghost use Rattle.std.specs.Prelude.{◌≡◌, ◌<◌, ◌∷◌, [], length, slice_index, true, false, None, Some, MatchOption};
ghost use Rattle.rc_base.specs.Drawing.Kept.{kept_whole};
ghost use Rattle.geometry.specs.Beside.{IsBesideIfKept};
ghost use Rattle.geometry.specs.Brought.{AreCorners, IsCacheOf, IsPlacedThird, indices_of, kept_corners};
ghost use Rattle.geometry.specs.Uncut.{IsUncut};
ghost use Rattle.geometry.specs.Items.{AreBelow};
ghost use Rattle.geometry.specs.Listed.{listed};
ghost use Rattle.geometry.specs.Placed.{AllStandInFront, AreIdentities, IsCorner};
ghost use Rattle.geometry.specs.Rejected.{AreClipBoundsIfAny};

use crate::cache::{Corner, Uncut, VertexCache};
use crate::identities::{Identities, identities_of};
use crate::list::VertexList;
use crate::near::{Surrounds, are_beside};
use crate::reject::are_rejected;
use crate::sides::ClipBounds;
use crate::still::{are_still, still_vertex};
use crate::vertex::{stand_of, still_front};
use crate::window::{is_dropped, turned};
use rc_base::state::{State, Vertex};
use rc_base::triangle::WindowTriangle;

impl<'a> VertexCache<'a> {
    /// No vertex is in the window yet.
    pub fn new(state: &'a State, vertices: &'a [Vertex]) -> VertexCache<'a>
        ensures { IsCacheOf state.now vertices.now result }
    {
        let list = VertexList::Stored(vertices);
        VertexCache::with(state, identities_of(state), list)
    }

    /// The same of any list, with what is known of the state.
    pub fn with(
        state: &'a State,
        identities: Identities,
        vertices: VertexList<'a>,
    ) -> VertexCache<'a>
        requires { AreIdentities state.now identities }
        ensures { IsCacheOf state.now (listed vertices.entry) result }
    {
        let none = Corner {
            index: vertices.count(),
            at: None,
            front: false,
        };
        VertexCache {
            state,
            vertices,
            identities,
            still: are_still(identities),
            first: none,
            second: none,
            third: none,
        }
    }

    // Brings a vertex to the window by any matrices, as the third corner. It is compiled for itself, so that a vertex that nothing moves stays in
    // registers.
    #[inline(never)]
    fn place_by(&mut self, index: usize)
        requires { index < length (listed self.old.vertices) }
        ensures { IsPlacedThird self.old index self.new }
    {
        let vertex = self.vertices.vertex(index);
        let stand = stand_of(self.state, self.identities, &vertex);
        self.third = Corner {
            index,
            at: stand.at,
            front: stand.front,
        };
    }

    // Brings a vertex to the window, as the third corner.
    #[inline(always)]
    fn place(&mut self, index: usize)
        requires { index < length (listed self.old.vertices) }
        ensures { IsPlacedThird self.old index self.new }
    {
        let vertex = self.vertices.vertex(index);
        if self.still && vertex.pos[3] > 0 {
            let front = still_front(self.state, &vertex);
            match still_vertex(self.state, &vertex) {
                Some(at) => {
                    self.third = Corner {
                        index,
                        at: Some(at),
                        front,
                    };
                }
                None => {
                    self.third = Corner {
                        index,
                        at: None,
                        front,
                    };
                }
            }
            return;
        }
        self.place_by(index);
    }

    // Brings three vertices to the window, and keeps them. Of a strip and a fan two corners are kept, and one of them stays in its place.
    #[inline(always)]
    fn bring(&mut self, corners: [usize; 3])
        requires { AreBelow (length (listed self.old.vertices)) corners }
        ensures cache { IsCacheOf self.old.state.now (listed self.old.vertices) self.new }
        ensures first { self.new.first.index ≡ slice_index corners 0 }
        ensures second { self.new.second.index ≡ slice_index corners 1 }
        ensures third { self.new.third.index ≡ slice_index corners 2 }
        ensures first_at { IsCorner self.old.state.now (listed self.old.vertices) self.new.first }
        ensures second_at { IsCorner self.old.state.now (listed self.old.vertices) self.new.second }
        ensures third_at { IsCorner self.old.state.now (listed self.old.vertices) self.new.third }
    {
        if self.first.index == corners[0] && self.third.index == corners[1] {
            self.second = self.third;
        } else if self.third.index == corners[0] && self.second.index == corners[1] {
            self.first = self.third;
        } else {
            self.place(corners[0]);
            self.first = self.third;
            self.place(corners[1]);
            self.second = self.third;
        }
        self.place(corners[2]);
    }

    /// The triangle of three vertices in window coordinates, by their indices: as `to_window` gives it of the same vertices.
    pub fn triangle(&mut self, corners: [usize; 3]) -> Option<WindowTriangle>
        requires { AreBelow (length (listed self.old.vertices)) corners }
        ensures cache { IsCacheOf self.old.state.now (listed self.old.vertices) self.new }
        ensures triangle { MatchOption result
            (kept_whole self.old.state.now (listed self.old.vertices) corners ≡ None)
            (λ t. kept_whole self.old.state.now (listed self.old.vertices) corners ≡ Some t.v) }
    {
        self.bring(corners);
        self.brought()
    }

    // Whether three vertices are seen to lie beside a rectangle's pixels before they are brought to the window, and none has to be cut.
    #[inline(always)]
    fn is_rejected(
        &self,
        corners: [usize; 3],
        near: &Surrounds,
        bounds: &Option<ClipBounds>,
    ) -> bool
        requires corners { AreBelow (length (listed self.now.vertices)) corners }
        requires bounds { AreClipBoundsIfAny self.now.state.now near.now bounds.now }
        ensures front { result ≡ true → AllStandInFront self.now.state.now (listed self.now.vertices) corners }
        ensures beside { result ≡ true → IsBesideIfKept self.now.state.now (listed self.now.vertices) corners near.now }
    {
        let _near = near;
        let Some(bounds) = bounds else {
            return false;
        };
        let a = self.vertices.vertex(corners[0]);
        let b = self.vertices.vertex(corners[1]);
        let c = self.vertices.vertex(corners[2]);
        if !are_rejected(bounds, &a, &b, &c) {
            return false;
        }
        still_front(self.state, &a) && (still_front(self.state, &b) && still_front(self.state, &c))
    }

    /// The same triangle, or `None` also where all its corners lie on one side of the centres that bound a rectangle's pixels, so that it
    /// covers none of them. Where bounds by clip coordinates are given, its vertices aren't brought to the window if they tell as much.
    #[inline(always)]
    pub fn triangle_near(
        &mut self,
        corners: [usize; 3],
        near: &Surrounds,
        bounds: &Option<ClipBounds>,
    ) -> Option<WindowTriangle>
        requires corners { AreBelow (length (listed self.old.vertices)) corners }
        requires bounds { AreClipBoundsIfAny self.old.state.now near.now bounds.now }
        ensures cache { IsCacheOf self.old.state.now (listed self.old.vertices) self.new }
        ensures triangle { MatchOption result
            (IsBesideIfKept self.old.state.now (listed self.old.vertices) corners near.now)
            (λ t. kept_whole self.old.state.now (listed self.old.vertices) corners ≡ Some t.v) }
    {
        if self.is_rejected(corners, near, bounds) {
            return None;
        }
        self.bring(corners);
        self.brought_near(near)
    }

    // The triangle of the cache's three corners.
    #[inline(always)]
    fn brought(&self) -> Option<WindowTriangle>
        requires { AreCorners self.now.state.now (listed self.now.vertices) self.now.first self.now.second self.now.third }
        ensures { MatchOption result
            (kept_corners self.now.state.now (listed self.now.vertices) self.now.first self.now.second self.now.third ≡ None)
            (λ t. kept_corners self.now.state.now (listed self.now.vertices) self.now.first self.now.second self.now.third ≡ Some t.v) }
    {
        let Some(first) = &self.first.at else {
            return None;
        };
        let Some(second) = &self.second.at else {
            return None;
        };
        let Some(third) = &self.third.at else {
            return None;
        };
        if is_dropped(self.state, first, second, third) {
            return None;
        }
        Some(turned(first, second, third))
    }

    // The same, or none where it lies beside. Most triangles of a fine mesh face away or have no area, so none is made before that is known.
    #[inline(always)]
    fn brought_near(&self, near: &Surrounds) -> Option<WindowTriangle>
        requires { AreCorners self.now.state.now (listed self.now.vertices) self.now.first self.now.second self.now.third }
        ensures { MatchOption result
            (IsBesideIfKept self.now.state.now (listed self.now.vertices) (indices_of self.now.first self.now.second self.now.third) near.now)
            (λ t. kept_corners self.now.state.now (listed self.now.vertices) self.now.first self.now.second self.now.third ≡ Some t.v) }
    {
        let Some(first) = &self.first.at else {
            return None;
        };
        let Some(second) = &self.second.at else {
            return None;
        };
        let Some(third) = &self.third.at else {
            return None;
        };
        if is_dropped(self.state, first, second, third) {
            return None;
        }
        if are_beside(near, first, second, third) {
            return None;
        }
        Some(turned(first, second, third))
    }

    /// The same where all three vertices stand in front of the near plane, so that the triangle is cut in no block.
    pub fn uncut_near(
        &mut self,
        corners: [usize; 3],
        near: &Surrounds,
        bounds: &Option<ClipBounds>,
    ) -> Uncut
        requires corners { AreBelow (length (listed self.old.vertices)) corners }
        requires bounds { AreClipBoundsIfAny self.old.state.now near.now bounds.now }
        ensures cache { IsCacheOf self.old.state.now (listed self.old.vertices) self.new }
        ensures triangle { IsUncut self.old.state.now (listed self.old.vertices) corners near.now result }
    {
        if self.is_rejected(corners, near, bounds) {
            return Uncut::Whole(None);
        }
        self.bring(corners);
        if self.first.front && self.second.front && self.third.front {
            return Uncut::Whole(self.brought_near(near));
        }
        Uncut::No
    }
}
