//! Memory for the vertices of parcels that are read one after the other.
use rc_base::state::Vertices;
use std::alloc::Global;
use std::marker::Model;

/// Memory that is kept for vertices, from one parcel that is read to the next. Contracts see nothing of it.
#[derive(Drop)]
pub struct Room {
    vertices: Vertices,
}

impl Model for Room {
    ghost Value = { Unit {0} };

    ghost view = { λ _. tt };
}

impl Room {
    ghost use Rattle.std.specs.Prelude.{◌≡◌, []};

    /// No memory yet.
    pub fn new(alloc: Global) -> Room
        ensures { result ≡ tt }
    {
        Room {
            vertices: Vertices::new(alloc),
        }
    }

    /// Keeps the memory of vertices that are done with, if there are any, in the place of what was kept before.
    pub fn keep(&mut self, vertices: Option<Vertices>)
        ensures { self.new ≡ self.old }
    {
        if let Some(vertices) = vertices {
            self.vertices = vertices;
        }
    }

    /// An empty list in the memory that was kept.
    pub(crate) fn take(&mut self, alloc: Global) -> Vertices
        ensures { result ≡ [] }
    {
        let kept = std::mem::replace(&mut self.vertices, Vertices::new(alloc));
        let mut vertices = kept.into_vec();
        vertices.clear();
        Vertices::from_vec(vertices)
    }
}
