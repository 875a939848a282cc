//! The pieces of a triangle of a block.
use rc_base::triangle::WindowTriangle;

/// The pieces of a triangle of a block, in their order, each where there is one and it is kept.
#[derive(Clone, Copy)]
pub struct Pieces {
    pub first: Option<WindowTriangle>,
    pub second: Option<WindowTriangle>,
}
