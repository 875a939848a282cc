//! A block as bytes.
use crate::vertices::SpeltVertices;

/// A block whose vertices are spelt by bytes.
#[derive(Clone, Copy)]
pub struct SpeltBlock<'a> {
    pub mode: u8,
    pub vertices: SpeltVertices<'a>,
}
