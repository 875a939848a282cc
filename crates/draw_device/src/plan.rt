//! What is settled once a block.
use crate::write::Write;
use fragment_ops::{AlphaTest, DepthTest};

/// What a block's state says of all its fragments: both tests; how colours are written; whether a colour alone is stored; whether the alpha test lets
/// all through, being off; whether the depth test is off; whether texels replace colours.
#[derive(Clone, Copy)]
pub struct Plan {
    pub depth: DepthTest,
    pub alpha: AlphaTest,
    pub write: Write,
    pub stores: bool,
    pub through: bool,
    pub untested: bool,
    pub replaces: bool,
}
