//! The alpha test, prepared once for a draw.
ghost use Rattle.std.specs.Prelude.{◌≡◌};

use crate::depth::DepthTest;

/// The alpha test of a state: the outcomes that pass against a reference, all of them where it is off. It stores nothing.
#[derive(Clone, Copy)]
pub struct AlphaTest {
    pub outcomes: DepthTest,
    pub reference: u8,
}
