//! A Clear, prepared once for all its pixels.
ghost use Rattle.std.specs.Prelude.{◌≡◌};

use rc_base::command::Rgba;

/// What a Clear writes, and which parts of a pixel it does.
#[derive(Clone, Copy)]
pub struct Clearing {
    pub color: Rgba,
    pub red: bool,
    pub green: bool,
    pub blue: bool,
    pub opacity: bool,
    pub depth: u32,
    pub sets_depth: bool,
}
