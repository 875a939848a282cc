//! The colours of a row's fragments, one by one.
use raster::ColorRamp;
use rc_base::command::Rgba;

/// One colour for all, or a ramp that has the colour at a column.
#[derive(Clone, Copy)]
pub enum Shades {
    One(Rgba),
    Ramp(ColorRamp),
}
