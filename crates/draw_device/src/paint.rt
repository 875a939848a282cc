//! The way that a triangle is drawn.
use crate::shading::Shading;
use crate::stages::Stages;
use raster::ColorPlane;
use rc_base::command::Rgba;

/// One colour, or a plane of colours, that are stored alone; the stages of its rows, one after the other; or pixel by pixel. Planes stand elsewhere, so
/// that a triangle of one colour has no room for them.
#[derive(Clone, Copy)]
pub enum Paint<'a> {
    Fill(Rgba),
    Store(&'a ColorPlane),
    Stages(Stages<'a>),
    Pixels(Shading),
}
