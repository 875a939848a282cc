//! How the colours of a triangle's fragments are made.
use raster::{ColorPlane, WordPlane};
use rc_base::command::Rgba;
use textures::Sampler;

/// One colour; a plane of colours; or texels by the planes of s and t, which replace the triangle's colours or are modulated by them.
#[derive(Clone, Copy)]
pub enum Source<'a> {
    Flat(Rgba),
    Smooth(ColorPlane),
    Texels(Sampler<'a>, WordPlane, WordPlane),
    Tinted(Sampler<'a>, WordPlane, WordPlane, ColorPlane),
}
