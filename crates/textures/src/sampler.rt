//! An image for many texels.
ghost use Rattle.std.specs.Prelude.{◌≡◌, ◌*◌, ◌<◌, length};

/// An image with a texel, its sides and bytes as in its texture, and how a texture coordinate wraps along each side: by REPEAT (0) or CLAMP
/// (1). It holds by value all that the nearest texel takes, so that a loop over fragments looks nothing up.
#[derive(Clone, Copy)]
pub struct Sampler<'a> {
    pub w: u16,
    pub wrap_s: u8,
    pub h: u16,
    pub wrap_t: u8,
    pub texels: &'a [u8],
    pub ghost whole: { length texels.now ≡ 4 * (w * h) },
    pub ghost width: { 0 < w },
    pub ghost height: { 0 < h },
}
