//! The texels of a sampler that are nearest to coordinates.
ghost use Rattle.std.specs.Prelude.{◌≡◌, ◌+◌, ◌*◌, ◌<◌, ◌≤◌, Some, length, take, drop};
ghost use Rattle.rc_base.specs.Colors.{color_of};
ghost use Rattle.rc_base.specs.Drawing.Texel.{texel_of};
ghost use Rattle.textures.specs.Images.{IsNearestTexel, picture};
ghost use Rattle.textures.specs.Samplers.{sampled_image};

use crate::axis::{index_of, repeat};
use crate::sampler::Sampler;
use rc_base::command::Rgba;

// The colour of the four bytes from an index on.
#[inline(always)]
fn color_at(texels: &[u8], at: usize) -> Rgba
    requires { at + 4 ≤ length texels.now }
    ensures { result ≡ color_of (take 4 (drop at texels.now)) }
{
    Rgba {
        r: texels[at],
        g: texels[at + 1],
        b: texels[at + 2],
        a: texels[at + 3],
    }
}

// The index of a texel's first byte.
#[inline(always)]
fn byte_index(w: u16, h: u16, column: u16, row: u16) -> usize
    requires column { column < w }
    requires row { row < h }
    ensures value { result ≡ 4 * (row * w + column) }
    ensures inside { result + 4 ≤ 4 * (w * h) }
{
    let _h = h;
    4 * (usize::from(row) * usize::from(w) + usize::from(column))
}

impl<'a> Sampler<'a> {
    /// The texel that is nearest to a texture coordinate in 16.16 fixed point.
    #[inline(always)]
    #[tactic(auto, unfolding(rc_base::specs::Drawing::Texel::texel_of))]
    pub fn nearest(&self, s: i32, t: i32) -> Rgba
        ensures { IsNearestTexel (sampled_image self.now) s t self.now.wrap_s self.now.wrap_t result }
    {
        let column = index_of(self.wrap_s, self.w, s);
        let row = index_of(self.wrap_t, self.h, t);
        color_at(self.texels, byte_index(self.w, self.h, column, row))
    }

    /// The same of an image that repeats along both sides.
    #[inline(always)]
    #[tactic(auto, unfolding(rc_base::specs::Drawing::Texel::texel_of))]
    pub fn nearest_repeated(&self, s: i32, t: i32) -> Rgba
        requires across { self.now.wrap_s ≡ 0 }
        requires up { self.now.wrap_t ≡ 0 }
        ensures { IsNearestTexel (sampled_image self.now) s t self.now.wrap_s self.now.wrap_t result }
    {
        let column = repeat(s, self.w);
        let row = repeat(t, self.h);
        color_at(self.texels, byte_index(self.w, self.h, column, row))
    }
}
