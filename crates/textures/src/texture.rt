//! One texture.
ghost use Rattle.std.specs.Prelude.{◌≡◌, ◌+◌, ◌*◌, ◌<◌, ◌≤◌, take, drop, IfOk, ◌∷◌, [], OnOk, OnErr, Some, None, length, is_some, MatchOption};
ghost use Rattle.std.specs.Option.{option_map};
ghost use Rattle.rc_base.specs.Pictures.{Picture};
ghost use Rattle.textures.specs.Images.{IsWhole, LiesInside, HasTexel, IsNearestTexel, AreTexels, picture, part, blank_picture, with_image_part};
ghost use Rattle.textures.specs.Samplers.{IsSamplerIfAny};
ghost use Rattle.textures.specs.Views.{image_picture};

use crate::parts::write_part;
use crate::sampler::Sampler;
use rc_base::command::{Rgba, Texels};
use rc_base::out_of_memory::OutOfMemory;
use std::alloc::Global;
use std::marker::Model;

// The sides of an image, and four bytes for each texel.
#[derive(Drop)]
struct Image {
    w: u16,
    h: u16,
    texels: Texels,
}

// The image for its texels, if it has one.
fn sampler_of(image: &Image, wrap_s: u8, wrap_t: u8) -> Option<Sampler<'_>>
    requires { IsWhole (image_picture image.now) }
    ensures { IsSamplerIfAny (Some (image_picture image.now)) wrap_s wrap_t result }
{
    if image.w == 0 || image.h == 0 {
        return None;
    }
    Some(Sampler {
        w: image.w,
        wrap_s,
        h: image.h,
        wrap_t,
        texels: image.texels.as_slice(),
    })
}

/// A texture: r, g, b, a of each texel, row by row, where it has an image. Row 0 is at t = 0.
#[derive(Drop)]
pub struct Texture {
    alloc: Global,
    image: Option<Image>,
}

impl Model for Texture {
    ghost use Rattle.std.specs.Prelude.{Option};
    ghost use Rattle.std.specs.Option.{option_map};
    ghost use Rattle.rc_base.specs.Pictures.{Picture};
    ghost use Rattle.textures.specs.Images.{IsWholeIfAny};
    ghost use Rattle.textures.specs.Views.{image_picture};

    ghost Value = { Option Picture };

    ghost view = { λ a. option_map image_picture a.image };

    ghost invariant = { λ a. IsWholeIfAny (option_map image_picture a.image) };
}

impl Texture {
    /// A texture without an image. Its images take their memory from this allocator.
    pub fn empty(alloc: Global) -> Texture
        ensures { result ≡ None }
    {
        Texture { alloc, image: None }
    }

    /// A texture with an image of these sides, width and height, whose bytes are all 0.
    pub fn blank(alloc: Global, sides: [u16; 2]) -> Result<Texture, OutOfMemory>
        ensures { IfOk result (λ t. t ≡ Some (blank_picture sides)) }
    {
        let [w, h] = sides;
        let mut bytes = Vec::new(alloc);
        bytes.resize(4 * (usize::from(w) * usize::from(h)), 0)?;
        Ok(Texture {
            alloc,
            image: Some(Image {
                w,
                h,
                texels: Texels::from_vec(bytes),
            }),
        })
    }

    /// Gives the texture a copy of an image. Where there is no memory for it, the texture is unchanged.
    pub fn set_image(&mut self, w: u16, h: u16, texels: &Texels) -> Result<(), OutOfMemory>
        requires whole { length texels.now ≡ 4 * (w * h) }
        ensures ok { OnOk result (self.new ≡ Some (picture w h texels.now)) }
        ensures err { OnErr result (self.new ≡ self.old) }
    {
        self.put_image(w, h, Texels::from_slice(self.alloc, texels.as_slice())?);
        Ok(())
    }

    /// Gives the texture an image, without memory: its texels are moved.
    pub fn put_image(&mut self, w: u16, h: u16, texels: Texels)
        requires whole { length texels ≡ 4 * (w * h) }
        ensures { self.new ≡ Some (picture w h texels) }
    {
        self.image = Some(Image { w, h, texels });
    }

    /// Writes a part of the image, without memory. The part's name has no bearing on it.
    #[tactic(auto, unfolding(rc_base::specs::Pictures::with_part))]
    pub fn set_part(&mut self, x: u16, y: u16, w: u16, h: u16, texels: &Texels)
        requires whole { length texels.now ≡ 4 * (w * h) }
        requires inside { LiesInside (part 0 x y w h texels.now) self.old }
        ensures { self.new ≡ with_image_part self.old (part 0 x y w h texels.now) }
    {
        if let Some(image) = &mut self.image {
            write_part(
                image.texels.as_mut_slice(),
                [image.w, image.h],
                x,
                y,
                w,
                h,
                texels.as_slice(),
            );
        }
    }

    /// Width and height, where the texture has an image.
    pub fn sides(&self) -> Option<[u16; 2]>
        ensures { result ≡ option_map (λ (p : Picture). p.w ∷ p.h ∷ []) self.now }
    {
        match &self.image {
            Some(image) => Some([image.w, image.h]),
            None => None,
        }
    }

    /// The bytes of the image, where the texture has one.
    pub fn texels(&self) -> Option<&[u8]>
        ensures { MatchOption result (self.now ≡ None) (λ bytes. AreTexels self.now bytes.now) }
    {
        match &self.image {
            Some(image) => Some(image.texels.as_slice()),
            None => None,
        }
    }

    /// Whether the texture has an image.
    pub fn has_image(&self) -> bool
        ensures { result ≡ is_some self.now }
    {
        self.image.is_some()
    }

    /// The image and two wraps, REPEAT (0) or CLAMP (1), for many texels: what `sample` gives of these wraps, the sampler's `nearest` gives. There is
    /// one exactly where the texture has a texel.
    pub fn sampler(&self, wrap_s: u8, wrap_t: u8) -> Option<Sampler<'_>>
        ensures { IsSamplerIfAny self.now wrap_s wrap_t result }
    {
        match &self.image {
            Some(image) => sampler_of(image, wrap_s, wrap_t),
            None => None,
        }
    }

    /// The texel that is nearest to a texture coordinate in 16.16 fixed point. Along each side it wraps by REPEAT (0) or CLAMP (1). The texture
    /// must have an image with a texel.
    pub fn sample(&self, s: i32, t: i32, wrap_s: u8, wrap_t: u8) -> Rgba
        requires { HasTexel self.now }
        ensures { IsNearestTexel self.now s t wrap_s wrap_t result }
    {
        match self.sampler(wrap_s, wrap_t) {
            Some(sampler) => sampler.nearest(s, t),
            None => Rgba {
                r: 0,
                g: 0,
                b: 0,
                a: 0,
            },
        }
    }
}
