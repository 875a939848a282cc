//! The textures of one client.
ghost use Rattle.std.specs.Prelude.{◌≡◌, ◌<◌, ◌≤◌, ◌*◌, IfOk, OnOk, OnErr, None, length, replicate, MatchOption};
ghost use Rattle.rc_base.specs.Contexts.Context.{private_count};
ghost use Rattle.textures.specs.Images.{HasRoomFor, picture, part, texture_image, with_texture, with_texture_part};

use crate::texture::Texture;
use rc_base::command::Texels;
use rc_base::out_of_memory::OutOfMemory;
use std::alloc::Global;
use std::marker::Model;

/// The private textures 1 to 64 of one client.
#[derive(Drop)]
pub struct PrivateSet {
    alloc: Global,
    textures: Vec<Texture>,
}

impl Model for PrivateSet {
    ghost use Rattle.std.specs.Prelude.{◌≡◌, List, Option, length};
    ghost use Rattle.rc_base.specs.Pictures.{Picture};
    ghost use Rattle.rc_base.specs.Contexts.Context.{private_count};

    ghost Value = { List (Option Picture) };

    ghost view = { λ a. a.textures.items };

    ghost invariant = { λ a. length a.textures.items ≡ private_count };
}

impl PrivateSet {
    /// 64 textures without an image.
    pub fn new(alloc: Global) -> Result<PrivateSet, OutOfMemory>
        ensures { IfOk result (λ s. s ≡ replicate private_count None) }
    {
        let mut textures = Vec::with_capacity(alloc, 64)?;
        for _ in 0..64_usize {
            textures.push(Texture::empty(alloc))?;
        }
        Ok(PrivateSet { alloc, textures })
    }

    /// The texture of a name.
    #[tactic(auto, using(crate::proofs::Names::at_name_below))]
    pub fn get(&self, name: u8) -> &Texture
        requires low { 0 < name }
        requires high { name ≤ private_count }
        ensures { result.now ≡ texture_image self.now name }
    {
        &self.textures[usize::from(name) - 1]
    }

    /// The texture of a name, where the set has one of that name.
    #[tactic(auto, using(crate::proofs::Names::at_name_below))]
    pub fn find(&self, name: u8) -> Option<&Texture>
        ensures { MatchOption result (texture_image self.now name ≡ None) (λ t. t.now ≡ texture_image self.now name) }
    {
        if name == 0 {
            return None;
        }
        self.textures.get(usize::from(name) - 1)
    }

    /// Gives a texture a copy of an image. Where there is no memory for it, nothing is changed.
    #[tactic(auto, using(crate::proofs::Names::with_name_below))]
    pub fn set(&mut self, name: u8, w: u16, h: u16, texels: &Texels) -> Result<(), OutOfMemory>
        requires low { 0 < name }
        requires high { name ≤ private_count }
        requires whole { length texels.now ≡ 4 * (w * h) }
        ensures ok { OnOk result (self.new ≡ with_texture self.old name (picture w h texels.now)) }
        ensures err { OnErr result (self.new ≡ self.old) }
    {
        let copy = Texels::from_slice(self.alloc, texels.as_slice())?;
        self.put(name, w, h, copy);
        Ok(())
    }

    /// Gives a texture an image, without memory: its texels are moved.
    #[tactic(auto, using(crate::proofs::Names::with_name_below))]
    pub fn put(&mut self, name: u8, w: u16, h: u16, texels: Texels)
        requires low { 0 < name }
        requires high { name ≤ private_count }
        requires whole { length texels ≡ 4 * (w * h) }
        ensures { self.new ≡ with_texture self.old name (picture w h texels) }
    {
        let mut texture = Texture::empty(self.alloc);
        texture.put_image(w, h, texels);
        self.textures[usize::from(name) - 1] = texture;
    }

    /// Writes a part of a texture's image, without memory.
    pub fn set_part(&mut self, name: u8, x: u16, y: u16, w: u16, h: u16, texels: &Texels)
        requires low { 0 < name }
        requires high { name ≤ private_count }
        requires whole { length texels.now ≡ 4 * (w * h) }
        requires inside { HasRoomFor self.old (part name x y w h texels.now) }
        ensures { self.new ≡ with_texture_part self.old (part name x y w h texels.now) }
    {
        set_part_of(&mut self.textures, name, x, y, w, h, texels);
    }
}

// Writes a part of the image of the texture of a name.
#[tactic(auto, using(crate::proofs::Names::at_name_below, crate::proofs::Names::with_name_below), unfolding(rc_base::specs::Pictures::with_part))]
pub(crate) fn set_part_of(
    set: &mut Vec<Texture>,
    name: u8,
    x: u16,
    y: u16,
    w: u16,
    h: u16,
    texels: &Texels,
)
    requires low { 0 < name }
    requires high { name ≤ length set.old.items }
    requires whole { length texels.now ≡ 4 * (w * h) }
    requires inside { HasRoomFor set.old.items (part name x y w h texels.now) }
    ensures { set.new.items ≡ with_texture_part set.old.items (part name x y w h texels.now) }
{
    set[usize::from(name) - 1].set_part(x, y, w, h, texels);
}
