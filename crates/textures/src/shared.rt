//! The textures that all clients share.
ghost use Rattle.std.specs.Prelude.{◌≡◌, ◌<◌, ◌≤◌, ◌*◌, IfOk, length, map};
ghost use Rattle.textures.specs.Images.{LiesInside, texture_image, with_texture_part, blank_texture};

use crate::sets::set_part_of;
use crate::texture::Texture;
use rc_base::command::Part;
use rc_base::out_of_memory::OutOfMemory;
use rc_base::scene::Sizes;
use std::alloc::Global;
use std::marker::Model;

/// The shared textures, named from 1 in the order of their declaration.
#[derive(Drop)]
pub struct SharedSet {
    textures: Vec<Texture>,
}

impl Model for SharedSet {
    ghost use Rattle.std.specs.Prelude.{List, Option};
    ghost use Rattle.rc_base.specs.Pictures.{Picture};

    ghost Value = { List (Option Picture) };

    ghost view = { λ a. a.textures.items };
}

impl SharedSet {
    /// A texture of these sides, width and height, for each name. All bytes are 0.
    pub fn new(alloc: Global, sizes: &Sizes) -> Result<SharedSet, OutOfMemory>
        ensures { IfOk result (λ s. s ≡ map blank_texture sizes.now) }
    {
        let mut textures = Vec::new(alloc);
        for sides in sizes.as_slice() {
            textures.push(Texture::blank(alloc, *sides)?)?;
        }
        Ok(SharedSet { textures })
    }

    /// The texture of a name.
    #[tactic(auto, using(crate::proofs::Names::at_name_below))]
    pub fn get(&self, name: u8) -> &Texture
        requires low { 0 < name }
        requires high { name ≤ length self.now }
        ensures { result.now ≡ texture_image self.now name }
    {
        &self.textures[usize::from(name) - 1]
    }

    /// Writes a part of the texture that it names, without memory.
    pub fn write(&mut self, part: &Part)
        requires low { 0 < part.now.name }
        requires high { part.now.name ≤ length self.old }
        requires whole { length part.now.texels ≡ 4 * (part.now.w * part.now.h) }
        requires inside { LiesInside part.now (texture_image self.old part.now.name) }
        ensures { self.new ≡ with_texture_part self.old part.now }
    {
        let Part {
            name,
            x,
            y,
            w,
            h,
            texels,
        } = part;
        set_part_of(&mut self.textures, *name, *x, *y, *w, *h, texels);
    }
}
