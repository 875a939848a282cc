//! What one tile was told.
ghost use Rattle.std.specs.Prelude.{◌≡◌, ◌++◌, [], IsOk, OnOk, length, replicate};
ghost use Rattle.rc_base.specs.Contexts.Context.{default_state, private_count};
ghost use Rattle.state_update.specs.Knowledge.{IsPrivateName, edit_told, element_sets, first_told, image_set, told_after};

use crate::images::image_of;
use crate::scalars::add_scalar;
use element_table::{SCALAR_COUNT, default_state, image_element};
use gl_context::Context;
use rc_base::out_of_memory::OutOfMemory;
use rc_base::scene::Decl;
use rc_base::state::{ElementSet, Sets, State};
use std::alloc::Global;

/// The values of the scalar elements, and the edit number of each private image.
#[derive(Clone, Copy, Debug, PartialEq, Eq)]
pub struct Told {
    pub state: State,
    pub edits: [u32; 64],
}

impl Told {
    /// The defaults, and no image.
    pub fn first(decl: &Decl) -> Told
        ensures { result ≡ first_told decl.now }
    {
        Told {
            state: default_state(decl),
            edits: [0; 64],
        }
    }

    /// There is an edit number for each private texture.
    pub fn has_each_name(&self)
        ensures { length self.now.edits ≡ private_count }
    {
        let _ = self.edits.len();
    }

    #[tactic(auto, using(textures::proofs::Names::at_name_below))]
    fn edit(&self, name: u8) -> u32
        requires { IsPrivateName (Some name) }
        ensures { result ≡ edit_told self.now name }
    {
        self.edits[usize::from(name) - 1]
    }

    // Adds the image where its edit number is another than the one that was told.
    fn add_image(
        &self,
        sets: &mut Sets,
        alloc: Global,
        context: &Context,
        name: u8,
    ) -> Result<(), OutOfMemory>
        requires { IsPrivateName (Some name) }
        ensures added { OnOk result (sets.new ≡ sets.old ++ image_set self.now context.now name) }
        ensures quiet { image_set self.now context.now name ≡ [] → IsOk result }
    {
        if self.edit(name) == context.edit(name) {
            return Ok(());
        }
        let value = image_of(alloc, context, name)?;
        sets.push(ElementSet {
            element: image_element(name),
            value,
        })?;
        Ok(())
    }

    /// Adds an element where the tile was told another value of it: a scalar element, or the image where the parcel examines it.
    pub fn add_element(
        &self,
        sets: &mut Sets,
        alloc: Global,
        context: &Context,
        image: Option<u8>,
        element: u8,
    ) -> Result<(), OutOfMemory>
        requires { IsPrivateName image }
        ensures added { OnOk result (sets.new ≡ sets.old ++ element_sets self.now context.now image element) }
        ensures quiet { element_sets self.now context.now image element ≡ [] → IsOk result }
    {
        if element < SCALAR_COUNT {
            return add_scalar(sets, &self.state, context.state(), element);
        }
        let Some(name) = image else {
            return Ok(());
        };
        if image_element(name) != element {
            return Ok(());
        }
        self.add_image(sets, alloc, context, name)
    }

    /// Notes that the tile was told the context's values, and this image.
    #[tactic(auto, using(textures::proofs::Names::with_name_below))]
    pub fn tell(&mut self, context: &Context, image: Option<u8>)
        requires { IsPrivateName image }
        ensures { self.new ≡ told_after self.old context.now image }
    {
        self.state = *context.state();
        if let Some(name) = image {
            self.edits[usize::from(name) - 1] = context.edit(name);
        }
    }
}
