//! What a tile keeps of one client.
ghost use Rattle.std.specs.Prelude.{◌≡◌, length};
ghost use Rattle.rc_base.specs.Contexts.Context.{private_count};

use crate::sets::set_image;
use rc_base::state::{ElementSet, Sets, State};
use textures::PrivateSet;

/// The scalar elements of the client, and the images of its private textures.
#[derive(Drop)]
pub struct KeptClient {
    pub state: State,
    pub images: PrivateSet,
    pub ghost count: { length images ≡ private_count },
}

impl KeptClient {
    ghost use Rattle.std.specs.Prelude.{◌≡◌, ◌∷◌, [], true};
    ghost use Rattle.std.specs.List.{list_all};
    ghost use Rattle.rc_base.specs.declared.scene.Decl.{Decl};
    ghost use Rattle.tile_model.specs.Boards.{HasSets};
    ghost use Rattle.tile_server.specs.Kepts.{is_set_value, kept_of, AreSomeValues, IsFit, IsSomeValue};

    // Makes one set. An image's texels are moved.
    fn apply(&mut self, set: ElementSet)
        requires { IsSomeValue set.element set.value }
        ensures { HasSets (set ∷ []) (kept_of self.old) (kept_of self.new) }
    {
        element_table::set(&mut self.state, set.element, &set.value);
        set_image(&mut self.images, set.element, set.value);
    }

    /// Makes the sets, one after the other. They are moved, texels with them, so it takes no memory.
    pub(crate) fn apply_all(&mut self, sets: Sets)
        requires { AreSomeValues sets }
        ensures made { HasSets sets (kept_of self.old) (kept_of self.new) }
        ensures fit { (d : Decl) → list_all (is_set_value d) sets ≡ true
            → IsFit d (kept_of self.old) → IsFit d (kept_of self.new) }
    {
        for set in sets.into_vec() {
            self.apply(set);
        }
    }
}
