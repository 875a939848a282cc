//! Texels, parts of textures, and what a draw samples.
ghost use Rattle.std.specs.Prelude.{◌≡◌, [], ◌∷◌, false, pos, true, None, Some};
ghost use Rattle.rc_base.specs.Colors.{rgba};
ghost use Rattle.rc_base.specs.Contexts.Context.{edit_of};
ghost use Rattle.rc_base.specs.Drawing.Texel.{sampled, texel_of};
ghost use Rattle.rc_base.specs.Pictures.{with_part};
ghost use Rattle.worked_examples.specs.Frames.{frame};
ghost use Rattle.worked_examples.specs.Scenes.{image, one, part, reached, shared_green};
ghost use Rattle.worked_examples.specs.States.{colored, four_texels, half, private_image, right_column, sampled_of, sampling, shared_texture};

/// Of 2 by 2 texels: 1/2 is column 1. 1 is column 2 and row 2, which REPEAT takes to 0 and CLAMP to 1, each side by its own wrap.
pub fn coordinates_wrap_by_their_side()
    ensures half { texel_of (four_texels 1 2 3 4) half (pos 0) 0 0 ≡ rgba 2 2 2 2 }
    ensures repeat { texel_of (four_texels 1 2 3 4) one one 0 0 ≡ rgba 1 1 1 1 }
    ensures clamp { texel_of (four_texels 1 2 3 4) one one 1 1 ≡ rgba 4 4 4 4 }
    ensures each_side { texel_of (four_texels 1 2 3 4) one one 1 0 ≡ rgba 2 2 2 2 }
{}

/// The right column takes two new texels, and the left one stays. An image that is written twice has edit number 2.
pub fn a_part_writes_its_texels_alone()
    ensures texels { with_part (four_texels 1 2 3 4) (right_column 8 9) ≡ four_texels 1 8 3 9 }
    ensures edits { edit_of (reached (image 1 2 2 ∷ part 1 1 1 1 1 ∷ []) 2) 1 ≡ 2 }
{}

/// The private image of the name that is bound, or the shared texture, and nothing where texturing is off or there is no image.
pub fn a_draw_samples_what_is_bound()
    ensures private { sampled_of (sampling true 0 2) ≡ Some (private_image 2) }
    ensures shared { sampled_of (sampling true 1 2) ≡ Some (shared_texture 2) }
    ensures no_image { sampled (sampling true 0 2) (λ name. None) shared_texture ≡ None }
    ensures off { sampled_of (sampling false 1 2) ≡ None }
{}

/// A shared texture is all zeros at first, and a draw over red shows them. After a SharedImage of a green texel a draw shows green.
pub fn a_shared_texture_is_sampled_as_it_stands()
    ensures at_first { frame shared_green 1 0 0 ≡ colored 0 0 0 0 }
    ensures written { frame shared_green 2 0 0 ≡ colored 0 255 0 255 }
{}
