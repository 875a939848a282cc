//! What is sent to which tile.
ghost use Rattle.std.specs.Prelude.{◌≡◌, [], ◌∷◌, false, map, true};
ghost use Rattle.rc_base.specs.Cluster.Tiles.{boundary_of, tile_pixels};
ghost use Rattle.worked_examples.specs.Scenes.{culled_front, full_blue, layout_with, lazy_state, lazy_texture, parcels_to, scissored_clear, scissored_parcels, tally};

/// A width of 5 in four columns is cut at 0, 1, 2, 3 and 5, a height of 3 in two rows at 0, 1 and 3.
pub fn boundaries_are_rounded_down()
    ensures columns { map (boundary_of 5 4) (0 ∷ 1 ∷ 2 ∷ 3 ∷ 4 ∷ []) ≡ 0 ∷ 1 ∷ 2 ∷ 3 ∷ 5 ∷ [] }
    ensures rows { map (boundary_of 3 2) (0 ∷ 1 ∷ 2 ∷ []) ≡ 0 ∷ 1 ∷ 3 ∷ [] }
    ensures last { tile_pixels (layout_with 5 3 4 2) 7 4 2 ≡ true }
    ensures not_left_of_it { tile_pixels (layout_with 5 3 4 2) 7 2 2 ≡ false }
{}

/// The clear's box meets tile 7 alone. Its parcel sets the scissor test, the scissor box and the clear colour; every tile gets the swap
/// and the end.
pub fn a_scissored_clear_goes_to_one_tile()
    ensures parcels { parcels_to scissored_clear 4 2 7 ≡ scissored_parcels }
    ensures its_tally { tally scissored_clear 4 2 7 ≡ record { parcels = 3; sets = 3; looks = 20 } }
    ensures another { tally scissored_clear 4 2 6 ≡ record { parcels = 2; sets = 0; looks = 0 } }
{}

/// A blend that is set and set back is not told. The right tile gets the scissor box once, with a later draw than the left one. Hierarchical
/// dirty bits look once at the top, then at nine groups, and at the elements of each group with something pending.
pub fn a_tile_is_told_only_what_changed()
    ensures left { tally lazy_state 2 1 0 ≡ record { parcels = 6; sets = 3; looks = 46 } }
    ensures right { tally lazy_state 2 1 1 ≡ record { parcels = 5; sets = 1; looks = 31 } }
{}

/// The image of a texture goes to the tile with the first draw that samples it, and its group is looked at before, by a Clear too.
pub fn an_image_is_told_when_it_is_sampled()
    ensures { tally lazy_texture 1 1 0 ≡ record { parcels = 5; sets = 2; looks = 56 } }
{}

/// A triangle goes to a tile that has none of its vertices.
pub fn a_large_triangle_goes_to_every_tile()
    ensures { tally full_blue 3 3 8 ≡ record { parcels = 3; sets = 0; looks = 1 } }
{}

/// In a scene of version 2 a block is sorted by the bounding box of its vertices, so a triangle that is culled goes to its tile all the same.
pub fn a_culled_triangle_of_version_2_goes_to_its_tile()
    ensures { tally culled_front 1 1 0 ≡ record { parcels = 3; sets = 2; looks = 15 } }
{}
