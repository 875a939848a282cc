//! Frames of small scenes.
ghost use Rattle.std.specs.Prelude.{◌≡◌, ◌++◌, [], ◌∷◌};
ghost use Rattle.rc_base.specs.Colors.{rgba};
ghost use Rattle.rc_base.specs.Contexts.Issue.{fault_at};
ghost use Rattle.worked_examples.specs.Frames.{black, frame, frame_bytes, green, red, shown};
ghost use Rattle.worked_examples.specs.Scenes.{added_strip, barrier_in_block, corner_in_eye, cut_corner, culled_front, first_client_first, full_blue, half_triangle, red_clear, scissored_clear, second_client_first, textured_with, three_depths, two_blended, two_vertices};
ghost use Rattle.worked_examples.specs.States.{colored, pixel};
ghost use Rattle.rc_base.specs.declared.command.Command.TheVariants as cmd;
ghost use Rattle.rc_base.specs.declared.state.Fault.TheVariants.{InvalidOperation};

/// A clear to red and a swap, in a window of 2 by 2: all four pixels are red.
pub fn red_clear_is_red()
    ensures { frame_bytes red_clear 1 ≡ red ++ red ++ red ++ red }
{}

/// Of a triangle with window corners (0, 0), (32, 0) and (0, 32) the slanted edge runs through the centres (24, 8) and (8, 24). It goes up, so
/// it keeps neither of them: only the lower left pixel is drawn. Rows come from the top.
pub fn a_right_edge_keeps_no_centre()
    ensures { frame_bytes half_triangle 1 ≡ black ++ black ++ green ++ black }
{}

/// A block of two vertices has no triangle.
pub fn two_vertices_draw_nothing()
    ensures { frame_bytes two_vertices 1 ≡ black ++ black ++ black ++ black }
{}

/// The two triangles of a strip share the edge x + y = 64. A pixel whose centre lies on it gets one of them, as the pixel beside it does.
pub fn a_shared_edge_is_blended_once()
    ensures on_the_edge { frame added_strip 1 1 2 ≡ colored 100 100 100 100 }
    ensures beside_it { frame added_strip 1 1 1 ≡ colored 100 100 100 100 }
{}

/// A triangle with a corner of w = 0 is dropped.
pub fn a_corner_in_the_eye_drops_its_triangle()
    ensures { frame corner_in_eye 1 0 0 ≡ colored 0 0 0 0 }
{}

/// The same triangle in a scene of version 2 is cut at the near plane into two pieces, of which the first covers the pixel. A piece is culled by its
/// own facing.
pub fn a_corner_in_the_eye_is_cut_off_in_version_2()
    ensures cut { frame cut_corner 1 0 0 ≡ colored 255 255 255 255 }
    ensures culled { frame culled_front 1 0 0 ≡ colored 0 0 0 0 }
{}

/// With the depth test on, a fragment of the stored depth fails LESS and passes LEQUAL. At z = 0 the depth is 8388607.
pub fn equal_depths_pass_lequal_alone()
    ensures first { frame three_depths 1 0 0 ≡ pixel (rgba 255 0 0 255) 8388607 }
    ensures less { frame three_depths 2 0 0 ≡ pixel (rgba 255 0 0 255) 8388607 }
    ensures lequal { frame three_depths 3 0 0 ≡ pixel (rgba 0 0 255 255) 8388607 }
{}

/// The column of coordinate -1 / 65536 in a texture two texels wide is floor(-2 / 65536) = -1. REPEAT takes texel 1, CLAMP texel 0.
pub fn a_negative_texel_repeats_or_is_held()
    ensures repeat { frame (textured_with []) 1 0 0 ≡ colored 0 255 0 255 }
    ensures clamp { frame (textured_with (cmd.TexWrap 1 1 ∷ [])) 1 0 0 ≡ colored 255 0 0 255 }
{}

/// Only the pixels x = 3 and 4 of the two top rows are cleared.
pub fn a_scissored_clear_stays_in_its_box()
    ensures inside_low { frame scissored_clear 1 3 1 ≡ colored 0 255 0 255 }
    ensures inside_high { frame scissored_clear 1 4 2 ≡ colored 0 255 0 255 }
    ensures left_of_it { frame scissored_clear 1 2 1 ≡ colored 0 0 0 0 }
    ensures below_it { frame scissored_clear 1 3 0 ≡ colored 0 0 0 0 }
{}

/// Red and blue at alpha 128 over black: what comes last weighs more.
pub fn blending_shows_the_order()
    ensures red_first { shown two_blended first_client_first 1 0 0 ≡ colored 64 0 128 96 }
    ensures blue_first { shown two_blended second_client_first 1 0 0 ≡ colored 128 0 64 96 }
{}

/// A triangle with no vertex near the window's far corner covers it.
pub fn a_large_triangle_covers_every_tile()
    ensures { frame full_blue 1 5 5 ≡ colored 0 0 255 255 }
{}

/// A Barrier inside a block is refused, and the block is drawn all the same.
pub fn a_refused_command_leaves_the_block_open()
    ensures fault { fault_at barrier_in_block 0 2 ≡ Some InvalidOperation }
    ensures drawn { frame barrier_in_block 1 0 0 ≡ colored 255 255 255 255 }
{}
