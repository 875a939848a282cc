//! Which triangles there are, which are kept, and which pixels they cover.
ghost use Rattle.std.specs.Prelude.{◌≡◌, [], ◌∷◌, false, negsuc, pos, true};
ghost use Rattle.rc_base.specs.Colors.{rgba};
ghost use Rattle.rc_base.specs.Drawing.Cover.{triangle_area};
ghost use Rattle.rc_base.specs.Drawing.Kept.{oriented, three};
ghost use Rattle.rc_base.specs.Drawing.Serial.{blank_pixel};
ghost use Rattle.rc_base.specs.Drawing.Triangles.{triangles_of};
ghost use Rattle.worked_examples.specs.Scenes.{minus_one, one};
ghost use Rattle.worked_examples.specs.States.{areas_shown, colored, corner_at, covers_pixel, culling, depths_of, grey_drawn, near_to_far, origin, window_places, right_angled, scissored, seen_through, state_at_first, two};

/// Of seven vertices the last draws nothing. A strip turns every other triangle round, so that all have one winding. All triangles of a fan
/// have the first vertex.
pub fn vertices_make_triangles()
    ensures triangles { triangles_of 0 7 ≡ (0 ∷ 1 ∷ 2 ∷ []) ∷ (3 ∷ 4 ∷ 5 ∷ []) ∷ [] }
    ensures strip { triangles_of 1 5 ≡ (0 ∷ 1 ∷ 2 ∷ []) ∷ (2 ∷ 1 ∷ 3 ∷ []) ∷ (2 ∷ 3 ∷ 4 ∷ []) ∷ [] }
    ensures fan { triangles_of 2 5 ≡ (0 ∷ 1 ∷ 2 ∷ []) ∷ (0 ∷ 2 ∷ 3 ∷ []) ∷ (0 ∷ 3 ∷ 4 ∷ []) ∷ [] }
    ensures fan_of_two { triangles_of 2 2 ≡ [] }
{}

/// Areas of 8, counterclockwise, and of -8, clockwise. Culling of BACK drops what runs clockwise, culling of FRONT what runs counterclockwise,
/// and with a clockwise front it is the other way. A triangle without an area is dropped in every state.
pub fn a_facing_is_culled()
    ensures back { areas_shown (culling 1 0) ≡ true ∷ false ∷ false ∷ [] }
    ensures front { areas_shown (culling 0 0) ≡ false ∷ true ∷ false ∷ [] }
    ensures both { areas_shown (culling 2 0) ≡ false ∷ false ∷ false ∷ [] }
    ensures clockwise_front { areas_shown (culling 1 1) ≡ false ∷ true ∷ false ∷ [] }
    ensures off { areas_shown state_at_first ≡ true ∷ true ∷ false ∷ [] }
{}

/// (0, 0), (0, 16), (16, 0) run clockwise: 0 * 0 - 16 * 16 = -256. The last two change places. Turned so, they stay.
pub fn corners_are_turned_counterclockwise()
    ensures area { triangle_area (three origin (corner_at 0 16) (corner_at 16 0)) ≡ negsuc 255 }
    ensures turned { oriented origin (corner_at 0 16) (corner_at 16 0) ≡ right_angled 0 16 }
    ensures kept { oriented origin (corner_at 16 0) (corner_at 0 16) ≡ right_angled 0 16 }
{}

/// A viewport of 2 by 2 at (1, 1): x / w = -1, 0, 1, 3 stand at 16, 16 + 16, 16 + 32 and 16 + 64 sixteenths. The triangle (16, 16), (80, 16),
/// (16, 80) has the centre (56, 24) of pixel (3, 1), which the viewport hasn't.
pub fn a_viewport_moves_and_clips()
    ensures places { window_places (minus_one ∷ pos 0 ∷ one ∷ pos 196608 ∷ []) ≡ pos 16 ∷ pos 32 ∷ pos 48 ∷ pos 80 ∷ [] }
    ensures inside { covers_pixel (seen_through 1 1 2 2) (right_angled 16 64) 2 1 ≡ true }
    ensures right_of_it { covers_pixel (seen_through 1 1 2 2) (right_angled 16 64) 3 1 ≡ false }
    ensures whole_window { covers_pixel state_at_first (right_angled 16 64) 3 1 ≡ true }
{}

/// Of the triangle (0, 0), (64, 0), (0, 64) the scissor box leaves column 2 alone, where the scissor test is on: (2, 0) with its centre (40, 8)
/// and not (1, 0) with (24, 8).
pub fn a_draw_stays_in_the_scissor_box()
    ensures inside { covers_pixel (scissored true 2 0 1 4) (right_angled 0 64) 2 0 ≡ true }
    ensures left_of_it { covers_pixel (scissored true 2 0 1 4) (right_angled 0 64) 1 0 ≡ false }
    ensures off { covers_pixel (scissored false 2 0 1 4) (right_angled 0 64) 1 0 ≡ true }
{}

/// At z / w = -1, 0, 1: in the range 0 to 1 floor(16777215 * 0, 1/2, 1), in 1/4 to 3/4 floor(16777215 * 1/4, 1/2, 3/4), and from 1 to 0 the
/// other way. At z / w = 2 and -2 it is floor(16777215 * 3/2) and floor(16777215 * -1/2).
pub fn depths_lie_in_their_range()
    ensures whole { depths_of (pos 0) one near_to_far ≡ pos 0 ∷ pos 8388607 ∷ pos 16777215 ∷ [] }
    ensures part { depths_of (pos 16384) (pos 49152) near_to_far ≡ pos 4194303 ∷ pos 8388607 ∷ pos 12582911 ∷ [] }
    ensures reversed { depths_of one (pos 0) near_to_far ≡ pos 16777215 ∷ pos 8388607 ∷ pos 0 ∷ [] }
    ensures beyond { depths_of (pos 0) one (two ∷ negsuc 131071 ∷ []) ≡ pos 25165822 ∷ negsuc 8388607 ∷ [] }
{}

/// 0 and 16777215 are depths of the buffer, -1 and 16777216 aren't: their fragments are discarded.
pub fn depths_outside_the_buffer_are_discarded()
    ensures nearest { grey_drawn (pos 0) ≡ colored 9 9 9 9 }
    ensures farthest { grey_drawn (pos 16777215) ≡ colored 9 9 9 9 }
    ensures nearer { grey_drawn (negsuc 0) ≡ blank_pixel }
    ensures farther { grey_drawn (pos 16777216) ≡ blank_pixel }
{}
