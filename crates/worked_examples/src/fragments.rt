//! What the stages make of a fragment, and a Clear of a pixel.
ghost use Rattle.std.specs.Prelude.{◌≡◌, [], ◌∷◌, false, map, negsuc, pos, true};
ghost use Rattle.rc_base.specs.Colors.{rgba};
ghost use Rattle.rc_base.specs.Drawing.PixelStep.{blended, cleared, compares};
ghost use Rattle.rc_base.specs.declared.command.Command.TheVariants as cmd;
ghost use Rattle.worked_examples.specs.Scenes.{one, reached};
ghost use Rattle.worked_examples.specs.States.{alpha_passes, alpha_tested, blending, combined, depth_tested, drawn, factors, masked, pixel, red_and_blue, state_at_first, stored_pixel, two, unmasked};

/// MODULATE gives (a * b + 127) / 255 of each channel: 32767 / 255, 16511 / 255, 16447 / 255 and 127 / 255. REPLACE gives the texel.
pub fn modulate_multiplies_and_replace_replaces()
    ensures modulate { combined 0 (rgba 255 128 64 0) (rgba 128 128 255 255) ≡ rgba 128 64 64 0 }
    ensures replace { combined 1 (rgba 255 128 64 0) (rgba 128 128 255 255) ≡ rgba 128 128 255 255 }
{}

/// 1, 2 and 3 compared with 2.
pub fn functions_compare_with_the_second()
    ensures never { map (λ a. compares 0 a 2) (1 ∷ 2 ∷ 3 ∷ []) ≡ false ∷ false ∷ false ∷ [] }
    ensures less { map (λ a. compares 1 a 2) (1 ∷ 2 ∷ 3 ∷ []) ≡ true ∷ false ∷ false ∷ [] }
    ensures equal { map (λ a. compares 2 a 2) (1 ∷ 2 ∷ 3 ∷ []) ≡ false ∷ true ∷ false ∷ [] }
    ensures lequal { map (λ a. compares 3 a 2) (1 ∷ 2 ∷ 3 ∷ []) ≡ true ∷ true ∷ false ∷ [] }
    ensures greater { map (λ a. compares 4 a 2) (1 ∷ 2 ∷ 3 ∷ []) ≡ false ∷ false ∷ true ∷ [] }
    ensures notequal { map (λ a. compares 5 a 2) (1 ∷ 2 ∷ 3 ∷ []) ≡ true ∷ false ∷ true ∷ [] }
    ensures gequal { map (λ a. compares 6 a 2) (1 ∷ 2 ∷ 3 ∷ []) ≡ false ∷ true ∷ true ∷ [] }
    ensures always { map (λ a. compares 7 a 2) (1 ∷ 2 ∷ 3 ∷ []) ≡ true ∷ true ∷ true ∷ [] }
{}

/// GEQUAL 128 passes an alpha of 128 and not 127. A fragment of alpha 4 fails GREATER 4 and leaves the pixel as it is. Where the test is off all
/// pass.
pub fn alpha_is_tested_against_the_reference()
    ensures gequal { map (alpha_passes 6 128) (127 ∷ 128 ∷ []) ≡ false ∷ true ∷ [] }
    ensures fails { drawn (alpha_tested true 4 4) 5 ≡ stored_pixel }
    ensures off { drawn (alpha_tested false 4 4) 5 ≡ pixel (rgba 1 2 3 4) 9 }
{}

/// Of a source channel 200 and a stored one 100, a source alpha 50 and a stored one 30: ZERO, ONE, SRC_COLOR, ONE_MINUS_SRC_COLOR, DST_COLOR,
/// ONE_MINUS_DST_COLOR, SRC_ALPHA, ONE_MINUS_SRC_ALPHA, DST_ALPHA, ONE_MINUS_DST_ALPHA.
pub fn factors_go_by_their_names()
    ensures { factors 200 100 50 30 ≡ 0 ∷ 255 ∷ 200 ∷ 55 ∷ 100 ∷ 155 ∷ 50 ∷ 205 ∷ 30 ∷ 225 ∷ [] }
{}

/// With the same channels: 20127 / 255 = 78; 11127 / 255 + 20127 / 255 = 43 + 78; 31127 / 255 = 122; 6127 / 255 + 22627 / 255 = 24 + 88; and
/// 200 + 100, held to 255.
pub fn blending_adds_two_products()
    ensures dst_color { blended (blending 4 0) 200 100 50 30 ≡ 78 }
    ensures src_color { blended (blending 3 2) 200 100 50 30 ≡ 121 }
    ensures one_minus_dst_color { blended (blending 5 0) 200 100 50 30 ≡ 122 }
    ensures dst_alpha { blended (blending 8 9) 200 100 50 30 ≡ 112 }
    ensures held { blended (blending 1 1) 200 100 50 30 ≡ 255 }
{}

/// A colour mask of red and blue leaves the stored green and alpha. Depth 5 passes LESS over 9 and is stored where the depth mask is on; where the
/// test is off no depth is stored. Depth 9 fails.
pub fn masks_hold_writes_back()
    ensures color { drawn red_and_blue 5 ≡ pixel (rgba 1 20 3 40) 9 }
    ensures depth { drawn (depth_tested true) 5 ≡ pixel (rgba 1 2 3 4) 5 }
    ensures no_depth { drawn (depth_tested false) 5 ≡ pixel (rgba 1 2 3 4) 9 }
    ensures no_test { drawn state_at_first 5 ≡ pixel (rgba 1 2 3 4) 9 }
    ensures fails { drawn (depth_tested true) 9 ≡ stored_pixel }
{}

/// Bit 0 clears the colour and bit 1 the depth, here to a half: floor(16777215 / 2). Both heed their masks.
pub fn a_clear_goes_by_its_bits()
    ensures color { cleared unmasked 1 stored_pixel ≡ pixel (rgba 1 2 3 4) 9 }
    ensures depth { cleared unmasked 2 stored_pixel ≡ pixel (rgba 10 20 30 40) 8388607 }
    ensures both { cleared unmasked 3 stored_pixel ≡ pixel (rgba 1 2 3 4) 8388607 }
    ensures none { cleared unmasked 0 stored_pixel ≡ stored_pixel }
    ensures masked { cleared masked 3 stored_pixel ≡ pixel (rgba 10 2 30 4) 9 }
{}

/// 2 and -1 / 65536 are held to 1 and 0.
pub fn depths_are_held_to_one()
    ensures clear_depth { (reached (cmd.ClearDepth two ∷ []) 1).state.clear_depth ≡ one }
    ensures depth_range { (reached (cmd.DepthRange two (negsuc 0) ∷ []) 1).state.depth_range ≡ one ∷ pos 0 ∷ [] }
{}
