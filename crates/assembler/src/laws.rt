//! What the image of parts shows, and which parts the images of calls have.
ghost use Rattle.assembler.specs.Laws.{PartsShowTheirImage, PartsShowTheirPixels};
ghost use Rattle.assembler.specs.Underway.{CallsGoOn, FramesStay};

/// The image of parts has the pixels that they show, each in its tile's part, and no others.
pub fn parts_show_their_pixels()
    ensures pixels { PartsShowTheirPixels }
    ensures image { PartsShowTheirImage }
{}

/// The images that calls of `Assembler::next_frame` show are, one by one, those of the first parts of all lanes, of the second, and so on.
pub fn calls_show_frames_in_turn()
    ensures next { CallsGoOn }
    ensures stay { FramesStay }
{}
