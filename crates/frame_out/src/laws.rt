//! Laws of frames. Each function's contract is a law, and its body calls the laws that it follows from: there is nothing to compute.
ghost use Rattle.frame_out.specs.Laws.{FramesOfScenesAreWritable, NewWritersAreOnTheWay};

use order_model::laws::swaps_are_few;

/// The frames of a scene within the limits can be written, one for each Swap of a legal journal.
pub fn frames_of_scenes_are_writable()
    ensures { FramesOfScenesAreWritable }
{
    swaps_are_few();
}

/// A new writer of frames is on its way.
pub fn new_writers_are_on_the_way()
    ensures { NewWritersAreOnTheWay }
{}
