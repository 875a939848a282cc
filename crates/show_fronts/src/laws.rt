//! Laws of the first frames of a longer show. Each function's contract is a law, and its body computes nothing.
ghost use Rattle.show_fronts.specs.Laws.{DefaultJournalsStay, SerialFramesStay, FirstFramesHaveRecords, FrontsHaveTheirFrames, FirstOrdersStay, FirstFramesStay, FrontJournalsAreLegal, FrontsEnd, FirstFramesEnd};

/// The default journal of the first n frames is the front of the whole one's up to its n-th Swap.
pub fn default_journals_stay()
    ensures { DefaultJournalsStay }
{}

/// One renderer shows of the first n frames what it shows first of the whole.
pub fn serial_frames_stay()
    ensures { SerialFramesStay }
{}

/// A record of the whole, cut where its n-th Swap is performed, is one of the first n frames: with as many frames, each tile's order up to there, and
/// the frames of the whole.
pub fn first_frames_stay()
    ensures record { FirstFramesHaveRecords }
    ensures count { FrontsHaveTheirFrames }
    ensures orders { FirstOrdersStay }
    ensures frames { FirstFramesStay }
{}

/// What is granted of the first n frames is granted lawfully of the whole.
pub fn front_journals_are_legal()
    ensures { FrontJournalsAreLegal }
{}

/// Where the first n frames come, nobody is left waiting, also of a show that gets stuck later.
pub fn fronts_end()
    ensures { FrontsEnd }
{}

/// Where a record of the whole has n frames, its cut one has them and leaves nobody waiting.
pub fn first_frames_end()
    ensures { FirstFramesEnd }
{
    first_frames_stay();
    fronts_end();
}
