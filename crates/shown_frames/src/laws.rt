//! Laws of what was carried out and shown so far. Each function's contract is a law, and its body computes nothing.
ghost use Rattle.shown_frames.specs.Clusters.{ShownPartsBeginAWholeRun};
ghost use Rattle.shown_frames.specs.Images.{ShownFramesAreOfTheRun};
ghost use Rattle.shown_frames.specs.Shown.{NewTilesShow, TilesGoOnShowing};
ghost use Rattle.shown_frames.specs.Unfinished.{UnfinishedRunsGoOn};

use assembler::parts_show_their_pixels;
use bounds_bucket::each_pixel_has_one_tile;
use client_issue::laws::sends_are_parcels;
use order_model::laws::{over_books_are_maximal, swaps_are_few};
use tile_server::laws::{tile_frames_stay, tiles_meet_their_clause};

/// Where a journal is legal and each tile's log replays over it, a lawful record of the scene begins with them.
pub fn unfinished_runs_go_on()
    ensures { UnfinishedRunsGoOn }
{}

/// What a tile has shown stays right: at first, and after each step, also one in which memory lacks, and each behind that.
pub fn tiles_go_on_showing()
    ensures first { NewTilesShow }
    ensures step { TilesGoOnShowing }
{
    tiles_meet_their_clause();
}

/// Where each core meets its clause, whoever is short, and of each lane a front of what was sent was taken, a whole run of the scene shows first what the
/// tiles have shown.
pub fn shown_parts_begin_a_whole_run()
    ensures { ShownPartsBeginAWholeRun }
{
    sends_are_parcels();
    over_books_are_maximal();
    swaps_are_few();
    tile_frames_stay();
    unfinished_runs_go_on();
}

/// An image that was given frames of such parts was given a front of the image text of that run.
pub fn shown_frames_are_of_the_run()
    ensures { ShownFramesAreOfTheRun }
{
    each_pixel_has_one_tile();
    parts_show_their_pixels();
}
