//! Laws on what a job finds in its input, on what is due for a scene, and on the order in which a job is refused. Each function's contract is a law,
//! and its body calls the laws that it follows from: there is nothing to compute.
ghost use Rattle.render_core.specs.Foreseen.{DealtShowsAreDecidedBefore, ShowsAreDecidedBefore};
ghost use Rattle.render_core.specs.Lacking.{RunsWithoutMemoryShowAFront};
ghost use Rattle.render_core.specs.Shows.{RendersShowTheirRecords};
ghost use Rattle.render_core.specs.Laws.{FindingsAreOne, OneOutcomeIsDue, KeptOrdersArePermitted, OrderedRecordsShowOneImage, RecordsAreForeseen, PlainTasksAreFilteredOnes, ListScenesMeanTheirExpansions, RefusalsComeInOrder};

use call_lists::laws::plain_streams_mean_themselves;
use command_line::{leading_words_have_one_reading, lines_begin_no_filter, lines_have_one_reading};
use happens_before::laws::what_is_before_stands_before;
use order_model::laws::{
    default_journal_is_maximal, default_orders_are_permitted, maximal_journals_agree,
    runs_show_one_image, scene_lists_are_well_formed,
};
use race_check::laws::each_order_has_one_verdict;
use scene_file::laws::{
    bytes_spell_one_list_scene, bytes_spell_one_scene, forms_are_apart,
    generated_scenes_are_within_limits,
};
use scene_text::texts_spell_one_scene;
use spu_chain::laws::{chains_follow, filtered_scenes_stay, members_follow};
use tile_model::laws::parcels_are_givable;
use world_model::laws::finished_runs_leave_one_record;

/// An input is one thing to a task: too long, malformed, past a limit, or a scene within the limits.
pub fn findings_are_one()
    ensures { FindingsAreOne }
{
    bytes_spell_one_scene();
    bytes_spell_one_list_scene();
    forms_are_apart();
    texts_spell_one_scene();
}

/// What is due for what is worked on is one thing, for a job that runs no threads.
pub fn one_outcome_is_due()
    ensures { OneOutcomeIsDue }
{
    parcels_are_givable();
    finished_runs_leave_one_record();
    each_order_has_one_verdict();
    scene_lists_are_well_formed();
    default_journal_is_maximal();
    default_orders_are_permitted();
}

/// Each order that a kept record tells is one that its journal permits: it keeps each client's order, every barrier and every semaphore grant.
pub fn kept_orders_are_permitted()
    ensures { KeptOrdersArePermitted }
{}

/// Where every two commands that touch a common pixel or shared texture are ordered, a run shows the image of every permitted order: a lawful record of
/// an ordered scene has its frames, and where nobody contends, those of the serial renderer.
pub fn ordered_records_show_one_image()
    ensures { OrderedRecordsShowOneImage }
{
    scene_lists_are_well_formed();
    generated_scenes_are_within_limits();
    filtered_scenes_stay();
    runs_show_one_image();
}

/// The default journal tells beforehand, where one client takes from each semaphore and no barrier is named by more clients than it counts, how each run of a
/// scene ends; where besides one client gives each unit that is taken, and it orders the scene, each run shows the image of the serial renderer.
pub fn records_are_foreseen()
    ensures { RecordsAreForeseen }
{
    scene_lists_are_well_formed();
    generated_scenes_are_within_limits();
    filtered_scenes_stay();
    default_journal_is_maximal();
    maximal_journals_agree();
    ordered_records_show_one_image();
}

/// `render` that ends with 0 shows its record: of each frame each pixel is that of one serial renderer over the whole streams in the order that its tile's log
/// records, which the journal permits; and where the scene is ordered, the image is that of every permitted order.
pub fn renders_show_their_records()
    ensures { RendersShowTheirRecords }
{
    bytes_spell_one_scene();
    bytes_spell_one_list_scene();
    forms_are_apart();
    texts_spell_one_scene();
    lines_have_one_reading();
    members_follow();
    chains_follow();
    ordered_records_show_one_image();
}

/// A run on tiles that lacked memory has shown a front of what some whole run of the scene shows: each tile's pixels of each frame are those of one serial
/// renderer in an order that this run's journal permits. Where the scene is ordered, it is a front of the frames of every permitted order; where nobody contends
/// and the default journal orders the scene, of what `serial` writes.
pub fn runs_without_memory_show_a_front()
    ensures { RunsWithoutMemoryShowAFront }
{
    ordered_records_show_one_image();
    records_are_foreseen();
}

/// What is decided before a show. In scenes in which one client takes from each semaphore and no barrier is named by more clients than it counts, `render` and
/// `simulate` are stuck exactly where `check` says so. Where besides one client gives each unit that is taken and `race` ends with 0, they write, at any tiles,
/// depth and schedule, byte for byte what `serial` writes. So it is behind filters too. Where `serial` wrote the same bytes of one stream and of what it was
/// dealt to, they write what it writes of the one stream.
pub fn shows_are_decided_before()
    ensures shows { ShowsAreDecidedBefore }
    ensures dealt { DealtShowsAreDecidedBefore }
{
    bytes_spell_one_scene();
    bytes_spell_one_list_scene();
    forms_are_apart();
    texts_spell_one_scene();
    records_are_foreseen();
    what_is_before_stands_before();
    lines_have_one_reading();
    leading_words_have_one_reading();
}

/// Words that name no filter ask for the same with filters before a job and without: `run_filtered` with an empty chain does what `run` does. Of words that
/// begin with a filter's word nothing is asked for plainly.
pub fn plain_tasks_are_filtered_ones()
    ensures { PlainTasksAreFilteredOnes }
{
    leading_words_have_one_reading();
    lines_begin_no_filter();
}

/// A scene with call lists means the scene of its expansion, in which no command is refused before it is issued.
pub fn list_scenes_mean_their_expansions()
    ensures { ListScenesMeanTheirExpansions }
{
    plain_streams_mean_themselves();
}

/// A run that found memory ends with the status of what refused its job first: the words, the source, what was taken of it, a client that waits for
/// ever, the image, or the notes. All that comes before went well.
pub fn refusals_come_in_order()
    ensures { RefusalsComeInOrder }
{}
