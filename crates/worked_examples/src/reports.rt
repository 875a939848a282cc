//! The texts of runs.
ghost use Rattle.std.specs.Prelude.{◌≡◌, ◌++◌, codes};
ghost use Rattle.worked_examples.specs.Frames.{red};
ghost use Rattle.worked_examples.specs.Records.{images_of, report_of, red_clear_record, red_clear_report, lone_swap_record, lone_swap_report};
ghost use Rattle.worked_examples.specs.Scenes.{red_clear, lone_swap};

/// One image of 23 bytes, and three lines.
pub fn a_run_is_reported()
    ensures image { images_of red_clear red_clear_record ≡ codes "P6\n2 2\n255\n" ++ red ++ red ++ red ++ red }
    ensures report { report_of red_clear red_clear_record ≡ red_clear_report }
{}

/// A Swap waits for the other client, which has ended.
pub fn a_lone_swap_is_stuck()
    ensures { report_of lone_swap lone_swap_record ≡ lone_swap_report }
{}
