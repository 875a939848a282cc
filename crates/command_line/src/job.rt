//! The jobs by their names, their words, and the options that they take.
ghost use Rattle.std.specs.Prelude.{◌≡◌, ◌↔◌, IsTrue, MatchOption};
ghost use Rattle.rc_base.specs.Lists.{IsIn};
ghost use Rattle.command_line.specs.declared.job.JobName.{JobName as NamedJob};
ghost use Rattle.command_line.specs.Words.{job_word, options_of};

/// What the program is asked to do, as its first word names it.
#[derive(Clone, Copy, Debug, PartialEq, Eq)]
pub enum JobName {
    /// Scene bytes to the frames of a cluster, and a report.
    Render,
    /// The same of a cluster whose first steps are drawn from a seed.
    Simulate,
    /// Scene bytes to the frames of the serial renderer.
    Serial,
    /// Scene bytes to the same frames, put together of clients that are drawn apart.
    Last,
    /// Scene bytes to a report alone.
    Check,
    /// Scene bytes to a report of commands that nothing orders.
    Race,
    /// The text of a scene to its bytes.
    Pack,
    /// The bytes of a scene to its text.
    Unpack,
    /// A seed to the bytes of a scene.
    Gen,
    /// A seed to the frames of a cluster, and a report.
    Demo,
}

/// An option of a command line.
#[derive(Clone, Copy, Debug, PartialEq, Eq)]
pub enum OptionName {
    /// The columns and rows of tiles.
    Tiles,
    /// How many items each lane holds.
    Depth,
    /// The report tells each tile's order.
    Order,
    /// The number that picks or scenes are drawn from.
    Seed,
    /// The rounds of a generated scene.
    Size,
}

/// The job that the word names.
pub(crate) fn job_named(word: &str) -> Option<JobName>
    ensures { MatchOption result ((job : NamedJob) → word.now ≡ job_word job → ⊥)
        (λ job. word.now ≡ job_word job) }
{
    match word {
        "render" => Some(JobName::Render),
        "simulate" => Some(JobName::Simulate),
        "serial" => Some(JobName::Serial),
        "last" => Some(JobName::Last),
        "check" => Some(JobName::Check),
        "race" => Some(JobName::Race),
        "pack" => Some(JobName::Pack),
        "unpack" => Some(JobName::Unpack),
        "gen" => Some(JobName::Gen),
        "demo" => Some(JobName::Demo),
        _ => None,
    }
}

/// The job takes the option.
pub(crate) fn is_taken(job: JobName, option: OptionName) -> bool
    ensures { IsTrue result ↔ IsIn option (options_of job) }
{
    match option {
        OptionName::Tiles | OptionName::Depth => {
            job == JobName::Render || job == JobName::Simulate || job == JobName::Demo
        }
        OptionName::Order => job == JobName::Render || job == JobName::Simulate,
        OptionName::Seed => {
            job == JobName::Simulate || job == JobName::Gen || job == JobName::Demo
        }
        OptionName::Size => job == JobName::Gen || job == JobName::Demo,
    }
}
