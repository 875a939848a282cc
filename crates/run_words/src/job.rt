//! The jobs, and the words that name them.
ghost use Rattle.std.specs.Prelude.{◌≡◌, ◌↔◌, List, IfOk, IsTrue, OnErr, MatchOption};
ghost use Rattle.command_line.specs.Words.{Setting as Spelled};
ghost use Rattle.command_line.specs.Lines.{AreValues};
ghost use Rattle.run_words.specs.Jobs.{IsJob, IsLine, IsThreaded, NamesThreads, AskNoJob, cluster_in, cluster_of, job_in, origin_of, starts_threads, threads_of};

use command_line::{CommandLine, JobName, Settings, command_line, lines_have_one_reading};
use rc_base::out_of_memory::OutOfMemory;
use std::alloc::Global;

/// What a cluster is asked for: its columns and rows of tiles, how many items each lane holds, and whether the report tells the recorded orders.
#[derive(Clone, Copy, Debug, PartialEq, Eq)]
pub struct Cluster {
    pub columns: u64,
    pub rows: u64,
    pub depth: u64,
    pub orders: bool,
}

/// What the program is asked to do.
#[derive(Clone, Copy, Debug, PartialEq, Eq)]
pub enum Job {
    /// Scene bytes to the frames of a cluster each of whose actors is a thread of its own, as images, and a report.
    Render(Cluster),
    /// The same of a cluster in one thread, whose first steps are drawn from a seed.
    Simulate {
        seed: u64,
        cluster: Cluster,
    },
    /// Scene bytes to the frames of the scene's default order, as images, and a short report.
    Serial,
    /// The same frames, put together by depth of clients that are drawn apart on threads, and the same report.
    Last,
    /// Scene bytes to the short report alone.
    Check,
    /// Scene bytes to the short report with two commands that nothing orders, where there are such.
    Race,
    /// The text of a scene to its bytes.
    Pack,
    /// The bytes of a scene to its text.
    Unpack,
    /// The scene of a seed with so many rounds, as bytes.
    Gen {
        seed: u64,
        size: u64,
    },
    /// The frames of that scene by a cluster each of whose actors is a thread of its own, as images, and a report.
    Demo {
        seed: u64,
        size: u64,
        cluster: Cluster,
    },
}

/// How an input spells a scene.
#[derive(Clone, Copy)]
pub enum Form {
    /// As bytes of any version.
    Bytes,
    /// As bytes of a version without call lists.
    PlainBytes,
    Text,
}

/// Where a job's scene comes from.
#[derive(Clone, Copy)]
pub enum Origin {
    /// The source is read to its end, and spells the scene in this form.
    Read(Form),
    /// The source is left alone: the scene is that of a seed with so many rounds.
    Generated { seed: u64, size: u64 },
}

impl Job {
    /// The cluster of a job whose actors are threads of their own.
    pub fn threads(self) -> Option<Cluster>
        ensures { result ≡ threads_of self }
    {
        match self {
            Job::Render(cluster) | Job::Demo { cluster, .. } => Some(cluster),
            _ => None,
        }
    }

    /// It starts threads: those of such a cluster, or those that draw its clients apart.
    pub fn starts_threads(self) -> bool
        ensures { result ≡ starts_threads self }
    {
        match self {
            Job::Last => true,
            _ => self.threads().is_some(),
        }
    }

    /// The cluster that it runs.
    pub fn cluster(self) -> Option<Cluster>
        ensures { result ≡ cluster_of self }
    {
        match self {
            Job::Render(cluster) | Job::Simulate { cluster, .. } | Job::Demo { cluster, .. } =>
                Some(cluster),
            _ => None,
        }
    }

    /// Where its scene comes from.
    pub fn origin(self) -> Origin
        ensures { result ≡ origin_of self }
    {
        match self {
            Job::Render(_)
            | Job::Simulate { .. }
            | Job::Serial
            | Job::Last
            | Job::Check
            | Job::Race => Origin::Read(Form::Bytes),
            Job::Unpack => Origin::Read(Form::PlainBytes),
            Job::Pack => Origin::Read(Form::Text),
            Job::Gen { seed, size } | Job::Demo { seed, size, .. } => Origin::Generated {
                seed,
                size,
            },
        }
    }
}

fn cluster_asked(settings: Settings) -> Cluster
    ensures { (ss : List Spelled) → AreValues settings ss → result ≡ cluster_in ss }
{
    Cluster {
        columns: settings.columns,
        rows: settings.rows,
        depth: settings.depth,
        orders: settings.order,
    }
}

// The job of a line.
fn job_on(line: CommandLine) -> Job
    ensures { (ss : List Spelled) → AreValues line.settings ss → result ≡ job_in line.job ss }
{
    match line.job {
        JobName::Render => Job::Render(cluster_asked(line.settings)),
        JobName::Simulate => Job::Simulate {
            seed: line.settings.seed,
            cluster: cluster_asked(line.settings),
        },
        JobName::Serial => Job::Serial,
        JobName::Last => Job::Last,
        JobName::Check => Job::Check,
        JobName::Race => Job::Race,
        JobName::Pack => Job::Pack,
        JobName::Unpack => Job::Unpack,
        JobName::Gen => Job::Gen {
            seed: line.settings.seed,
            size: line.settings.size,
        },
        JobName::Demo => Job::Demo {
            seed: line.settings.seed,
            size: line.settings.size,
            cluster: cluster_asked(line.settings),
        },
    }
}

// The word is that of a job that starts threads.
fn names_threads(word: &str) -> bool
    ensures { IsTrue result ↔ NamesThreads word.now }
{
    matches!(word, "render" | "demo" | "last")
}

/// The first word is that of a job that starts threads.
pub fn is_threaded(words: &[String]) -> bool
    ensures { IsTrue result ↔ IsThreaded words.now }
{
    match words.first() {
        Some(word) => names_threads(word.as_str()),
        None => false,
    }
}

/// The job that the words ask for, by the definition of command lines.
pub fn job_of(alloc: Global, words: &[String]) -> Result<Option<Job>, OutOfMemory>
    ensures job { IfOk result (λ r. MatchOption r (AskNoJob words.now) (IsJob words.now)) }
    // Memory lacks for command lines alone.
    ensures lacked { OnErr result (IsLine words.now) }
{
    lines_have_one_reading();
    match command_line(alloc, words)? {
        Some(line) => Ok(Some(job_on(line))),
        None => Ok(None),
    }
}
