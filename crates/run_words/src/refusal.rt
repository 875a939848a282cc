//! Why a job is refused: the refusals of its steps, with their statuses and the lines that tell them.
ghost use Rattle.std.specs.Prelude.{◌≡◌, IfOk, string_bytes};
ghost use Rattle.rc_base.specs.Formats.Limits.{limit_name};
ghost use Rattle.run_words.specs.Lines.{scene_kind_name, text_kind_name, malformed_line, limit_line, not_last_line, image_fault_line};
ghost use Rattle.run_words.specs.Statuses.{reading_status, reading_line, input_status, input_line, image_status, image_line, due_line, refusal_status, refusal_line};
ghost use Rattle.run_words.specs.declared.refusal.DueRefusal.TheVariants.{OutOfMemory as NoMemory};
ghost use Rattle.run_words.specs.declared.refusal.Refusal.TheVariants.{Reading as OfReading, Input as OfInput, Undue as OfUndue, Image as OfImage};

use order_model::record::Record;
use rc_base::out_of_memory::OutOfMemory;
use rc_base::scene::{Limit, SceneKind, TextKind};
use rc_base::sync::Name;
use rc_base::transfer::ReadAllFault;
use std::alloc::{AllocError, Global};

/// Why an input is not carried out.
#[derive(Clone, Copy, Debug, PartialEq, Eq)]
pub enum InputRefusal {
    /// The bytes spell no scene: the first fault stands at this byte, from 0.
    MalformedScene { kind: SceneKind, at: usize },
    /// The text spells no scene: the first fault stands in this line, from 1.
    MalformedText { kind: TextKind, line: usize },
    /// A quantity of the scene is outside its range.
    PastLimit(Limit),
    /// There was no memory.
    OutOfMemory,
}

/// Why nothing is due for a scene.
#[derive(Clone, Copy, Debug, PartialEq, Eq)]
pub enum DueRefusal {
    /// The words ask for tiles or lanes that are outside their range in the scene's window, for a job that holds all frames at once, which are too large,
    /// or for a scene of too many rounds.
    PastLimit(Limit),
    /// The job is to draw the scene's clients apart, and this is the first command that keeps them from that.
    NotLast(Name),
    /// There was no memory.
    OutOfMemory,
}

/// Why the image was not written whole.
#[derive(Clone, Copy, Debug, PartialEq, Eq)]
pub enum ImageRefusal {
    /// The image failed when it had taken so many bytes.
    Fault { done: u64 },
    /// There was no memory for the frames or their texts.
    OutOfMemory,
}

/// Why a job is refused, by the step that refuses it.
#[derive(Clone, Copy, Debug, PartialEq, Eq)]
pub enum Refusal {
    /// The source was not read to its end.
    Reading(ReadAllFault),
    /// The input is not carried out.
    Input(InputRefusal),
    /// Nothing is due for the scene.
    Undue(DueRefusal),
    /// The image was not written whole.
    Image(ImageRefusal),
}

impl From<OutOfMemory> for DueRefusal {
    ghost from_gives = { λ _ refusal. refusal ≡ NoMemory };

    fn from(_: OutOfMemory) -> DueRefusal {
        DueRefusal::OutOfMemory
    }
}

impl From<AllocError> for DueRefusal {
    ghost from_gives = { λ _ refusal. refusal ≡ NoMemory };

    fn from(_: AllocError) -> DueRefusal {
        DueRefusal::OutOfMemory
    }
}

impl From<ReadAllFault> for Refusal {
    ghost from_gives = { λ fault refusal. refusal ≡ OfReading fault };

    fn from(fault: ReadAllFault) -> Refusal {
        Refusal::Reading(fault)
    }
}

impl From<InputRefusal> for Refusal {
    ghost from_gives = { λ inner refusal. refusal ≡ OfInput inner };

    fn from(inner: InputRefusal) -> Refusal {
        Refusal::Input(inner)
    }
}

impl From<DueRefusal> for Refusal {
    ghost from_gives = { λ inner refusal. refusal ≡ OfUndue inner };

    fn from(inner: DueRefusal) -> Refusal {
        Refusal::Undue(inner)
    }
}

impl From<ImageRefusal> for Refusal {
    ghost from_gives = { λ inner refusal. refusal ≡ OfImage inner };

    fn from(inner: ImageRefusal) -> Refusal {
        Refusal::Image(inner)
    }
}

/// Why a job is refused, and the record of the cluster whose frames weren't taken.
#[derive(Drop)]
pub struct Refused {
    pub refusal: Refusal,
    pub kept: Option<Record>,
}

fn scene_kind_name(kind: SceneKind) -> &'static str
    ensures { result.now ≡ scene_kind_name kind }
{
    match kind {
        SceneKind::BadMagic => "BadMagic",
        SceneKind::BadCount => "BadCount",
        SceneKind::UnknownOpcode => "UnknownOpcode",
        SceneKind::Truncated => "Truncated",
        SceneKind::Trailing => "Trailing",
    }
}

fn text_kind_name(kind: TextKind) -> &'static str
    ensures { result.now ≡ text_kind_name kind }
{
    match kind {
        TextKind::NotText => "NotText",
        TextKind::UnknownWord => "UnknownWord",
        TextKind::OutOfPlace => "OutOfPlace",
        TextKind::WrongCount => "WrongCount",
        TextKind::BadNumber => "BadNumber",
        TextKind::BadHex => "BadHex",
        TextKind::NoScene => "NoScene",
    }
}

fn limit_name(what: u8) -> &'static str
    ensures { result.now ≡ limit_name what }
{
    match what {
        1 => "scene bytes",
        2 => "width",
        3 => "height",
        4 => "clients",
        5 => "shared textures",
        6 => "shared side",
        7 => "shared texels",
        8 => "barriers",
        9 => "barrier count",
        10 => "semaphores",
        11 => "commands",
        12 => "frames",
        13 => "pixels",
        14 => "tile columns",
        15 => "tile rows",
        16 => "tiles",
        17 => "depth",
        18 => "size",
        19 => "held pixels",
        20 => "expansion",
        _ => "",
    }
}

#[tactic(auto, unfolding(crate::specs::Lines::malformed_line))]
fn malformed_line(alloc: Global, kind: &str, at: usize) -> Result<String, AllocError>
    ensures { IfOk result (λ line. string_bytes line ≡ malformed_line kind.now at) }
{
    format!(in alloc; "rc: malformed {kind} at {at}\n")
}

#[tactic(auto, unfolding(crate::specs::Lines::limit_line))]
fn limit_line(alloc: Global, what: u8, value: u64) -> Result<String, AllocError>
    ensures { IfOk result (λ line. string_bytes line ≡ limit_line what value) }
{
    let name = limit_name(what);
    format!(in alloc; "rc: limit {name} {value}\n")
}

#[tactic(auto, unfolding(crate::specs::Lines::not_last_line))]
fn not_last_line(alloc: Global, name: Name) -> Result<String, AllocError>
    ensures { IfOk result (λ line. string_bytes line ≡ not_last_line name) }
{
    let Name { client, place } = name;
    format!(in alloc; "rc: not for last {client} {place}\n")
}

#[tactic(auto, unfolding(crate::specs::Lines::image_fault_line))]
pub fn image_fault_line(alloc: Global, done: u64) -> Result<String, AllocError>
    ensures { IfOk result (λ line. string_bytes line ≡ image_fault_line done) }
{
    format!(in alloc; "rc: image fault after {done} bytes\n")
}

#[tactic(auto, unfolding(crate::specs::Lines::read_fault_line, crate::specs::Lines::memory_line))]
fn reading_line(alloc: Global, fault: ReadAllFault) -> Result<String, AllocError>
    ensures { IfOk result (λ line. string_bytes line ≡ reading_line fault) }
{
    match fault {
        ReadAllFault::ReadFault => String::from_str(alloc, "rc: read fault\n"),
        ReadAllFault::TooLong { seen } => limit_line(alloc, 1, seen as u64),
        ReadAllFault::OutOfMemory => String::from_str(alloc, OUT_OF_MEMORY),
    }
}

#[tactic(auto, unfolding(crate::specs::Lines::memory_line))]
fn input_line(alloc: Global, refusal: InputRefusal) -> Result<String, AllocError>
    ensures { IfOk result (λ line. string_bytes line ≡ input_line refusal) }
{
    match refusal {
        InputRefusal::MalformedScene { kind, at } => {
            malformed_line(alloc, scene_kind_name(kind), at)
        }
        InputRefusal::MalformedText { kind, line } => {
            malformed_line(alloc, text_kind_name(kind), line)
        }
        InputRefusal::PastLimit(Limit { what, value }) => limit_line(alloc, what, value),
        InputRefusal::OutOfMemory => String::from_str(alloc, OUT_OF_MEMORY),
    }
}

#[tactic(auto, unfolding(crate::specs::Lines::memory_line))]
fn due_line(alloc: Global, refusal: DueRefusal) -> Result<String, AllocError>
    ensures { IfOk result (λ line. string_bytes line ≡ due_line refusal) }
{
    match refusal {
        DueRefusal::PastLimit(Limit { what, value }) => limit_line(alloc, what, value),
        DueRefusal::NotLast(name) => not_last_line(alloc, name),
        DueRefusal::OutOfMemory => String::from_str(alloc, OUT_OF_MEMORY),
    }
}

#[tactic(auto, unfolding(crate::specs::Lines::memory_line))]
fn image_line(alloc: Global, refusal: ImageRefusal) -> Result<String, AllocError>
    ensures { IfOk result (λ line. string_bytes line ≡ image_line refusal) }
{
    match refusal {
        ImageRefusal::Fault { done } => image_fault_line(alloc, done),
        ImageRefusal::OutOfMemory => String::from_str(alloc, OUT_OF_MEMORY),
    }
}

/// The line of want of memory.
pub const OUT_OF_MEMORY: &str = "rc: out of memory\n";

impl Refusal {
    /// The status with which the run ends.
    pub fn status(&self) -> u8
        ensures { result ≡ refusal_status self.now }
    {
        match self {
            Refusal::Reading(ReadAllFault::ReadFault) => 2,
            Refusal::Input(
                InputRefusal::MalformedScene { .. } | InputRefusal::MalformedText { .. },
            ) => 3,
            Refusal::Reading(ReadAllFault::TooLong { .. })
            | Refusal::Input(InputRefusal::PastLimit(_))
            | Refusal::Undue(DueRefusal::PastLimit(_)) => 4,
            Refusal::Image(ImageRefusal::Fault { .. }) => 6,
            Refusal::Undue(DueRefusal::NotLast(_)) => 12,
            Refusal::Reading(ReadAllFault::OutOfMemory)
            | Refusal::Input(InputRefusal::OutOfMemory)
            | Refusal::Undue(DueRefusal::OutOfMemory)
            | Refusal::Image(ImageRefusal::OutOfMemory) => 7,
        }
    }

    /// The line that tells it in the notes.
    pub fn line(&self, alloc: Global) -> Result<String, AllocError>
        ensures { IfOk result (λ line. string_bytes line ≡ refusal_line self.now) }
    {
        match *self {
            Refusal::Reading(fault) => reading_line(alloc, fault),
            Refusal::Input(refusal) => input_line(alloc, refusal),
            Refusal::Undue(refusal) => due_line(alloc, refusal),
            Refusal::Image(refusal) => image_line(alloc, refusal),
        }
    }
}
