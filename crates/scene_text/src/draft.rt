//! What is read of a scene so far.
ghost use Rattle.std.specs.Prelude.{◌≡◌, ◌∷◌, [], ◌++◌, ◌≤◌, pos, false, OnOk, IfOk};
ghost use Rattle.scene_text.specs.Text.Statements.{statement, shared_statement, barrier_statement, semaphore_statement, command_statement, line_ranges, line_has_picture, scene_statements};
ghost use Rattle.command_table.specs.Ranges.{AreIn};
ghost use Rattle.scene_text.specs.Drafts.{IsDraft, IsDraftWithin, IsOpenTo, Adds, said};

use crate::declared::{count_of, size_of, units_of, window_of};
use command_table::command_of;
use rc_base::command::{Command, Commands, Texels};
use rc_base::out_of_memory::OutOfMemory;
use rc_base::scene::{Counts, Decl, Scene, Sizes, Streams, Units};
use rc_base::text::LineName;
use std::alloc::Global;
use std::mem;

/// A scene whose last lines are still to come. Lines stand by rising rank, and `rank` is that of the last one: 0 none, 1 the window, 2 shared
/// textures, 3 barriers, 4 semaphores, 5 clients.
#[derive(Drop)]
pub(crate) struct Draft {
    pub(crate) rank: u8,
    pub(crate) decl: Decl,
    /// The clients before the last one.
    pub(crate) streams: Streams,
    /// The commands of the last client.
    pub(crate) stream: Commands,
}

/// Nothing is read yet.
#[tactic(auto, unfolding(crate::specs::Drafts::said))]
pub(crate) fn empty_draft(alloc: Global) -> Draft
    ensures draft { IsDraft result }
    ensures said { said result ≡ [] }
    ensures rank { result.rank ≡ 0 }
{
    Draft {
        rank: 0,
        decl: Decl {
            version: 1,
            width: 0,
            height: 0,
            shared: Sizes::new(alloc),
            barriers: Counts::new(alloc),
            semaphores: Units::new(alloc),
        },
        streams: Streams::new(alloc),
        stream: Commands::new(alloc),
    }
}

/// A draft with a client, of which nothing is stored: it may be followed by what follows a client.
pub(crate) fn attended_draft(alloc: Global) -> Draft
    ensures draft { IsDraft result }
    ensures rank { result.rank ≡ 5 }
{
    let mut draft = empty_draft(alloc);
    draft.rank = 5;
    draft
}

fn set_window(draft: &mut Draft, version: u8, width: u16, height: u16)
    requires draft { IsDraft draft.old }
    requires place { draft.old.rank ≡ 0 }
    ensures { Adds draft.old draft.new (statement LineName.Scene (pos version ∷ pos width ∷ pos height ∷ []) []) }
{
    draft.decl.version = version;
    draft.decl.width = width;
    draft.decl.height = height;
    draft.rank = 1;
}

fn add_shared(draft: &mut Draft, size: [u16; 2]) -> Result<(), OutOfMemory>
    requires { IsDraftWithin 1 2 draft.old }
    ensures { OnOk result (Adds draft.old draft.new (shared_statement size)) }
{
    draft.decl.shared.push(size)?;
    draft.rank = 2;
    Ok(())
}

fn add_barrier(draft: &mut Draft, count: u8) -> Result<(), OutOfMemory>
    requires { IsDraftWithin 1 3 draft.old }
    ensures { OnOk result (Adds draft.old draft.new (barrier_statement count)) }
{
    draft.decl.barriers.push(count)?;
    draft.rank = 3;
    Ok(())
}

fn add_semaphore(draft: &mut Draft, units: u16) -> Result<(), OutOfMemory>
    requires { IsDraftWithin 1 4 draft.old }
    ensures { OnOk result (Adds draft.old draft.new (semaphore_statement units)) }
{
    draft.decl.semaphores.push(units)?;
    draft.rank = 4;
    Ok(())
}

/// Begins the next client.
fn open_client(alloc: Global, draft: &mut Draft) -> Result<(), OutOfMemory>
    requires { IsDraftWithin 1 5 draft.old }
    ensures { OnOk result (Adds draft.old draft.new (statement LineName.Client [] [])) }
{
    if draft.rank < 5 {
        draft.rank = 5;
        return Ok(());
    }
    let stream = mem::replace(&mut draft.stream, Commands::new(alloc));
    draft.streams.push(stream)?;
    Ok(())
}

fn add_command(draft: &mut Draft, command: Command) -> Result<(), OutOfMemory>
    requires { draft.old.rank ≡ 5 }
    ensures { OnOk result (Adds draft.old draft.new (command_statement command)) }
{
    draft.stream.push(command)?;
    Ok(())
}

/// Adds what a line says.
pub(crate) fn add_line(
    alloc: Global,
    draft: &mut Draft,
    name: LineName,
    numbers: &[i32],
    texels: Texels,
) -> Result<(), OutOfMemory>
    requires place { IsOpenTo name draft.old }
    requires numbers { AreIn (line_ranges name) numbers.now }
    requires texels { line_has_picture name ≡ false → texels ≡ [] }
    ensures { OnOk result (Adds draft.old draft.new (statement name numbers.now texels)) }
{
    match name {
        LineName::Scene => {
            let (version, width, height) = window_of(numbers);
            set_window(draft, version, width, height);
            Ok(())
        }
        LineName::Shared => add_shared(draft, size_of(numbers)),
        LineName::Barrier => add_barrier(draft, count_of(numbers)),
        LineName::Semaphore => add_semaphore(draft, units_of(numbers)),
        LineName::Client => open_client(alloc, draft),
        LineName::Command(opcode) => { add_command(draft, command_of(opcode, numbers, texels)) }
    }
}

/// The scene that the lines said.
#[tactic(auto, unfolding(crate::specs::Drafts::said))]
pub(crate) fn finish(draft: Draft) -> Result<Scene, OutOfMemory>
    requires draft { IsDraft draft }
    requires place { 1 ≤ draft.rank }
    ensures { IfOk result (λ s. scene_statements s ≡ said draft) }
{
    let Draft {
        rank,
        decl,
        mut streams,
        stream,
    } = draft;
    if rank == 5 {
        streams.push(stream)?;
        return Ok(Scene { decl, streams });
    }
    Ok(Scene { decl, streams })
}
