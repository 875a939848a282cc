//! The limits of a scene, in the order of their table.
ghost use Rattle.std.specs.Prelude.{◌≡◌, ◌<◌, ◌≤◌, ◌*◌, ◌∷◌, [], map, length, slice_index_or, sum_by, OnOk, None, Err};
ghost use Rattle.std.specs.List.{flat_map};
ghost use Rattle.rc_base.specs.Formats.Limits.{first_outside, held_limit, limit_of, stream_limit, size_area, side, barrier_count, is_swap_command, swaps_in, least_swaps, commands_in, judged};
ghost use Rattle.rc_base.specs.declared.command.Command.TheVariants as cmd;
ghost use Rattle.scene_file.specs.Judging.{IsWindowWithin, Tells, window_part, or_else, one, judge_counts, judge_decl, stream_part, judge_parts};
ghost use Rattle.rc_base.specs.declared.scene.Scene.{Scene as AnyScene};

use command_store::{CommandForm, CommandStore, StoredScene};
use rc_base::command::{Command, Commands};
use rc_base::scene::{Decl, Limit, Scene, judge};

/// The greatest number of commands in all streams.
pub(crate) const MOST_COMMANDS: u64 = 1_048_576;

fn judge_window(decl: &Decl, clients: usize) -> Result<(), Limit>
    ensures { judged result ≡ first_outside (window_part decl.now clients) }
{
    judge(2, decl.width as u64, 1, 2048)?;
    judge(3, decl.height as u64, 1, 2048)?;
    judge(4, clients as u64, 1, 8)?;
    judge(5, decl.shared.len() as u64, 0, 16)
}

fn judge_sides(sizes: &[[u16; 2]]) -> Result<(), Limit>
    ensures { judged result ≡ first_outside (map side (flat_map (λ size. size) sizes.now)) }
{
    for size in sizes {
        judge(6, size[0] as u64, 1, 65535)?;
        judge(6, size[1] as u64, 1, 65535)?;
    }
    Ok(())
}

fn judge_barriers(counts: &[u8]) -> Result<(), Limit>
    ensures { judged result ≡ first_outside (map barrier_count counts.now) }
{
    for count in counts {
        judge(9, *count as u64, 1, 8)?;
    }
    Ok(())
}

fn sum_texels(sizes: &[[u16; 2]]) -> u64
    requires { length sizes.now ≤ 16 }
    ensures { result ≡ sum_by size_area sizes.now }
{
    let mut sum = 0;
    for size in sizes {
        sum += size[0] as u64 * size[1] as u64;
    }
    sum
}

fn is_swap(command: &Command) -> bool
    ensures { result ≡ is_swap_command command.now }
{
    matches!(command, Command::Swap)
}

fn count_swaps(commands: &[Command]) -> usize
    ensures { result ≡ swaps_in commands.now }
{
    commands.iter().filter(|c| is_swap(*c)).count()
}

fn sum_commands(streams: &[Commands]) -> u64
    requires { length streams.now ≤ 8 }
    ensures { result ≡ commands_in streams.now }
{
    let mut sum = 0;
    for stream in streams {
        sum += stream.as_slice().len() as u64;
    }
    sum
}

fn count_frames(streams: &[Commands]) -> usize
    ensures { result ≡ least_swaps streams.now }
{
    match streams {
        [] => 0,
        [first, others @ ..] => {
            let mut least = count_swaps(first.as_slice());
            for stream in others {
                least = least.min(count_swaps(stream.as_slice()));
            }
            least
        }
    }
}

fn judge_counts(decl: &Decl) -> Result<(), Limit>
    requires { length decl.now.shared ≤ 16 }
    ensures { judged result ≡ judge_counts decl.now }
{
    let sizes = decl.shared.as_slice();
    judge_sides(sizes)?;
    judge(7, sum_texels(sizes), 0, 1_048_576)?;
    judge(8, decl.barriers.len() as u64, 0, 64)?;
    judge_barriers(decl.barriers.as_slice())?;
    judge(10, decl.semaphores.len() as u64, 0, 64)
}

/// What is judged before the commands.
fn judge_decl(decl: &Decl, clients: usize) -> Result<(), Limit>
    ensures judged { judged result ≡ judge_decl decl.now clients }
    ensures within { OnOk result (IsWindowWithin decl.now × (clients ≤ 8)) }
{
    judge_window(decl, clients)?;
    judge_counts(decl)
}

/// The commands and the frames, so many in all.
fn judge_streams(decl: &Decl, commands: u64, frames: u64) -> Result<(), Limit>
    requires { IsWindowWithin decl.now }
    ensures { judged result ≡ first_outside (stream_part decl.now commands frames) }
{
    judge(11, commands, 0, MOST_COMMANDS)?;
    judge(12, frames, 0, 1_048_576)?;
    judge(13, frame_pixels(decl, frames), 0, 2_147_483_648)
}

/// The first quantity outside its range of a scene with this declaration and so many clients, commands and frames.
pub(crate) fn check_counted(
    decl: &Decl,
    clients: usize,
    commands: u64,
    frames: u64,
) -> Result<(), Limit>
    ensures { judged result ≡ judge_parts decl.now clients commands frames }
{
    judge_decl(decl, clients)?;
    judge_streams(decl, commands, frames)
}

/// The first quantity outside its range of what is read of a scene with call lists, with this declaration and so many clients and commands.
pub(crate) fn check_read(decl: &Decl, clients: usize, commands: u64) -> Result<(), Limit>
    ensures { judged result
        ≡ or_else (judge_decl decl.now clients) (first_outside (one 11 commands 1048576)) }
{
    judge_decl(decl, clients)?;
    judge(11, commands, 0, MOST_COMMANDS)
}

fn judge_scene(scene: &Scene) -> Result<(), Limit>
    ensures { judged result ≡ judge_parts scene.now.decl (length scene.now.streams)
        (commands_in scene.now.streams) (least_swaps scene.now.streams) }
{
    let streams = scene.streams.as_slice();
    judge_decl(&scene.decl, streams.len())?;
    judge_streams(
        &scene.decl,
        sum_commands(streams),
        count_frames(streams) as u64,
    )
}

/// The first quantity of a scene outside its range, by the numbers of the table of limits (`docs/scene-format.md`). It takes no memory.
pub fn check_limits(scene: &Scene) -> Result<(), Limit>
    ensures { Tells result (limit_of scene.now) }
{
    judge_scene(scene)
}

/// The first quantity outside its range of the streams of a scene with so many commands, of which not all need be stored where they are too many, by
/// the numbers of the table of limits (`docs/scene-format.md`). What it declares is not judged. It takes no memory.
pub fn check_streams(scene: &StoredScene, commands: u64) -> Result<(), Limit>
    requires width { scene.now.decl.width ≤ 2048 }
    requires height { scene.now.decl.height ≤ 2048 }
    requires stored { commands ≤ 1048576 → commands_in scene.now.streams ≡ commands }
    ensures few { commands ≤ 1048576 → Tells result (stream_limit scene.now) }
    ensures many { 1048576 < commands → result ≡ Err (record { what = 11; value = commands }) }
{
    let frames = count_stored_frames(scene.streams()) as u64;
    judge_streams(scene.decl(), commands, frames)
}

fn frame_pixels(decl: &Decl, frames: u64) -> u64
    requires window { IsWindowWithin decl.now }
    requires frames { frames ≤ 1048576 }
    ensures { result ≡ frames * (decl.now.width * decl.now.height) }
{
    frames * (decl.width as u64 * decl.height as u64)
}

/// The pixels of all frames, where they are too many to be held at once, by the numbers of the table of limits (`docs/scene-format.md`). It takes no
/// memory.
pub fn check_held(scene: &Scene) -> Result<(), Limit>
    requires { limit_of scene.now ≡ None }
    ensures { Tells result (held_limit scene.now) }
{
    let frames = count_frames(scene.streams.as_slice()) as u64;
    judge(19, frame_pixels(&scene.decl, frames), 0, 33_554_432)
}

// Whether the command at a place is a Swap.
fn is_stored_swap(commands: &CommandStore, place: usize) -> bool
    requires { place < length commands.now }
    ensures { result ≡ is_swap_command (slice_index_or commands.now place cmd.End) }
{
    match commands.borrowed(place) {
        CommandForm::Other(command) => is_swap(command),
        CommandForm::Begin(_)
        | CommandForm::End
        | CommandForm::Vertex(_)
        | CommandForm::Color(_)
        | CommandForm::TexCoord { .. } => false,
    }
}

#[tactic(auto, using(crate::proofs::LeastSwaps::swaps_more))]
fn count_stored_swaps(commands: &CommandStore) -> usize
    ensures { result ≡ swaps_in commands.now }
{
    let mut count = 0;
    for place in 0..commands.len() {
        count += usize::from(is_stored_swap(commands, place));
    }
    count
}

fn count_stored_frames(streams: &[CommandStore]) -> usize
    ensures { result ≡ least_swaps streams.now }
{
    match streams {
        [] => 0,
        [first, others @ ..] => {
            let mut least = count_stored_swaps(first);
            for stream in others {
                least = least.min(count_stored_swaps(stream));
            }
            least
        }
    }
}

/// The same of a scene that is stored in little room.
pub fn check_held_stored(scene: &StoredScene) -> Result<(), Limit>
    requires { limit_of scene.now ≡ None }
    ensures { Tells result (held_limit scene.now) }
{
    let frames = count_stored_frames(scene.streams()) as u64;
    judge(19, frame_pixels(scene.decl(), frames), 0, 33_554_432)
}

/// The first quantity outside its range of a scene with this declaration and too many clients, whatever their commands are.
pub fn clients_beyond(decl: &Decl, clients: usize) -> Limit
    requires { 8 < clients }
    ensures { (s : AnyScene) → s.decl ≡ decl.now → length s.streams ≡ clients
        → limit_of s ≡ Some result }
{
    match judge_decl(decl, clients) {
        Err(limit) => limit,
        Ok(()) => Limit {
            what: 4,
            value: clients as u64,
        },
    }
}

/// The first quantity outside its range of a scene with this declaration and too many commands, whatever they are.
pub fn commands_beyond(decl: &Decl, clients: usize, commands: u64) -> Limit
    requires { 1048576 < commands }
    ensures { (s : AnyScene) → s.decl ≡ decl.now → length s.streams ≡ clients
        → commands_in s.streams ≡ commands → limit_of s ≡ Some result }
{
    match judge_decl(decl, clients) {
        Err(limit) => limit,
        Ok(()) => Limit {
            what: 11,
            value: commands,
        },
    }
}
