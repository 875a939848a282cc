//! Reading a scene whose streams are decoded side by side, each in a thread of its own.
ghost use Rattle.std.specs.Prelude.{◌≡◌, ◌+◌, ◌-◌, ◌≤◌, ◌∷◌, length, IfSome, None};
ghost use Rattle.rc_base.specs.Formats.Spelling.{SpellsScene};
ghost use Rattle.rc_base.specs.Formats.Limits.{limit_of};
ghost use Rattle.packet_bytes.specs.Packets.{decoded_as};
ghost use Rattle.scene_file.specs.Faults.{FailsAsScene, IsReadBy, IsSceneRead};
ghost use Rattle.scene_file.specs.Counting.{frames_with};
ghost use Rattle.scene_file.specs.Beside.{HoldsStream, HoldsStreams, gathered_as};

use crate::fault::SceneFault;
use crate::header::{BeginsScene, Head, read_head};
use crate::kept::KeptStream;
use crate::reading::{Counted, frames_with, read_judged, read_text, within_limits};
use command_store::{CommandStore, StoredScene};
use packet_bytes::packets::DecodedOf;
use rc_base::command::{Command, Commands};
use rc_base::items::Items;
use rc_base::scene::Scene;
use std::alloc::Global;
use std::thread::{Threads, join};

/// Of fewer bytes than these, threads cost more than they save.
const LEAST_BYTES: usize = 262_144;

/// All streams that bytes hold, how many commands they have, and how many frames.
#[derive(Debug, Drop)]
struct Gathered<K> {
    streams: Items<K>,
    commands: usize,
    frames: usize,
}

/// How many commands of a stream of this size are stored at most: twice its part, by bytes, of the most that a scene may have, and some for streams
/// beside a long one. So eight streams store two and a half times as many at most, and a scene within its limits seldom more than there is room for.
fn room_of(size: usize, all: usize) -> usize
    ensures { result ≤ 1048576 }
{
    (size / (all / 2_097_152 + 1)).clamp(65_536, 1_048_576)
}

/// The stream that these bytes spell, where there is room for all of its commands.
fn stored<K: KeptStream>(alloc: Global, room: usize, text: &[u8]) -> Option<DecodedOf<K>>
    requires { room ≤ 1048576 }
    ensures { IfSome result (λ x. HoldsStream text.now (decoded_as K.commands x)) }
{
    match K::decode(alloc, room, text) {
        Ok(decoded) => {
            if decoded.count <= room {
                Some(decoded)
            } else {
                None
            }
        }
        Err(_) => None,
    }
}

/// A stream, and those behind it.
fn put_first<K: KeptStream>(
    alloc: Global,
    first: DecodedOf<K>,
    others: Gathered<K>,
) -> Option<Gathered<K>>
    requires first { first.count ≤ 1048576 }
    requires others { others.commands ≤ 8388608 }
    ensures streams { IfSome result (λ x. x.streams ≡ first.commands ∷ others.streams) }
    ensures commands { IfSome result (λ x. x.commands ≡ first.count + others.commands) }
    ensures frames { IfSome result (λ x. x.frames ≡ frames_with (length others.streams) others.frames first.swaps) }
{
    let frames = frames_with(others.streams.len(), others.frames, first.swaps);
    let commands = first.count + others.commands;
    let mut streams = Items::new(alloc);
    if streams.push(first.commands).is_err() {
        return None;
    }
    if streams.append(others.streams).is_err() {
        return None;
    }
    Some(Gathered {
        streams,
        commands,
        frames,
    })
}

/// No streams, where nothing is left.
fn none_left<K: KeptStream>(alloc: Global, bytes: &[u8]) -> Option<Gathered<K>>
    ensures { IfSome result (λ x. HoldsStreams bytes.now 0 (gathered_as K.commands x)) }
{
    if !bytes.is_empty() {
        return None;
    }
    Some(Gathered {
        streams: Items::new(alloc),
        commands: 0,
        frames: 0,
    })
}

/// So many streams, each with its length, that fill these bytes: the first one in a thread of its own, and those behind it in the same way. So many
/// bytes has the whole scene.
fn whole_beside<R: Threads>(
    rt: &R,
    alloc: Global,
    all: usize,
    count: u8,
    bytes: &[u8],
) -> Option<Gathered<Commands>>
    requires { count ≤ 8 }
    ensures { IfSome result (λ x. HoldsStreams bytes.now count (gathered_as (λ s. s) x)) }
{
    if count == 0 {
        return none_left(alloc, bytes);
    }
    let Ok((text, after)) = read_text(bytes) else {
        return None;
    };
    let room = room_of(text.len(), all);
    let left = count - 1;
    let (first, others) = join(
        rt,
        || -> Option<DecodedOf<Commands>>
            requires { room ≤ 1048576 }
            ensures { IfSome result (HoldsStream text.entry.now) }
        { stored(alloc, room, text) },
        || -> Option<Gathered<Commands>>
            requires { left ≤ 7 }
            ensures { IfSome result (λ x. HoldsStreams after.entry.now left (gathered_as (λ s. s) x)) }
        { whole_beside(rt, alloc, all, left, after) },
    );
    put_first(alloc, first?, others?)
}

/// The same in less room. It stands beside the other one since what recursive calls send to threads has to be known by its type.
fn stored_beside<R: Threads>(
    rt: &R,
    alloc: Global,
    all: usize,
    count: u8,
    bytes: &[u8],
) -> Option<Gathered<CommandStore>>
    requires { count ≤ 8 }
    ensures { IfSome result (λ x. HoldsStreams bytes.now count (gathered_as (λ s. s) x)) }
{
    if count == 0 {
        return none_left(alloc, bytes);
    }
    let Ok((text, after)) = read_text(bytes) else {
        return None;
    };
    let room = room_of(text.len(), all);
    let left = count - 1;
    let (first, others) = join(
        rt,
        || -> Option<DecodedOf<CommandStore>>
            requires { room ≤ 1048576 }
            ensures { IfSome result (HoldsStream text.entry.now) }
        { stored(alloc, room, text) },
        || -> Option<Gathered<CommandStore>>
            requires { left ≤ 7 }
            ensures { IfSome result (λ x. HoldsStreams after.entry.now left (gathered_as (λ s. s) x)) }
        { stored_beside(rt, alloc, all, left, after) },
    );
    put_first(alloc, first?, others?)
}

/// The commands of a stream, in a form in which streams are decoded side by side.
trait DecodesBeside: KeptStream {
    /// So many streams, each with its length, that fill these bytes of a scene with so many.
    fn streams_beside<R: Threads>(
        rt: &R,
        alloc: Global,
        all: usize,
        count: u8,
        bytes: &[u8],
    ) -> Option<Gathered<Self>>
        requires { count ≤ 8 }
        ensures { IfSome result (λ x. HoldsStreams bytes.now count (gathered_as Self.commands x)) };
}

impl DecodesBeside for Commands {
    fn streams_beside<R: Threads>(
        rt: &R,
        alloc: Global,
        all: usize,
        count: u8,
        bytes: &[u8],
    ) -> Option<Gathered<Commands>> {
        whole_beside(rt, alloc, all, count, bytes)
    }
}

impl DecodesBeside for CommandStore {
    fn streams_beside<R: Threads>(
        rt: &R,
        alloc: Global,
        all: usize,
        count: u8,
        bytes: &[u8],
    ) -> Option<Gathered<CommandStore>> {
        stored_beside(rt, alloc, all, count, bytes)
    }
}

/// The scene within its limits that the bytes of two clients or more spell, or nothing where anything stands in the way.
fn scene_beside<R: Threads, K: DecodesBeside>(
    rt: &R,
    alloc: Global,
    bytes: &[u8],
) -> Option<K::Scene>
    ensures { IfSome result (λ s. SpellsScene bytes.now (K.scene s) × (limit_of (K.scene s) ≡ None)) }
{
    let Ok((version, body)) = <Vec<Command> as BeginsScene>::read_magic(bytes) else {
        return None;
    };
    let Ok((Head { decl, clients }, body)) = read_head(alloc, version, body) else {
        return None;
    };
    if clients < 2 || clients > 8 {
        return None;
    }
    let Gathered {
        streams,
        commands,
        frames,
    } = K::streams_beside(rt, alloc, bytes.len(), clients, body)?;
    match within_limits::<K>(Counted {
        decl,
        streams,
        commands,
        frames,
    }) {
        Ok(scene) => Some(scene),
        Err(_) => None,
    }
}

fn judged_beside<R: Threads, K: DecodesBeside>(
    rt: &R,
    alloc: Global,
    bytes: &[u8],
) -> Result<K::Scene, SceneFault>
    ensures { IsReadBy K.scene SpellsScene limit_of FailsAsScene bytes.now result }
{
    if bytes.len() < LEAST_BYTES {
        return read_judged::<K>(alloc, bytes);
    }
    match scene_beside::<R, K>(rt, alloc, bytes) {
        Some(scene) => Ok(scene),
        None => read_judged::<K>(alloc, bytes),
    }
}

/// What `read_scene` answers. Where there are many bytes, the streams are decoded side by side, each in a thread of its own, and once more by one
/// thread where that comes to no scene.
pub fn read_scene_beside<R: Threads>(
    rt: &R,
    alloc: Global,
    bytes: &[u8],
) -> Result<Scene, SceneFault>
    ensures { IsSceneRead bytes.now result }
{
    judged_beside::<R, Commands>(rt, alloc, bytes)
}

/// What `read_scene_beside` answers, with its commands in less room than a list of them takes.
pub fn read_stored_scene_beside<R: Threads>(
    rt: &R,
    alloc: Global,
    bytes: &[u8],
) -> Result<StoredScene, SceneFault>
    ensures { IsSceneRead bytes.now result }
{
    judged_beside::<R, CommandStore>(rt, alloc, bytes)
}
