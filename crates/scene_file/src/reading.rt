//! Reading a scene.
ghost use Rattle.std.specs.Prelude.{◌≡◌, ◌-◌, ◌==◌, ◌<◌, length, IfOk, IfErr, Ok, Err, None};
ghost use Rattle.std.specs.Result.{result_map_both};
ghost use Rattle.rc_base.specs.Formats.Spelling.{SpellsScene};
ghost use Rattle.rc_base.specs.Formats.Limits.{is_swap_command, limit_of};
ghost use Rattle.rc_base.specs.Formats.Within.{IsWithin};
ghost use Rattle.rc_base.specs.declared.scene.Scene.{Scene as AnyScene};
ghost use Rattle.byte_codec.specs.Reading.{Reads};
ghost use Rattle.packet_bytes.specs.Packets.{decoded_as};
ghost use Rattle.scene_file.specs.Reading.{read_text};
ghost use Rattle.scene_file.specs.Letters.{form_of};
ghost use Rattle.scene_file.specs.Faults.{TextFailsBy, SceneFailsBy, FailsAsScene, HasFields, ReadsEach, TellsEachForm, TellsEachLimit, TellsForm, IsBeyond, IsJudged, IsReadBy, IsSceneRead};
ghost use Rattle.scene_file.specs.Counting.{DecodesFirst, Counts, SpellsCounted, counted_as, frames_with};

use crate::fault::{Broken, SceneFault, fault_at, in_stream};
use crate::header::{BeginsScene, Head, read_head};
use crate::kept::KeptStream;
use crate::limits::check_counted;
use byte_codec::fault::Form;
use byte_codec::fields::{read_long, take_bytes};
use command_store::{CommandStore, StoredScene};
use packet_bytes::packets::{DecodedOf, PacketList, decode_of};
use rc_base::command::Commands;
use rc_base::items::Items;
use rc_base::scene::{Decl, Limit, Scene, SceneKind};
use std::alloc::Global;

/// A scene as far as it is stored, how many commands its streams have, and how many frames it has: the least number of Swaps of a stream.
#[derive(Debug, Drop)]
pub(crate) struct Counted<K> {
    pub(crate) decl: Decl,
    pub(crate) streams: Items<K>,
    pub(crate) commands: usize,
    pub(crate) frames: usize,
}

/// How many commands more may be stored.
fn room_behind(commands: usize) -> usize
    ensures { result ≡ 1048576 - commands }
{
    1_048_576_usize.saturating_sub(commands)
}

/// The frames of one stream more, which has so many Swaps, behind some.
pub(crate) fn frames_with(before: usize, frames: usize, swaps: usize) -> usize
    ensures { result ≡ frames_with before frames swaps }
{
    if before == 0 {
        swaps
    } else {
        frames.min(swaps)
    }
}

#[tactic(auto, unfolding(crate::specs::Reading::read_text))]
pub(crate) fn read_text(bytes: &[u8]) -> Result<(&[u8], &[u8]), Form>
    ensures { Reads (λ x. (x.0.now, x.1.now)) result (read_text bytes.now) }
{
    let (length, rest) = read_long(bytes)?;
    take_bytes(length as usize, rest)
}

/// The stream at the front, stored where there is room for its commands, and the bytes behind it.
fn read_stream<L: PacketList>(
    alloc: Global,
    room: usize,
    bytes: &[u8],
) -> Result<(DecodedOf<L::Kept>, &[u8]), Broken>
    ensures found { IfOk result (λ x. DecodesFirst L.set L.reader.shows bytes.now room (decoded_as L.kept x.0) x.1.now) }
    ensures fails { IfErr result (TextFailsBy L.set bytes.now) }
{
    let (text, after) = read_text(bytes)?;
    match decode_of::<L>(alloc, room, text) {
        Ok(decoded) => Ok((decoded, after)),
        Err(fault) => Err(in_stream(fault, bytes.len())),
    }
}

fn is_end(rest: &[u8]) -> bool
    ensures { result ≡ (length rest.now == 0) }
{
    rest.is_empty()
}

/// The scene of either command set that the bytes spell, whatever its quantities. Its commands and frames are counted, and its commands stored where they are no more than
/// a scene may have.
pub(crate) fn read_spelled<L: PacketList + BeginsScene>(
    alloc: Global,
    bytes: &[u8],
) -> Result<Counted<L::Kept>, Broken>
    ensures found { IfOk result (λ x. SpellsCounted (form_of L.set L.letters) L.reader.shows bytes.now
        (counted_as L.kept x)) }
    ensures fails { IfErr result (SceneFailsBy (form_of L.set L.letters) L.letters.all bytes.now) }
{
    let (version, body) = L::read_magic(bytes)?;
    let (Head { decl, clients }, body) = read_head(alloc, version, body)?;
    let mut streams = Items::new(alloc);
    let mut commands = 0;
    let mut frames = 0;
    let mut rest = body;
    for _ in 0..clients {
        let room = room_behind(commands);
        let (decoded, after) = read_stream::<L>(alloc, room, rest)?;
        frames = frames_with(streams.len(), frames, decoded.swaps);
        streams.push(decoded.commands)?;
        commands += decoded.count;
        rest = after;
    }
    if !is_end(rest) {
        return Err(Broken::Form {
            kind: SceneKind::Trailing,
            left: rest.len(),
        });
    }
    Ok(Counted {
        decl,
        streams,
        commands,
        frames,
    })
}

/// The scene that was read, where its quantities are within their limits.
pub(crate) fn within_limits<K: KeptStream>(counted: Counted<K>) -> Result<K::Scene, SceneFault>
    ensures { (s : AnyScene) → Counts is_swap_command (counted_as K.commands counted) s.decl s.streams
        → IsJudged s (result_map_both K.scene (λ fault. fault) result) }
{
    let Counted {
        decl,
        streams,
        commands,
        frames,
    } = counted;
    match check_counted(&decl, streams.len(), commands as u64, frames as u64) {
        Ok(()) => Ok(K::scene_of(decl, streams)),
        Err(Limit { what, value }) => Err(SceneFault::Limit { what, value }),
    }
}

pub(crate) fn read_judged<K: KeptStream>(
    alloc: Global,
    bytes: &[u8],
) -> Result<K::Scene, SceneFault>
    ensures { IsReadBy K.scene SpellsScene limit_of FailsAsScene bytes.now result }
{
    match K::read_spelled(alloc, bytes) {
        Ok(counted) => within_limits(counted),
        Err(broken) => Err(fault_at(broken, bytes.len())),
    }
}

/// The scene that the bytes spell, where its quantities are within their limits.
pub fn read_scene(alloc: Global, bytes: &[u8]) -> Result<Scene, SceneFault>
    // What is read is spelled so, and within the limits.
    ensures found { IfOk result (λ s. SpellsScene bytes.now s × (limit_of s ≡ None)) }
    // Its fields are in their ranges.
    ensures fields { IfOk result HasFields }
    // So it is within what every call that takes a scene asks.
    ensures within { IfOk result IsWithin }
    // What is spelled so and within the limits is read, unless memory runs out.
    ensures only { ReadsEach bytes.now result }
    // Malformed bytes have this fault first from the left, at this place.
    ensures malformed { IfErr result (TellsForm bytes.now) }
    // Such bytes are answered so, unless memory runs out.
    ensures malformed_only { TellsEachForm bytes.now result }
    // The scene that is spelled has this quantity outside its range, the first in the order of the table.
    ensures limit { IfErr result (IsBeyond bytes.now) }
    // Such a scene is answered so, unless memory runs out.
    ensures limit_only { TellsEachLimit bytes.now result }
{
    read_judged::<Commands>(alloc, bytes)
}

/// What `read_scene` answers, with its commands in less room than a list of them takes.
pub fn read_stored_scene(alloc: Global, bytes: &[u8]) -> Result<StoredScene, SceneFault>
    ensures { IsSceneRead bytes.now result }
{
    read_judged::<CommandStore>(alloc, bytes)
}
