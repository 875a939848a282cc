//! Writing a scene.
ghost use Rattle.std.specs.Prelude.{◌≡◌, ◌≤◌, ◌<◌, ◌++◌, ◌^◌, length, IfOk, OnOk, None};
ghost use Rattle.rc_base.specs.Formats.Limits.{limit_of};
ghost use Rattle.std.specs.List.{flat_map, AllByRecursion};
ghost use Rattle.rc_base.specs.Formats.Spelling.{half, size, header, stream_text, encoded, IsSide, IsSize, IsVersion, SpellsScene, SpellsStream};
ghost use Rattle.scene_file.specs.Written.{IsWritten, AreWhole, IsShort};

use crate::header::magic_of;
use packet_bytes::encode;
use rc_base::command::{Bytes, Commands};
use rc_base::out_of_memory::OutOfMemory;
use rc_base::scene::{Decl, Scene};
use std::alloc::Global;

fn put_halves(bytes: &mut Bytes, halves: &[u16]) -> Result<(), OutOfMemory>
    ensures added { OnOk result (bytes.new ≡ bytes.old ++ flat_map half halves.now) }
    ensures fits { AllByRecursion IsSide halves.now }
{
    for half in halves {
        bytes.extend_from_slice(&half.to_le_bytes())?;
    }
    Ok(())
}

fn put_sizes(bytes: &mut Bytes, sizes: &[[u16; 2]]) -> Result<(), OutOfMemory>
    ensures added { OnOk result (bytes.new ≡ bytes.old ++ flat_map size sizes.now) }
    ensures fits { OnOk result (AllByRecursion IsSize sizes.now) }
{
    for size in sizes {
        put_halves(bytes, size)?;
    }
    Ok(())
}

fn put_header(bytes: &mut Bytes, decl: &Decl, clients: u8) -> Result<(), OutOfMemory>
    requires shared { length decl.now.shared ≤ 16 }
    requires barriers { length decl.now.barriers ≤ 64 }
    requires semaphores { length decl.now.semaphores ≤ 64 }
    ensures added { OnOk result (IsVersion decl.now.version → bytes.new ≡ bytes.old ++ header decl.now clients) }
    ensures fits { OnOk result (AllByRecursion IsSize decl.now.shared
        × AllByRecursion IsSide decl.now.semaphores) }
{
    bytes.extend_from_slice(&magic_of(decl.version))?;
    bytes.extend_from_slice(&decl.width.to_le_bytes())?;
    bytes.extend_from_slice(&decl.height.to_le_bytes())?;
    bytes.extend_from_slice(&[
        clients,
        decl.shared.len() as u8,
        decl.barriers.len() as u8,
        decl.semaphores.len() as u8,
    ])?;
    put_sizes(bytes, decl.shared.as_slice())?;
    bytes.extend_from_slice(decl.barriers.as_slice())?;
    put_halves(bytes, decl.semaphores.as_slice())
}

// The length of a stream's packets, which 32 bits have to hold.
fn length_of(size: usize) -> Result<u32, OutOfMemory>
    ensures { IfOk result (λ length. (length ≡ size) × (size < 2 ^ 32)) }
{
    match u32::try_from(size) {
        Ok(length) => Ok(length),
        Err(_) => Err(OutOfMemory),
    }
}

fn put_stream(alloc: Global, bytes: &mut Bytes, stream: &Commands) -> Result<(), OutOfMemory>
    ensures added { OnOk result (bytes.new ≡ bytes.old ++ stream_text (encoded stream.now)) }
    ensures short { OnOk result (IsShort stream.now) }
    ensures spelled { OnOk result (AreWhole stream.now
        → SpellsStream (encoded stream.now) stream.now) }
{
    let text = encode(alloc, stream)?;
    let length = length_of(text.len())?;
    bytes.extend_from_slice(&length.to_le_bytes())?;
    bytes.append(text)?;
    Ok(())
}

/// The bytes of a scene: its header, and then for each stream the length of its packets and the packets. A stream of 2^32 bytes or more has
/// no length that could be written; it is refused as want of memory.
pub fn write_scene(alloc: Global, scene: &Scene) -> Result<Bytes, OutOfMemory>
    requires { limit_of scene.now ≡ None }
    ensures exact { IfOk result (λ bytes. IsWritten scene.now bytes) }
    // Where each picture has four bytes for each texel, they are read again as this scene.
    ensures spelled { IfOk result (λ bytes. IsVersion scene.now.decl.version
        → AllByRecursion AreWhole scene.now.streams → SpellsScene bytes scene.now) }
{
    let streams = scene.streams.as_slice();
    let mut bytes = Bytes::new(alloc);
    put_header(&mut bytes, &scene.decl, streams.len() as u8)?;
    for stream in streams {
        put_stream(alloc, &mut bytes, stream)?;
    }
    Ok(bytes)
}
