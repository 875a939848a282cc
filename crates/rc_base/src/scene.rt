//! A scene: its declaration and its clients' streams, and what can be wrong with one that is read.
ghost use Rattle.std.specs.Prelude.{◌≡◌, ◌<◌, [], ◌∷◌, length, IfOk};
ghost use Rattle.rc_base.specs.Formats.Limits.{first_outside, judged};
ghost use Rattle.rc_base.specs.Contexts.Issue.{stream_of};

use crate::command::Commands;
use crate::items::Items;
use crate::out_of_memory::OutOfMemory;
use std::alloc::Global;
use thiserror::Error;

/// One list of commands for each client, clients rising.
pub type Streams = Items<Commands>;

/// Width and height of each shared texture.
pub type Sizes = Items<[u16; 2]>;

/// How many clients meet at each barrier.
pub type Counts = Items<u8>;

/// The units that each semaphore has at first.
pub type Units = Items<u16>;

/// What a scene declares: the window in pixels, and what its clients share. Shared textures, barriers and semaphores are named from 1,
/// in the order in which they stand here.
#[derive(Clone, Debug, PartialEq, Drop)]
pub struct Decl {
    pub version: u8,
    pub width: u16,
    pub height: u16,
    pub shared: Sizes,
    pub barriers: Counts,
    pub semaphores: Units,
}

/// A scene: its declaration and the stream of each client.
#[derive(Clone, Debug, PartialEq, Drop)]
pub struct Scene {
    pub decl: Decl,
    pub streams: Streams,
}

/// A quantity outside its range: its number in the table of limits (`docs/scene-format.md`) and its value.
#[derive(Clone, Copy, Debug, PartialEq, Eq, Error)]
#[error("{value} is outside the range of quantity {what}")]
pub struct Limit {
    pub what: u8,
    pub value: u64,
}

/// Why bytes spell no scene.
#[derive(Clone, Copy, Debug, PartialEq, Eq)]
pub enum SceneKind {
    BadMagic,
    BadCount,
    UnknownOpcode,
    Truncated,
    Trailing,
}

/// Why a line of a text spells no part of a scene.
#[derive(Clone, Copy, Debug, PartialEq, Eq)]
pub enum TextKind {
    NotText,
    UnknownWord,
    OutOfPlace,
    WrongCount,
    BadNumber,
    BadHex,
    NoScene,
}

/// An exact copy of what a scene declares.
pub fn copy_of_decl(alloc: Global, decl: &Decl) -> Result<Decl, OutOfMemory>
    ensures { IfOk result (λ d. d ≡ decl.now) }
{
    Ok(Decl {
        version: decl.version,
        width: decl.width,
        height: decl.height,
        shared: Sizes::from_slice(alloc, decl.shared.as_slice())?,
        barriers: Counts::from_slice(alloc, decl.barriers.as_slice())?,
        semaphores: Units::from_slice(alloc, decl.semaphores.as_slice())?,
    })
}

/// How many commands a client's stream has.
pub fn stream_length(scene: &Scene, client: usize) -> usize
    requires { client < length scene.now.streams }
    ensures { result ≡ length (stream_of scene.now client) }
{
    scene.streams.as_slice()[client].len()
}

/// Quantity `what` of the table of limits, where its value is below `least` or above `most`.
pub fn judge(what: u8, value: u64, least: u64, most: u64) -> Result<(), Limit>
    ensures { judged result ≡ first_outside (record { what = what; value = value; least = least; most = most } ∷ []) }
{
    if least <= value && value <= most {
        Ok(())
    } else {
        Err(Limit { what, value })
    }
}
