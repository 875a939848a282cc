//! Reading a source to its end, and writing a whole text to a sink.
ghost use Rattle.std.specs.Prelude.{◌≡◌, ◌<◌, ◌≤◌, ℕ, List, length, take, IfErr, OnOk};
ghost use Rattle.std.specs.Io.KnownBytes.{Consumes, Appends, IsAtEnd};
ghost use Rattle.rc_base.specs.Outside.Causes.{HasCause};
ghost use Rattle.rc_base.specs.Outside.Transfer.{IsAnswerFor, IsCountFor};
ghost use Rattle.rc_base.specs.declared.transfer.ReadAllFault.TheVariants.{OutOfMemory as NoMemory};

use crate::command::Bytes;
use crate::items::Items;
use crate::outside::{Failed, Sink, Source};
use std::alloc::{AllocError, Global};
use thiserror::Error;

/// Why a source was not read to its end.
#[derive(Clone, Copy, Debug, PartialEq, Eq, Error)]
pub enum ReadAllFault {
    /// The source failed.
    #[error("read fault")]
    ReadFault,
    /// The source gave more bytes than `BYTE_LIMIT`. `seen` of them were taken, the limit and one more.
    #[error("more than {limit} bytes", limit = BYTE_LIMIT)]
    TooLong { seen: usize },
    /// There was no memory for the bytes.
    #[error("out of memory")]
    OutOfMemory,
}

impl From<AllocError> for ReadAllFault {
    ghost from_gives = { λ _ e. e ≡ NoMemory };

    fn from(_: AllocError) -> ReadAllFault {
        ReadAllFault::OutOfMemory
    }
}

/// The sink failed when the first `done` bytes of the text had gone out.
#[derive(Clone, Copy, Debug, PartialEq, Eq, Error)]
#[error("write fault after {done} bytes")]
pub struct WriteFault {
    pub done: usize,
}

/// The most bytes of a source that are read: 32 MiB.
pub const BYTE_LIMIT: usize = 33_554_432;

// The most bytes that are asked for at a time.
const CHUNK: usize = 65_536;

/// Reads a source to its end, if that comes within the limit. Nothing is taken but the bytes of the answer and, of a source that is too long,
/// one byte more than the limit. A take that fails is the last one.
pub fn read_all<S: Source>(alloc: Global, source: &mut S) -> Result<Bytes, ReadAllFault>
    ensures taken { (bytes : List ℕ) × Consumes (S.left source.old) (S.left source.new) bytes × IsAnswerFor bytes result }
    ensures end { OnOk result (IsAtEnd (S.left source.new)) }
    ensures later { S.faults source.old ≤ S.faults source.new }
    ensures cause { IsCountFor (S.faults source.old) (S.faults source.new) result }
{
    let mut bytes = Items::new(alloc);
    let mut buffer = [0u8; CHUNK];
    while bytes.len() <= BYTE_LIMIT {
        let room = (BYTE_LIMIT + 1 - bytes.len()).min(buffer.len());
        match source.take(&mut buffer[..room]) {
            Err(Failed) => return Err(ReadAllFault::ReadFault),
            Ok(0) => return Ok(bytes),
            Ok(count) => bytes.extend_from_slice(&buffer[..count])?,
        }
    }
    Err(ReadAllFault::TooLong { seen: bytes.len() })
}

/// Writes a whole text. Each put is offered all that is left of it, until all went out or the sink failed; a put that fails is the last one. It
/// takes no memory of its own.
pub fn write_all<K: Sink>(sink: &mut K, bytes: &[u8]) -> Result<(), WriteFault>
    ensures whole { OnOk result (Appends (K.held sink.old) (K.held sink.new) bytes.now) }
    ensures part { IfErr result (λ e. (e.done < length bytes.now) × Appends (K.held sink.old) (K.held sink.new) (take e.done bytes.now)) }
    ensures cause { HasCause (K.faults sink.old) (K.faults sink.new) result }
{
    let mut done = 0;
    while done < bytes.len() {
        match sink.put(&bytes[done..]) {
            Err(Failed) => return Err(WriteFault { done }),
            Ok(count) => done += count,
        }
    }
    Ok(())
}
