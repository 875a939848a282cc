//! What is due, written: to the image each frame's text, or the one text, by one `write_all`; and what is then left to tell.
ghost use Rattle.std.specs.Prelude.{◌≡◌, ◌≤◌, ◌++◌, [], IfOk, IfErr, OnErr};
ghost use Rattle.rc_base.specs.Outside.Ends.{use_of};
ghost use Rattle.frame_out.specs.Writing.{IsTextWritten};
ghost use Rattle.run_words.specs.Lines.{image_fault_line};
ghost use Rattle.render_core.specs.Refusals.{IsBlank, IsGiven, IsWritable, IsToldOf, IsUntold, TookSome};
ghost use Rattle.run_words.specs.declared.refusal.Refusal.TheVariants.{Image as OfImage};

use crate::due::DueImage;
use frame_out::{Written, write_frames, write_text};
use order_model::record::Record;
use rc_base::command::Bytes;
use rc_base::out_of_memory::OutOfMemory;
use rc_base::outside::Sink;
use run_words::refusal::{ImageRefusal, Refusal, Refused, image_fault_line};
use run_words::{Ending, Told};
use std::alloc::{AllocError, Global};

// Writes a text, if there is one.
fn write_some<K: Sink>(image: &mut K, text: &[u8]) -> Written
    ensures written { IsTextWritten (use_of K.held K.faults image.old image.new) text.now result }
    ensures blank { text.now ≡ [] → image.new ≡ image.old }
    ensures later { K.faults image.old ≤ K.faults image.new }
{
    if text.is_empty() {
        return Written::nothing();
    }
    write_text(image, text)
}

/// Writes what is due to the image. Where memory lacks the image was given a front of it, and where nothing is due it isn't called.
/// Each frame is let go once it is written.
pub(crate) fn write_due<K: Sink>(
    alloc: Global,
    image: &mut K,
    due: DueImage,
) -> Result<Written, OutOfMemory>
    requires { IsWritable due }
    ensures written { IfOk result (IsGiven (use_of K.held K.faults image.old image.new) due) }
    ensures front { OnErr result (TookSome (use_of K.held K.faults image.old image.new) due) }
    ensures blank { IsBlank due → image.new ≡ image.old }
    ensures later { K.faults image.old ≤ K.faults image.new }
{
    match due {
        DueImage::Frames(frames) => write_frames(alloc, image, frames),
        DueImage::OneText(text) => Ok(write_some(image, text.as_slice())),
    }
}

// The lines, and behind them how many bytes the image took before it failed.
fn with_fault(alloc: Global, mut lines: Bytes, done: u64) -> Result<Bytes, AllocError>
    ensures { IfOk result (λ told. told ≡ lines ++ image_fault_line done) }
{
    let line = image_fault_line(alloc, done)?;
    lines.extend_from_slice(line.as_bytes())?;
    Ok(lines)
}

/// Why the image isn't told of: it failed, or there was no memory.
pub(crate) fn untold(refusal: ImageRefusal, kept: Option<Record>) -> Refused
    ensures { result ≡ record { refusal = OfImage refusal; kept = kept } }
{
    Refused {
        refusal: Refusal::Image(refusal),
        kept,
    }
}

/// What is left to tell, where the image took so much of what is due to it. A fault of the image cuts off a job that would be done; to what is told of
/// another it adds a line.
pub(crate) fn told_of(
    alloc: Global,
    notes: Bytes,
    ending: Ending,
    kept: Option<Record>,
    written: Written,
) -> Result<Told, Refused>
    ensures told { IfOk result (IsToldOf notes ending kept written) }
    ensures untold { IfErr result (IsUntold ending kept written) }
{
    if !written.fault {
        return Ok(Told {
            lines: notes,
            ending,
            kept,
        });
    }
    match ending {
        Ending::Complete => Err(untold(
            ImageRefusal::Fault {
                done: written.bytes,
            },
            kept,
        )),
        Ending::Stuck | Ending::RaceFound => match with_fault(alloc, notes, written.bytes) {
            Ok(lines) => Ok(Told {
                lines,
                ending,
                kept,
            }),
            Err(_) => Err(untold(ImageRefusal::OutOfMemory, kept)),
        },
    }
}
