//! Frames and texts, written to a sink.
ghost use Rattle.std.specs.Prelude.{◌≡◌, ◌+◌, ◌^◌, ◌<◌, ◌≤◌, ◌++◌, ℕ, false, List, length, take, drop, IfOk, OnErr, OnOk};
ghost use Rattle.rc_base.specs.Formats.Netpbm.{p6_text, p6_texts};
ghost use Rattle.rc_base.specs.Outside.Ends.{use_of, TookFront};
ghost use Rattle.frame_out.specs.Writing.{written_more, AreWritable, HasGiven, IsCounted, IsTextWritten};

use ppm_out::image_header;
use rc_base::image::{Frames, Image};
use rc_base::out_of_memory::OutOfMemory;
use rc_base::outside::Sink;
use rc_base::transfer::{WriteFault, write_all};
use std::alloc::{AllocError, Global};

/// How much a sink took of what is due to it.
#[derive(Clone, Copy, Debug, PartialEq, Eq)]
pub struct Written {
    /// How many bytes went out.
    pub bytes: u64,
    /// The sink failed behind them.
    pub fault: bool,
}

impl Written {
    ghost use Rattle.std.specs.Prelude.{◌≡◌};

    /// Nothing was written.
    pub fn nothing() -> Written
        ensures { result ≡ record { bytes = 0; fault = false } }
    {
        Written {
            bytes: 0,
            fault: false,
        }
    }

    /// With one `write_all` more, of so many bytes.
    fn with(self, size: usize, answer: Result<(), WriteFault>) -> Written
        ensures { result ≡ written_more self size answer }
    {
        match answer {
            Ok(()) => Written {
                bytes: self.bytes.saturating_add(size as u64),
                fault: false,
            },
            Err(fault) => Written {
                bytes: self.bytes.saturating_add(fault.done as u64),
                fault: true,
            },
        }
    }
}

/// Writes a text by one `write_all`, behind what was written. Behind a fault nothing is offered.
pub fn write_behind<K: Sink>(image: &mut K, text: &[u8], written: Written) -> Written
    ensures written { (start : K) (before : List ℕ) → length before + length text.now < 2 ^ 64
        → IsCounted (use_of K.held K.faults start image.old) before written → IsCounted (use_of K.held K.faults start image.new) (before ++ text.now) result }
    ensures given { HasGiven (K.held image.old) (K.held image.new) text.now written result }
    ensures later { K.faults image.old ≤ K.faults image.new }
{
    if written.fault {
        return written;
    }
    let answer = write_all(image, text);
    written.with(text.len(), answer)
}

// Puts a header in front of the pixels, which move behind it: in the memory that they have, or in more that is taken for it.
fn put_in_front(text: &mut Vec<u8>, header: &[u8]) -> Result<(), AllocError>
    ensures { OnOk result (text.new.items ≡ header.now ++ text.old.items) }
{
    let size = text.len();
    text.reserve_exact(header.len())?;
    text.extend_from_slice(header)?;
    move_back(text.as_mut_slice(), size, header.len());
    write_header(text.as_mut_slice(), header);
    Ok(())
}

// How many bytes are moved at a time.
const BLOCK: usize = 4096;

// Moves the first bytes back by so many places, the last of them first. What stood there is written over; the first places keep what they have.
fn move_back(text: &mut [u8], size: usize, by: usize)
    requires { size + by ≤ length text.old }
    ensures { drop by text.new ≡ take size text.old ++ drop (size + by) text.old }
{
    let mut block = [0; BLOCK];
    let mut left = size;
    while 0 < left {
        let count = left.min(BLOCK);
        let from = left - count;
        block[0..count].copy_from_slice(&text[from..left]);
        text[from + by..left + by].copy_from_slice(&block[0..count]);
        left = from;
    }
}

// Writes a header over the first bytes.
fn write_header(text: &mut [u8], header: &[u8])
    requires { length header.now ≤ length text.old }
    ensures { text.new ≡ header.now ++ drop (length header.now) text.old }
{
    let front = header.len();
    text[0..front].copy_from_slice(header);
}

// The Netpbm P6 text of a frame, in the memory of its pixels.
fn text_of(alloc: Global, frame: Image) -> Result<Vec<u8>, OutOfMemory>
    ensures { IfOk result (λ text. text.items ≡ p6_text frame) }
{
    let Image { width, height, rgb } = frame;
    let header = image_header(alloc, width, height)?;
    let mut text = rgb.into_vec();
    put_in_front(&mut text, header.as_slice())?;
    Ok(text)
}

// Writes the Netpbm P6 text of a frame by one `write_all`, behind what was written. Behind a fault nothing is offered. Where memory lacks for the header
// the image is given nothing.
fn write_frame<K: Sink>(
    alloc: Global,
    image: &mut K,
    frame: Image,
    written: Written,
) -> Result<Written, OutOfMemory>
    ensures written { IfOk result (λ more. (start : K) (text : List ℕ) → length text + length (p6_text frame) < 2 ^ 64
        → IsCounted (use_of K.held K.faults start image.old) text written → IsCounted (use_of K.held K.faults start image.new) (text ++ p6_text frame) more) }
    ensures lacked { OnErr result (image.new ≡ image.old) }
    ensures later { K.faults image.old ≤ K.faults image.new }
{
    if written.fault {
        return Ok(written);
    }
    let text = text_of(alloc, frame)?;
    Ok(write_behind(image, text.as_slice(), written))
}

/// Writes the Netpbm P6 text of each frame, one `write_all` a frame, and lets each go once it is written. A text is made in the memory of its frame's
/// pixels. Behind a fault nothing more is offered. Where memory lacks for a text, the sink was given those of the frames before it.
pub fn write_frames<K: Sink>(
    alloc: Global,
    image: &mut K,
    frames: Frames,
) -> Result<Written, OutOfMemory>
    requires { AreWritable frames }
    ensures written { IfOk result (IsTextWritten (use_of K.held K.faults image.old image.new) (p6_texts frames)) }
    ensures front { OnErr result (TookFront (use_of K.held K.faults image.old image.new) (p6_texts frames)) }
    ensures later { K.faults image.old ≤ K.faults image.new }
{
    let mut written = Written::nothing();
    for frame in frames.into_vec() {
        written = write_frame(alloc, image, frame, written)?;
    }
    Ok(written)
}

/// Writes a text by one `write_all`.
pub fn write_text<K: Sink>(image: &mut K, text: &[u8]) -> Written
    ensures written { IsTextWritten (use_of K.held K.faults image.old image.new) text.now result }
    ensures later { K.faults image.old ≤ K.faults image.new }
{
    match write_all(image, text) {
        Ok(()) => Written {
            bytes: text.len() as u64,
            fault: false,
        },
        Err(fault) => Written {
            bytes: fault.done as u64,
            fault: true,
        },
    }
}
