//! The parts of all tiles, frame by frame.
ghost use Rattle.std.specs.Prelude.{◌≡◌, ◌<◌, ℕ, length, slice_index_or, IfOk, OnOk, Vec};
ghost use Rattle.std.specs.Global.{Global};
ghost use Rattle.std.specs.declared.collections.VecDeque.{VecDeque};
ghost use Rattle.rc_base.specs.declared.cluster.TilePart.{TilePart};
ghost use Rattle.run_record.specs.Frames.{AreTakenBelow, IsQueueOf};
ghost use Rattle.rc_base.specs.Lists.{ArePaired};
ghost use Rattle.run_record.specs.Collected.{AreShownAlike};
ghost use Rattle.run_record.specs.Gathering.{AreEven, AreInFrames};

use rc_base::cluster::{Parts, TilePart};
use rc_base::out_of_memory::OutOfMemory;
use std::alloc::Global;
use std::collections::VecDeque;

// How many parts the first tile has.
fn frames_in(lists: &[Vec<TilePart>]) -> usize
    ensures { (frames : ℕ) → AreEven frames lists.now → 0 < length lists.now → result ≡ frames }
{
    match lists.first() {
        Some(list) => list.len(),
        None => 0,
    }
}

/// The lists, to be taken from their fronts.
fn queues_of(
    alloc: Global,
    lists: Vec<Vec<TilePart>>,
) -> Result<Vec<VecDeque<TilePart>>, OutOfMemory>
    ensures { IfOk result (λ queues. ArePaired IsQueueOf lists.items queues.items) }
{
    let mut queues = Vec::new(alloc);
    for list in lists {
        queues.push(VecDeque::from(list))?;
    }
    Ok(queues)
}

/// Takes the next part of each tile, tiles rising.
fn take_frame(
    queues: &mut [VecDeque<TilePart>],
    parts: &mut Vec<TilePart>,
) -> Result<(), OutOfMemory>
    requires { (tile : ℕ) (d : VecDeque TilePart Global) → tile < length queues.old → 0 < length (slice_index_or queues.old tile d).items }
    ensures { OnOk result (AreTakenBelow (length queues.old) queues.old parts.old.items queues.new parts.new.items) }
{
    for tile in 0..queues.len() {
        let part = queues[tile].pop_front().unwrap();
        parts.push(part)?;
    }
    Ok(())
}

// The parts, frames rising and in each the tiles rising. Each tile has one of so many frames.
fn in_frames(alloc: Global, lists: Vec<Vec<TilePart>>, frames: usize) -> Result<Parts, OutOfMemory>
    requires { AreEven frames lists.items }
    ensures { IfOk result (λ parts. AreInFrames frames lists.items parts) }
{
    let mut queues = queues_of(alloc, lists)?;
    let mut parts = Vec::new(alloc);
    for _ in 0..frames {
        take_frame(&mut queues, &mut parts)?;
    }
    Ok(Parts::from_vec(parts))
}

/// The parts that tiles have shown, frames rising and in each the tiles rising. There is a tile, and each tile has shown as many frames.
pub fn parts_in_frames(alloc: Global, lists: Vec<Vec<TilePart>>) -> Result<Parts, OutOfMemory>
    requires { AreShownAlike lists.items }
    ensures { (frames : ℕ) → AreEven frames lists.items → IfOk result (λ parts. AreInFrames frames lists.items parts) }
{
    let frames = frames_in(lists.as_slice());
    in_frames(alloc, lists, frames)
}
