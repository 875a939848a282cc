//! Making the lanes from each of several senders to each of several receivers.
ghost use Rattle.std.specs.Prelude.{◌≡◌, ◌<◌, ◌≤◌, ℕ, length, slice_index_or, IfOk};
ghost use Rattle.tile_queues.specs.Grids.{IsAdded, IsNewGrid};

use crate::ends::{LaneIn, LaneOut};
use crate::lanes::lane;
use rc_base::out_of_memory::OutOfMemory;
use std::alloc::Global;

/// The lanes from each of several senders to each of several receivers.
#[derive(Drop)]
pub struct Grid<T, R> {
    /// A row for each sender, which has its end of the lane to each receiver.
    pub ins: Vec<Vec<LaneIn<T, R>>>,
    /// A column for each receiver, which has its end of the lane from each sender.
    pub outs: Vec<Vec<LaneOut<T, R>>>,
}

/// A new lane, whose receiving end comes behind these.
fn add_lane<T: Drop, R: Copy>(
    rt: R,
    alloc: Global,
    depth: usize,
    outs: &mut Vec<LaneOut<T, R>>,
) -> Result<LaneIn<T, R>, OutOfMemory>
    requires { (1 ≤ depth) × (depth ≤ 16) }
    ensures { IfOk result (λ a. IsAdded depth a outs.old outs.new) }
{
    let (a, b) = lane(rt, alloc, depth)?;
    outs.push(b)?;
    Ok(a)
}

/// A new row: a lane to each receiver, whose end comes last in its column.
fn lane_row<T: Drop, R: Copy>(
    rt: R,
    alloc: Global,
    depth: usize,
    outs: &mut [Vec<LaneOut<T, R>>],
) -> Result<Vec<LaneIn<T, R>>, OutOfMemory>
    requires { (1 ≤ depth) × (depth ≤ 16) }
    ensures size { length outs.new ≡ length outs.old }
    ensures row { IfOk result (λ row. length row.items ≡ length outs.old) }
    ensures added { IfOk result (λ row. (t : ℕ) (a : _) (d : _) → t < length outs.old → IsAdded depth (slice_index_or row.items t a) (slice_index_or outs.old t d) (slice_index_or outs.new t d)) }
{
    let mut row = Vec::new(alloc);
    for t in 0..outs.len() {
        row.push(add_lane(rt, alloc, depth, &mut outs[t])?)?;
    }
    Ok(row)
}

/// So many empty columns.
fn columns<T: Drop, R: Drop>(
    alloc: Global,
    receivers: usize,
) -> Result<Vec<Vec<LaneOut<T, R>>>, OutOfMemory>
    ensures size { IfOk result (λ outs. length outs.items ≡ receivers) }
    ensures empty { IfOk result (λ outs. (t : ℕ) (e : _) → t < receivers → length (slice_index_or outs.items t e).items ≡ 0) }
{
    let mut outs = Vec::new(alloc);
    for _ in 0..receivers {
        outs.push(Vec::new(alloc))?;
    }
    Ok(outs)
}

/// A new lane from each of so many senders to each of so many receivers, each of which holds at most `depth` items.
pub fn lane_grid<T: Drop, R: Copy>(
    rt: R,
    alloc: Global,
    depth: usize,
    senders: usize,
    receivers: usize,
) -> Result<Grid<T, R>, OutOfMemory>
    requires { (1 ≤ depth) × (depth ≤ 16) }
    ensures { IfOk result (λ g. IsNewGrid depth senders receivers g.ins.items g.outs.items) }
{
    let mut outs = columns(alloc, receivers)?;
    let mut ins = Vec::new(alloc);
    for _ in 0..senders {
        let row = lane_row(rt, alloc, depth, &mut outs)?;
        ins.push(row)?;
    }
    Ok(Grid { ins, outs })
}
