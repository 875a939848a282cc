//! Lanes between threads.
ghost use Rattle.std.specs.Prelude.{◌≡◌, ℕ, [], ◌∷◌, ◌++◌, ◌<◌, ◌≤◌, ◌⊎◌, Err, IfOk, length, slice_index_or, vec_capacity, vec_len};
ghost use Rattle.std.specs.Option.{option_to_list};
ghost use Rattle.rc_base.specs.Lists.{ArePaired};
ghost use Rattle.tile_queues.specs.Ends.{lane_in, lane_out, rest_of, sent_of, taken_in, taken_of};

use rc_base::lane::{Inlet, Outlet};
use rc_base::out_of_memory::OutOfMemory;
use std::alloc::Global;
use std::sync::Wait;
use tile_queues::{LaneIn, LaneOut, Rest, close, join_list, lane};

/// Pushes an item. It went in, or it is handed back: a full lane drops none.
pub fn pushed<T: Drop, R: Wait>(sending: &mut LaneIn<T, R>, item: T) -> Result<(), T>
    ensures { (sent_of sending.new ≡ sent_of sending.old ++ item ∷ []) ⊎ (result ≡ Err item) }
{
    sending.push(item)
}

/// Makes a lane, puts an item in at its one end, and brings both ends together. They are of one lane: the item is what is left in it.
pub fn sent_through<T: Drop, R: Wait + Copy>(
    rt: R,
    alloc: Global,
    depth: usize,
    item: T,
) -> Result<Rest<T, R>, OutOfMemory>
    requires { (1 ≤ depth) × (depth ≤ 16) }
    ensures { IfOk result (λ rest. rest_of rest ≡ item ∷ []) }
{
    let (mut sending, receiving) = lane(rt, alloc, depth)?;
    let _pushed = sending.push(item);
    Ok(close(sending, receiving))
}

/// Pops an item. What was taken of the lane grows by what is handed out, and by no more: none is passed over.
pub fn popped<T: Drop, R: Wait>(receiving: &mut LaneOut<T, R>) -> Option<T>
    ensures { taken_of receiving.new ≡ taken_of receiving.old ++ option_to_list result }
{
    receiving.pop()
}

/// The next item of a lane whose ends were brought together. It is the first of what was left: none is passed over.
pub fn next_left<T: Drop, R: Wait>(rest: &mut Rest<T, R>) -> Option<T>
    ensures { rest_of rest.old ≡ option_to_list result ++ rest_of rest.new }
{
    rest.next()
}

/// Brings the ends of two lists together. Of the lane at each place that was taken which the receiving end of this place took.
pub fn joined<T: Drop, R: Copy>(
    ins: Vec<LaneIn<T, R>>,
    outs: Vec<LaneOut<T, R>>,
    rests: Vec<Rest<T, R>>,
) -> Vec<Rest<T, R>>
    requires paired { ArePaired (λ i a b. lane_out b ≡ lane_in a) ins.items outs.items }
    requires empty { vec_len rests ≡ 0 }
    requires room { vec_len ins ≤ vec_capacity rests }
    ensures { (i : ℕ) (b : _) (r : _) → i < length ins.items
        → taken_in (slice_index_or result.items i r) ≡ taken_of (slice_index_or outs.items i b) }
{
    join_list(ins, outs, rests)
}
