//! Closing the lanes from each of several senders to each of several receivers.
ghost use Rattle.std.specs.Prelude.{◌≡◌, ◌<◌, ◌≤◌, ℕ, length, vec_len, vec_capacity, slice_index_or};
ghost use Rattle.rc_base.specs.Lists.{ArePaired, IsFront};
ghost use Rattle.tile_queues.specs.Ends.{sent_of, taken_of, lane_in, lane_out};
ghost use Rattle.tile_queues.specs.Grids.{IsOpen, IsClosed, AreJoined, AreGrid};

use crate::ends::{LaneIn, LaneOut, Rest};
use crate::lanes::close;

/// Closes a lane, whose receiving end is the last of these.
fn close_last<T: Drop, R: Copy>(a: LaneIn<T, R>, outs: &mut Vec<LaneOut<T, R>>)
    requires { IsOpen a outs.old }
    ensures { IsClosed a outs.old outs.new }
{
    match outs.pop() {
        Some(b) => {
            let _rest = close(a, b);
        }
        None => unreachable!(),
    }
}

/// Closes the lanes of a row, whose receiving ends are the last of each column.
fn close_row<T: Drop, R: Copy>(ins: Vec<LaneIn<T, R>>, outs: &mut [Vec<LaneOut<T, R>>])
    requires { ArePaired (λ t a x. IsOpen a x) ins.items outs.old }
    ensures size { length outs.new ≡ length outs.old }
    ensures closed { (t : ℕ) (d : _) (e : _) → t < vec_len ins → IsClosed (slice_index_or ins.items t d) (slice_index_or outs.old t e) (slice_index_or outs.new t e) }
{
    let mut t = 0;
    for a in ins {
        close_last(a, &mut outs[t]);
        t += 1;
    }
}

/// Closes all lanes of a grid, the last row's first. What was taken of each lane is a front of what was sent by it.
pub fn close_all<T: Drop, R: Copy>(ins: Vec<Vec<LaneIn<T, R>>>, outs: &mut [Vec<LaneOut<T, R>>])
    requires { AreGrid ins.items outs.old }
    ensures { (c t : ℕ) (d : _) (e : _) (a : _) (b : _) → c < vec_len ins → t < length outs.old → IsFront (taken_of (slice_index_or (slice_index_or outs.old t e).items c b)) (sent_of (slice_index_or (slice_index_or ins.items c d).items t a)) }
{
    let mut ins = ins;
    while let Some(row) = ins.pop() {
        close_row(row, outs);
    }
}

/// Closes the lanes of two lists of ends, the last first. What was taken of each lane is a front of what was sent by it.
pub fn close_list<T: Drop, R: Copy>(ins: Vec<LaneIn<T, R>>, outs: &mut Vec<LaneOut<T, R>>)
    requires { ArePaired (λ i a b. lane_out b ≡ lane_in a) ins.items outs.old.items }
    ensures { ArePaired (λ i a b. IsFront (taken_of b) (sent_of a)) ins.items outs.old.items }
{
    let mut ins = ins;
    while let Some(a) = ins.pop() {
        close_last(a, outs);
    }
}

/// Brings the ends of two lists together, each with the other list's at its place, and puts the lanes into the room that `rests` has. Each lane comes out as
/// an inlet, with what is left in it.
pub fn join_list<T: Drop, R: Copy>(
    ins: Vec<LaneIn<T, R>>,
    outs: Vec<LaneOut<T, R>>,
    rests: Vec<Rest<T, R>>,
) -> Vec<Rest<T, R>>
    requires paired { ArePaired (λ i a b. lane_out b ≡ lane_in a) ins.items outs.items }
    requires empty { vec_len rests ≡ 0 }
    requires room { vec_len ins ≤ vec_capacity rests }
    ensures { AreJoined ins.items outs.items result.items }
{
    let mut rests = rests;
    let mut others = outs.into_iter();
    for a in ins {
        match others.next() {
            Some(b) => rests.push_reserved(close(a, b)),
            None => unreachable!(),
        }
    }
    rests
}
