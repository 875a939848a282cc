//! The ends of a lane.
ghost use Rattle.std.specs.Prelude.{◌≡◌, ◌≤◌, true, ◌++◌, length};
ghost use Rattle.std.specs.Arc.{arc_value};
ghost use Rattle.crossbeam_queue.specs.Passes.{view, ruled_capacity, IsPassOf};
ghost use Rattle.tile_queues.specs.Rule.{left_of};

use crate::rule::{History, Line};
use crossbeam_queue::Pass;
use std::alloc::Global;
use std::sync::Arc;

/// The sending end of a lane. It keeps a runtime of its own, since a push may wait.
#[derive(Drop)]
pub struct LaneIn<T, R> {
    pub(crate) rt: R,
    pub(crate) queue: Arc<Line<T>, Global>,
    pub(crate) pass: Pass<T, History<T>>,
    pub(crate) pushed: u64,
    pub(crate) full_seen: u64,
    ghost ours: { IsPassOf (arc_value queue) pass },
    ghost sends: { (view pass).sends ≡ true },
    ghost deep: { (view pass).depth ≡ ruled_capacity (arc_value queue) },
    ghost shallow: { ruled_capacity (arc_value queue) ≤ 16 },
    ghost counted: { pushed ≡ length (view pass).sent },
}

/// The receiving end of a lane. It keeps a runtime of its own, since a pop may wait.
#[derive(Drop)]
pub struct LaneOut<T, R> {
    pub(crate) rt: R,
    pub(crate) queue: Arc<Line<T>, Global>,
    pub(crate) pass: Pass<T, History<T>>,
    pub(crate) empty_seen: u64,
    ghost ours: { IsPassOf (arc_value queue) pass },
    ghost takes: { (view pass).takes ≡ true },
}

/// A lane after its two ends were brought together, with what was left in it then. It gives this as an inlet does, and is at its end once it has given
/// all: what was taken is then all that was sent.
#[derive(Drop)]
pub struct Rest<T, R> {
    pub(crate) rt: R,
    pub(crate) queue: Arc<Line<T>, Global>,
    pub(crate) pass: Pass<T, History<T>>,
    pub(crate) empty_seen: u64,
    ghost ours: { IsPassOf (arc_value queue) pass },
    ghost sends: { (view pass).sends ≡ true },
    ghost takes: { (view pass).takes ≡ true },
    ghost ordered: { (view pass).sent ≡ (view pass).taken ++ left_of (view pass) },
}
