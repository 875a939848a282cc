//! Where a test holds the actors of a cluster back.
use std::marker::Sync;

/// An actor of the cluster, that is, one of those that make its steps.
#[derive(Clone, Copy, Debug, PartialEq, Eq)]
pub enum Actor {
    /// The client of this number, from 0: it issues its command stream into lanes.
    Client(u8),
    /// The manager of barriers and semaphores.
    Manager,
    /// The tile server of this number, from 0: it draws into its rectangle of the window.
    Tile(u8),
}

/// A gate that all workers share, and that each passes before each attempt of a step. It answers nothing. A gate may let a worker wait, so that
/// a test can choose an interleaving.
pub trait Gate: Sync {
    /// `turn` is the number of steps that this actor has moved so far.
    fn pass(&self, who: Actor, turn: u64);
}

/// The gate that always stands open: to pass it does nothing.
#[derive(Clone, Copy, Debug, PartialEq, Eq)]
pub struct OpenGate;

impl Gate for OpenGate {
    fn pass(&self, _who: Actor, _turn: u64) {}
}
