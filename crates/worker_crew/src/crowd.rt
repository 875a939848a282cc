//! How many threads of a crew are awake.

use std::sync::atomic::{AtomicU64, Ordering};

/// How many threads of a crew are awake. Who wakes a sleeper counts it, since it takes a while until that one runs.
#[derive(Drop)]
pub(crate) struct Crowd {
    awake: AtomicU64,
}

impl Crowd {
    /// Nobody is awake.
    pub(crate) fn new() -> Crowd {
        Crowd {
            awake: AtomicU64::new(0),
        }
    }

    /// One more is awake.
    pub(crate) fn wakes(&self) {
        let _before = self.awake.fetch_add(1, Ordering::SeqCst);
    }

    /// One less is awake.
    pub(crate) fn rests(&self) {
        let _before = self.awake.fetch_sub(1, Ordering::SeqCst);
    }

    /// Whether more are awake than so many.
    pub(crate) fn is_above(&self, most: u64) -> bool {
        self.awake.load(Ordering::SeqCst) > most
    }
}
