//! What the depth test leaves of a run.
use raster::WordRamp;

/// The first column whose fragment passes the depth test, or the run's end; and the depths from there on.
#[derive(Clone, Copy)]
pub struct Visible {
    pub from: u16,
    pub depths: WordRamp,
}
