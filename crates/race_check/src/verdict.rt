//! The verdict on an order.
use rc_base::sync::Name;

/// Where two commands conflict: a pixel of the window, by its column and its row from the bottom, or a shared texture.
#[derive(Clone, Copy, Debug, PartialEq, Eq)]
pub enum Spot {
    Pixel { x: u16, y: u16 },
    Shared(u8),
}

/// Synchronisation orders every two conflicting commands, or two are told that it doesn't.
#[derive(Clone, Copy, Debug, PartialEq, Eq)]
pub enum Verdict {
    Ordered,
    Race {
        first: Name,
        second: Name,
        spot: Spot,
    },
}
