//! A name on its way through the pixels of the window.
use crate::found::Found;
use rc_base::sync::Name;

/// A name that visits pixels: its clock tells of each other client how many of its names are before the name. The window's sides are in pixels.
#[derive(Clone, Copy)]
pub struct Visit {
    pub name: Name,
    pub clock: [u32; 8],
    pub width: u16,
    pub height: u16,
}

/// What was found of a name so far, and whether it has touched a pixel.
#[derive(Clone, Copy)]
pub struct Seen {
    pub best: Option<Found>,
    pub some: bool,
}
