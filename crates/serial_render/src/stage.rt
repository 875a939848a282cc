//! What a renderer keeps while it carries out an order.
use crate::brush::Brush;
use draw_device::Device;
use rc_base::image::Frames;
use stream_replay::Client;
use textures::SharedSet;

/// What the names so far leave: the clients, the shared textures, the pixels of the window with what is settled for blocks, and a frame for each Swap that
/// one of them lies beyond.
#[derive(Drop)]
pub(crate) struct Stage {
    pub(crate) clients: Vec<Client>,
    pub(crate) shared: SharedSet,
    pub(crate) brush: Brush,
    pub(crate) device: Device,
    pub(crate) frames: Frames,
}
