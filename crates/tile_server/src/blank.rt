//! What a new canvas is made of.
ghost use Rattle.std.specs.Prelude.{◌≡◌, ℕ, ◌<◌, true, pos, IfOk};
ghost use Rattle.rc_base.specs.Cluster.Tiles.{tile_count, tile_pixels};
ghost use Rattle.rc_base.specs.Drawing.Serial.{blank_pixel};
ghost use Rattle.draw_device.specs.Devices.{pixel_of};
ghost use Rattle.tile_server.specs.Works.{AreNew, IsBlankIn, IsRectOf, LiesInWindow};

use crate::kept::KeptClient;
use bounds_bucket::tile_rect;
use draw_device::LazyDevice;
use rc_base::out_of_memory::OutOfMemory;
use rc_base::state::State;
use rc_base::window::{Layout, Rect};
use std::alloc::Global;
use textures::PrivateSet;

/// What is kept of clients that sent nothing yet, whose first state is this.
pub(crate) fn new_clients(
    alloc: Global,
    state: State,
    count: u8,
) -> Result<Vec<KeptClient>, OutOfMemory>
    ensures { IfOk result (λ v. AreNew state count v.items) }
{
    let mut clients = Vec::new(alloc);
    for _ in 0..count {
        clients.push(KeptClient {
            state,
            images: PrivateSet::new(alloc)?,
        })?;
    }
    Ok(clients)
}

// The blank pixels of a rectangle of a window of these sides.
fn device_in(alloc: Global, width: u16, height: u16, rect: Rect) -> Result<LazyDevice, OutOfMemory>
    requires { LiesInWindow width height rect }
    ensures rect { IfOk result (λ d. d.rect ≡ rect) }
    ensures blank { IfOk result (IsBlankIn rect) }
{
    LazyDevice::new(alloc, rect)
}

/// The blank pixels of a tile.
pub(crate) fn blank_device(
    alloc: Global,
    layout: &Layout,
    tile: u8,
) -> Result<LazyDevice, OutOfMemory>
    requires { tile < tile_count layout.now }
    ensures rect { IfOk result (λ d. IsRectOf layout.now tile d.rect) }
    ensures blank { IfOk result (λ d. (x y : ℕ) → tile_pixels layout.now tile x y ≡ true
        → pixel_of d (pos x) (pos y) ≡ blank_pixel) }
{
    device_in(alloc, layout.width, layout.height, tile_rect(layout, tile))
}
