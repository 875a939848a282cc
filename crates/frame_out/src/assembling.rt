//! The image of each frame, from the parts of its tiles.
ghost use Rattle.std.specs.Prelude.{◌≡◌, ◌≤◌, ◌<◌, ℕ, length, drop, IfOk};
ghost use Rattle.rc_base.specs.Cluster.Tiles.{tile_count};
ghost use Rattle.rc_base.specs.Drawing.Images.{Pixels};
ghost use Rattle.assembler.specs.Parts.{AreParts, ShowPixels};
ghost use Rattle.frame_out.specs.Frames.{frame_parts, frame_total, window_image, window_images, AreFrames, ShowFrames};

use assembler::assemble;
use rc_base::cluster::TilePart;
use rc_base::image::{Frames, Image};
use rc_base::items::Items;
use rc_base::out_of_memory::OutOfMemory;
use rc_base::window::Layout;
use std::alloc::Global;

// The image of a frame, counted from 0.
fn image_of(
    alloc: Global,
    layout: &Layout,
    parts: &[TilePart],
    frame: usize,
) -> Result<Image, OutOfMemory>
    requires some_tiles { 0 < tile_count layout.now }
    requires frame { frame < frame_total layout.now parts.now }
    requires parts { AreParts layout.now (frame_parts layout.now parts.now frame) }
    ensures { IfOk result (λ image. (pixels : Pixels) → ShowPixels layout.now (frame_parts layout.now parts.now frame) pixels → image ≡ window_image layout.now pixels) }
{
    let tiles = usize::from(layout.columns) * usize::from(layout.rows);
    let first = frame * tiles;
    assemble(alloc, layout, &parts[first..first + tiles])
}

// Lets the pixels of some parts go.
fn let_go(alloc: Global, parts: &mut [TilePart], from: usize, to: usize)
    requires order { from ≤ to }
    requires inside { to ≤ length parts.old }
    ensures count { length parts.new ≡ length parts.old }
    ensures later { drop to parts.new ≡ drop to parts.old }
{
    for i in from..to {
        parts[i].pixels = Items::new(alloc);
    }
}

/// The image of each frame, put together from the parts of its tiles, frames rising and in each the tiles rising: it has the pixels that they show. The
/// pixels of a frame's parts are let go once it stands, so that its successors' images take their room.
pub fn frames_of(
    alloc: Global,
    layout: &Layout,
    parts: &mut [TilePart],
) -> Result<Frames, OutOfMemory>
    requires some_tiles { 0 < tile_count layout.now }
    requires parts { AreFrames layout.now parts.old }
    ensures { IfOk result (λ frames. (pixels : ℕ → Pixels) → ShowFrames layout.now parts.old pixels → frames ≡ window_images layout.now pixels (frame_total layout.now parts.old)) }
{
    let tiles = usize::from(layout.columns) * usize::from(layout.rows);
    let mut frames = Frames::new(alloc);
    for frame in 0..parts.len() / tiles {
        let image = image_of(alloc, layout, parts, frame)?;
        frames.push(image)?;
        let first = frame * tiles;
        let_go(alloc, parts, first, first + tiles);
    }
    Ok(frames)
}
