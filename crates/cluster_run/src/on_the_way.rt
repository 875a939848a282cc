//! The frames of a run whose parts still come.
ghost use Rattle.std.specs.Prelude.{◌≡◌, ◌<◌, length, IfOk};
ghost use Rattle.rc_base.specs.Cluster.Tiles.{tile_count};
ghost use Rattle.assembler.specs.Assembled.{layout_of};
ghost use Rattle.frame_out.specs.OnTheWay.{IsNewWriter};
ghost use Rattle.frame_out.specs.Windows.{IsWindow};

use frame_out::FrameWriter;
use rc_base::cluster::TilePart;
use rc_base::out_of_memory::OutOfMemory;
use rc_base::window::Layout;
use std::alloc::Global;
use tile_queues::LaneOut;

/// A writer of frames, with the lanes by which the parts come, tiles rising.
#[derive(Drop)]
pub struct OnTheWay<R> {
    pub(crate) writer: FrameWriter,
    pub(crate) lanes: Vec<LaneOut<TilePart, R>>,
    ghost tiles: { length lanes.items ≡ tile_count (layout_of writer.parts) },
}

impl<R: Drop> OnTheWay<R> {
    /// A new writer of the layout's frames with these lanes.
    pub(crate) fn new(
        alloc: Global,
        layout: &Layout,
        lanes: Vec<LaneOut<TilePart, R>>,
    ) -> Result<OnTheWay<R>, OutOfMemory>
        requires columns { 0 < layout.now.columns }
        requires rows { 0 < layout.now.rows }
        requires window { IsWindow layout.now }
        requires lanes { length lanes.items ≡ tile_count layout.now }
        ensures new { IfOk result (λ f. IsNewWriter layout.now f.writer) }
        ensures lanes { IfOk result (λ f. f.lanes ≡ lanes) }
    {
        let writer = FrameWriter::new(alloc, layout)?;
        Ok(OnTheWay { writer, lanes })
    }
}
