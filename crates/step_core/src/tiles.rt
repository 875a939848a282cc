//! A step of one of the tiles.
ghost use Rattle.std.specs.Prelude.{◌≡◌, ◌<◌, length, slice_index_or, IfOk, OnErr, Vec};
ghost use Rattle.std.specs.Global.{Global};
ghost use Rattle.world_model.specs.Tiles.{without_pixels};
ghost use Rattle.world_model.specs.declared.moves.TileAnswer.TheVariants.{Swapped};
ghost use Rattle.step_core.specs.Changes.{IsTileStepped, ArePartsKept};
ghost use Rattle.rc_base.specs.declared.plain_lane.PlainLane.{PlainLane};
ghost use Rattle.rc_base.specs.declared.state.Parcel.{Parcel};
ghost use Rattle.tile_server.specs.Cores.{clients_of};
ghost use Rattle.tile_server.specs.declared.tile_core.TileCore.{TileCore};

use crate::landing::Landing;
use rc_base::cluster::{TileMoved, TilePart};
use rc_base::out_of_memory::OutOfMemory;
use rc_base::plain_lane::PlainLane;
use rc_base::sync::Grant;
use tile_server::TileCore;
use world_model::TileAnswer;

/// A step of the tile's core over the tile's own lanes: one for each client, and that of its grants.
pub(crate) fn step_of_tile(
    cores: &mut [TileCore],
    rows: &mut [Vec<Landing>],
    lanes: &mut [PlainLane<Grant>],
    tile: usize,
) -> Result<TileMoved, OutOfMemory>
    requires core { tile < length cores.old }
    requires row { tile < length rows.old }
    requires lane { tile < length lanes.old }
    requires clients { (a : TileCore) (r : Vec (PlainLane Parcel) Global) → length (slice_index_or rows.old tile r).items ≡ clients_of (slice_index_or cores.old tile a) }
    ensures { IsTileStepped tile result cores.old cores.new rows.old rows.new lanes.old lanes.new }
{
    cores[tile].step(&mut rows[tile], &mut lanes[tile])
}

/// The answer without the pixels of a part that was shown: the part goes behind the tile's others. Where there is no memory for that, the part is lost.
pub(crate) fn keep_shown(
    lists: &mut [Vec<TilePart>],
    tile: usize,
    moved: TileMoved,
) -> Result<TileAnswer, OutOfMemory>
    requires { tile < length lists.old }
    ensures said { IfOk result (λ answer. answer ≡ without_pixels moved) }
    ensures kept { IfOk result (λ answer. ArePartsKept tile moved lists.old lists.new) }
    ensures swapped { OnErr result (without_pixels moved ≡ Swapped) }
    ensures count { length lists.new ≡ length lists.old }
{
    match moved {
        TileMoved::Performed => Ok(TileAnswer::Performed),
        TileMoved::Swapped(part) => {
            lists[tile].push(part)?;
            Ok(TileAnswer::Swapped)
        }
        TileMoved::Learnt => Ok(TileAnswer::Learnt),
        TileMoved::Took { client } => Ok(TileAnswer::Took { client }),
        TileMoved::Held { client } => Ok(TileAnswer::Held { client }),
        TileMoved::Closed { client } => Ok(TileAnswer::Closed { client }),
        TileMoved::Dropped { client } => Ok(TileAnswer::Dropped { client }),
        TileMoved::Blocked => Ok(TileAnswer::Blocked),
        TileMoved::Ended => Ok(TileAnswer::Ended),
    }
}
