//! What an effect asks of tiles, and of which.
ghost use Rattle.std.specs.Prelude.{◌≡◌, ℕ, ◌<◌, ◌≤◌, ◌^◌, ◌-◌, true, false, Option};
ghost use Rattle.rc_base.specs.Orders.Journal.{has};
ghost use Rattle.rc_base.specs.Cluster.Tiles.{tile_count, meets_tile};
ghost use Rattle.rc_base.specs.declared.state.Effect.TheVariants as eff;
ghost use Rattle.client_issue.specs.Acts.{act_by, goes_to};

use bounds_bucket::{block_box, clear_box, meets};
use rc_base::state::{Act, Block, Effect, State};
use rc_base::sync::has;
use rc_base::window::{Layout, window_rect};

/// What the effect asks of tiles, if anything.
pub(crate) fn act_of(effect: Effect) -> Option<Act>
    ensures { result ≡ act_by effect }
{
    match effect {
        Effect::Block(block) => Some(Act::Draw(block)),
        Effect::Clear(mask) => Some(Act::Clear(mask)),
        Effect::Shared(part) => Some(Act::Shared(part)),
        Effect::Sync(op) => Some(Act::Sync(op)),
        Effect::Quiet | Effect::Refused(_) => None,
    }
}

fn block_tiles(layout: &Layout, state: &State, block: &Block) -> u32
    requires { tile_count layout.now ≤ 32 }
    ensures { (t : ℕ) → t < tile_count layout.now → has result t ≡ meets_tile layout.now state.now (eff.Block block.now) t }
{
    match block_box(state, block, window_rect(layout.width, layout.height)) {
        Some(rect) => meets(layout, rect),
        None => 0,
    }
}

fn clear_tiles(layout: &Layout, state: &State, _mask: u8) -> u32
    requires { tile_count layout.now ≤ 32 }
    ensures { (t : ℕ) → t < tile_count layout.now → has result t ≡ meets_tile layout.now state.now (eff.Clear _mask) t }
{
    match clear_box(state, window_rect(layout.width, layout.height)) {
        Some(rect) => meets(layout, rect),
        None => 0,
    }
}

/// The tiles that the act goes to: where its box meets them a draw and a Clear, and all others to every tile.
pub(crate) fn tiles_of(layout: &Layout, state: &State, act: &Act) -> u32
    requires { tile_count layout.now ≤ 32 }
    ensures { (t : ℕ) → t < tile_count layout.now → has result t ≡ goes_to layout.now state.now act.now t }
{
    match act {
        Act::Draw(block) => block_tiles(layout, state, block),
        Act::Clear(mask) => clear_tiles(layout, state, *mask),
        Act::Shared(_) => u32::MAX,
        Act::Sync(_) => u32::MAX,
        Act::End => u32::MAX,
    }
}

/// The first tile of the set from `from` on, or else `count`.
pub(crate) fn next_tile(tiles: u32, from: u8, count: u8) -> u8
    requires from { from ≤ count }
    requires count { count ≤ 32 }
    ensures low { from ≤ result }
    ensures high { result ≤ count }
    ensures none { (t : ℕ) → from ≤ t → t < result → has tiles t ≡ false }
    ensures found { result < count → has tiles result ≡ true }
{
    for tile in from..count {
        if has(tiles, tile) {
            return tile;
        }
    }
    count
}
