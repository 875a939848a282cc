//! Boxes of blocks and Clears, the tiles that they meet, and layouts.
ghost use Rattle.std.specs.Prelude.{◌≡◌, ℕ, ℤ, ◌<◌, ◌≤◌, false, true, pos, Err, IfSome, length};
ghost use Rattle.raster.specs.Clips.{is_let_through};
ghost use Rattle.rc_base.specs.Cluster.ObjectBox.{block_clip, may_be_near};
ghost use Rattle.rc_base.specs.Cluster.Tiles.{is_in_rect, tile_count, tile_pixels};
ghost use Rattle.rc_base.specs.Drawing.Touch.{block_touches};
ghost use Rattle.rc_base.specs.Drawing.Triangles.{cut_modes, triangles_in};
ghost use Rattle.rc_base.specs.Orders.Journal.{has};
ghost use Rattle.bounds_bucket.specs.Tiles.{meets_area};
ghost use Rattle.uses.specs.Boxes.{HasPixel};

use bounds_bucket::{block_box, clear_box, layout, meets, touched_pixels_lie_in_the_box};
use rc_base::scene::Limit;
use rc_base::state::{Block, State};
use rc_base::window::{Layout, Rect, window_rect};

/// The box of a block of version 2. Where a triangle of it may come nearer than the near plane, the box has each pixel of the window that the viewport and
/// the scissor box let through.
pub fn near_box(state: &State, block: &Block, window: Rect) -> Option<Rect>
    requires { cut_modes ≤ block.now.mode }
    ensures { 0 < length (triangles_in block.now)
        → may_be_near (block_clip state.now block.now) ≡ true
        → (x y : ℤ) → is_in_rect window x y ≡ true → is_let_through state.now x y ≡ true
        → HasPixel result x y }
{
    block_box(state, block, window)
}

/// The tiles that meet a box, where there is one.
fn met(layout: &Layout, area: Option<Rect>) -> u32
    ensures { IfSome area (λ r. (tile : ℕ) → tile < 32
        → has result tile ≡ meets_area layout.now r tile) }
{
    match area {
        Some(r) => meets(layout, r),
        None => 0,
    }
}

/// The tiles to which a block is sent: bit `t` for tile `t`. Each tile is among them that has a pixel that the block touches, near whichever corner of a
/// triangle.
pub fn bucket(layout: &Layout, state: &State, block: &Block) -> u32
    requires { tile_count layout.now ≤ 32 }
    ensures { (tile x y : ℕ) → tile < tile_count layout.now → tile_pixels layout.now tile x y ≡ true
        → block_touches state.now block.now (pos x) (pos y) ≡ true → has result tile ≡ true }
{
    touched_pixels_lie_in_the_box();
    let window = window_rect(layout.width, layout.height);
    met(layout, block_box(state, block, window))
}

/// The tiles to which a Clear is sent. Where the scissor box is off, each tile with a pixel is among them, whatever the viewport.
pub fn clear_bucket(layout: &Layout, state: &State) -> u32
    requires { tile_count layout.now ≤ 32 }
    ensures { state.now.scissor_on ≡ false → (tile x y : ℕ) → tile < tile_count layout.now
        → tile_pixels layout.now tile x y ≡ true → has result tile ≡ true }
{
    touched_pixels_lie_in_the_box();
    let window = window_rect(layout.width, layout.height);
    met(layout, clear_box(state, window))
}

/// The layout of a window. Too many columns are told as such, however many tiles they make.
pub fn laid_out(
    width: u16,
    height: u16,
    columns: u64,
    rows: u64,
    depth: u64,
) -> Result<Layout, Limit>
    requires { 8 < columns }
    ensures { result ≡ Err record { what = 14; value = columns } }
{
    layout(width, height, columns, rows, depth)
}
