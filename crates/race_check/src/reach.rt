//! What a command may use, by the box of what it draws.
ghost use Rattle.std.specs.Prelude.{◌≡◌, ◌≤◌, ◌<◌, ℕ, true, pos, ◌≤ℤ◌, ◌<ℤ◌, IfSome, Some};
ghost use Rattle.rc_base.specs.Drawing.Texel.{samples_shared};
ghost use Rattle.rc_base.specs.Drawing.Touch.{may_sample, touches, writes_shared};
ghost use Rattle.rc_base.specs.declared.state.State.{State as AnyState};
ghost use Rattle.bounds_bucket.specs.Boxes.{HoldsTouched};
ghost use Rattle.race_check.specs.Touches.{part_has};
ghost use Rattle.race_check.specs.Outlines.{HoldsAll, IsReachOf, touching, IsAmong, no_reach, nowhere};

use crate::range::Range;
use bounds_bucket::{block_box, clear_box};
use rc_base::state::{Effect, State};
use rc_base::window::{Rect, window_rect};

/// Rows and columns of the window outside which a command touches no pixel, the shared texture that it may sample, and the one that it may write.
#[derive(Clone, Copy)]
pub struct Reach {
    pub rows: Range,
    pub columns: Range,
    pub samples: Range,
    pub writes: Range,
}

fn nothing() -> Range
    ensures { result ≡ nowhere }
{
    Range { from: 0, to: 0 }
}

fn only(texture: u8) -> Range
    ensures inside { result.to ≤ 256 }
    ensures has { IsAmong result texture }
{
    Range {
        from: texture as usize,
        to: texture as usize + 1,
    }
}

// Where numbers from `low` on begin.
fn from_of(low: i32) -> usize
    ensures { (k : ℕ) → low ≤ℤ pos k → result ≤ k }
{
    if low <= 0 { 0 } else { low as usize }
}

// Where numbers below `high` and `side` end.
fn to_of(high: i32, side: u16) -> usize
    ensures inside { result ≤ side }
    ensures all { (k : ℕ) → k < side → pos k <ℤ high → k < result }
{
    if high <= 0 {
        0
    } else if high >= i32::from(side) {
        side as usize
    } else {
        high as usize
    }
}

// The numbers below `side` from `low` to below `high`.
fn range_in(low: i32, high: i32, side: u16) -> Range
    ensures inside { result.to ≤ side }
    ensures all { (k : ℕ) → k < side → low ≤ℤ pos k → pos k <ℤ high → IsAmong result k }
{
    Range {
        from: from_of(low),
        to: to_of(high, side),
    }
}

// The box of what a command draws.
fn box_of(state: &State, effect: &Effect, window: Rect) -> Option<Rect>
    ensures { HoldsTouched state.now effect.now window result }
{
    match effect {
        Effect::Block(block) => block_box(state, block, window),
        Effect::Clear(_) => clear_box(state, window),
        _ => None,
    }
}

// Rows and columns of the window.
#[derive(Clone, Copy)]
struct Area {
    rows: Range,
    columns: Range,
}

// The rows and columns of the window that a rectangle has.
fn area_in(rect: Rect, width: u16, height: u16) -> Area
    ensures inside { (result.rows.to ≤ height) × (result.columns.to ≤ width) }
    ensures all { HoldsAll width height (part_has rect) result }
{
    let rows = range_in(rect.y0, rect.y1, height);
    let columns = range_in(rect.x0, rect.x1, width);
    Area { rows, columns }
}

// The rows and columns of the box of what a command draws.
fn area_of(state: &State, effect: &Effect, width: u16, height: u16) -> Area
    ensures inside { (result.rows.to ≤ height) × (result.columns.to ≤ width) }
    ensures all { HoldsAll width height (touching state.now effect.now) result }
{
    match box_of(state, effect, window_rect(width, height)) {
        Some(rect) => area_in(rect, width, height),
        None => Area {
            rows: nothing(),
            columns: nothing(),
        },
    }
}

/// The shared texture that a state's draws sample.
pub fn sampled_texture(state: &State) -> Option<u8>
    ensures only { (t : ℕ) → samples_shared state.now t ≡ true → result ≡ Some t }
    ensures is { IfSome result (λ t. samples_shared state.now t ≡ true) }
{
    if state.texture_on && state.binding[0] == 1 {
        return Some(state.binding[1]);
    }
    None
}

// The shared texture that a command may sample.
fn samples_of(state: &State, effect: &Effect) -> Range
    ensures inside { result.to ≤ 256 }
    ensures all { (t : ℕ) → may_sample state.now effect.now t ≡ true → IsAmong result t }
{
    match effect {
        Effect::Block(_) => match sampled_texture(state) {
            Some(texture) => only(texture),
            None => nothing(),
        },
        _ => nothing(),
    }
}

// The shared texture that a command may write.
fn writes_of(effect: &Effect) -> Range
    ensures inside { result.to ≤ 256 }
    ensures all { (t : ℕ) → writes_shared effect.now t ≡ true → IsAmong result t }
{
    match effect {
        Effect::Shared(part) => only(part.name),
        _ => nothing(),
    }
}

/// Whether a command neither draws nor writes a shared texture.
pub fn is_quiet(effect: &Effect) -> bool
    ensures { result ≡ true → (s : AnyState) (w h : ℕ) → IsReachOf s effect.now w h no_reach }
{
    match effect {
        Effect::Block(_) => false,
        Effect::Clear(_) => false,
        Effect::Shared(_) => false,
        _ => true,
    }
}

/// What a command may use of a window whose sides are in pixels.
pub fn reach_of(state: &State, effect: &Effect, width: u16, height: u16) -> Reach
    ensures { IsReachOf state.now effect.now width height result }
{
    let area = area_of(state, effect, width, height);
    Reach {
        rows: area.rows,
        columns: area.columns,
        samples: samples_of(state, effect),
        writes: writes_of(effect),
    }
}
