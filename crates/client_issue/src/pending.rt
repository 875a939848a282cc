//! Parcels of a command that are still to be made.
ghost use Rattle.std.specs.Prelude.{◌≡◌, ℕ, ◌<◌, MatchOption, MatchResult, Some, false};
ghost use Rattle.rc_base.specs.declared.state.Effect.{Effect};
ghost use Rattle.client_issue.specs.Acts.{act_by, asks_of};
ghost use Rattle.client_issue.specs.First.{IsFirst, IsTileCount};

use crate::acts::{act_of, next_tile, tiles_of};
use parcel_bytes::Packed;
use rc_base::state::{Act, Effect, State};
use rc_base::window::Layout;

/// The command at `place` asks this of these tiles, of which `tile` is next. Where an earlier tile got its parcel, `made` is that parcel.
#[derive(Drop)]
pub(crate) struct Pending {
    pub place: u32,
    pub act: Act,
    pub tiles: u32,
    pub tile: u8,
    pub made: Option<Packed>,
}

/// What an act gives to tiles, or the act, where it goes to none.
#[inline(always)]
pub(crate) fn first_of(
    layout: &Layout,
    count: u8,
    state: &State,
    place: u32,
    act: Act,
) -> Result<Pending, Act>
    requires { IsTileCount layout.now count }
    ensures { (effect : Effect) → act_by effect ≡ Some act
        → MatchResult result (IsFirst layout.now state.now place effect) (λ _. (t : ℕ) → t < count → asks_of layout.now state.now effect t ≡ false) }
{
    let tiles = tiles_of(layout, state, &act);
    let tile = next_tile(tiles, 0, count);
    if tile < count {
        Ok(Pending {
            place,
            act,
            tiles,
            tile,
            made: None,
        })
    } else {
        Err(act)
    }
}

/// What an effect gives to tiles, if anything.
pub(crate) fn pending_of(
    layout: &Layout,
    count: u8,
    state: &State,
    place: u32,
    effect: Effect,
) -> Option<Pending>
    requires { IsTileCount layout.now count }
    ensures { MatchOption result ((t : ℕ) → t < count → asks_of layout.now state.now effect t ≡ false) (IsFirst layout.now state.now place effect) }
{
    let act = act_of(effect)?;
    first_of(layout, count, state, place, act).ok()
}
