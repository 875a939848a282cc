//! One renderer, and the words of the program.
ghost use Rattle.std.specs.Prelude.{◌≡◌, ◌++◌, ◌∷◌, [], List, IfOk, IsNone, map, string_bytes};
ghost use Rattle.rc_base.specs.Formats.Within.{IsWithin};
ghost use Rattle.rc_base.specs.Orders.Journal.{IsLegal};
ghost use Rattle.rc_base.specs.Orders.Order.{IsPermitted};
ghost use Rattle.rc_base.specs.Orders.Sync.{sync_lists_of};
ghost use Rattle.rc_base.specs.declared.sync.Name.{Name as AnyName};
ghost use Rattle.command_line.specs.Filters.{BeginsFilter, NoFilter};
ghost use Rattle.uses.specs.Program.{AreFirstOf, ShowWithout};

use command_line::filters;
use order_model::laws::{
    default_journal_is_maximal, default_orders_are_permitted, scenes_within_limits,
};
use rc_base::image::Frames;
use rc_base::out_of_memory::OutOfMemory;
use rc_base::scene::Scene;
use rc_base::sync::{Journal, Order};
use serial_render::{default_order, render_order};
use show_fronts::laws::serial_frames_stay;
use spu_chain::Rules;
use std::alloc::Global;

/// The frames of an order. What stands behind the Swaps of a frame isn't seen in it: it is the frame of the order without its last name, where this
/// name lies behind its client's Swap of that number.
pub fn frames_of(
    alloc: Global,
    scene: &Scene,
    journal: &Journal,
    order: &Order,
) -> Result<Frames, OutOfMemory>
    requires within { IsWithin scene.now }
    requires legal { IsLegal (sync_lists_of scene.now) journal.now }
    requires permitted { IsPermitted (sync_lists_of scene.now) journal.now order.now }
    ensures { (front : List AnyName) (last : AnyName) → order.now ≡ front ++ last ∷ []
        → IfOk result (ShowWithout scene.now front last) }
{
    render_order(alloc, scene, journal, order)
}

/// The frames of one renderer in the default order. Of the first frames of a longer show they are those that come first in that, whatever its clients do
/// later.
pub fn first_frames_of(alloc: Global, scene: &Scene) -> Result<Frames, OutOfMemory>
    requires { IsWithin scene.now }
    ensures { IfOk result (AreFirstOf scene.now) }
{
    serial_frames_stay();
    default_journal_is_maximal();
    default_orders_are_permitted();
    scenes_within_limits();
    let (journal, order, _) = default_order(alloc, scene)?;
    render_order(alloc, scene, &journal, &order)
}

/// The rules of the filters that words begin with, and how many words these take: none, where a filter's word stands there without the words that are
/// due behind it.
pub fn rules_of(alloc: Global, words: &[String]) -> Result<Option<(Rules, usize)>, OutOfMemory>
    ensures { BeginsFilter (map string_bytes words.now) → NoFilter (map string_bytes words.now)
        → IfOk result IsNone }
{
    filters(alloc, words)
}
