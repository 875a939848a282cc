//! Contexts of clients, and what tiles are told of them.
ghost use Rattle.std.specs.Prelude.{◌≡◌, ◌≢◌, ℕ, ◌<◌, ◌≤◌, ◌^◌, [], Some, IfOk, length};
ghost use Rattle.rc_base.specs.Contexts.Elements.{scalar_count};
ghost use Rattle.rc_base.specs.Contexts.Faults.{fault_of};
ghost use Rattle.rc_base.specs.declared.state.ElementValue.{ElementValue};
ghost use Rattle.rc_base.specs.declared.state.Fault.{Fault as AnyFault};
ghost use Rattle.gl_context.specs.Arguments.{HasTexels};
ghost use Rattle.gl_context.specs.Edits.{HasRoomForEdits};
ghost use Rattle.state_update.specs.Knowledge.{HasBoundTexture, IsSettled, Knows, pending};
ghost use Rattle.uses.specs.Contexts.{AreUnchanged};

use dirty_bits::Looks;
use gl_context::Context;
use rc_base::command::Command;
use rc_base::out_of_memory::OutOfMemory;
use rc_base::state::{Effect, Sets};
use state_update::Tracker;

/// Issues a command. A refused one leaves the open block, with the vertices that it has.
pub fn issued(context: &mut Context, place: u32, command: &Command) -> Result<Effect, OutOfMemory>
    requires texels { HasTexels command.now }
    requires room { HasRoomForEdits context.old }
    ensures { (fault : AnyFault) → fault_of context.old command.now ≡ Some fault
        → context.new.block ≡ context.old.block }
{
    context.issue(place, command)
}

/// Tells a tile what has changed for it. All that is pending to another tile stays so.
pub fn told_apart(
    tracker: &mut Tracker,
    context: &Context,
    tile: u8,
    draws: bool,
    looks: &mut Looks,
) -> Result<Sets, OutOfMemory>
    requires tile { tile < length tracker.old.told }
    requires server { tile < 32 }
    requires bound { HasBoundTexture context.now }
    requires settled { IsSettled tracker.old tile context.now }
    requires room { looks.old < 2 ^ 62 }
    ensures { (other e : ℕ) → other < 32 → other ≢ tile
        → pending tracker.new other e ≡ pending tracker.old other e }
{
    tracker.update(context, tile, draws, looks)
}

/// Tells a tile what has changed for it. Where each element is as the tile was told, though some were set and set back, as blending may be, there are no
/// sets.
pub fn told_again(
    tracker: &mut Tracker,
    context: &Context,
    tile: u8,
    draws: bool,
    looks: &mut Looks,
) -> Result<Sets, OutOfMemory>
    requires tile { tile < length tracker.old.told }
    requires server { tile < 32 }
    requires bound { HasBoundTexture context.now }
    requires settled { IsSettled tracker.old tile context.now }
    requires room { looks.old < 2 ^ 62 }
    ensures { (values : ℕ → ElementValue) → Knows tracker.old tile values
        → AreUnchanged values context.now → IfOk result (λ sets. sets ≡ []) }
{
    tracker.update(context, tile, draws, looks)
}

/// Tells a tile what has changed for a Clear. An image that is pending to the tile stays so, and is told before the block that samples it.
pub fn told_for_a_clear(
    tracker: &mut Tracker,
    context: &Context,
    tile: u8,
    looks: &mut Looks,
) -> Result<Sets, OutOfMemory>
    requires tile { tile < length tracker.old.told }
    requires server { tile < 32 }
    requires bound { HasBoundTexture context.now }
    requires settled { IsSettled tracker.old tile context.now }
    requires room { looks.old < 2 ^ 62 }
    ensures { (e : ℕ) → scalar_count ≤ e → pending tracker.new tile e ≡ pending tracker.old tile e }
{
    tracker.update(context, tile, false, looks)
}
