//! Drawing, clearing and writing shared textures.
ghost use Rattle.std.specs.Prelude.{◌≡◌};
ghost use Rattle.rc_base.specs.Cluster.Parcels.{effect_by};
ghost use Rattle.rc_base.specs.declared.state.Effect.TheVariants as eff;
ghost use Rattle.geometry.specs.Listed.{listed_block};
ghost use Rattle.draw_device.specs.Conditions.{IsDrawable};
ghost use Rattle.draw_device.specs.Stored.{set_after};
ghost use Rattle.tile_server.specs.Switched.{CanDrawFor, CanWorkFor, IsStateNow, IsSwitchedOn};
ghost use Rattle.tile_server.specs.Works.{MayStore, TakesEffect};

use crate::hardware::Hardware;
use crate::kept::KeptClient;
use draw_device::{LazyDevice, effect_of};
use geometry::{ListedBlock, listed};
use rc_base::state::{Act, Effect, Vertices};
use textures::SharedSet;

// The vertices of a block that was drawn.
fn vertices_of(done: Effect) -> Option<Vertices> {
    match done {
        Effect::Block(block) => Some(block.vertices),
        _ => None,
    }
}

// Does what an effect asks. Before a block the state that the device draws with becomes the client's.
fn perform(
    hw: &mut Hardware,
    client: u8,
    kept: &KeptClient,
    effect: &Effect,
    device: &mut LazyDevice,
    shared: &mut SharedSet,
)
    requires ready { CanWorkFor hw.old client kept.now device.old shared.old }
    requires writable { MayStore effect.now shared.old }
    ensures switched { IsSwitchedOn client kept.now.state hw.old hw.new device.old device.new }
    ensures drawn { TakesEffect kept.now shared.old effect.now device.old device.new }
    ensures shared { shared.new ≡ set_after effect.now shared.old }
{
    let Effect::Block(block) = effect else {
        device.carry_out(effect, &kept.state, &kept.images, shared);
        return;
    };
    draw(hw, client, kept, &listed(block), device, shared);
}

/// Draws a block, with what is kept of its client: the state that the device draws with becomes the client's, where it isn't known to be.
pub(crate) fn draw(
    hw: &mut Hardware,
    client: u8,
    kept: &KeptClient,
    block: &ListedBlock<'_>,
    device: &mut LazyDevice,
    shared: &SharedSet,
)
    requires hardware { CanDrawFor hw.old client kept.now device.old }
    requires drawable { IsDrawable kept.now.state kept.now.images shared.now }
    ensures rect { device.new.rect ≡ device.old.rect }
    ensures aimed { hw.new.rect ≡ hw.old.rect }
    ensures switched { IsStateNow client kept.now.state hw.new }
    ensures drawn { TakesEffect kept.now shared.now (eff.Block (listed_block block.now)) device.old device.new }
{
    hw.settle(client, &kept.state, device);
    device.draw_prepared(&hw.state, &hw.prepared, block, &kept.images, shared);
}

/// Does what an act asks, with what is kept of its client. A block's vertices are handed back.
pub(crate) fn work(
    hw: &mut Hardware,
    client: u8,
    kept: &KeptClient,
    act: Act,
    device: &mut LazyDevice,
    shared: &mut SharedSet,
) -> Option<Vertices>
    requires ready { CanWorkFor hw.old client kept.now device.old shared.old }
    requires writable { MayStore (effect_by act) shared.old }
    ensures switched { IsSwitchedOn client kept.now.state hw.old hw.new device.old device.new }
    ensures drawn { TakesEffect kept.now shared.old (effect_by act) device.old device.new }
    ensures shared { shared.new ≡ set_after (effect_by act) shared.old }
{
    let effect = effect_of(act);
    perform(hw, client, kept, &effect, device, shared);
    vertices_of(effect)
}
