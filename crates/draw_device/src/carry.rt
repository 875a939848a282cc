//! Carrying out an effect.
ghost use Rattle.std.specs.Prelude.{◌≡◌};
ghost use Rattle.rc_base.specs.Cluster.Parcels.{effect_by};
ghost use Rattle.rc_base.specs.Drawing.PixelStep.{effect_step};
ghost use Rattle.rc_base.specs.declared.command.Part.{Part};
ghost use Rattle.rc_base.specs.declared.state.Effect.TheVariants as eff;
ghost use Rattle.textures.specs.Images.{texture_image};
ghost use Rattle.draw_device.specs.Conditions.{IsDrawable, IsClearable, shared_of};
ghost use Rattle.draw_device.specs.Devices.{EachTakes};
ghost use Rattle.draw_device.specs.Stored.{IsStorable, set_after};

use crate::device::Device;
use rc_base::state::{Act, Effect, State};
use textures::{PrivateSet, SharedSet};

/// The effect that an act carries to a tile. It is moved, vertices and texels with it.
pub fn effect_of(act: Act) -> Effect
    ensures { result ≡ effect_by act }
{
    match act {
        Act::Draw(block) => Effect::Block(block),
        Act::Clear(mask) => Effect::Clear(mask),
        Act::Shared(part) => Effect::Shared(part),
        Act::Sync(op) => Effect::Sync(op),
        Act::End => Effect::Quiet,
    }
}

/// Does what an effect asks of pixels and shared textures, with a state and private textures: each pixel of the device takes the effect's step, and a part
/// is written into its shared texture. An operation, a refused command and a quiet one change nothing. It takes no memory.
#[inline(always)]
pub fn carry_out(
    effect: &Effect,
    state: &State,
    privates: &PrivateSet,
    device: &mut Device,
    shared: &mut SharedSet,
)
    requires drawable { IsDrawable state.now privates.now shared.old }
    requires clearable { IsClearable state.now }
    requires writable { (part : Part) → effect.now ≡ eff.Shared part → IsStorable part shared.old }
    ensures rect { device.new.rect ≡ device.old.rect }
    ensures drawn { EachTakes (effect_step state.now (texture_image privates.now) (shared_of shared.old) effect.now) device.old device.new }
    ensures shared { shared.new ≡ set_after effect.now shared.old }
{
    match effect {
        Effect::Block(block) => device.draw(state, block, privates, shared),
        Effect::Clear(mask) => device.clear(state, *mask),
        Effect::Shared(part) => shared.write(part),
        Effect::Quiet | Effect::Refused(_) | Effect::Sync(_) => {}
    }
}
