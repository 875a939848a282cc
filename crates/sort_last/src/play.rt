//! One pass over a client's commands, carried out on a device.
ghost use Rattle.std.specs.Prelude.{◌≡◌, OnOk};
ghost use Rattle.draw_device.specs.Conditions.{IsDrawable, IsClearable};
ghost use Rattle.draw_device.specs.Devices.{EachTakes};
ghost use Rattle.sort_last.specs.Players.{HasEffect, StandIn, context_before, context_behind, pixel_behind};
ghost use Rattle.sort_last.specs.declared.play.DrawPass.TheVariants as passes;

use crate::apart::{Batch, ClientNames};
use draw_device::Device;
use gl_context::Context;
use rc_base::out_of_memory::OutOfMemory;
use rc_base::state::Effect;
use stream_replay::issue_at;
use textures::SharedSet;

/// A pass over a client's commands: which of them draw, those of its layer or its Clears.
#[derive(Clone, Copy)]
pub(crate) enum DrawPass {
    Layer,
    Clears,
}

// A block changes the device.
fn draw_block(effect: &Effect, context: &Context, device: &mut Device, shared: &SharedSet)
    requires { IsDrawable context.now.state context.now.images shared.now }
    ensures rect { device.new.rect ≡ device.old.rect }
    ensures drawn { HasEffect passes.Layer effect.now context.now shared.now device.old device.new }
{
    if let Effect::Block(block) = effect {
        device.draw(context.state(), block, context.private(), shared);
    }
}

// A Clear changes the device.
fn clear(effect: &Effect, context: &Context, device: &mut Device, shared: &SharedSet)
    requires { IsClearable context.now.state }
    ensures rect { device.new.rect ≡ device.old.rect }
    ensures drawn { HasEffect passes.Clears effect.now context.now shared.now device.old device.new }
{
    let _shared = shared;
    if let Effect::Clear(mask) = effect {
        device.clear(context.state(), *mask);
    }
}

// What a command of the pass does beyond its context.
fn carry_out(
    pass: DrawPass,
    effect: &Effect,
    context: &Context,
    device: &mut Device,
    shared: &SharedSet,
)
    requires drawable { IsDrawable context.now.state context.now.images shared.now }
    requires clearable { IsClearable context.now.state }
    ensures rect { device.new.rect ≡ device.old.rect }
    ensures drawn { HasEffect pass effect.now context.now shared.now device.old device.new }
{
    match pass {
        DrawPass::Layer => draw_block(effect, context, device, shared),
        DrawPass::Clears => clear(effect, context, device, shared),
    }
}

/// Issues these commands of a client, and carries out those of the pass.
pub(crate) fn play(
    pass: DrawPass,
    batch: &Batch<'_>,
    names: ClientNames,
    context: &mut Context,
    device: &mut Device,
) -> Result<(), OutOfMemory>
    requires names { StandIn batch.now.scene.now names }
    requires before { context.old ≡ context_before batch.now.scene.now names }
    ensures context { OnOk result (context.new ≡ context_behind batch.now.scene.now names) }
    ensures rect { OnOk result (device.new.rect ≡ device.old.rect) }
    ensures drawn { OnOk result
        (EachTakes (pixel_behind batch.now.scene.now pass names) device.old device.new) }
{
    for place in names.from..names.to {
        let effect = issue_at(context, batch.scene, names.client, place)?;
        carry_out(pass, &effect, context, device, batch.shared);
        context.take_back(effect);
    }
    Ok(())
}
