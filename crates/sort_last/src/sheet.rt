//! A client's layer of a frame, drawn on a sheet that is blank before it and behind it.
ghost use Rattle.std.specs.Prelude.{◌≡◌, ◌<◌, length, slice_index_or, IfOk, OnOk};
ghost use Rattle.rc_base.specs.Cluster.Tiles.{window_rect};
ghost use Rattle.rc_base.specs.Drawing.Serial.{blank_pixel};
ghost use Rattle.draw_device.specs.Active.{IsLayerOf};
ghost use Rattle.sort_last.specs.Players.{StandIn, context_before, context_behind, pixel_behind};
ghost use Rattle.sort_last.specs.Players.{scene_window, IsBlankSheet, HoldEach};
ghost use Rattle.sort_last.specs.declared.sheet.ClientLayers.{ClientLayers as TheLayers};
ghost use Rattle.sort_last.specs.declared.play.DrawPass.TheVariants as passes;

use crate::apart::{Batch, ClientNames};
use crate::play::{DrawPass, play};
use command_store::StoredScene;
use draw_device::{ActivePixels, Device};
use gl_context::Context;
use rc_base::out_of_memory::OutOfMemory;
use rc_base::scene::Decl;
use serial_render::window;
use std::alloc::Global;

/// A device over the window, blank from one layer to the next.
#[derive(Drop)]
pub(crate) struct Sheet {
    device: Device,
}

impl Sheet {
    /// A blank one.
    pub(crate) fn new(alloc: Global, decl: &Decl) -> Result<Sheet, OutOfMemory>
        ensures { IfOk result (λ s. IsBlankSheet (window_rect decl.now.width decl.now.height) s) }
    {
        let device = Device::new(alloc, window(decl))?;
        Ok(Sheet { device })
    }

    /// Draws the layer of these commands of a client, keeps its active pixels, and blanks the run in which they stand. So neither blanking the sheet nor putting
    /// the layer before the window goes through all of it.
    pub(crate) fn draw(
        &mut self,
        batch: &Batch<'_>,
        names: ClientNames,
        context: &mut Context,
        layer: &mut ActivePixels,
    ) -> Result<(), OutOfMemory>
        requires names { StandIn batch.now.scene.now names }
        requires before { context.old ≡ context_before batch.now.scene.now names }
        requires sheet { IsBlankSheet (scene_window batch.now.scene.now) self.old }
        ensures context { OnOk result (context.new ≡ context_behind batch.now.scene.now names) }
        ensures sheet { OnOk result (IsBlankSheet (scene_window batch.now.scene.now) self.new) }
        ensures layer { OnOk result (IsLayerOf (scene_window batch.now.scene.now)
            (λ x y. pixel_behind batch.now.scene.now passes.Layer names x y blank_pixel) layer.new) }
    {
        play(DrawPass::Layer, batch, names, context, &mut self.device)?;
        let run = self.device.drawn();
        self.device.copy_active(run, layer)?;
        self.device.blank(run);
        Ok(())
    }
}

/// A client's layers that are put together: those of a batch's frames, from its first one on, and spare ones.
#[derive(Drop)]
pub(crate) struct ClientLayers {
    pub(crate) layers: Vec<ActivePixels>,
}

impl ClientLayers {
    /// The layer of a frame, by its place from the first frame of the batch on.
    pub(crate) fn layer(&self, place: usize) -> &ActivePixels
        requires { place < length self.now.layers.items }
        ensures { result.now ≡ slice_index_or self.now.layers.items place result.now }
    {
        &self.layers[place]
    }
}

/// The layers of each client before the first frame: none.
pub(crate) fn no_layers(
    alloc: Global,
    scene: &StoredScene,
) -> Result<Vec<ClientLayers>, OutOfMemory>
    ensures { IfOk result (λ v. HoldEach scene.now 0 0 v.items) }
{
    let mut layers = Vec::new(alloc);
    for _ in 0..scene.streams().len() {
        layers.push(ClientLayers {
            layers: Vec::new(alloc),
        })?;
    }
    Ok(layers)
}

/// Those of one client.
pub(crate) fn layers_at(layers: &[ClientLayers], client: usize) -> &ClientLayers
    requires { client < length layers.now }
    ensures { (l : TheLayers) → result.now ≡ slice_index_or layers.now client l }
{
    &layers[client]
}
