//! The frames of a scene whose clients are drawn apart.
ghost use Rattle.std.specs.Prelude.{◌≡◌, ◌+◌, ◌*◌, ◌<◌, ◌≤◌, fold, map, length, IfOk, OnOk};
ghost use Rattle.std.specs.List.{range_with_len};
ghost use Rattle.rc_base.specs.Drawing.Nearer.{nearer};
ghost use Rattle.rc_base.specs.Formats.Within.{IsWithin};
ghost use Rattle.rc_base.specs.Orders.Sync.{sync_lists_of};
ghost use Rattle.draw_device.specs.Devices.{AreNear, EachTakes};
ghost use Rattle.serial_render.specs.Shown.{images_of};
ghost use Rattle.sort_last.specs.Apart.{HaveFrames};
ghost use Rattle.sort_last.specs.Composed.{IsComposed, IsUpTo, IsComposing};
ghost use Rattle.sort_last.specs.Layers.{composed_pixel, layer_pixel};
ghost use Rattle.sort_last.specs.Offends.{IsComposable};
ghost use Rattle.sort_last.specs.Players.{scene_window, IsInBatch, HaveDrawn, HoldEach, HaveLayers, Follows};

use crate::apart::Batch;
use crate::play::{DrawPass, play};
use crate::player::{Player, draw_batch, exchange_layers, frame_names, longest_layer, players_of};
use crate::sheet::{ClientLayers, layers_at, no_layers};
use command_store::StoredScene;
use draw_device::Device;
use gl_context::Context;
use rc_base::image::Frames;
use rc_base::out_of_memory::OutOfMemory;
use rc_base::scene::Decl;
use rc_base::sync::SyncLists;
use serial_render::{show_up_to, window};
use std::alloc::Global;
use std::thread::{Threads, join_mut};
use textures::SharedSet;

// So many active pixels of a client are drawn ahead, eight bytes each, and as many that were drawn before are put together meanwhile.
const PIXELS_AHEAD: usize = 1_048_576;

// At most so many, whatever the next layers are: they may fill the window though those before them were small.
const MOST_AHEAD: usize = 4_194_304;

// How many pixels the window has.
fn window_size(decl: &Decl) -> usize
    ensures { result ≡ decl.now.width * decl.now.height }
{
    usize::from(decl.width) * usize::from(decl.height)
}

// How many layers have room, of so many pixels each; and one at least.
fn layers_in(room: usize, pixels: usize) -> usize
    ensures { 0 < result }
{
    if pixels == 0 {
        return if room == 0 { 1 } else { room };
    }
    let layers = room / pixels;
    if layers == 0 { 1 } else { layers }
}

// How many frames are drawn ahead, where the longest layer before them had so many active pixels. So threads are started once for much work, also where
// frames are small or little is drawn in each, and a frame that is dearer for one client than for the others keeps them waiting less.
fn frames_ahead(decl: &Decl, longest: usize) -> usize
    ensures { 0 < result }
{
    let most = layers_in(MOST_AHEAD, window_size(decl));
    let frames = layers_in(PIXELS_AHEAD, longest);
    if most < frames { most } else { frames }
}

// Where a batch of so many frames ends, or where it has half of the frames that are left: the last ones are put together while nothing is drawn beside.
fn batch_end(first: usize, ahead: usize, count: usize) -> usize
    requires first { first ≤ count }
    requires ahead { 0 < ahead }
    ensures least { first ≤ result }
    ensures some { first < count → first < result }
    ensures most { result ≤ count }
{
    let left = count - first;
    let half = left - left / 2;
    if half < ahead {
        first + half
    } else {
        first + ahead
    }
}

// A frame's layers, clients rising, are put before the window where they are nearer.
fn put_layers(batch: &Batch<'_>, layers: &[ClientLayers], device: &mut Device, frame: usize)
    requires frame { IsInBatch batch.now frame }
    requires layers { HaveLayers batch.now layers.now }
    requires rect { device.old.rect ≡ scene_window batch.now.scene.now }
    requires near { AreNear device.old }
    ensures rect { device.new.rect ≡ device.old.rect }
    ensures drawn { EachTakes (λ x y p. fold nearer p
        (map (λ c. layer_pixel batch.now.scene.now c (frame + 1) x y)
        (range_with_len 0 (length batch.now.scene.now.streams)))) device.old device.new }
{
    for client in 0..layers.len() {
        let layer = layers_at(layers, client).layer(frame - batch.first);
        device.take_nearer(layer);
    }
}

/// The window, the layers that are put together in it, and the frames that come of them.
#[derive(Drop)]
struct Window {
    /// Those of each client.
    layers: Vec<ClientLayers>,
    /// The context of client 0 behind the Clears that were carried out on the window.
    clears: Context,
    device: Device,
    frames: Frames,
}

impl Window {
    // Before the first frame.
    fn new(alloc: Global, scene: &StoredScene) -> Result<Window, OutOfMemory>
        ensures layers { IfOk result (λ w. HoldEach scene.now 0 0 w.layers.items) }
        ensures composed { IfOk result (λ w. IsComposed scene.now 0 w) }
    {
        Ok(Window {
            layers: no_layers(alloc, scene)?,
            clears: Context::new(alloc, scene.decl())?,
            device: Device::new(alloc, window(scene.decl()))?,
            frames: Frames::new(alloc),
        })
    }

    // One more frame of the batch: client 0's Clears of it, and then the clients' layers where they are nearer.
    fn compose_frame(
        &mut self,
        alloc: Global,
        batch: &Batch<'_>,
        frame: usize,
    ) -> Result<(), OutOfMemory>
        requires frame { IsInBatch batch.now frame }
        requires before { IsComposing batch.now frame self.old }
        ensures { OnOk result (IsComposing batch.now (frame + 1) self.new) }
    {
        let names = frame_names(batch, 0, frame);
        play(
            DrawPass::Clears,
            batch,
            names,
            &mut self.clears,
            &mut self.device,
        )?;
        put_layers(batch, self.layers.as_slice(), &mut self.device, frame);
        show_up_to(
            alloc,
            batch.scene.decl(),
            &self.device,
            &mut self.frames,
            frame + 1,
        )?;
        Ok(())
    }

    // The frames of the batch, one after the other.
    fn compose(&mut self, alloc: Global, batch: &Batch<'_>) -> Result<(), OutOfMemory>
        requires { IsComposing batch.now batch.now.first self.old }
        ensures { OnOk result (IsComposing batch.now batch.now.end self.new) }
    {
        for frame in batch.first..batch.end {
            self.compose_frame(alloc, batch, frame)?;
        }
        Ok(())
    }
}

// The layers of a batch are put together and shown in a thread of its own, while each client draws its layers of the next batch. Where either lacks
// memory, both have ended before that is answered.
fn compose_beside(
    rt: &(impl Threads + Sync),
    alloc: Global,
    batch: &Batch<'_>,
    next: &Batch<'_>,
    window: &mut Window,
    players: &mut [Player],
) -> Result<(), OutOfMemory>
    requires window { IsComposing batch.now batch.now.first window.old }
    requires players { HaveDrawn next.now.scene.now next.now.first next.now.first players.old }
    ensures window { OnOk result (IsComposing batch.now batch.now.end window.new) }
    ensures players { OnOk result (HaveDrawn next.now.scene.now next.now.first next.now.end players.new) }
{
    let mut compose = || -> Result<(), OutOfMemory>
        requires { IsComposing batch.now batch.now.first window.now }
        ensures { OnOk result (IsComposing batch.entry.now batch.entry.now.end window.exit.now) }
    { window.compose(alloc, batch) };
    let mut draw = || -> Result<(), OutOfMemory>
        requires { HaveDrawn next.now.scene.now next.now.first next.now.first players.now }
        ensures { OnOk result
            (HaveDrawn next.entry.now.scene.now next.entry.now.first next.entry.now.end players.exit.now) }
    { draw_batch(rt, alloc, next, players) };
    let (composed, drawn) = join_mut(rt, &mut compose, &mut draw);
    composed?;
    drawn
}

/// Clients that draw their layers of a batch of frames, and the window, in which those of the batch before it are put together meanwhile.
#[derive(Drop)]
struct Composition {
    players: Vec<Player>,
    window: Window,
}

impl Composition {
    // Before the first frame.
    fn new(
        rt: &(impl Threads + Sync),
        alloc: Global,
        scene: &StoredScene,
    ) -> Result<Composition, OutOfMemory>
        ensures { IfOk result (λ c. IsUpTo scene.now 0 0 c) }
    {
        Ok(Composition {
            players: players_of(rt, alloc, scene)?,
            window: Window::new(alloc, scene)?,
        })
    }

    // The layers of the first batch, with nothing to put together beside.
    fn draw_first(
        &mut self,
        rt: &(impl Threads + Sync),
        alloc: Global,
        batch: &Batch<'_>,
    ) -> Result<(), OutOfMemory>
        requires { IsUpTo batch.now.scene.now batch.now.first batch.now.first self.old }
        ensures { OnOk result (IsUpTo batch.now.scene.now batch.now.first batch.now.end self.new) }
    {
        draw_batch(rt, alloc, batch, self.players.as_mut_slice())
    }

    // The frames of a batch whose layers are drawn, and meanwhile the clients' layers of the batch behind it.
    fn show_batch(
        &mut self,
        rt: &(impl Threads + Sync),
        alloc: Global,
        batch: &Batch<'_>,
        next: &Batch<'_>,
    ) -> Result<(), OutOfMemory>
        requires next { Follows batch.now next.now }
        requires before { IsUpTo batch.now.scene.now batch.now.first batch.now.end self.old }
        ensures { OnOk result (IsUpTo batch.now.scene.now batch.now.end next.now.end self.new) }
    {
        exchange_layers(
            batch,
            self.players.as_mut_slice(),
            self.window.layers.as_mut_slice(),
        );
        compose_beside(
            rt,
            alloc,
            batch,
            next,
            &mut self.window,
            self.players.as_mut_slice(),
        )
    }

    // All frames, in batches of so many as are drawn ahead.
    fn show_frames(
        &mut self,
        rt: &(impl Threads + Sync),
        alloc: Global,
        all: &Batch<'_>,
    ) -> Result<(), OutOfMemory>
        requires { IsUpTo all.now.scene.now all.now.first all.now.first self.old }
        ensures { OnOk result (IsUpTo all.now.scene.now all.now.end all.now.end self.new) }
    {
        let decl = all.scene.decl();
        let mut first = all.first;
        let mut end = batch_end(first, frames_ahead(decl, window_size(decl)), all.end);
        self.draw_first(rt, alloc, &all.part(first, end))?;
        'batches: while first < all.end {
            let longest = longest_layer(self.players.as_slice(), end - first);
            let next_end = batch_end(end, frames_ahead(decl, longest), all.end);
            let batch = all.part(first, end);
            let next = all.part(end, next_end);
            self.show_batch(rt, alloc, &batch, &next)?;
            first = end;
            end = next_end;
        }
        Ok(())
    }
}

/// So many frames of a scene whose clients are drawn apart.
pub(crate) fn draw_frames(
    rt: &(impl Threads + Sync),
    alloc: Global,
    scene: &StoredScene,
    syncs: &SyncLists,
    count: usize,
) -> Result<Frames, OutOfMemory>
    requires within { IsWithin scene.now }
    requires composable { IsComposable scene.now }
    requires syncs { syncs.now ≡ sync_lists_of scene.now }
    requires frames { HaveFrames scene.now count }
    ensures { IfOk result (λ v. v ≡ images_of scene.now.decl (composed_pixel scene.now) count) }
{
    let shared = SharedSet::new(alloc, &scene.decl().shared)?;
    let all = Batch {
        scene,
        syncs,
        shared: &shared,
        first: 0,
        end: count,
    };
    let mut composition = Composition::new(rt, alloc, scene)?;
    composition.show_frames(rt, alloc, &all)?;
    let window = composition.window;
    Ok(window.frames)
}
