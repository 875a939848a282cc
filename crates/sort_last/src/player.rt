//! A client that draws its frames alone.
ghost use Rattle.std.specs.Prelude.{◌≡◌, ◌+◌, ◌<◌, ◌≤◌, length, true, IfOk, OnOk};
ghost use Rattle.rc_base.specs.Orders.Sync.{client_count, client_row};
ghost use Rattle.sort_last.specs.Players.{start_of, AreNamesOf, IsInBatch, IsClientIn, HasPlayed, StartsBatch, EndsBatch, HasLayerRoom};
ghost use Rattle.sort_last.specs.Players.{HaveDrawn, HoldEach, HaveLayers, AreDrawn, AreWhole, AreAtMost, AreAllAtMost, IsBegun, AreBegun};

use crate::apart::{Batch, ClientNames};
use crate::sheet::{ClientLayers, Sheet};
use command_store::StoredScene;
use draw_device::ActivePixels;
use gl_context::Context;
use rayon::prelude::*;
use rc_base::out_of_memory::OutOfMemory;
use rc_base::sync::{SyncLists, SyncRow};
use std::alloc::Global;
use std::thread;
use std::thread::Threads;

// The operations of a client.
fn row_of(syncs: &SyncLists, client: usize) -> &SyncRow
    requires { client < client_count syncs.now }
    ensures { result.now ≡ client_row syncs.now client }
{
    &syncs.clients.as_slice()[client]
}

// Where a client's frame begins, from 0: behind the Swap of the one before it.
fn frame_start(row: &SyncRow, frame: usize) -> usize
    requires { frame ≤ length row.now.ops }
    ensures { result ≡ start_of row.now.ops frame }
{
    if frame == 0 {
        0
    } else {
        row.ops.as_slice()[frame - 1].place as usize + 1
    }
}

// Where it ends: behind its own Swap.
fn frame_end(row: &SyncRow, frame: usize) -> usize
    requires { frame < length row.now.ops }
    ensures { result ≡ start_of row.now.ops (frame + 1) }
{
    row.ops.as_slice()[frame].place as usize + 1
}

/// The names of a client's frame, its Swap among them.
pub(crate) fn frame_names(batch: &Batch<'_>, client: usize, frame: usize) -> ClientNames
    requires client { IsClientIn batch.now client }
    requires frame { frame < batch.now.end }
    ensures { AreNamesOf batch.now.scene.now client frame result }
{
    let row = row_of(batch.syncs, client);
    let from = frame_start(row, frame);
    let to = frame_end(row, frame);
    ClientNames { client, from, to }
}

/// A client that draws its frames one after the other.
#[derive(Drop)]
pub(crate) struct Player {
    /// The context behind its last frame.
    context: Context,
    /// What it draws on.
    sheet: Sheet,
    /// The layers of its last frames, from the first one of a batch on, and spare ones.
    layers: Vec<ActivePixels>,
    /// There was memory for all of them.
    whole: bool,
}

impl Player {
    /// A client before its first frame.
    fn new(alloc: Global, scene: &StoredScene) -> Result<Player, OutOfMemory>
        ensures { IfOk result (λ p. IsBegun scene.now p) }
    {
        Ok(Player {
            context: Context::new(alloc, scene.decl())?,
            sheet: Sheet::new(alloc, scene.decl())?,
            layers: Vec::new(alloc),
            whole: true,
        })
    }

    // Sees that there is room for a layer of each frame of the batch.
    fn make_room(
        &mut self,
        alloc: Global,
        batch: &Batch<'_>,
        client: usize,
    ) -> Result<(), OutOfMemory>
        requires before { StartsBatch batch.now client self.old }
        ensures after { OnOk result (StartsBatch batch.now client self.new) }
        ensures room { OnOk result (HasLayerRoom batch.now self.new) }
    {
        let _client = client;
        for _ in self.layers.len()..batch.end - batch.first {
            self.layers.push(ActivePixels::none(alloc))?;
        }
        Ok(())
    }

    /// Draws the client's next frame.
    fn draw_frame(
        &mut self,
        batch: &Batch<'_>,
        client: usize,
        frame: usize,
    ) -> Result<(), OutOfMemory>
        requires client { IsClientIn batch.now client }
        requires frame { IsInBatch batch.now frame }
        requires room { HasLayerRoom batch.now self.old }
        requires before { HasPlayed batch.now client frame self.old }
        ensures room { OnOk result (HasLayerRoom batch.now self.new) }
        ensures after { OnOk result (HasPlayed batch.now client (frame + 1) self.new) }
    {
        let names = frame_names(batch, client, frame);
        self.sheet.draw(
            batch,
            names,
            &mut self.context,
            &mut self.layers[frame - batch.first],
        )?;
        Ok(())
    }

    // Draws the client's frames of the batch.
    fn draw_each(
        &mut self,
        alloc: Global,
        batch: &Batch<'_>,
        client: usize,
    ) -> Result<(), OutOfMemory>
        requires client { IsClientIn batch.now client }
        requires before { StartsBatch batch.now client self.old }
        ensures { OnOk result (EndsBatch batch.now client self.new) }
    {
        self.make_room(alloc, batch, client)?;
        for frame in batch.first..batch.end {
            self.draw_frame(batch, client, frame)?;
        }
        Ok(())
    }

    /// Draws the client's frames of the batch, and notes whether there was memory for all.
    fn draw_frames(&mut self, alloc: Global, batch: &Batch<'_>, client: usize)
        requires client { IsClientIn batch.now client }
        requires before { StartsBatch batch.now client self.old }
        ensures { self.new.whole ≡ true → EndsBatch batch.now client self.new }
    {
        self.whole = self.draw_each(alloc, batch, client).is_ok();
    }

    // A number of pixels that none of its first layers exceeds.
    fn longest(&self, count: usize) -> usize
        ensures { AreAtMost count result self.now }
    {
        let mut most = 0;
        for k in 0..self.layers.len() {
            if k < count && most < self.layers[k].count() {
                most = self.layers[k].count();
            }
        }
        most
    }

    /// Its layers and those that were put together change places.
    fn exchange(&mut self, layers: &mut ClientLayers)
        ensures context { self.new.context ≡ self.old.context }
        ensures sheet { self.new.sheet ≡ self.old.sheet }
        ensures drawn { self.new.layers ≡ layers.old.layers }
        ensures layers { layers.new.layers ≡ self.old.layers }
    {
        std::mem::swap(&mut self.layers, &mut layers.layers);
    }
}

// The clients before their first frames, each made in a thread of its own, where one can be made: a blank sheet is written page by page.
fn begun_apart(
    rt: &(impl Threads + Sync),
    alloc: Global,
    scene: &StoredScene,
) -> Result<Vec<Result<Player, OutOfMemory>>, OutOfMemory>
    ensures { IfOk result (λ v. AreBegun scene.now v.items) }
{
    let begin = |_client: usize| -> Result<Player, OutOfMemory>
        ensures { IfOk result (λ p. IsBegun scene.entry.now p) }
    { Player::new(alloc, scene) };
    Ok(thread::map_indices(rt, alloc, scene.streams().len(), &begin)?)
}

// Those that were made, where there was memory for all of them.
fn all_begun(
    alloc: Global,
    scene: &StoredScene,
    made: Vec<Result<Player, OutOfMemory>>,
) -> Result<Vec<Player>, OutOfMemory>
    requires { AreBegun scene.now made.items }
    ensures { IfOk result (λ v. HaveDrawn scene.now 0 0 v.items) }
{
    let _scene = scene;
    let mut players = Vec::new(alloc);
    for one in made {
        let player = one?;
        players.push(player)?;
    }
    Ok(players)
}

/// The clients of a scene before their first frames.
pub(crate) fn players_of(
    rt: &(impl Threads + Sync),
    alloc: Global,
    scene: &StoredScene,
) -> Result<Vec<Player>, OutOfMemory>
    ensures { IfOk result (λ v. HaveDrawn scene.now 0 0 v.items) }
{
    all_begun(alloc, scene, begun_apart(rt, alloc, scene)?)
}

// Each client draws its frames of the batch, in as many threads as there are processors.
fn draw_layers(rt: &(impl Threads + Sync), alloc: Global, batch: &Batch<'_>, players: &mut [Player])
    requires { HaveDrawn batch.now.scene.now batch.now.first batch.now.first players.old }
    ensures { AreDrawn batch.now.scene.now batch.now.first batch.now.end players.new }
{
    par_for_each_mut(
        rt,
        players,
        |client: usize, player: &mut Player|
            requires { IsClientIn batch.now client × StartsBatch batch.now client player.now }
            ensures { player.new.whole ≡ true → EndsBatch batch.entry.now client player.new }
        {
            player.draw_frames(alloc, batch, client);
        },
    );
}

/// A number of active pixels that none of the clients' first layers exceeds.
pub(crate) fn longest_layer(players: &[Player], count: usize) -> usize
    ensures { AreAllAtMost count result players.now }
{
    let mut most = 0;
    for client in 0..players.len() {
        let longest = players[client].longest(count);
        if most < longest {
            most = longest;
        }
    }
    most
}

// There was memory for all layers.
fn are_whole(players: &[Player]) -> bool
    ensures { result ≡ true → AreWhole players.now }
{
    for client in 0..players.len() {
        if !players[client].whole {
            return false;
        }
    }
    true
}

/// Of each client, its layers of the batch change places with those that were put together before it.
pub(crate) fn exchange_layers(
    batch: &Batch<'_>,
    players: &mut [Player],
    layers: &mut [ClientLayers],
)
    requires drawn { HaveDrawn batch.now.scene.now batch.now.first batch.now.end players.old }
    requires spare { HoldEach batch.now.scene.now batch.now.first batch.now.first layers.old }
    ensures players { HaveDrawn batch.now.scene.now batch.now.end batch.now.end players.new }
    ensures layers { HaveLayers batch.now layers.new }
{
    let _batch = batch;
    for client in 0..players.len() {
        players[client].exchange(&mut layers[client]);
    }
}

/// Each client draws its frames of the batch.
pub(crate) fn draw_batch(
    rt: &(impl Threads + Sync),
    alloc: Global,
    batch: &Batch<'_>,
    players: &mut [Player],
) -> Result<(), OutOfMemory>
    requires { HaveDrawn batch.now.scene.now batch.now.first batch.now.first players.old }
    ensures { OnOk result (HaveDrawn batch.now.scene.now batch.now.first batch.now.end players.new) }
{
    draw_layers(rt, alloc, batch, players);
    if !are_whole(players) {
        return Err(OutOfMemory);
    }
    Ok(())
}
