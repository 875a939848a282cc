//! Carrying out the commands of an order on one device.
ghost use Rattle.std.specs.Prelude.{◌≡◌, ◌+◌, ◌<◌, List, [], length, take, max, Some, IfOk, OnOk};
ghost use Rattle.rc_base.specs.declared.sync.Name.{Name};
ghost use Rattle.rc_base.specs.Formats.Within.{IsWithin};
ghost use Rattle.rc_base.specs.Cluster.Tiles.{window_rect};
ghost use Rattle.rc_base.specs.declared.command.Part.{Part};
ghost use Rattle.rc_base.specs.declared.state.Effect.TheVariants as eff;
ghost use Rattle.draw_device.specs.Conditions.{IsClearable, IsDrawable, TakesBlock};
ghost use Rattle.draw_device.specs.Devices.{IsDeviceRect};
ghost use Rattle.draw_device.specs.Prepared.{IsPreparedFor};
ghost use Rattle.draw_device.specs.Stored.{IsStorable, set_after};
ghost use Rattle.stream_replay.specs.Clients.{IsNextName, issued_by};
ghost use Rattle.serial_render.specs.Performed.{IsSettled, TakesEffect, effect_by, images_behind, state_behind};
ghost use Rattle.serial_render.specs.Played.{GoesOn, HasGathered, HasPlayed, StandsInRun};
ghost use Rattle.serial_render.specs.Runs.{names_of_runs};
ghost use Rattle.serial_render.specs.Shown.{IsPlayable, AreShownOn};

use crate::brush::Brush;
use crate::image::image_of;
use crate::runs::Run;
use crate::stage::Stage;
use draw_device::{Device, carry_out};
use element_table::default_state;
use geometry::listed;
use rc_base::image::Frames;
use rc_base::out_of_memory::OutOfMemory;
use rc_base::scene::Decl;
use rc_base::state::{Block, Effect};
use rc_base::sync::Name;
use rc_base::window::{Rect, window_rect};
use std::alloc::Global;
use stream_replay::{
    Client, InBlock, SceneStore, clients_of, gather, issue_in_block, issue_name, take_back,
};
use textures::SharedSet;

/// The rectangle of the whole window.
pub fn window(decl: &Decl) -> Rect
    ensures sides { result ≡ window_rect decl.now.width decl.now.height }
    ensures lies { IsDeviceRect result }
{
    window_rect(decl.width, decl.height)
}

/// Adds images of the device until there are so many frames. Where memory is wanting, some of them are added.
#[inline(always)]
pub fn show_up_to(
    alloc: Global,
    decl: &Decl,
    device: &Device,
    frames: &mut Frames,
    count: usize,
) -> Result<(), OutOfMemory>
    requires { device.now.rect ≡ window_rect decl.now.width decl.now.height }
    ensures count { OnOk result (length frames.new ≡ max (length frames.old) count) }
    ensures images { OnOk result (AreShownOn decl.now device.now count frames.old frames.new) }
{
    for _ in frames.len()..count {
        let image = image_of(alloc, decl.width, decl.height, device.colors())?;
        frames.push(image)?;
    }
    Ok(())
}

// Draws a block that a command of a client closed.
#[inline(always)]
fn draw(
    client: &Client,
    of: u8,
    block: &Block,
    brush: &mut Brush,
    device: &mut Device,
    shared: &SharedSet,
)
    requires drawable { IsDrawable client.now.context.state client.now.context.images shared.now }
    requires known { brush.old.of ≡ Some of → IsPreparedFor client.now.context.state device.old.rect brush.old.prepared }
    ensures rect { device.new.rect ≡ device.old.rect }
    ensures of { brush.new.of ≡ Some of }
    ensures prepared { IsPreparedFor client.now.context.state device.old.rect brush.new.prepared }
    ensures drawn { TakesBlock client.now.context.state block.now client.now.context.images shared.now device.old device.new }
{
    let state = client.context.state();
    brush.settle(of, state, device);
    let listed = listed(block);
    device.draw_prepared(
        state,
        &brush.prepared,
        &listed,
        client.context.private(),
        shared,
    );
}

// Issues the command of a name, the next one of its client, and carries out what it does beyond its client's context.
#[inline(never)]
fn perform<S: SceneStore>(
    clients: &mut Vec<Client>,
    scene: &S,
    name: Name,
    brush: &mut Brush,
    device: &mut Device,
    shared: &mut SharedSet,
) -> Result<(), OutOfMemory>
    requires name { IsNextName (S.scene scene.now) clients.old.items name }
    requires drawable { IsDrawable
        (state_behind (S.scene scene.now) name) (images_behind (S.scene scene.now) name)
        shared.old }
    requires clearable { IsClearable (state_behind (S.scene scene.now) name) }
    requires writable { (part : Part) → effect_by (S.scene scene.now) name ≡ eff.Shared part
        → IsStorable part shared.old }
    requires settled { IsSettled clients.old.items device.old.rect brush.old }
    ensures clients { OnOk result
        (clients.new.items ≡ issued_by (S.scene scene.now) clients.old.items name) }
    ensures rect { OnOk result (device.new.rect ≡ device.old.rect) }
    ensures drawn { OnOk result
        (TakesEffect (S.scene scene.now) name shared.old device.old device.new) }
    ensures shared { OnOk result
        (shared.new ≡ set_after (effect_by (S.scene scene.now) name) shared.old) }
    ensures settled { OnOk result (IsSettled clients.new.items device.old.rect brush.new) }
{
    match issue_in_block(clients, scene, name)? {
        InBlock::Quiet => {}
        InBlock::Draws(block) => {
            let client = usize::from(name.client);
            draw(&clients[client], name.client, &block, brush, device, shared);
            take_back(clients, client, Effect::Block(block));
        }
        InBlock::Left => {
            let client = usize::from(name.client);
            let effect = issue_name(clients, scene, name)?;
            let context = &clients[client].context;
            carry_out(&effect, context.state(), context.private(), device, shared);
            take_back(clients, client, effect);
            brush.forget();
        }
    }
    Ok(())
}

/// Before the first name of any order.
fn first_stage<S: SceneStore>(alloc: Global, scene: &S) -> Result<Stage, OutOfMemory>
    requires { IsWithin (S.scene scene.now) }
    ensures { IfOk result
        (λ stage. (order : List Name) → HasPlayed (S.scene scene.now) order [] stage) }
{
    let clients = clients_of(alloc, scene)?;
    let shared = SharedSet::new(alloc, &scene.decl().shared)?;
    let device = Device::new(alloc, window(scene.decl()))?;
    let brush = Brush::new(&default_state(scene.decl()), &device);
    Ok(Stage {
        clients,
        shared,
        brush,
        device,
        frames: Frames::new(alloc),
    })
}

// Takes the pictures of the frames that lie before a name of a run, and carries out the names from it on, up to the first that may do something beyond its
// client's context. The place of that one is given, or the run's end.
#[inline(always)]
fn play_gathered<S: SceneStore>(
    alloc: Global,
    scene: &S,
    runs: &[Run],
    index: usize,
    place: usize,
    stage: &mut Stage,
) -> Result<usize, OutOfMemory>
    requires { StandsInRun (S.scene scene.now) runs.now index place stage.old }
    ensures { IfOk result (HasGathered (S.scene scene.now) runs.now index place stage.new) }
{
    let run = runs[index];
    show_up_to(
        alloc,
        scene.decl(),
        &stage.device,
        &mut stage.frames,
        stage.clients[usize::from(run.client)].swaps,
    )?;
    let end = run.last as usize + 1;
    let next = gather(&mut stage.clients, scene, run.client, place, end)?;
    Ok(next)
}

// The same, and carries out the name of that place.
#[inline(always)]
fn play_part<S: SceneStore>(
    alloc: Global,
    scene: &S,
    runs: &[Run],
    index: usize,
    place: usize,
    stage: &mut Stage,
) -> Result<usize, OutOfMemory>
    requires { StandsInRun (S.scene scene.now) runs.now index place stage.old }
    ensures { IfOk result (GoesOn (S.scene scene.now) runs.now index place stage.new) }
{
    let next = play_gathered(alloc, scene, runs, index, place, stage)?;
    let run = runs[index];
    if next > run.last as usize {
        return Ok(next);
    }
    let name = Name {
        client: run.client,
        place: next as u32,
    };
    perform(
        &mut stage.clients,
        scene,
        name,
        &mut stage.brush,
        &mut stage.device,
        &mut stage.shared,
    )?;
    Ok(next + 1)
}

// Carries out the names of a run.
fn play_run<S: SceneStore>(
    alloc: Global,
    scene: &S,
    runs: &[Run],
    index: usize,
    stage: &mut Stage,
) -> Result<(), OutOfMemory>
    requires within { IsWithin (S.scene scene.now) }
    requires playable { IsPlayable (S.scene scene.now) (names_of_runs runs.now) }
    requires index { index < length runs.now }
    requires played { HasPlayed (S.scene scene.now) (names_of_runs runs.now)
        (names_of_runs (take index runs.now)) stage.old }
    ensures { OnOk result (HasPlayed (S.scene scene.now) (names_of_runs runs.now)
        (names_of_runs (take (index + 1) runs.now)) stage.new) }
{
    let run = runs[index];
    let mut place = run.first as usize;
    while place <= run.last as usize {
        place = play_part(alloc, scene, runs, index, place, stage)?;
    }
    Ok(())
}

/// Carries out the names of an order, one after the other. The picture of a frame is taken before the first name that lies beyond its client's Swap.
#[inline(never)]
pub(crate) fn play<S: SceneStore>(
    alloc: Global,
    scene: &S,
    runs: &[Run],
) -> Result<Stage, OutOfMemory>
    requires within { IsWithin (S.scene scene.now) }
    requires playable { IsPlayable (S.scene scene.now) (names_of_runs runs.now) }
    ensures { IfOk result
        (HasPlayed (S.scene scene.now) (names_of_runs runs.now) (names_of_runs runs.now)) }
{
    let mut stage = first_stage(alloc, scene)?;
    for index in 0..runs.len() {
        play_run(alloc, scene, runs, index, &mut stage)?;
    }
    Ok(stage)
}
