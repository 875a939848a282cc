//! A client before its first command.
ghost use Rattle.std.specs.Prelude.{◌≡◌, ℕ, ◌<◌, ◌≤◌, ◌^◌, length, replicate, IfOk, None, false, [], ◌∷◌};
ghost use Rattle.std.specs.List.{AllByRecursion};
ghost use Rattle.rc_base.specs.Formats.Commands.{IsCommand};
ghost use Rattle.rc_base.specs.Formats.Within.{IsWithin, IsLayoutFor};
ghost use Rattle.rc_base.specs.Contexts.Issue.{stream_of};
ghost use Rattle.rc_base.specs.Cluster.Tiles.{tile_count};
ghost use Rattle.rc_base.specs.Cluster.Parcels.{end_parcel};
ghost use Rattle.rc_base.specs.Cluster.Sending.{sent_by};
ghost use Rattle.rc_base.specs.declared.scene.Scene.{Scene};
ghost use Rattle.client_issue.specs.Cores.{IsClientOf, issued_of, layout_of, left_in, short_of, no_tally, tally_of_tile};
ghost use Rattle.client_issue.specs.Given.{AreWithin, IsStreamOf};
ghost use Rattle.client_issue.specs.Sequence.{IsSending, alone, left_of, sent_from};

use crate::client::ClientCore;
use crate::sender::Sender;
use command_store::CommandStore;
use gl_context::Context;
use gl_context::laws::streams_go_on_by_issue;
use parcel_bytes::{Packed, Pool, encode_parcel};
use rc_base::cluster::Tally;
use rc_base::command::Command;
use rc_base::out_of_memory::OutOfMemory;
use rc_base::scene::{Decl, Scene, copy_of_decl};
use rc_base::state::{Act, Parcel, Sets};
use rc_base::window::Layout;
use state_update::Tracker;
use state_update::laws::trackers_follow_parcels;
use std::alloc::Global;

fn first_sender(
    alloc: Global,
    decl: &Decl,
    stream: CommandStore,
    layout: &Layout,
    count: u8,
) -> Result<Sender, OutOfMemory>
    requires few { length stream < 2 ^ 32 }
    requires commands { AllByRecursion IsCommand stream }
    requires count { count ≡ tile_count layout.now }
    requires tiles { count ≤ 32 }
    ensures decl { IfOk result (λ s. s.decl ≡ decl.now) }
    ensures stream { IfOk result (λ s. s.stream ≡ stream) }
    ensures layout { IfOk result (λ s. s.layout ≡ layout.now) }
    ensures count { IfOk result (λ s. s.count ≡ count) }
    ensures issued { IfOk result (λ s. s.issued ≡ 0) }
    ensures sending { IfOk result IsSending }
    ensures left { IfOk result (λ s. left_of s ≡ sent_from (alone decl.now stream) layout.now 0) }
{
    streams_go_on_by_issue();
    trackers_follow_parcels();
    let copy = copy_of_decl(alloc, decl)?;
    let context = Context::new(alloc, decl)?;
    let tracker = Tracker::new(alloc, decl, count)?;
    let pool = Pool::new(alloc)?;
    Ok(Sender {
        alloc,
        decl: copy,
        stream,
        layout: *layout,
        count,
        context,
        tracker,
        pool,
        issued: 0,
        pending: None,
        request: None,
        ops: Vec::new(alloc),
    })
}

fn no_tallies(alloc: Global, count: u8) -> Result<Vec<Tally>, OutOfMemory>
    ensures { IfOk result (λ v. v.items ≡ replicate count no_tally) }
{
    let mut tallies = Vec::new(alloc);
    let tally = Tally {
        parcels: 0,
        sets: 0,
        looks: 0,
    };
    tallies.resize(usize::from(count), tally)?;
    Ok(tallies)
}

// The End parcels, one for each tile.
fn end_parcels(alloc: Global, count: u8, place: u32) -> Result<Vec<Packed>, OutOfMemory>
    ensures { IfOk result (λ v. v.items ≡ replicate count (end_parcel place)) }
{
    let parcel = Parcel {
        place,
        sets: Sets::new(alloc),
        act: Act::End,
    };
    let end = encode_parcel(alloc, &parcel)?;
    let mut ends = Vec::with_capacity(alloc, usize::from(count))?;
    for _ in 0..count {
        ends.push(end.clone()?)?;
    }
    Ok(ends)
}

fn count_of(layout: &Layout) -> u8
    requires { tile_count layout.now ≤ 32 }
    ensures { result ≡ tile_count layout.now }
{
    (u16::from(layout.columns) * u16::from(layout.rows)) as u8
}

fn commands_of(scene: &Scene, client: u8) -> &[Command]
    requires { client < length scene.now.streams }
    ensures { result.now ≡ stream_of scene.now client }
{
    scene.streams.as_slice()[usize::from(client)].as_slice()
}

impl ClientCore {
    /// The core of a client of a scene, with a copy of its commands, before its first step. The scene is within the limits, and the layout is
    /// one for it with lanes of some depth.
    pub fn new(
        alloc: Global,
        scene: &Scene,
        client: u8,
        layout: &Layout,
    ) -> Result<ClientCore, OutOfMemory>
        requires client { client < length scene.now.streams }
        requires within { IsWithin scene.now }
        requires layout { (depth : ℕ) × IsLayoutFor scene.now layout.now depth }
        ensures whose { IfOk result (λ core. IsClientOf core scene.now client layout.now) }
        ensures short { IfOk result (λ core. short_of core ≡ false) }
        ensures issued { IfOk result (λ core. issued_of core ≡ 0) }
        ensures left { IfOk result (λ core. left_in core ≡ sent_by scene.now layout.now client) }
        ensures tallies { IfOk result (λ core. (tile : ℕ) → tally_of_tile core tile ≡ no_tally) }
    {
        let stream = CommandStore::of(alloc, commands_of(scene, client))?;
        ClientCore::of_store(alloc, &scene.decl, stream, layout)
    }

    /// The core of a client that is given its commands, before its first step. They are those of a client of a scene within the limits, and the
    /// layout is one for the scene with lanes of some depth. The End parcels are made here, so that later they take no memory.
    #[tactic(auto, unfolding(crate::specs::Sequence::IsSound))]
    pub fn of_store(
        alloc: Global,
        decl: &Decl,
        stream: CommandStore,
        layout: &Layout,
    ) -> Result<ClientCore, OutOfMemory>
        requires { AreWithin decl.now stream layout.now }
        ensures whose { IfOk result (λ core. (scene : Scene) (client : ℕ) → IsStreamOf scene client decl.now stream
            → IsClientOf core scene client layout.now) }
        ensures short { IfOk result (λ core. short_of core ≡ false) }
        ensures issued { IfOk result (λ core. issued_of core ≡ 0) }
        ensures left { IfOk result (λ core. (scene : Scene) (client : ℕ) → IsStreamOf scene client decl.now stream
            → left_in core ≡ sent_by scene layout.now client) }
        ensures tallies { IfOk result (λ core. (tile : ℕ) → tally_of_tile core tile ≡ no_tally) }
    {
        let count = count_of(layout);
        let place = stream.len() as u32;
        let sender = first_sender(alloc, decl, stream, layout, count)?;
        let tallies = no_tallies(alloc, count)?;
        let last = end_parcels(alloc, count, place)?;
        Ok(ClientCore {
            sender,
            ready: None,
            ends: 0,
            last,
            short: false,
            tallies,
        })
    }

    /// How many parcels went to a tile so far, and how many elements they set.
    #[tactic(auto, unfolding(crate::specs::Cores::tally_in))]
    pub fn tallies(&self, tile: u8) -> Tally
        requires { tile < tile_count (layout_of self.now) }
        ensures { result ≡ tally_of_tile self.now tile }
    {
        self.tallies[usize::from(tile)]
    }

    /// Whether memory was wanting.
    pub fn is_short(&self) -> bool
        ensures { result ≡ short_of self.now }
    {
        self.short
    }
}
