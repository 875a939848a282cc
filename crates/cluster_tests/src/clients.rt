//! A client on two tiles: by hand over lanes that hold one item, and over lanes that are emptied at random times; and on nine tiles.
ghost use Rattle.std.specs.Prelude.{◌≡◌, ◌≤◌, length, IfOk, OnOk};
ghost use Rattle.std.specs.List.{AllByRecursion};
ghost use Rattle.rc_base.specs.Formats.Commands.{IsCommand};
ghost use Rattle.rc_base.specs.Formats.Within.{IsWithin};
ghost use Rattle.rc_base.specs.Cluster.Tiles.{tile_count};
ghost use Rattle.client_issue.specs.Cores.{layout_of};

use bounds_bucket::layout;
use client_issue::ClientCore;
use parcel_bytes::Packed;
use rc_base::cluster::{ClientMoved, Tally};
use rc_base::command::{Command, Commands};
use rc_base::lane::{Inlet, Outlet};
use rc_base::out_of_memory::OutOfMemory;
use rc_base::plain_lane::PlainLane;
use rc_base::scene::{Counts, Decl, Scene, Sizes, Streams, Units};
use rc_base::state::Parcel;
use rc_base::sync::{Request, SyncOp};
use rc_base::window::Layout;
use scene_file::check_limits;
use std::alloc::Global;
use std::process::Abort;

const ONE: i32 = 65_536;

#[tactic(auto, using(crate::proofs::Pushed::pushed))]
fn push(stream: &mut Commands, command: Command) -> Result<(), OutOfMemory>
    requires all { AllByRecursion IsCommand stream.old }
    requires one { IsCommand command }
    ensures { OnOk result (AllByRecursion IsCommand stream.new) }
{
    stream.push(command)?;
    Ok(())
}

fn vertex(x: i32, y: i32) -> Command
    ensures { IsCommand result }
{
    Command::Vertex {
        pos: [x, y, 0, ONE],
    }
}

// A triangle that covers the window.
fn cover(stream: &mut Commands) -> Result<(), OutOfMemory>
    requires { AllByRecursion IsCommand stream.old }
    ensures { OnOk result (AllByRecursion IsCommand stream.new) }
{
    push(stream, Command::Begin { mode: 0 })?;
    push(stream, vertex(-ONE, -ONE))?;
    push(stream, vertex(3 * ONE, -ONE))?;
    push(stream, vertex(-ONE, 3 * ONE))?;
    push(stream, Command::End)
}

// Draws before and after a blend that is set back, in a scissor box of the left pixel, and without it.
fn draws(alloc: Global) -> Result<Commands, OutOfMemory>
    ensures { IfOk result (AllByRecursion IsCommand) }
{
    let mut stream = Commands::new(alloc);
    cover(&mut stream)?;
    push(&mut stream, Command::Enable { capability: 3 })?;
    push(&mut stream, Command::Disable { capability: 3 })?;
    cover(&mut stream)?;
    push(&mut stream, Command::Enable { capability: 0 })?;
    push(&mut stream, Command::Scissor { area: [0, 0, 1, 1] })?;
    cover(&mut stream)?;
    push(&mut stream, Command::Disable { capability: 0 })?;
    cover(&mut stream)?;
    push(&mut stream, Command::Swap)?;
    Ok(stream)
}

// A client with its lanes.
#[derive(Drop)]
struct Run {
    core: ClientCore,
    tiles: Vec<PlainLane<Packed>>,
    requests: PlainLane<Request>,
}

// So many lanes that hold at most `depth` parcels.
fn lanes_of(alloc: Global, n: u8, depth: usize) -> Result<Vec<PlainLane<Packed>>, OutOfMemory>
    requires depth { (1 ≤ depth) × (depth ≤ 16) }
    ensures { IfOk result (λ lanes. length lanes.items ≡ n) }
{
    let mut lanes = Vec::new(alloc);
    for i in 0..n {
        lanes.push(PlainLane::new(alloc, depth)?)?;
    }
    Ok(lanes)
}

// A scene of one client in a window of these sides.
fn scene_of(rt: &impl Abort, alloc: Global, stream: Commands, width: u16, height: u16) -> Scene
    requires commands { AllByRecursion IsCommand stream }
    ensures one { length result.streams ≡ 1 }
    ensures within { IsWithin result }
    ensures width { result.decl.width ≡ width }
    ensures height { result.decl.height ≡ height }
{
    let mut streams = Streams::new(alloc);
    streams.push(stream).expect(rt, "memory");
    let decl = Decl {
        version: 1,
        width,
        height,
        shared: Sizes::new(alloc),
        barriers: Counts::new(alloc),
        semaphores: Units::new(alloc),
    };
    let scene = Scene { decl, streams };
    check_limits(&scene).expect(rt, "within the limits");
    scene
}

// The client of a scene of one, with lanes of this depth.
fn run_of(rt: &impl Abort, alloc: Global, stream: Commands, cut: &Layout, depth: usize) -> Run
    requires commands { AllByRecursion IsCommand stream }
    requires tiles { tile_count cut.now ≤ 32 }
    requires depth { (1 ≤ depth) × (depth ≤ 16) }
    ensures { length result.tiles.items ≡ tile_count (layout_of result.core) }
{
    let Layout {
        width,
        height,
        columns,
        rows,
    } = *cut;
    let scene = scene_of(rt, alloc, stream, width, height);
    let cut = layout(width, height, u64::from(columns), u64::from(rows), 16).expect(rt, "a layout");
    Run {
        core: ClientCore::new(alloc, &scene, 0, &cut).expect(rt, "memory"),
        tiles: lanes_of(alloc, columns * rows, depth).expect(rt, "memory"),
        requests: PlainLane::new(alloc, depth).expect(rt, "memory"),
    }
}

// A window of 2 by 1 pixels, a tile each.
const TWO: Layout = Layout {
    width: 2,
    height: 1,
    columns: 2,
    rows: 1,
};

// A window of 6 by 6 pixels in nine tiles.
const NINE: Layout = Layout {
    width: 6,
    height: 6,
    columns: 3,
    rows: 3,
};

impl Run {
    fn step(&mut self) -> Result<ClientMoved, OutOfMemory>
        requires { length self.old.tiles.items ≡ tile_count (layout_of self.old.core) }
        ensures { length self.new.tiles.items ≡ tile_count (layout_of self.new.core) }
    {
        self.core.step(&mut self.tiles, &mut self.requests)
    }

    // The place of the parcel that the tile's lane holds.
    fn place(&mut self, tile: usize) -> Option<u32>
        ensures core { self.new.core ≡ self.old.core }
        ensures lanes { length self.new.tiles.items ≡ length self.old.tiles.items }
    {
        match self.tiles.get_mut(tile) {
            Some(lane) => {
                let parcel = lane.pop()?.parcel().ok()?;
                Some(parcel.place)
            }
            None => None,
        }
    }

    fn tally(&self, tile: u8) -> Option<Tally>
        requires { length self.now.tiles.items ≡ tile_count (layout_of self.now.core) }
    {
        if usize::from(tile) >= self.tiles.len() {
            return None;
        }
        Some(self.core.tallies(tile))
    }
}

// What a step answers, and what is in the lanes.
#[derive(Clone, Copy)]
enum Event {
    Step(ClientMoved),
    Place(usize, u32),
    Asked(Request),
}

// The event goes as it says.
fn goes(run: &mut Run, event: Event) -> Result<bool, OutOfMemory>
    requires { length run.old.tiles.items ≡ tile_count (layout_of run.old.core) }
    ensures { length run.new.tiles.items ≡ tile_count (layout_of run.new.core) }
{
    match event {
        Event::Step(moved) => Ok(run.step()? == moved),
        Event::Place(tile, place) => Ok(run.place(tile) == Some(place)),
        Event::Asked(request) => Ok(run.requests.pop() == Some(request)),
    }
}

// How many events go as they say.
fn play(run: &mut Run, events: &[Event]) -> Result<usize, OutOfMemory>
    requires { length run.old.tiles.items ≡ tile_count (layout_of run.old.core) }
    ensures { length run.new.tiles.items ≡ tile_count (layout_of run.new.core) }
{
    for (i, event) in events.iter().enumerate() {
        if !goes(run, *event)? {
            return Ok(i);
        }
    }
    Ok(events.len())
}

const SENT_LEFT: Event = Event::Step(ClientMoved::Appended { tile: 0 });

const SENT_RIGHT: Event = Event::Step(ClientMoved::Appended { tile: 1 });

const FULL_LEFT: Event = Event::Step(ClientMoved::BlockedTile { tile: 0 });

const FULL_RIGHT: Event = Event::Step(ClientMoved::BlockedTile { tile: 1 });

const SWAP: Request = Request::Op {
    place: 25,
    op: SyncOp::Swap,
};

const EVENTS: [Event; 33] = [
    SENT_LEFT,
    SENT_RIGHT,
    FULL_LEFT,
    FULL_LEFT,
    Event::Place(0, 4),
    SENT_LEFT,
    FULL_RIGHT,
    Event::Place(1, 4),
    SENT_RIGHT,
    FULL_LEFT,
    Event::Place(0, 11),
    SENT_LEFT,
    FULL_LEFT,
    Event::Place(0, 18),
    SENT_LEFT,
    Event::Place(1, 11),
    SENT_RIGHT,
    Event::Place(0, 24),
    SENT_LEFT,
    Event::Place(1, 24),
    SENT_RIGHT,
    Event::Step(ClientMoved::Requested),
    Event::Place(0, 25),
    SENT_LEFT,
    Event::Place(1, 25),
    SENT_RIGHT,
    Event::Step(ClientMoved::BlockedRequest),
    Event::Asked(SWAP),
    Event::Step(ClientMoved::Requested),
    Event::Step(ClientMoved::Ended),
    Event::Place(0, 26),
    Event::Place(1, 26),
    Event::Asked(Request::End),
];

const LEFT: Tally = Tally {
    parcels: 6,
    sets: 3,
    looks: 46,
};

const RIGHT: Tally = Tally {
    parcels: 5,
    sets: 1,
    looks: 31,
};

// Whether the core keeps these tallies, a stream of 26 commands, and no refused one.
fn keeps(core: ClientCore) -> bool {
    let kept = core.into_kept();
    kept.tallies.as_slice() == [LEFT, RIGHT].as_slice()
        && kept.syncs.length == 26
        && kept.faults.as_slice().is_empty()
}

// Whether the client goes through the events, with memory for all, and keeps its tallies.
fn is_held_up(rt: &impl Abort, alloc: Global) -> bool {
    let stream = draws(alloc).expect(rt, "memory");
    let mut run = run_of(rt, alloc, stream, &TWO, 1);
    let count = play(&mut run, &EVENTS).expect(rt, "memory");
    let tallies = (run.tally(0), run.tally(1));
    let is_short = run.core.is_short();
    let Run { core, .. } = run;
    count == 33 && tallies == (Some(LEFT), Some(RIGHT)) && !is_short && keeps(core)
}

#[test]
fn full_lanes_hold_a_client_up(rt: HostRuntime) {
    assert!(rt; is_held_up(&rt, rt.alloc()));
}

// The draws, then a Clear, a draw and a second Swap: eight commands for each tile, and one more for the left.
fn mixed(alloc: Global) -> Result<Commands, OutOfMemory>
    ensures { IfOk result (AllByRecursion IsCommand) }
{
    let mut stream = draws(alloc)?;
    push(&mut stream, Command::Clear { mask: 3 })?;
    cover(&mut stream)?;
    push(&mut stream, Command::Swap)?;
    Ok(stream)
}

// What was taken from each lane, in order, and how many steps found a lane full.
#[derive(Drop)]
struct Taken {
    left: Vec<Parcel>,
    right: Vec<Parcel>,
    requests: Vec<Request>,
    blocked: u32,
}

// Takes a request from a lane, where it holds one.
fn take_request(
    lane: &mut PlainLane<Request>,
    taken: &mut Vec<Request>,
) -> Result<(), OutOfMemory> {
    if let Some(request) = lane.pop() {
        taken.push(request)?;
    }
    Ok(())
}

// Takes a parcel from a lane, where it holds one, and unpacks it.
fn take_parcel(lane: &mut PlainLane<Packed>, taken: &mut Vec<Parcel>) -> Result<(), OutOfMemory> {
    if let Some(packed) = lane.pop() {
        taken.push(packed.parcel()?)?;
    }
    Ok(())
}

impl Taken {
    fn count(&mut self, moved: ClientMoved) {
        match moved {
            ClientMoved::BlockedTile { .. } | ClientMoved::BlockedRequest => {
                self.blocked = self.blocked.saturating_add(1);
            }
            _ => {}
        }
    }

    // Bits 0, 1 and 2 of the draw say from which of the lanes an item is taken.
    fn empty(&mut self, run: &mut Run, draw: u64) -> Result<(), OutOfMemory>
        ensures core { run.new.core ≡ run.old.core }
        ensures lanes { length run.new.tiles.items ≡ length run.old.tiles.items }
    {
        if draw % 2 == 1
            && let Some(lane) = run.tiles.get_mut(0)
        {
            take_parcel(lane, &mut self.left)?;
        }
        if draw / 2 % 2 == 1
            && let Some(lane) = run.tiles.get_mut(1)
        {
            take_parcel(lane, &mut self.right)?;
        }
        if draw / 4 % 2 == 1 {
            take_request(&mut run.requests, &mut self.requests)?;
        }
        Ok(())
    }

    fn turn(&mut self, run: &mut Run, draw: u64) -> Result<(), OutOfMemory>
        requires { length run.old.tiles.items ≡ tile_count (layout_of run.old.core) }
        ensures { length run.new.tiles.items ≡ tile_count (layout_of run.new.core) }
    {
        let moved = run.step()?;
        self.count(moved);
        self.empty(run, draw)
    }

    // 100 turns, after each of whose steps a linear congruential generator with a fixed seed draws the lanes.
    fn turns(&mut self, run: &mut Run) -> Result<(), OutOfMemory>
        requires { length run.old.tiles.items ≡ tile_count (layout_of run.old.core) }
    {
        let mut state: u64 = 7;
        for _ in 0..100 {
            state = state
                .wrapping_mul(6_364_136_223_846_793_005)
                .wrapping_add(1_442_695_040_888_963_407);
            self.turn(run, state >> 40)?;
        }
        Ok(())
    }
}

// What is taken from lanes of this depth in 100 turns.
fn emptied(rt: &impl Abort, alloc: Global, depth: usize) -> Taken
    requires depth { (1 ≤ depth) × (depth ≤ 16) }
{
    let stream = mixed(alloc).expect(rt, "memory");
    let mut run = run_of(rt, alloc, stream, &TWO, depth);
    let mut taken = Taken {
        left: Vec::new(alloc),
        right: Vec::new(alloc),
        requests: Vec::new(alloc),
        blocked: 0,
    };
    taken.turns(&mut run).expect(rt, "memory");
    taken
}

// Whether lanes of depth 1 got what lanes of depth 16 got, and held the client up.
fn are_emptied_alike(rt: &impl Abort, alloc: Global) -> bool {
    let deep = emptied(rt, alloc, 16);
    let shallow = emptied(rt, alloc, 1);
    deep.blocked == 0
        && shallow.blocked > 0
        && deep.left.len() == 9
        && deep.right.len() == 8
        && deep.requests.len() == 3
        && shallow.left == deep.left
        && shallow.right == deep.right
        && shallow.requests == deep.requests
}

#[test]
fn lanes_of_depth_1_emptied_at_random_times_get_what_deep_lanes_get(rt: HostRuntime) {
    assert!(rt; are_emptied_alike(&rt, rt.alloc()));
}

// A triangle over the window, and a Swap.
fn triangle(alloc: Global) -> Result<Commands, OutOfMemory>
    ensures { IfOk result (AllByRecursion IsCommand) }
{
    let mut stream = Commands::new(alloc);
    push(&mut stream, Command::Enable { capability: 3 })?;
    cover(&mut stream)?;
    push(&mut stream, Command::Swap)?;
    Ok(stream)
}

// How many steps move an item, of at most so many.
fn moves(run: &mut Run, most: usize) -> Result<usize, OutOfMemory>
    requires { length run.old.tiles.items ≡ tile_count (layout_of run.old.core) }
{
    for i in 0..most {
        if run.step()? == ClientMoved::Ended {
            return Ok(i);
        }
    }
    Ok(most)
}

// The tile was sent the parcels of places 5, 6 and 7 and no other.
fn has_three(run: &mut Run, tile: usize) -> bool {
    run.place(tile) == Some(5)
        && run.place(tile) == Some(6)
        && run.place(tile) == Some(7)
        && run.place(tile).is_none()
}

// How many of the nine tiles were sent three parcels.
fn sent_three(run: &mut Run) -> u32 {
    let mut count: u32 = 0;
    for tile in 0..9 {
        if has_three(run, tile) {
            count = count.saturating_add(1);
        }
    }
    count
}

// The requests in a lane of a client that swaps once at this place, and ends: no other.
fn asks_to_swap(requests: &mut PlainLane<Request>, place: u32) -> bool {
    let swap = Request::Op {
        place,
        op: SyncOp::Swap,
    };
    requests.pop() == Some(swap) && requests.pop() == Some(Request::End) && requests.pop() == None
}

// Whether the triangle goes to nine tiles in 29 steps.
fn goes_to_nine(rt: &impl Abort, alloc: Global) -> bool {
    let stream = triangle(alloc).expect(rt, "memory");
    let mut run = run_of(rt, alloc, stream, &NINE, 16);
    let count = moves(&mut run, 40).expect(rt, "memory");
    count == 29 && sent_three(&mut run) == 9 && asks_to_swap(&mut run.requests, 6)
}

#[test]
fn a_triangle_over_the_window_goes_to_nine_tiles(rt: HostRuntime) {
    assert!(rt; goes_to_nine(&rt, rt.alloc()));
}
