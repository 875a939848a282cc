//! The right one of two tiles by hand: two clients clear it, meet at a barrier, swap and end; and a texture is written into it and drawn.
ghost use Rattle.std.specs.Prelude.{◌≡◌, IfOk, length};
ghost use Rattle.tile_server.specs.Cores.{clients_of};

use order_model::record::LogEntry;
use parcel_bytes::{Packed, encode_parcel, is_packable};
use rc_base::cluster::TileMoved;
use rc_base::command::{Part, Rgba, Texels};
use rc_base::lane::{Inlet, Outlet};
use rc_base::out_of_memory::OutOfMemory;
use rc_base::plain_lane::PlainLane;
use rc_base::scene::{Counts, Decl, Sizes, Units};
use rc_base::state::{Act, Block, ElementSet, ElementValue, Parcel, Sets, Vertex, Vertices};
use rc_base::sync::{Entry, Grant, SyncOp};
use rc_base::window::{Layout, Pixel};
use std::alloc::Global;
use std::process::Abort;
use tile_server::TileCore;

// A core with its lanes.
#[derive(Drop)]
struct Run {
    core: TileCore,
    clients: Vec<PlainLane<Packed>>,
    grants: PlainLane<Grant>,
    ghost lanes: { length clients.items ≡ clients_of core },
}

// Two lanes that hold one parcel.
fn two_lanes(alloc: Global) -> Result<Vec<PlainLane<Packed>>, OutOfMemory>
    ensures { IfOk result (λ lanes. length lanes.items ≡ 2) }
{
    let mut lanes = Vec::new(alloc);
    lanes.push(PlainLane::new(alloc, 1)?)?;
    lanes.push(PlainLane::new(alloc, 1)?)?;
    Ok(lanes)
}

// The right tile of a window of 2 by 1 pixels, with two clients.
fn run_of(rt: &impl Abort, alloc: Global, shared: Sizes) -> Run {
    let decl = Decl {
        version: 1,
        width: 2,
        height: 1,
        shared,
        barriers: Counts::from_slice(alloc, &[2]).expect(rt, "memory"),
        semaphores: Units::new(alloc),
    };
    let layout = Layout {
        width: 2,
        height: 1,
        columns: 2,
        rows: 1,
    };
    Run {
        core: TileCore::new(alloc, &decl, 2, &layout, 1).expect(rt, "memory"),
        clients: two_lanes(alloc).expect(rt, "memory"),
        grants: PlainLane::new(alloc, 1).expect(rt, "memory"),
    }
}

// An act that sets nothing.
fn parcel(alloc: Global, place: u32, act: Act) -> Parcel {
    Parcel {
        place,
        sets: Sets::new(alloc),
        act,
    }
}

// A Clear of the colour to so much red, green, blue and alpha, of which these are written.
fn clear(alloc: Global, color: Rgba, mask: [bool; 4]) -> Result<(Sets, Act), OutOfMemory> {
    let mut sets = Sets::new(alloc);
    sets.push(ElementSet {
        element: 16,
        value: ElementValue::Mask(mask),
    })?;
    sets.push(ElementSet {
        element: 17,
        value: ElementValue::Color(color),
    })?;
    Ok((sets, Act::Clear(1)))
}

// What a step tells, with the number of the frame and its first pixel.
#[derive(Clone, Copy, PartialEq)]
enum Outcome {
    Performed,
    Swapped(u32, Option<Pixel>),
    Learnt,
    Took(u8),
    Held(u8),
    Closed(u8),
    Dropped(u8),
    Blocked,
    Ended,
}

fn outcome_of(moved: TileMoved) -> Outcome {
    match moved {
        TileMoved::Performed => Outcome::Performed,
        TileMoved::Swapped(part) => {
            Outcome::Swapped(part.frame, part.pixels.as_slice().first().copied())
        }
        TileMoved::Learnt => Outcome::Learnt,
        TileMoved::Took { client } => Outcome::Took(client),
        TileMoved::Held { client } => Outcome::Held(client),
        TileMoved::Closed { client } => Outcome::Closed(client),
        TileMoved::Dropped { client } => Outcome::Dropped(client),
        TileMoved::Blocked => Outcome::Blocked,
        TileMoved::Ended => Outcome::Ended,
    }
}

// What is done with the lanes, and what a step tells.
#[derive(Clone, Copy)]
enum Event {
    Clear(usize, u32, Rgba, [bool; 4]),
    Wait(usize, u32, SyncOp),
    End(usize, u32),
    Grant(Grant),
    Step(Outcome),
    // Of which of both clients parcels are taken, and whether grants are.
    Asked([bool; 2], bool),
}

impl Run {
    // Packs the parcel and puts it into the client's lane, if that is empty.
    fn put(&mut self, alloc: Global, client: usize, parcel: &Parcel) -> Result<bool, OutOfMemory> {
        if !is_packable(parcel) {
            return Ok(false);
        }
        let packed = encode_parcel(alloc, parcel)?;
        match self.clients.get_mut(client) {
            Some(lane) => Ok(lane.push(packed).is_ok()),
            None => Ok(false),
        }
    }

    // Steps once the parcel was put into the client's lane.
    fn take(
        &mut self,
        alloc: Global,
        client: usize,
        parcel: &Parcel,
    ) -> Result<Outcome, OutOfMemory> {
        self.put(alloc, client, parcel)?;
        self.step()
    }

    fn step(&mut self) -> Result<Outcome, OutOfMemory> {
        let moved = self.core.step(&mut self.clients, &mut self.grants)?;
        Ok(outcome_of(moved))
    }

    fn asks(&self, clients: [bool; 2], grants: bool) -> bool {
        let asked = self.core.asked();
        asked[0] == clients[0] && asked[1] == clients[1] && self.core.listens() == grants
    }

    // The event goes as it says.
    fn goes(&mut self, alloc: Global, event: Event) -> Result<bool, OutOfMemory> {
        match event {
            Event::Clear(client, place, color, mask) => {
                let (sets, act) = clear(alloc, color, mask)?;
                self.put(alloc, client, &Parcel { place, sets, act })
            }
            Event::Wait(client, place, op) => {
                self.put(alloc, client, &parcel(alloc, place, Act::Sync(op)))
            }
            Event::End(client, place) => self.put(alloc, client, &parcel(alloc, place, Act::End)),
            Event::Grant(grant) => Ok(self.grants.push(grant).is_ok()),
            Event::Step(told) => Ok(self.step()? == told),
            Event::Asked(clients, grants) => Ok(self.asks(clients, grants)),
        }
    }
}

// How many events go as they say.
fn play(alloc: Global, run: &mut Run, events: &[Event]) -> Result<usize, OutOfMemory> {
    for (i, event) in events.iter().enumerate() {
        if !run.goes(alloc, *event)? {
            return Ok(i);
        }
    }
    Ok(events.len())
}

const RED: Rgba = Rgba {
    r: 200,
    g: 10,
    b: 20,
    a: 30,
};

const GREEN: Rgba = Rgba {
    r: 1,
    g: 2,
    b: 3,
    a: 4,
};

// The first colour, with the green of the second one.
const SHOWN: Pixel = Pixel {
    color: Rgba {
        r: 200,
        g: 2,
        b: 20,
        a: 30,
    },
    depth: 16_777_215,
};

const MEET: Entry = Entry::Meet {
    barrier: 1,
    members: 0b11,
};

const EVENTS: [Event; 36] = [
    Event::Step(Outcome::Blocked),
    Event::Asked([true, true], true),
    Event::Clear(1, 5, GREEN, [false, true, false, false]),
    Event::Clear(0, 3, RED, [true, true, true, true]),
    Event::Step(Outcome::Took(0)),
    Event::Wait(0, 4, SyncOp::Barrier(1)),
    Event::Step(Outcome::Took(1)),
    Event::Step(Outcome::Held(0)),
    Event::Asked([false, true], true),
    Event::Wait(0, 9, SyncOp::Swap),
    Event::Step(Outcome::Blocked),
    Event::Grant(Grant::Entry(MEET)),
    Event::Step(Outcome::Learnt),
    Event::Step(Outcome::Blocked),
    Event::Wait(1, 6, SyncOp::Barrier(1)),
    Event::Step(Outcome::Held(1)),
    Event::Step(Outcome::Performed),
    Event::Step(Outcome::Held(0)),
    Event::Grant(Grant::Entry(Entry::Swap)),
    Event::Step(Outcome::Learnt),
    Event::Wait(1, 7, SyncOp::Swap),
    Event::Step(Outcome::Held(1)),
    Event::Step(Outcome::Swapped(1, Some(SHOWN))),
    Event::End(0, 10),
    Event::Step(Outcome::Closed(0)),
    Event::Grant(Grant::NoMore),
    Event::Step(Outcome::Learnt),
    Event::Asked([false, true], false),
    Event::Wait(1, 8, SyncOp::Barrier(1)),
    Event::Step(Outcome::Held(1)),
    Event::Clear(1, 9, RED, [true, true, true, true]),
    Event::Step(Outcome::Dropped(1)),
    Event::End(1, 10),
    Event::Step(Outcome::Closed(1)),
    Event::Asked([false, false], false),
    Event::Step(Outcome::Ended),
];

const LOG: [LogEntry; 4] = [
    LogEntry::Took {
        client: 0,
        place: 3,
    },
    LogEntry::Took {
        client: 1,
        place: 5,
    },
    LogEntry::Performed,
    LogEntry::Performed,
];

// Whether the tile goes through the events, with memory for all, and keeps the log.
fn goes_through(rt: &impl Abort, alloc: Global) -> bool {
    let mut run = run_of(rt, alloc, Sizes::new(alloc));
    let count = play(alloc, &mut run, &EVENTS).expect(rt, "memory");
    let is_short = run.core.is_short();
    let Run { core, .. } = run;
    count == 36 && !is_short && core.into_log().as_slice() == LOG.as_slice()
}

#[test]
fn two_clients_clear_meet_and_swap(rt: HostRuntime) {
    assert!(rt; goes_through(&rt, rt.alloc()));
}

// A texel that is written into this column of shared texture 1.
fn texel(alloc: Global, x: u16) -> Result<Parcel, OutOfMemory> {
    Ok(Parcel {
        place: 0,
        sets: Sets::new(alloc),
        act: Act::Shared(Part {
            name: 1,
            x,
            y: 0,
            w: 1,
            h: 1,
            texels: Texels::from_slice(alloc, &[10, 20, 30, 40])?,
        }),
    })
}

fn corner(x: i32, y: i32) -> Vertex {
    Vertex {
        pos: [x, y, 0, 65_536],
        color: Rgba {
            r: 255,
            g: 255,
            b: 255,
            a: 255,
        },
        s: 0,
        t: 0,
    }
}

// A white triangle over the lower right half of the window, which samples this shared texture.
fn triangle(alloc: Global, texture: u8) -> Result<Parcel, OutOfMemory> {
    let mut sets = Sets::new(alloc);
    sets.push(ElementSet {
        element: 19,
        value: ElementValue::Flag(true),
    })?;
    sets.push(ElementSet {
        element: 20,
        value: ElementValue::Pair([1, texture]),
    })?;
    let corners = [
        corner(-65_536, -65_536),
        corner(65_536, -65_536),
        corner(65_536, 65_536),
    ];
    Ok(Parcel {
        place: 1,
        sets,
        act: Act::Draw(Block {
            mode: 0,
            vertices: Vertices::from_slice(alloc, &corners)?,
        }),
    })
}

// Writes the texel, draws the triangle with the texture of a name, and lets both clients swap. Whether the grant found room.
fn draw(rt: &impl Abort, alloc: Global, run: &mut Run, x: u16, texture: u8) -> bool {
    let texel = texel(alloc, x).expect(rt, "memory");
    run.take(alloc, 0, &texel).expect(rt, "memory");
    let triangle = triangle(alloc, texture).expect(rt, "memory");
    run.take(alloc, 0, &triangle).expect(rt, "memory");
    swap(rt, alloc, run, 0, 2);
    swap(rt, alloc, run, 1, 0);
    run.grants.push(Grant::Entry(Entry::Swap)).is_ok()
}

fn swap(rt: &impl Abort, alloc: Global, run: &mut Run, client: usize, place: u32) {
    let swap = parcel(alloc, place, Act::Sync(SyncOp::Swap));
    run.take(alloc, client, &swap).expect(rt, "memory");
}

// The right one of two pixels in the frame that is shown after a texel was written into a texture of one column, and the texture of a name drawn.
fn drawn(rt: &impl Abort, alloc: Global, x: u16, texture: u8) -> Option<Pixel> {
    let shared = Sizes::from_slice(alloc, &[[1, 1]]).expect(rt, "memory");
    let mut run = run_of(rt, alloc, shared);
    let granted = draw(rt, alloc, &mut run, x, texture);
    run.step().expect(rt, "memory");
    match run.step().expect(rt, "memory") {
        Outcome::Swapped(1, pixel) if granted => pixel,
        _ => None,
    }
}

// A column that is written, a texture's name, and the colour that is drawn.
const DRAWN: [(u16, u8, Rgba); 3] = [
    (
        0,
        1,
        Rgba {
            r: 10,
            g: 20,
            b: 30,
            a: 40,
        },
    ),
    (1, 1, CLEAR_BLACK),
    (0, 2, CLEAR_BLACK),
];

const CLEAR_BLACK: Rgba = Rgba {
    r: 0,
    g: 0,
    b: 0,
    a: 0,
};

#[test]
fn a_written_texture_is_drawn_where_its_name_is_declared(rt: HostRuntime) {
    for (x, texture, color) in &DRAWN {
        let pixel = Pixel {
            color: *color,
            depth: 16_777_215,
        };
        assert!(rt; drawn(&rt, rt.alloc(), *x, *texture) == Some(pixel));
    }
}
