//! Books by hand: a unit that goes from client to client, a client that waits for ever, and barriers of different counts. Managers by hand: clients
//! that meet at a barrier, philosophers that get stuck, and a name that isn't declared.
ghost use Rattle.std.specs.Prelude.{◌≡◌, ◌<◌, ℕ, Some, IsTrue, IfOk, length};
ghost use Rattle.rc_base.specs.Lists.{at_name};
ghost use Rattle.sync_manager.specs.Cores.{clients_of, tiles_of};

use rc_base::cluster::ManagerMoved;
use rc_base::lane::{Inlet, Outlet};
use rc_base::out_of_memory::OutOfMemory;
use rc_base::plain_lane::PlainLane;
use rc_base::scene::{Counts, Decl, Sizes, Units};
use rc_base::sync::{Entry, Grant, Request, SyncOp, WaitAt, Waiting};
use std::alloc::Global;
use std::process::Abort;
use sync_manager::book::Book;
use sync_manager::manager::ManagerCore;

// A declaration of a barrier of 2, one of 3, and semaphores of so many units.
fn declared(alloc: Global, units: &[u16]) -> Result<Decl, OutOfMemory> {
    Ok(Decl {
        version: 1,
        width: 1,
        height: 1,
        shared: Sizes::new(alloc),
        barriers: Counts::from_slice(alloc, &[2, 3])?,
        semaphores: Units::from_slice(alloc, units)?,
    })
}

#[tactic(auto, using(crate::proofs::Looked::positive))]
fn are_positive(counts: &[u8]) -> bool
    ensures { IsTrue result → (barrier count : ℕ) → at_name counts.now barrier ≡ Some count → 0 < count }
{
    for count in counts {
        if *count == 0 {
            return false;
        }
    }
    true
}

// A book of so many clients, if the declaration is one that a scene can have.
fn book_of(alloc: Global, clients: u8, units: u16) -> Result<Book, OutOfMemory> {
    let decl = declared(alloc, &[units])?;
    if clients == 0
        || clients > 8
        || decl.barriers.len() > 255
        || !are_positive(decl.barriers.as_slice())
    {
        return Err(OutOfMemory);
    }
    Book::new(alloc, &decl, clients)
}

// Lets the operation arrive, if it may.
fn arrive(book: &mut Book, client: u8, place: u32, op: SyncOp) -> Result<bool, OutOfMemory> {
    if client >= book.clients() || !book.is_wanted(client) || !book.is_declared(op) {
        return Ok(false);
    }
    book.arrive(client, place, op)?;
    Ok(true)
}

// Ends the client, if it may.
fn end(book: &mut Book, client: u8) -> bool {
    if client >= book.clients() || !book.is_wanted(client) {
        return false;
    }
    book.end(client);
    true
}

// What is done with a book, and what it answers.
#[derive(Clone, Copy)]
enum Deed {
    Arrive(u8, u32, SyncOp),
    End(u8),
    Grant(Option<Entry>),
    Over(bool),
}

// The deed goes as it says.
fn does(book: &mut Book, deed: Deed) -> Result<bool, OutOfMemory> {
    match deed {
        Deed::Arrive(client, place, op) => arrive(book, client, place, op),
        Deed::End(client) => Ok(end(book, client)),
        Deed::Grant(entry) => Ok(book.grant() == entry),
        Deed::Over(is_over) => Ok(book.is_over() == is_over),
    }
}

// How many deeds go as they say.
fn done(book: &mut Book, deeds: &[Deed]) -> Result<usize, OutOfMemory> {
    for (i, deed) in deeds.iter().enumerate() {
        if !does(book, *deed)? {
            return Ok(i);
        }
    }
    Ok(deeds.len())
}

// Whether a book of so many clients and units does so, and ends with who waits and with this journal.
fn keeps_book(
    rt: &impl Abort,
    alloc: Global,
    (clients, units): (u8, u16),
    deeds: &[Deed],
    waiting: Option<Waiting>,
    journal: &[Entry],
) -> bool {
    let mut book = book_of(alloc, clients, units).expect(rt, "memory");
    let count = done(&mut book, deeds).expect(rt, "memory");
    count == deeds.len()
        && book.stuck() == waiting
        && book.journal() == journal
        && book.into_journal().as_slice() == journal
}

const FIRST_TAKES: Entry = Entry::Take {
    semaphore: 1,
    client: 0,
};

const FIRST_GIVES: Entry = Entry::Give {
    semaphore: 1,
    client: 0,
};

const SECOND_TAKES: Entry = Entry::Take {
    semaphore: 1,
    client: 1,
};

const SECOND_GIVES: Entry = Entry::Give {
    semaphore: 1,
    client: 1,
};

const UNIT_GOES: [Deed; 14] = [
    Deed::Arrive(0, 3, SyncOp::SemP(1)),
    Deed::Arrive(1, 3, SyncOp::SemP(1)),
    Deed::Grant(Some(FIRST_TAKES)),
    Deed::Grant(None),
    Deed::Over(false),
    Deed::Arrive(0, 9, SyncOp::SemV(1)),
    Deed::Grant(Some(FIRST_GIVES)),
    Deed::Grant(Some(SECOND_TAKES)),
    Deed::Arrive(0, 10, SyncOp::Swap),
    Deed::Grant(None),
    Deed::Arrive(1, 9, SyncOp::SemV(1)),
    Deed::Grant(Some(SECOND_GIVES)),
    Deed::Arrive(1, 10, SyncOp::Swap),
    Deed::Grant(Some(Entry::Swap)),
];

const UNIT_WENT: [Entry; 5] = [
    FIRST_TAKES,
    FIRST_GIVES,
    SECOND_TAKES,
    SECOND_GIVES,
    Entry::Swap,
];

#[test]
fn a_unit_goes_from_client_to_client(rt: HostRuntime) {
    assert!(rt; keeps_book(&rt, rt.alloc(), (2, 1), &UNIT_GOES, None, &UNIT_WENT));
}

const WAITS_FOR_EVER: [Deed; 5] = [
    Deed::Arrive(0, 2, SyncOp::Swap),
    Deed::Grant(Some(Entry::Swap)),
    Deed::Arrive(0, 3, SyncOp::SemP(1)),
    Deed::Grant(None),
    Deed::Over(true),
];

// This client waits so, and no other one.
fn alone(client: usize, place: u32, op: SyncOp) -> Option<Waiting> {
    let mut at = [None; 8];
    if client < 8 {
        at[client] = Some(WaitAt { place, op });
    }
    Some(Waiting { at })
}

#[test]
fn a_client_waits_for_ever(rt: HostRuntime) {
    let waiting = alone(0, 3, SyncOp::SemP(1));
    assert!(rt;
        keeps_book(
            &rt,
            rt.alloc(),
            (1, 0),
            &WAITS_FOR_EVER,
            waiting,
            &[Entry::Swap]
        )
    );
}

const FIRST_PAIR: Entry = Entry::Meet {
    barrier: 1,
    members: 0b011,
};

const SECOND_PAIR: Entry = Entry::Meet {
    barrier: 1,
    members: 0b110,
};

const ALL_THREE: Entry = Entry::Meet {
    barrier: 2,
    members: 0b111,
};

const ALL_MEET: [Entry; 3] = [FIRST_PAIR, SECOND_PAIR, ALL_THREE];

const THREE_MEET: [Deed; 15] = [
    Deed::Arrive(0, 0, SyncOp::Barrier(1)),
    Deed::Arrive(1, 0, SyncOp::Barrier(1)),
    Deed::Arrive(2, 0, SyncOp::Barrier(1)),
    Deed::Grant(Some(FIRST_PAIR)),
    Deed::Grant(None),
    Deed::Arrive(1, 1, SyncOp::Barrier(1)),
    Deed::Grant(Some(SECOND_PAIR)),
    Deed::Arrive(0, 2, SyncOp::Barrier(2)),
    Deed::Arrive(1, 2, SyncOp::Barrier(2)),
    Deed::Arrive(2, 2, SyncOp::Barrier(2)),
    Deed::Grant(Some(ALL_THREE)),
    Deed::End(0),
    Deed::End(2),
    Deed::Arrive(1, 3, SyncOp::Swap),
    Deed::Grant(None),
];

#[test]
fn the_lowest_clients_meet(rt: HostRuntime) {
    let waiting = alone(1, 3, SyncOp::Swap);
    assert!(rt; keeps_book(&rt, rt.alloc(), (3, 0), &THREE_MEET, waiting, &ALL_MEET));
}

// ---- managers

// So many lanes that hold one item.
fn lanes_of<T: Drop>(alloc: Global, n: u8) -> Result<Vec<PlainLane<T>>, OutOfMemory>
    ensures { IfOk result (λ lanes. length lanes.items ≡ n) }
{
    let mut lanes = Vec::new(alloc);
    for i in 0..n {
        let lane = PlainLane::new(alloc, 1)?;
        lanes.push(lane)?;
    }
    Ok(lanes)
}

// A manager with its lanes.
#[derive(Drop)]
struct Run {
    core: ManagerCore,
    requests: Vec<PlainLane<Request>>,
    grants: Vec<PlainLane<Grant>>,
    ghost clients: { length requests.items ≡ clients_of core },
    ghost tiles: { length grants.items ≡ tiles_of core },
}

// A manager of so many clients and tiles.
fn run_of(alloc: Global, clients: u8, tiles: u8, units: &[u16]) -> Result<Run, OutOfMemory> {
    let decl = declared(alloc, units)?;
    if clients == 0
        || clients > 8
        || decl.barriers.len() > 255
        || !are_positive(decl.barriers.as_slice())
    {
        return Err(OutOfMemory);
    }
    let core = ManagerCore::new(alloc, &decl, clients, tiles)?;
    let requests = lanes_of(alloc, clients)?;
    let grants = lanes_of(alloc, tiles)?;
    Ok(Run {
        core,
        requests,
        grants,
    })
}

impl Run {
    // Puts the request into the client's lane, if it is empty.
    fn ask(&mut self, client: usize, request: Request) -> bool {
        match self.requests.get_mut(client) {
            Some(lane) => lane.push(request).is_ok(),
            None => false,
        }
    }

    fn step(&mut self) -> Result<ManagerMoved, OutOfMemory> {
        self.core.step(&mut self.requests, &mut self.grants)
    }

    // The grant that the tile's lane holds.
    fn told(&mut self, tile: usize) -> Option<Grant> {
        match self.grants.get_mut(tile) {
            Some(lane) => lane.pop(),
            None => None,
        }
    }
}

// What is done with the lanes, and what a step answers.
#[derive(Clone, Copy)]
enum Event {
    Ask(usize, u32, SyncOp),
    End(usize),
    Step(ManagerMoved),
    Told(usize, Grant),
}

// The event goes as it says.
fn goes(run: &mut Run, event: Event) -> Result<bool, OutOfMemory> {
    match event {
        Event::Ask(client, place, op) => Ok(run.ask(client, Request::Op { place, op })),
        Event::End(client) => Ok(run.ask(client, Request::End)),
        Event::Step(moved) => Ok(run.step()? == moved),
        Event::Told(tile, grant) => Ok(run.told(tile) == Some(grant)),
    }
}

// How many events go as they say.
fn play(run: &mut Run, events: &[Event]) -> Result<usize, OutOfMemory> {
    for (i, event) in events.iter().enumerate() {
        if !goes(run, *event)? {
            return Ok(i);
        }
    }
    Ok(events.len())
}

// So many clients, tiles and units of semaphores, the events that a manager goes through, whether anyone waits at the end, and the journal.
struct Case {
    clients: u8,
    tiles: u8,
    units: &'static [u16],
    events: &'static [Event],
    is_stuck: bool,
    journal: &'static [Entry],
}

// Whether a manager goes through the events, with memory for all, and ends so.
fn goes_through(rt: &impl Abort, alloc: Global, case: &Case) -> bool {
    let mut run = run_of(alloc, case.clients, case.tiles, case.units).expect(rt, "memory");
    let count = play(&mut run, case.events).expect(rt, "memory");
    let is_stuck = run.core.book().stuck().is_some();
    let is_short = run.core.is_short();
    let Run { core, .. } = run;
    count == case.events.len()
        && is_stuck == case.is_stuck
        && !is_short
        && core.into_journal().as_slice() == case.journal
}

const MEETING: [Event; 30] = [
    Event::Step(ManagerMoved::BlockedRequest),
    Event::Ask(1, 4, SyncOp::Barrier(1)),
    Event::Step(ManagerMoved::Arrived { client: 1 }),
    Event::Ask(1, 5, SyncOp::Swap),
    Event::Step(ManagerMoved::BlockedRequest),
    Event::Ask(0, 7, SyncOp::Barrier(1)),
    Event::Step(ManagerMoved::Arrived { client: 0 }),
    Event::Ask(0, 9, SyncOp::Swap),
    Event::Step(ManagerMoved::Granted),
    Event::Step(ManagerMoved::Delivered { tile: 0 }),
    Event::Step(ManagerMoved::Delivered { tile: 1 }),
    Event::Told(0, Grant::Entry(FIRST_PAIR)),
    Event::Step(ManagerMoved::Arrived { client: 1 }),
    Event::Step(ManagerMoved::Arrived { client: 0 }),
    Event::Step(ManagerMoved::Granted),
    Event::Step(ManagerMoved::Delivered { tile: 0 }),
    Event::Step(ManagerMoved::BlockedGrant { tile: 1 }),
    Event::Told(1, Grant::Entry(FIRST_PAIR)),
    Event::Step(ManagerMoved::Delivered { tile: 1 }),
    Event::Told(0, Grant::Entry(Entry::Swap)),
    Event::Told(1, Grant::Entry(Entry::Swap)),
    Event::End(0),
    Event::End(1),
    Event::Step(ManagerMoved::Arrived { client: 1 }),
    Event::Step(ManagerMoved::Arrived { client: 0 }),
    Event::Step(ManagerMoved::Delivered { tile: 0 }),
    Event::Step(ManagerMoved::Delivered { tile: 1 }),
    Event::Told(0, Grant::NoMore),
    Event::Told(1, Grant::NoMore),
    Event::Step(ManagerMoved::Ended),
];

const TWO_CLIENTS: Case = Case {
    clients: 2,
    tiles: 2,
    units: &[],
    events: &MEETING,
    is_stuck: false,
    journal: &[FIRST_PAIR, Entry::Swap],
};

#[test]
fn two_clients_meet_and_swap(rt: HostRuntime) {
    assert!(rt; goes_through(&rt, rt.alloc(), &TWO_CLIENTS));
}

const SECOND_FORK: Entry = Entry::Take {
    semaphore: 2,
    client: 1,
};

const FORKS: [Event; 24] = [
    Event::Ask(0, 0, SyncOp::SemP(1)),
    Event::Ask(1, 0, SyncOp::SemP(2)),
    Event::Step(ManagerMoved::Arrived { client: 0 }),
    Event::Step(ManagerMoved::Granted),
    Event::Step(ManagerMoved::Delivered { tile: 0 }),
    Event::Told(0, Grant::Entry(FIRST_TAKES)),
    Event::Ask(0, 1, SyncOp::SemP(2)),
    Event::Step(ManagerMoved::Arrived { client: 1 }),
    Event::Step(ManagerMoved::Granted),
    Event::Step(ManagerMoved::Delivered { tile: 0 }),
    Event::Told(0, Grant::Entry(SECOND_FORK)),
    Event::Ask(1, 1, SyncOp::SemP(1)),
    Event::Step(ManagerMoved::Arrived { client: 0 }),
    Event::Step(ManagerMoved::Arrived { client: 1 }),
    Event::Step(ManagerMoved::Delivered { tile: 0 }),
    Event::Told(0, Grant::NoMore),
    Event::Ask(0, 2, SyncOp::SemV(1)),
    Event::End(1),
    Event::Step(ManagerMoved::Drained { client: 0 }),
    Event::Step(ManagerMoved::Drained { client: 1 }),
    Event::Step(ManagerMoved::BlockedRequest),
    Event::End(0),
    Event::Step(ManagerMoved::Drained { client: 0 }),
    Event::Step(ManagerMoved::Ended),
];

const PHILOSOPHERS: Case = Case {
    clients: 2,
    tiles: 1,
    units: &[1, 1],
    events: &FORKS,
    is_stuck: true,
    journal: &[FIRST_TAKES, SECOND_FORK],
};

#[test]
fn philosophers_get_stuck(rt: HostRuntime) {
    assert!(rt; goes_through(&rt, rt.alloc(), &PHILOSOPHERS));
}

const UNDECLARED: [Event; 7] = [
    Event::Ask(0, 0, SyncOp::SemV(1)),
    Event::Step(ManagerMoved::Arrived { client: 0 }),
    Event::Step(ManagerMoved::Delivered { tile: 0 }),
    Event::Told(0, Grant::NoMore),
    Event::End(0),
    Event::Step(ManagerMoved::Drained { client: 0 }),
    Event::Step(ManagerMoved::Ended),
];

// A request for a name that isn't declared counts as End, so nobody waits.
const NO_SEMAPHORE: Case = Case {
    clients: 1,
    tiles: 1,
    units: &[],
    events: &UNDECLARED,
    is_stuck: false,
    journal: &[],
};

#[test]
fn a_name_that_is_not_declared_ends_its_client(rt: HostRuntime) {
    assert!(rt; goes_through(&rt, rt.alloc(), &NO_SEMAPHORE));
}
