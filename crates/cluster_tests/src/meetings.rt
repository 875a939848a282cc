//! Two meetings in a row, along two of the orders that the journal permits: what is before what, and which commands race. What a survey tells.
ghost use Rattle.std.specs.Prelude.{◌<◌};
ghost use Rattle.rc_base.specs.Formats.Within.{IsWithin};

use crate::stepped::scene_of;
use happens_before::{Change, Timelines, clocks_of};
use order_model::is_permitted;
use order_model::laws::default_journal_is_maximal;
use race_check::{Spot, Verdict, check_races};
use rc_base::cluster::FaultLists;
use rc_base::out_of_memory::OutOfMemory;
use rc_base::scene::Scene;
use rc_base::state::Fault;
use rc_base::sync::{Entry, Name, Order, SyncOp, SyncRow, WaitAt};
use serial_render::{Turns, default_order, survey, sync_lists, turns_of};
use std::alloc::Global;
use std::process::Abort;

// Client 0 meets client 1, and then at once client 2: what stands before the first meeting isn't before what stands behind the second one.
const MEETINGS_IN_A_ROW: &[u8] = b"scene 1 1 1
barrier 2
barrier 2
client
Barrier 1
Barrier 2
Swap
client
Begin 0
Vertex -65536 -65536 0 65536
Vertex 196608 -65536 0 65536
Vertex -65536 196608 0 65536
End
Barrier 1
Swap
client
Barrier 2
Begin 0
Vertex -65536 -65536 0 65536
Vertex 196608 -65536 0 65536
Vertex -65536 196608 0 65536
End
Swap
";

// The same with a command of client 0 between its meetings, which both parts meet in.
const COMMAND_BETWEEN_MEETINGS: &[u8] = b"scene 1 1 1
barrier 2
barrier 2
client
Barrier 1
Color 1 2 3 4
Barrier 2
Swap
client
Clear 1
Barrier 1
Swap
client
Barrier 2
Clear 1
Swap
";

// Some commands of a client in their sequence: from this place to below that one.
type Run = (u8, u32, u32);

// The default order: client 1 draws before its meeting, then client 2 behind its own.
const BY_DEFAULT: [Run; 9] = [
    (1, 0, 5),
    (0, 0, 1),
    (1, 5, 6),
    (0, 1, 2),
    (2, 0, 1),
    (2, 1, 6),
    (0, 2, 3),
    (1, 6, 7),
    (2, 6, 7),
];

// An order in which client 2 draws first.
const OTHER_WAY_ROUND: [Run; 6] = [
    (0, 0, 1),
    (2, 0, 6),
    (1, 0, 6),
    (0, 1, 3),
    (1, 6, 7),
    (2, 6, 7),
];

// Client 0 is at its second meeting before client 1 has drawn.
const NOT_PERMITTED: [Run; 5] = [(0, 0, 2), (2, 0, 6), (1, 0, 6), (0, 2, 3), (1, 6, 7)];

const JOURNAL: [Entry; 3] = [
    Entry::Meet {
        barrier: 1,
        members: 0b011,
    },
    Entry::Meet {
        barrier: 2,
        members: 0b101,
    },
    Entry::Swap,
];

fn order_of(rt: &impl Abort, alloc: Global, runs: &[Run]) -> Order {
    let mut order = Order::new(alloc);
    for (client, from, to) in runs {
        for place in *from..*to {
            let name = Name {
                client: *client,
                place,
            };
            order.push(name).expect(rt, "memory");
        }
    }
    order
}

// The scene has this default order and the journal of both meetings, and nobody waits.
fn is_default(rt: &impl Abort, alloc: Global, scene: &Scene, order: &Order) -> bool
    requires { IsWithin scene.now }
{
    let (journal, found, waiting) = default_order(alloc, scene).expect(rt, "memory");
    journal.as_slice() == JOURNAL.as_slice() && found == *order && waiting.is_none()
}

// The verdict on a scene along an order; none where the default journal doesn't permit it.
fn verdict_along(
    alloc: Global,
    scene: &Scene,
    order: &Order,
) -> Result<Option<Verdict>, OutOfMemory>
    requires { IsWithin scene.now }
{
    default_journal_is_maximal();
    let syncs = sync_lists(alloc, scene)?;
    let Turns { journal, .. } = turns_of(alloc, &syncs)?;
    if !is_permitted(order, &journal, &syncs) {
        return Ok(None);
    }
    let verdict = check_races(alloc, scene, &journal, order, &syncs)?;
    Ok(Some(verdict))
}

// The race of two commands at the one pixel.
fn race(first: Name, second: Name) -> Option<Verdict> {
    Some(Verdict::Race {
        first,
        second,
        spot: Spot::Pixel { x: 0, y: 0 },
    })
}

// The default order is this one, and along it the first command races with the second one.
fn races_by_default(
    rt: &impl Abort,
    alloc: Global,
    scene: &Scene,
    runs: &[Run],
    first: Name,
    second: Name,
) -> bool
    requires { IsWithin scene.now }
{
    let order = order_of(rt, alloc, runs);
    is_default(rt, alloc, scene, &order)
        && verdict_along(alloc, scene, &order).expect(rt, "memory") == race(first, second)
}

// What is told along some commands' sequence.
fn told_along(rt: &impl Abort, alloc: Global, scene: &Scene, runs: &[Run]) -> Option<Verdict>
    requires { IsWithin scene.now }
{
    let order = order_of(rt, alloc, runs);
    verdict_along(alloc, scene, &order).expect(rt, "memory")
}

const EARLY: Name = Name {
    client: 1,
    place: 4,
};

const LATE: Name = Name {
    client: 2,
    place: 5,
};

// Whether the race of an End of client 1 with one of client 2 is told along the default order, the other way round along the other order, and not
// along an order that isn't permitted.
fn is_told(rt: &impl Abort, alloc: Global) -> bool {
    let scene = scene_of(rt, alloc, MEETINGS_IN_A_ROW);
    races_by_default(rt, alloc, &scene, &BY_DEFAULT, EARLY, LATE)
        && told_along(rt, alloc, &scene, &OTHER_WAY_ROUND) == race(LATE, EARLY)
        && told_along(rt, alloc, &scene, &NOT_PERMITTED) == None
}

#[test]
fn a_race_is_told_along_each_permitted_order(rt: HostRuntime) {
    assert!(rt; is_told(&rt, rt.alloc()));
}

// Eight counts below 10, digit by digit.
fn spelled(counts: [u32; 8]) -> u64 {
    let mut number: u64 = 0;
    for count in counts {
        number = number.saturating_mul(10).saturating_add(count as u64);
    }
    number
}

// How many commands of each client are before one, by the clocks of the scene's default journal.
fn before(alloc: Global, scene: &Scene, client: u8, place: u32) -> Result<u64, OutOfMemory>
    requires within { IsWithin scene.now }
    requires client { client < 8 }
{
    default_journal_is_maximal();
    let syncs = sync_lists(alloc, scene)?;
    let Turns { journal, .. } = turns_of(alloc, &syncs)?;
    let clocks = clocks_of(alloc, journal.as_slice(), &syncs)?;
    Ok(spelled(clocks.before(client, place)))
}

// Whether so many are before commands of the scene of a text.
fn are_before(rt: &impl Abort, alloc: Global, text: &[u8], rows: &[(u8, u32, u64)]) -> bool {
    let scene = scene_of(rt, alloc, text);
    for (client, place, count) in rows {
        if *client >= 8 {
            return false;
        }
        if before(alloc, &scene, *client, *place).expect(rt, "memory") != *count {
            return false;
        }
    }
    true
}

const IN_A_ROW: [(u8, u32, u64); 6] = [
    (0, 0, 0),
    (0, 1, 5_000_000),
    (1, 5, 0),
    (2, 0, 0),
    (2, 1, 10_000_000),
    (2, 5, 10_000_000),
];

const COMMAND_BETWEEN: [(u8, u32, u64); 1] = [(2, 1, 21_000_000)];

// A meeting that directly follows another one hands on nothing of it; with a command between them it does.
#[test]
fn clocks_count_what_is_before(rt: HostRuntime) {
    let alloc = rt.alloc();
    assert!(rt; are_before(&rt, alloc, MEETINGS_IN_A_ROW, &IN_A_ROW));
    assert!(rt; are_before(&rt, alloc, COMMAND_BETWEEN_MEETINGS, &COMMAND_BETWEEN));
}

// The only change of a client.
fn only_change(changes: &[Change]) -> Option<(u32, u64)> {
    match changes {
        [change] => Some((change.from, spelled(change.before))),
        _ => None,
    }
}

// The change of client 1 where its commands from place 3 on have some of clients 0 and 7 before them, and that of client 0.
fn raised(alloc: Global) -> Result<[Option<(u32, u64)>; 2], OutOfMemory> {
    let mut clocks = Timelines::new(alloc)?;
    clocks.raise(1, 3, &[2, 0, 0, 0, 0, 0, 0, 4])?;
    match clocks.clients.as_slice() {
        [first, second, ..] => Ok([
            only_change(first.as_slice()),
            only_change(second.as_slice()),
        ]),
        _ => Ok([None; 2]),
    }
}

#[test]
fn a_clock_is_raised_for_one_client(rt: HostRuntime) {
    let [first, second] = raised(rt.alloc()).expect(&rt, "memory");
    assert!(rt; first == None);
    assert!(rt; second == Some((3, 20_000_004)));
}

// An End outside a block and a Swap inside one are refused, and both clients meet and swap.
const TWO_REFUSED: &[u8] = b"scene 1 1 1
barrier 2
semaphore 3
client
End
Barrier 1
Begin 0
Swap
End
Swap
client
Barrier 1
Color 1 2 3 4
Swap
";

fn wait_at(place: u32, op: SyncOp) -> WaitAt {
    WaitAt { place, op }
}

// The client meets at barrier 1 and then swaps, at these places of so many commands.
fn meets_and_swaps(row: &SyncRow, meets: u32, swaps: u32, length: u32) -> bool {
    let ops = [
        wait_at(meets, SyncOp::Barrier(1)),
        wait_at(swaps, SyncOp::Swap),
    ];
    row.ops.as_slice() == ops.as_slice() && row.length == length
}

// Two commands of client 0 are refused, and none of client 1.
fn are_refused(faults: &FaultLists) -> bool {
    let refused = [(0, Fault::InvalidOperation), (3, Fault::InvalidOperation)];
    match faults.as_slice() {
        [first, second] => first.as_slice() == refused.as_slice() && second.is_empty(),
        _ => false,
    }
}

// What a survey tells of the scene with two refusals.
fn is_surveyed(rt: &impl Abort, alloc: Global) -> bool {
    let scene = scene_of(rt, alloc, TWO_REFUSED);
    let told = survey(alloc, &scene).expect(rt, "memory");
    let are_rows = match told.syncs.clients.as_slice() {
        [first, second] => meets_and_swaps(first, 1, 5, 6) && meets_and_swaps(second, 0, 2, 3),
        _ => false,
    };
    are_rows
        && told.syncs.counts.as_slice() == [2].as_slice()
        && told.syncs.units.as_slice() == [3].as_slice()
        && are_refused(&told.faults)
}

#[test]
fn a_survey_tells_operations_and_refusals(rt: HostRuntime) {
    assert!(rt; is_surveyed(&rt, rt.alloc()));
}
