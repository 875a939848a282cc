//! Orders by hand: a barrier and a semaphore between two clients, barriers of different counts among eight, and the order that a small log records.
ghost use Rattle.std.specs.Prelude.{◌≡◌, ◌<◌, ◌≤◌, ℕ, [], Some, IsTrue, slice_get};
ghost use Rattle.std.specs.Option.{unwrap_or};
ghost use Rattle.rc_base.specs.Lists.{at_name, AreRising};
ghost use Rattle.rc_base.specs.Orders.Sync.{IsWellFormed, client_count, places_of};

use order_model::record::{Log, LogEntry, Logs, Record};
use order_model::walk::{place_of, place_or_end, reach_in};
use order_model::{is_permitted, reach, tile_order};
use rc_base::items::Items;
use rc_base::out_of_memory::OutOfMemory;
use rc_base::sync::{
    Entry, Journal, Name, Order, SyncLists, SyncOp, SyncOps, SyncRow, SyncRows, WaitAt,
};
use std::alloc::Global;
use std::process::Abort;

#[tactic(auto, using(crate::proofs::Looked::positive))]
fn are_positive(counts: &[u8]) -> bool
    ensures { IsTrue result → (barrier count : ℕ) → at_name counts.now barrier ≡ Some count → 0 < count }
{
    for count in counts {
        if *count == 0 {
            return false;
        }
    }
    true
}

fn are_rising(ops: &[WaitAt], length: u32) -> bool
    ensures { IsTrue result → AreRising 0 (places_of ops.now) length }
{
    let mut from: u64 = 0;
    for wait in ops {
        if (wait.place as u64) < from {
            return false;
        }
        if wait.place >= length {
            return false;
        }
        from = wait.place as u64 + 1;
    }
    from <= length as u64
}

fn all_rise(rows: &[SyncRow]) -> bool
    ensures { IsTrue result → (client : ℕ) → AreRising 0 (places_of (unwrap_or (slice_get rows.now client) record { ops = []; length = 0 }).ops) (unwrap_or (slice_get rows.now client) record { ops = []; length = 0 }).length }
{
    for row in rows {
        if !are_rising(row.ops.as_slice(), row.length) {
            return false;
        }
    }
    true
}

// These are lists of a scene.
fn are_well_formed(syncs: &SyncLists) -> bool
    ensures { IsTrue result → (client_count syncs.now ≤ 8) × IsWellFormed syncs.now }
{
    if syncs.clients.is_empty() {
        return false;
    }
    if syncs.clients.len() > 8 {
        return false;
    }
    if !are_positive(syncs.counts.as_slice()) {
        return false;
    }
    all_rise(syncs.clients.as_slice())
}

// Whether the order is permitted, if the lists are well formed.
pub(crate) fn permits(order: &Order, journal: &Journal, syncs: &SyncLists) -> Option<bool> {
    if are_well_formed(syncs) {
        Some(is_permitted(order, journal, syncs))
    } else {
        None
    }
}

fn row(alloc: Global, ops: &[(u32, SyncOp)], length: u32) -> Result<SyncRow, OutOfMemory> {
    let mut waits = SyncOps::new(alloc);
    for (place, op) in ops {
        waits.push(WaitAt {
            place: *place,
            op: *op,
        })?;
    }
    Ok(SyncRow { ops: waits, length })
}

// Two clients meet; then the first gives a unit that the second takes; then both swap.
fn two_clients(alloc: Global) -> Result<SyncLists, OutOfMemory> {
    let first = [
        (1, SyncOp::Barrier(1)),
        (3, SyncOp::SemV(1)),
        (4, SyncOp::Swap),
    ];
    let second = [
        (2, SyncOp::Barrier(1)),
        (3, SyncOp::SemP(1)),
        (5, SyncOp::Swap),
    ];
    let mut clients = SyncRows::new(alloc);
    clients.push(row(alloc, &first, 5)?)?;
    clients.push(row(alloc, &second, 6)?)?;
    Ok(SyncLists {
        clients,
        counts: Items::from_slice(alloc, &[2])?,
        units: Items::from_slice(alloc, &[0])?,
    })
}

const ENTRIES: [Entry; 4] = [
    Entry::Meet {
        barrier: 1,
        members: 0b11,
    },
    Entry::Give {
        semaphore: 1,
        client: 0,
    },
    Entry::Take {
        semaphore: 1,
        client: 1,
    },
    Entry::Swap,
];

// The order in which bit k of the mask says which client's next name comes k-th, and whether it is permitted: the first client's name behind the
// barrier, 2, comes after two of the second's, and the second's name that takes the unit, 3, after the first's that gives it, also 3.
fn merged(alloc: Global, mask: u32) -> Result<(Order, bool), OutOfMemory> {
    let mut order = Order::new(alloc);
    let mut places: [u32; 2] = [0, 0];
    let mut free = true;
    for turn in 0..11u32 {
        let client = ((mask >> turn) & 1) as u8;
        let place = places[client as usize];
        order.push(Name { client, place })?;
        free &= is_free(client, place, places[1 - client as usize]);
        places[client as usize] = place.saturating_add(1);
    }
    Ok((order, free && places[0] == 5))
}

fn is_free(client: u8, place: u32, other: u32) -> bool {
    if client == 0 {
        place != 2 || other >= 2
    } else {
        place != 3 || other >= 4
    }
}

// Whether the order of a mask is permitted; none where that is judged wrongly.
fn judged(alloc: Global, mask: u32, journal: &Journal, syncs: &SyncLists) -> Option<bool> {
    let (order, free) = merged(alloc, mask).ok()?;
    if permits(&order, journal, syncs) == Some(free) {
        Some(free)
    } else {
        None
    }
}

// How many of the 2,048 orders are permitted, and how many are not.
fn counted(rt: &impl Abort, alloc: Global) -> (u32, u32) {
    let syncs = two_clients(alloc).expect(rt, "memory");
    let journal = Journal::from_slice(alloc, &ENTRIES).expect(rt, "memory");
    let mut permitted: u32 = 0;
    let mut refused: u32 = 0;
    for mask in 0..2048u32 {
        match judged(alloc, mask, &journal, &syncs) {
            Some(true) => permitted = permitted.saturating_add(1),
            Some(false) => refused = refused.saturating_add(1),
            None => {}
        }
    }
    (permitted, refused)
}

#[test]
fn ninety_four_orders_of_two_clients_are_permitted(rt: HostRuntime) {
    assert!(rt; counted(&rt, rt.alloc()) == (94, 1954));
}

// A client, an operation's number, its place, and the place or the end of the stream.
const PLACES: [(u8, usize, Option<u32>, u32); 6] = [
    (0, 0, Some(1), 1),
    (0, 2, Some(4), 4),
    (0, 3, None, 5),
    (1, 1, Some(3), 3),
    (1, 3, None, 6),
    (2, 0, None, 0),
];

// Where both clients stop after so many entries.
const REACHES: [(u32, u32); 5] = [(1, 2), (3, 3), (4, 3), (4, 5), (5, 6)];

// Whether the operations of both clients have their places.
fn has_places(syncs: &SyncLists) -> bool {
    for (client, number, place, end) in &PLACES {
        if place_of(syncs, *client, *number) != *place
            || place_or_end(syncs, *client, *number) != *end
        {
            return false;
        }
    }
    true
}

// Whether both clients stop where they should, after each number of entries.
fn has_reaches(syncs: &SyncLists) -> bool {
    for n in 0..5usize {
        let journal = &ENTRIES[..n];
        if (reach_in(journal, syncs, 0), reach_in(journal, syncs, 1)) != REACHES[n] {
            return false;
        }
    }
    true
}

fn are_placed(rt: &impl Abort, alloc: Global) -> bool {
    let syncs = two_clients(alloc).expect(rt, "memory");
    has_places(&syncs) && has_reaches(&syncs)
}

#[test]
fn operations_have_their_places(rt: HostRuntime) {
    assert!(rt; are_placed(&rt, rt.alloc()));
}

// Eight clients meet in pairs, then in fours, then all.
fn eight_clients(alloc: Global) -> Result<SyncLists, OutOfMemory> {
    let mut clients = SyncRows::new(alloc);
    for _client in 0..8 {
        clients.push(row(alloc, &BARRIERS, 7)?)?;
    }
    Ok(SyncLists {
        clients,
        counts: Items::from_slice(alloc, &[2, 4, 8])?,
        units: Items::new(alloc),
    })
}

const BARRIERS: [(u32, SyncOp); 3] = [
    (1, SyncOp::Barrier(1)),
    (3, SyncOp::Barrier(2)),
    (5, SyncOp::Barrier(3)),
];

const MEETINGS: [Entry; 7] = [
    Entry::Meet {
        barrier: 1,
        members: 0x03,
    },
    Entry::Meet {
        barrier: 1,
        members: 0x0c,
    },
    Entry::Meet {
        barrier: 1,
        members: 0x30,
    },
    Entry::Meet {
        barrier: 1,
        members: 0xc0,
    },
    Entry::Meet {
        barrier: 2,
        members: 0x0f,
    },
    Entry::Meet {
        barrier: 2,
        members: 0xf0,
    },
    Entry::Meet {
        barrier: 3,
        members: 0xff,
    },
];

// First the clients 0 to 3 go on to the last barrier, then the others, each four place by place or client by client; then all go on.
fn nested(alloc: Global, by_client: bool) -> Result<Order, OutOfMemory> {
    let mut order = Order::new(alloc);
    for first in &[0u8, 4] {
        for k in 0..20u8 {
            let (client, place) = if by_client {
                (k / 5, k % 5)
            } else {
                (k % 4, k / 4)
            };
            order.push(Name {
                client: *first + client,
                place: place as u32,
            })?;
        }
    }
    for k in 0..16u8 {
        order.push(Name {
            client: k % 8,
            place: k as u32 / 8 + 5,
        })?;
    }
    Ok(order)
}

// Whether the journal of all meetings permits that.
fn is_nested(rt: &impl Abort, alloc: Global, by_client: bool) -> Option<bool> {
    let syncs = eight_clients(alloc).expect(rt, "memory");
    let journal = Journal::from_slice(alloc, &MEETINGS).expect(rt, "memory");
    let order = nested(alloc, by_client).expect(rt, "memory");
    permits(&order, &journal, &syncs)
}

#[test]
fn barriers_of_different_counts_are_nested(rt: HostRuntime) {
    assert!(rt; is_nested(&rt, rt.alloc(), false) == Some(true));
    assert!(rt; is_nested(&rt, rt.alloc(), true) == Some(false));
}

const LOG: [LogEntry; 6] = [
    LogEntry::Took {
        client: 1,
        place: 0,
    },
    LogEntry::Took {
        client: 0,
        place: 0,
    },
    LogEntry::Performed,
    LogEntry::Took {
        client: 1,
        place: 0,
    },
    LogEntry::Performed,
    LogEntry::Performed,
];

// The two clients' run without the Swap.
fn short_run(alloc: Global) -> Result<Record, OutOfMemory> {
    let mut logs = Logs::new(alloc);
    logs.push(Log::from_slice(alloc, &LOG)?)?;
    Ok(Record {
        journal: Journal::from_slice(alloc, &ENTRIES[..3])?,
        logs,
        syncs: two_clients(alloc)?,
    })
}

// Clients and places, digit by digit.
fn spelled(order: &[Name]) -> [u64; 2] {
    let mut clients: u64 = 0;
    let mut places: u64 = 0;
    for name in order {
        clients = clients
            .saturating_mul(10)
            .saturating_add(name.client as u64);
        places = places.saturating_mul(10).saturating_add(name.place as u64);
    }
    [clients, places]
}

// Whether the log tells the order that was worked out by hand, how far each client comes, and that the order is permitted.
fn records_its_order(rt: &impl Abort, alloc: Global) -> bool {
    let kept = short_run(alloc).expect(rt, "memory");
    assert!(rt; are_well_formed(&kept.syncs));
    let order = tile_order(alloc, &kept, 0).expect(rt, "memory");
    spelled(order.as_slice()) == [100_110_011, 001_122_334]
        && (reach(&kept, 0), reach(&kept, 1), reach(&kept, 2)) == (4, 5, 0)
        && is_permitted(&order, &kept.journal, &kept.syncs)
}

#[test]
fn a_log_records_its_order(rt: HostRuntime) {
    assert!(rt; records_its_order(&rt, rt.alloc()));
}
