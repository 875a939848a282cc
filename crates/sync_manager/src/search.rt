//! The first lawful entry, by where the clients wait.
ghost use Rattle.std.specs.Prelude.{◌≡◌, ◌<◌, ◌≤◌, ◌==◌, ◌^◌, length, option_map, cond, nat_le, Some, None};
ghost use Rattle.std.specs.Int.{bit_at};
ghost use Rattle.rc_base.specs.Lists.{at_name};
ghost use Rattle.rc_base.specs.Orders.Grant.{first, give_by, take_by, is_at_barrier, is_at_swap, lowest};
ghost use Rattle.rc_base.specs.Orders.Journal.{how_many, has};
ghost use Rattle.sync_manager.specs.Stored.{CanBeSearched, HaveSlots, is_name, wait_at, op_at, units_at, meet_at, swap_at, grant_at};

use rc_base::sync::{Entry, SyncOp, WaitAt, has};

/// It is a name of one of so many things.
pub fn is_name(n: usize, name: u8) -> bool
    ensures { result ≡ is_name n name }
{
    0 < name && name as usize <= n
}

fn operation(at: Option<WaitAt>) -> Option<SyncOp>
    ensures { result ≡ option_map (λ (w : WaitAt). w.op) at }
{
    match at {
        Some(w) => Some(w.op),
        None => None,
    }
}

/// The operation at which a client waits.
fn op_at(waiting: &[Option<WaitAt>], client: u8) -> Option<SyncOp>
    requires { client < length waiting.now }
    ensures { result ≡ op_at waiting.now client }
{
    operation(waiting[client as usize])
}

/// The units of a semaphore.
fn units_at(units: &[u64], semaphore: u8) -> u64
    ensures { result ≡ units_at units.now semaphore }
{
    if semaphore == 0 {
        return 0;
    }
    match units.get(semaphore as usize - 1) {
        Some(n) => *n,
        None => 0,
    }
}

fn give_by(client: u8, op: Option<SyncOp>) -> Option<Entry>
    ensures { result ≡ give_by client op }
{
    match op {
        Some(SyncOp::SemV(semaphore)) => Some(Entry::Give { semaphore, client }),
        _ => None,
    }
}

fn take_by(units: &[u64], client: u8, op: Option<SyncOp>) -> Option<Entry>
    ensures { result ≡ take_by (units_at units.now) client op }
{
    match op {
        Some(SyncOp::SemP(semaphore)) => {
            if units_at(units, semaphore) > 0 {
                Some(Entry::Take { semaphore, client })
            } else {
                None
            }
        }
        _ => None,
    }
}

fn is_at_barrier(barrier: u8, op: Option<SyncOp>) -> bool
    ensures { result ≡ is_at_barrier barrier op }
{
    match op {
        Some(SyncOp::Barrier(name)) => name == barrier,
        _ => false,
    }
}

fn is_at_swap(op: Option<SyncOp>) -> bool
    ensures { result ≡ is_at_swap op }
{
    match op {
        Some(SyncOp::Swap) => true,
        _ => false,
    }
}

/// The Give of the lowest client that waits to give.
fn first_give(waiting: &[Option<WaitAt>], clients: u8) -> Option<Entry>
    requires { clients ≤ length waiting.now }
    ensures { result ≡ first (λ c. give_by c (op_at waiting.now c)) 0 clients }
{
    for client in 0..clients {
        if let Some(entry) = give_by(client, op_at(waiting, client)) {
            return Some(entry);
        }
    }
    None
}

/// The Take of the lowest client that waits for a unit and can have one.
fn first_take(waiting: &[Option<WaitAt>], units: &[u64], clients: u8) -> Option<Entry>
    requires { clients ≤ length waiting.now }
    ensures { result ≡ first (λ c. take_by (units_at units.now) c (op_at waiting.now c)) 0 clients }
{
    for client in 0..clients {
        if let Some(entry) = take_by(units, client, op_at(waiting, client)) {
            return Some(entry);
        }
    }
    None
}

/// How many clients wait at the barrier.
fn waiting_at(waiting: &[Option<WaitAt>], clients: u8, barrier: u8) -> u8
    requires { clients ≤ length waiting.now }
    ensures { result ≡ how_many (λ c. is_at_barrier barrier (op_at waiting.now c)) clients }
{
    let mut n = 0;
    for client in 0..clients {
        if is_at_barrier(barrier, op_at(waiting, client)) {
            n += 1;
        }
    }
    n
}

/// How many clients wait at Swap.
fn waiting_to_swap(waiting: &[Option<WaitAt>], clients: u8) -> u8
    requires { clients ≤ length waiting.now }
    ensures { result ≡ how_many (λ c. is_at_swap (op_at waiting.now c)) clients }
{
    let mut n = 0;
    for client in 0..clients {
        if is_at_swap(op_at(waiting, client)) {
            n += 1;
        }
    }
    n
}

/// How many of the first clients are in the set.
fn members_below(members: u8, clients: u8) -> u8
    requires { clients ≤ 8 }
    ensures { result ≡ how_many (has members) clients }
{
    let mut n = 0;
    for client in 0..clients {
        if has(u32::from(members), client) {
            n += 1;
        }
    }
    n
}

/// The lowest clients that wait at the barrier, so many of them.
fn lowest_at(waiting: &[Option<WaitAt>], clients: u8, barrier: u8, count: u8) -> u8
    requires { HaveSlots waiting.now clients }
    ensures { result ≡ lowest (λ c. is_at_barrier barrier (op_at waiting.now c)) count clients }
{
    let mut members = 0;
    for client in 0..clients {
        if is_at_barrier(barrier, op_at(waiting, client))
            && members_below(members, client) < count
        {
            members |= 1 << client;
        }
    }
    members
}

/// The meeting at a barrier that counts so many, where enough clients wait there.
fn meet_at(counts: &[u8], waiting: &[Option<WaitAt>], clients: u8, barrier: u8) -> Option<Entry>
    requires { HaveSlots waiting.now clients }
    ensures { result ≡ meet_at counts.now waiting.now clients barrier }
{
    if barrier == 0 {
        return None;
    }
    match counts.get(barrier as usize - 1) {
        Some(count) => {
            if *count <= waiting_at(waiting, clients, barrier) {
                Some(Entry::Meet {
                    barrier,
                    members: lowest_at(waiting, clients, barrier, *count),
                })
            } else {
                None
            }
        }
        None => None,
    }
}

/// The Meet of the lowest barrier at which enough clients wait.
fn first_meet(counts: &[u8], waiting: &[Option<WaitAt>], clients: u8) -> Option<Entry>
    requires { CanBeSearched counts.now waiting.now clients }
    ensures { result ≡ first (meet_at counts.now waiting.now clients) 1 (length counts.now) }
{
    for before in 0..counts.len() {
        if let Some(entry) = meet_at(counts, waiting, clients, before as u8 + 1) {
            return Some(entry);
        }
    }
    None
}

/// The first lawful entry: a Give, else a Take, else a Meet, else Swap where all wait at it.
pub fn grant_at(
    counts: &[u8],
    units: &[u64],
    waiting: &[Option<WaitAt>],
    clients: u8,
) -> Option<Entry>
    requires { CanBeSearched counts.now waiting.now clients }
    ensures { result ≡ grant_at counts.now units.now waiting.now clients }
{
    if let Some(entry) = first_give(waiting, clients) {
        return Some(entry);
    }
    if let Some(entry) = first_take(waiting, units, clients) {
        return Some(entry);
    }
    if let Some(entry) = first_meet(counts, waiting, clients) {
        return Some(entry);
    }
    if waiting_to_swap(waiting, clients) == clients {
        Some(Entry::Swap)
    } else {
        None
    }
}
