//! Names of commands, operations of synchronisation, and the journal's entries.
ghost use Rattle.std.specs.Prelude.{◌≡◌, ◌<◌};
ghost use Rattle.rc_base.specs.Orders.Journal.{has, is_member};

use crate::items::Items;

/// Command `place`, from 0, of client `client`.
#[derive(Clone, Copy, Debug, PartialEq, Eq)]
pub struct Name {
    pub client: u8,
    pub place: u32,
}

/// Names in the sequence in which they are carried out.
pub type Order = Items<Name>;

/// An operation that a client waits for.
#[derive(Clone, Copy, Debug, PartialEq, Eq)]
pub enum SyncOp {
    Barrier(u8),
    SemP(u8),
    SemV(u8),
    Swap,
}

/// An operation at its place in its client's stream.
#[derive(Clone, Copy, Debug, PartialEq, Eq)]
pub struct WaitAt {
    pub place: u32,
    pub op: SyncOp,
}

/// A client's operations, at rising places.
pub type SyncOps = Items<WaitAt>;

/// An entry of the journal. `members` has bit c for client c.
#[derive(Clone, Copy, Debug, PartialEq, Eq)]
pub enum Entry {
    Meet { barrier: u8, members: u8 },
    Swap,
    Give { semaphore: u8, client: u8 },
    Take { semaphore: u8, client: u8 },
}

/// The entries that were granted, in the order of granting.
pub type Journal = Items<Entry>;

/// What the manager tells a tile: the journal's next entry, or that there is no more.
#[derive(Clone, Copy, Debug, PartialEq, Eq)]
pub enum Grant {
    Entry(Entry),
    NoMore,
}

/// What a client asks of the manager: an operation at its place, or that it has ended.
#[derive(Clone, Copy, Debug, PartialEq, Eq)]
pub enum Request {
    Op { place: u32, op: SyncOp },
    End,
}

/// For each client the operation that it waits at, if it waits. Clients that don't exist wait for nothing.
#[derive(Clone, Copy, Debug, PartialEq, Eq)]
pub struct Waiting {
    pub at: [Option<WaitAt>; 8],
}

/// A client's accepted operations, and the number of commands in its stream.
#[derive(Clone, Debug, PartialEq, Drop)]
pub struct SyncRow {
    pub ops: SyncOps,
    pub length: u32,
}

/// One row for each client.
pub type SyncRows = Items<SyncRow>;

/// What a scene says of synchronisation: its clients' operations, each barrier's count and each semaphore's first units.
#[derive(Clone, Debug, PartialEq, Drop)]
pub struct SyncLists {
    pub clients: SyncRows,
    pub counts: Items<u8>,
    pub units: Items<u16>,
}

/// The number is in the set that has bit `n` for number `n`: of clients, of tiles, of servers.
pub fn has(set: u32, n: u8) -> bool
    requires { n < 32 }
    ensures { result ≡ has set n }
{
    (set >> n) & 1 == 1
}

/// The entry uses an operation of the client.
pub fn is_member(entry: Entry, client: u8, clients: usize) -> bool
    requires { client < 8 }
    ensures { result ≡ is_member clients entry client }
{
    match entry {
        Entry::Meet { members, .. } => has(u32::from(members), client),
        Entry::Swap => (client as usize) < clients,
        Entry::Give { client: only, .. } => client == only,
        Entry::Take { client: only, .. } => client == only,
    }
}
