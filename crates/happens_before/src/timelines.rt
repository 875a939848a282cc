//! Vector clocks, kept as each client's changes.
ghost use Rattle.std.specs.Prelude.{◌≡◌, ◌≢◌, ◌+◌, ◌<◌, ◌^◌, ℕ, length, slice_index, slice_index_or, [], IfOk, OnOk, OnErr};
ghost use Rattle.rc_base.specs.declared.sync.Name.{Name as AnyName};
ghost use Rattle.happens_before.specs.Clocks.{only, up_to};
ghost use Rattle.happens_before.specs.Timelines.{IsRaised, KeepsChanges, AreChanges, AreOrdered, AreTimelines, ChangesGoTo, IsJoined, before_at, clock_of};

use rc_base::items::Items;
use rc_base::out_of_memory::OutOfMemory;
use rc_base::sync::Name;
use std::alloc::Global;

/// From this place on a client's names have these names of each client before them: so many, from place 0 on.
#[derive(Clone, Copy)]
pub struct Change {
    pub from: u32,
    pub before: [u32; 8],
}

/// The changes of each of eight clients, places rising.
#[derive(Drop)]
pub struct Timelines {
    pub clients: Vec<Items<Change>>,
}

/// The greater number of each client.
fn join(into: &mut [u32; 8], other: &[u32; 8])
    ensures { IsJoined into.old (slice_index other.now) into.new }
{
    for client in 0..8usize {
        into[client] = into[client].max(other[client]);
    }
}

/// What is before a place, as the last change says that isn't behind it.
fn before_at(changes: &[Change], place: u32) -> [u32; 8]
    requires { (end : ℕ) × AreChanges 0 changes.now end }
    ensures { result ≡ before_at changes.now place }
{
    let count = changes.partition_point(|change| change.from <= place);
    if count == 0 {
        return [0; 8];
    }
    changes[count - 1].before
}

impl Timelines {
    /// Nothing is before any name but the earlier ones of its client.
    pub fn new(alloc: Global) -> Result<Timelines, OutOfMemory>
        ensures timelines { IfOk result (λ t. AreTimelines t.clients.items (λ c. 0)) }
        ensures empty { IfOk result
            (λ t. (client : ℕ) → slice_index_or t.clients.items client [] ≡ []) }
    {
        let mut clients = Vec::new(alloc);
        for _ in 0..8usize {
            clients.push(Items::new(alloc))?;
        }
        Ok(Timelines { clients })
    }

    /// How many names of each client are before a client's name at a place, without the client's own.
    pub fn before(&self, client: u8, place: u32) -> [u32; 8]
        requires timelines { AreOrdered self.now.clients.items }
        requires client { client < 8 }
        ensures { result ≡ before_at (slice_index_or self.now.clients.items client []) place }
    {
        before_at(self.clients[client as usize].as_slice(), place)
    }

    /// Counts a name and what is before it.
    pub fn count(&self, gate: &mut [u32; 8], name: Name)
        requires timelines { AreOrdered self.now.clients.items }
        requires client { name.client < 8 }
        requires place { name.place + 1 < 2 ^ 32 }
        ensures { IsJoined gate.old (up_to (clock_of self.now.clients.items) name) gate.new }
    {
        let before = self.before(name.client, name.place);
        join(gate, &before);
        let own = name.client as usize;
        gate[own] = gate[own].max(name.place + 1);
    }

    /// From a place on, which lies at or behind all changes of the client, its names have these before them too. Where memory
    /// is wanting, the timelines are as before.
    pub fn raise(&mut self, client: u8, from: u32, gate: &[u32; 8]) -> Result<(), OutOfMemory>
        requires timelines { AreOrdered self.old.clients.items }
        requires client { client < 8 }
        requires late { ChangesGoTo self.old client from }
        ensures clock { OnOk result ((n : AnyName) (d : ℕ)
            → IsRaised self.old (only client from) gate.now self.new n d) }
        ensures changes { OnOk result (ChangesGoTo self.new client from) }
        ensures others { OnOk result ((c : ℕ) → c ≢ client
            → KeepsChanges self.old self.new c) }
        ensures count { OnOk result (length self.new.clients.items ≡ 8) }
        ensures err { OnErr result (self.new.clients.items ≡ self.old.clients.items) }
    {
        let mut before = self.before(client, from);
        join(&mut before, gate);
        self.clients[client as usize].push(Change { from, before })?;
        Ok(())
    }
}
