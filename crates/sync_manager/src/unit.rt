//! What an entry does to the waiting operations and to the units.
ghost use Rattle.std.specs.Prelude.{◌≡◌, ◌≤◌, ◌<◌, ◌+◌, ◌^◌, ℕ, length, slice_index_or, None, IfOk};
ghost use Rattle.rc_base.specs.Orders.Journal.{is_member, units_after};
ghost use Rattle.rc_base.specs.declared.sync.Entry.{Entry};
ghost use Rattle.sync_manager.specs.Stored.{AreReleased, IsUnitThere, units_at};

use rc_base::sync::{Entry, WaitAt, is_member};
use std::alloc::{AllocError, Global};

/// The members wait no more.
pub fn release(waiting: &mut [Option<WaitAt>], clients: u8, entry: Entry)
    requires { length waiting.old ≡ 8 }
    ensures slots { length waiting.new ≡ length waiting.old }
    ensures waiting { AreReleased clients entry waiting.old waiting.new }
{
    for client in 0..8u8 {
        if is_member(entry, client, usize::from(clients)) {
            waiting[client as usize] = None;
        }
    }
}

/// A unit is given, or taken.
pub fn move_unit(units: &mut Vec<u64>, entry: Entry)
    requires there { IsUnitThere units.old.items entry }
    requires bounded { (k : ℕ) → slice_index_or units.old.items k 0 + 1 < 2 ^ 64 }
    ensures length { length units.new.items ≡ length units.old.items }
    ensures units { (k : ℕ) → units_at units.new.items k ≡ units_after entry (units_at units.old.items) k }
    ensures bounded { (k : ℕ) → slice_index_or units.new.items k 0
        ≤ slice_index_or units.old.items k 0 + 1 }
{
    match entry {
        Entry::Give { semaphore, .. } => units[semaphore as usize - 1] += 1,
        Entry::Take { semaphore, .. } => units[semaphore as usize - 1] -= 1,
        _ => {}
    }
}

/// The same numbers.
pub fn widened(alloc: Global, units: &[u16]) -> Result<Vec<u64>, AllocError>
    ensures items { IfOk result (λ v. v.items ≡ units.now) }
    ensures bounded { IfOk result (λ v. (k : ℕ) → slice_index_or v.items k 0 ≤ 65535) }
{
    let mut wide = Vec::new(alloc);
    for n in units {
        wide.push(u64::from(*n))?;
    }
    Ok(wide)
}
