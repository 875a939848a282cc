//! The clock of a name.
ghost use Rattle.std.specs.Prelude.{◌≡◌, ◌≢◌, ◌<◌, ℕ, slice_index};
ghost use Rattle.happens_before.specs.Timelines.{AreOrdered, clock_of};

use happens_before::Timelines;
use rc_base::sync::Name;

/// How many names of each other client are before a name. All of its own client are counted.
pub fn clock_of(timelines: &Timelines, name: Name) -> [u32; 8]
    requires timelines { AreOrdered timelines.now.clients.items }
    requires client { name.client < 8 }
    ensures { (d : ℕ) → d ≢ name.client → slice_index result d ≡ clock_of timelines.now.clients.items name d }
{
    let mut clock = timelines.before(name.client, name.place);
    clock[name.client as usize] = u32::MAX;
    clock
}
