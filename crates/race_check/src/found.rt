//! What conflicts with a name unordered, and which of it is told.
ghost use Rattle.std.specs.Prelude.{◌≡◌, ℕ, ◌<◌, ◌≤◌, ◌⊎◌, slice_index, true};
ghost use Rattle.race_check.specs.Finds.{AreCounted, IsFirst, IsFoundIn, OrBefore, is_no_later, leads};

use crate::verdict::Spot;

/// An earlier name that conflicts with a name at a spot and isn't before it.
#[derive(Clone, Copy)]
pub struct Found {
    pub client: u8,
    pub place: u32,
    pub spot: Spot,
}

fn is_no_later(a: Spot, b: Spot) -> bool
    ensures { result ≡ is_no_later a b }
{
    match (a, b) {
        (Spot::Shared(s), Spot::Shared(t)) => s <= t,
        (Spot::Shared(_), Spot::Pixel { .. }) => true,
        (Spot::Pixel { .. }, Spot::Shared(_)) => false,
        (Spot::Pixel { x, y }, Spot::Pixel { x: u, y: v }) => y < v || (y == v && x <= u),
    }
}

// The first is of a lower client, or of the same and later, or the same name at an earlier spot.
fn leads(a: Found, b: Found) -> bool
    ensures { result ≡ leads a b }
{
    a.client < b.client
        || (a.client == b.client
            && (b.place < a.place || (a.place == b.place && is_no_later(a.spot, b.spot))))
}

// Of what was found and one more, the one that is told.
fn offer(best: Option<Found>, next: Found) -> Option<Found>
    ensures { IsFirst (OrBefore best (λ x. x ≡ next)) result }
{
    match best {
        None => Some(next),
        Some(found) => { if leads(found, next) { best } else { Some(next) } }
    }
}

/// Whether the clock counts all uses of a cell. It looks at all eight clients, so that it is compiled without a branch.
pub fn is_counted(clock: &[u32; 8], cell: &[u32; 8]) -> bool
    ensures { result ≡ true → AreCounted clock.now cell.now 8 }
{
    let mut counted = true;
    for client in 0..8usize {
        counted &= cell[client] <= clock[client];
    }
    counted
}

/// Whether of each client the clock counts all uses of one of two cells.
pub fn is_either_counted(clock: &[u32; 8], one: &[u32; 8], other: &[u32; 8]) -> bool
    ensures { result ≡ true → (d : ℕ) → d < 8 → (slice_index one.now d ≤ slice_index clock.now d)
        ⊎ (slice_index other.now d ≤ slice_index clock.now d) }
{
    let mut counted = true;
    for client in 0..8usize {
        counted &= one[client].min(other[client]) <= clock[client];
    }
    counted
}

// What a cell tells beside the own client: the last uses that the clock doesn't count.
fn look_at_each(
    best: Option<Found>,
    own: u8,
    clock: &[u32; 8],
    cell: &[u32; 8],
    spot: Spot,
) -> Option<Found>
    ensures { IsFirst (OrBefore best (IsFoundIn own clock.now cell.now spot)) result }
{
    let mut best = best;
    for client in 0..8u8 {
        let last = cell[client as usize];
        if client != own && clock[client as usize] < last {
            let place = last - 1;
            best = offer(
                best,
                Found {
                    client,
                    place,
                    spot,
                },
            );
        }
    }
    best
}

/// Adds what a cell tells of a name of this client and clock.
pub fn look(
    best: Option<Found>,
    own: u8,
    clock: &[u32; 8],
    cell: &[u32; 8],
    spot: Spot,
) -> Option<Found>
    ensures { IsFirst (OrBefore best (IsFoundIn own clock.now cell.now spot)) result }
{
    if is_counted(clock, cell) {
        return best;
    }
    look_at_each(best, own, clock, cell, spot)
}
