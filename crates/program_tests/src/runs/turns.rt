//! The order in which clients take units of a semaphore, by the record that a run keeps, and the image that is due by it.
use super::{Host, Left, finish_on, run_on, whole_ends};
use order_model::record::Record;
use rc_base::sync::Entry;
use std::alloc::Global;
use test_scenes::BLENDED_IN_TURN;

// The client that takes a unit first.
fn first_taker(kept: &Record) -> Option<u8> {
    for entry in kept.journal.as_slice() {
        if let Entry::Take { client, .. } = entry {
            return Some(*client);
        }
    }
    None
}

// The client that takes a unit first in a run on two tiles, with lanes of one item, by the record that the run keeps.
fn taker_on(rt: &impl Host, alloc: Global, left: &mut Left) -> Option<u8> {
    let finish = finish_on(
        rt,
        alloc,
        &["render", "--tiles", "2x1", "--depth", "1"],
        &mut left.source,
        &mut left.image,
        &mut left.notes,
    );
    left.status = finish.status;
    match &finish.kept {
        Some(kept) => first_taker(kept),
        None => None,
    }
}

// Client 0 draws first, and client 1 over it; and the other way round.
const FIRST_BEFORE_SECOND: &[u8] = b"P6\n2 1\n255\n\x40\0\x80\x40\0\x80";

const SECOND_BEFORE_FIRST: &[u8] = b"P6\n2 1\n255\n\x80\0\x40\x80\0\x40";

const TURNS_REPORT: &[u8] =
    b"tile 0 parcels 10 sets 4 looks 30\ntile 1 parcels 10 sets 4 looks 30\njournal 5\nframes 1\n";

// Whether who takes the unit first draws first in both tiles.
fn is_in_turn(rt: &impl Host, alloc: Global) -> bool {
    let scene = run_on(rt, alloc, &["pack"], BLENDED_IN_TURN);
    let mut left = whole_ends(rt, alloc, scene.image.bytes());
    match taker_on(rt, alloc, &mut left) {
        Some(0) => left.is(0, FIRST_BEFORE_SECOND, TURNS_REPORT),
        Some(_) => left.is(0, SECOND_BEFORE_FIRST, TURNS_REPORT),
        None => false,
    }
}

#[test]
fn clients_blend_in_the_order_of_their_units(rt: HostRuntime) {
    for _ in 0..50u32 {
        assert!(rt; is_in_turn(&rt, rt.alloc()));
    }
}
