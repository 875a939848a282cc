//! Gates that choose an interleaving of two clients and two tiles.
use super::rendering::{left_by, packed};
use order_model::record::{LogEntry, Record};
use rc_base::gate::{Actor, Gate};
use std::alloc::Global;
use std::process::Abort;
use std::sync::Wait;
use std::sync::atomic::{AtomicBool, AtomicU64, Ordering};
use std::thread;
use std::thread::Threads;
use test_scenes::BLENDED_AT_ONCE;

// Each of two clients draws a pixel of its own.
const SIDE_BY_SIDE: &[u8] = b"scene 1 2 1
client
Enable 0
Scissor 0 0 1 1
Color 255 0 0 255
Begin 0
Vertex -65536 -65536 0 65536
Vertex 196608 -65536 0 65536
Vertex -65536 196608 0 65536
End
Swap
client
Enable 0
Scissor 1 0 1 1
Color 0 255 0 255
Begin 0
Vertex -65536 -65536 0 65536
Vertex 196608 -65536 0 65536
Vertex -65536 196608 0 65536
End
Swap
";

// One client, with more acts than the deepest lane holds.
const EIGHTEEN_CLEARS: &[u8] = b"scene 1 1 1
client
ClearColor 255 0 0 255
Clear 1
Clear 1
Clear 1
Clear 1
Clear 1
Clear 1
Clear 1
Clear 1
Clear 1
Clear 1
Clear 1
Clear 1
Clear 1
Clear 1
Clear 1
Clear 1
Clear 1
Clear 1
Swap
";

// How often a gate looks before it gives up.
const PATIENCE: u32 = 10_000_000;

// What a gate saw: a bit for each actor (two clients, the manager, two tiles), and the turn of the last pass of each tile.
#[derive(Drop)]
struct Seen {
    actors: AtomicU64,
    first_tile: AtomicU64,
    second_tile: AtomicU64,
    gave_up: AtomicBool,
}

impl Seen {
    fn nothing() -> Seen {
        Seen {
            actors: AtomicU64::new(0),
            first_tile: AtomicU64::new(0),
            second_tile: AtomicU64::new(0),
            gave_up: AtomicBool::new(false),
        }
    }

    fn turn_of(&self, tile: u8) -> &AtomicU64 {
        if tile == 0 {
            &self.first_tile
        } else {
            &self.second_tile
        }
    }

    fn note(&self, who: Actor, turn: u64) {
        let bit = match who {
            Actor::Client(client) => 1 << (client & 1),
            Actor::Manager => 4,
            Actor::Tile(tile) => {
                self.turn_of(tile).store(turn, Ordering::SeqCst);
                8 << (tile & 1)
            }
        };
        self.actors.fetch_or(bit, Ordering::SeqCst);
    }

    // Holds the caller until the tile has moved.
    fn wait_for_tile(&self, tile: u8) {
        for _ in 0..PATIENCE {
            if self.turn_of(tile).load(Ordering::SeqCst) > 0 {
                return;
            }
            thread::yield_now();
        }
        self.gave_up.store(true, Ordering::SeqCst);
    }

    // Holds the caller until both clients have come.
    fn wait_for_clients(&self) {
        for _ in 0..PATIENCE {
            if self.actors.load(Ordering::SeqCst) & 3 == 3 {
                return;
            }
            thread::yield_now();
        }
        self.gave_up.store(true, Ordering::SeqCst);
    }

    // Nobody waited in vain, every actor passed, and each tile as often as its log tells.
    fn is_whole(&self, kept: &Record) -> bool {
        let mut turns = true;
        for tile in 0..2u8 {
            let due = match kept.logs.as_slice().get(tile as usize) {
                Some(log) => log.len() as u64,
                None => u64::MAX,
            };
            turns &= self.turn_of(tile).load(Ordering::SeqCst) >= due;
        }
        turns && !self.gave_up.load(Ordering::SeqCst) && self.actors.load(Ordering::SeqCst) == 31
    }
}

// Holds the late client at its first step until tile 0 has moved, and the other one at its second step until tile 1 has.
#[derive(Drop)]
struct TakesInTurn {
    late: u8,
    seen: Seen,
}

impl Gate for TakesInTurn {
    fn pass(&self, who: Actor, turn: u64) {
        self.seen.note(who, turn);
        if let Actor::Client(client) = who {
            if client == self.late && turn == 0 {
                self.seen.wait_for_tile(0);
            }
            if client != self.late && turn == 1 {
                self.seen.wait_for_tile(1);
            }
        }
    }
}

// Holds each client at its first step until the other one has come to its own.
#[derive(Drop)]
struct Meets {
    seen: Seen,
}

impl Gate for Meets {
    fn pass(&self, who: Actor, turn: u64) {
        self.seen.note(who, turn);
        if let Actor::Client(_) = who {
            if turn == 0 {
                self.seen.wait_for_clients();
            }
        }
    }
}

// The client that a tile took first.
fn taken_first(kept: &Record, tile: usize) -> Option<u8> {
    let log = kept.logs.as_slice().get(tile)?;
    match log.as_slice().first() {
        Some(LogEntry::Took { client, .. }) => Some(*client),
        _ => None,
    }
}

// A record in which tile 0 took the other client first, and tile 1 the late one, as the gate chose.
fn is_chosen(kept: &Option<Record>, gate: &TakesInTurn) -> bool {
    match kept {
        Some(kept) => {
            gate.seen.is_whole(kept)
                && taken_first(kept, 0) == Some(1 - (gate.late & 1))
                && taken_first(kept, 1) == Some(gate.late)
        }
        None => false,
    }
}

// Whether a run behind the gate shows this image, and tells that both tiles took whom the gate chose.
fn chooses<R>(rt: R, alloc: Global, late: u8, due: &[u8]) -> bool
where
    R: Abort + Threads + Wait + Copy + Send + Sync + Drop,
{
    let scene = packed(rt, alloc, BLENDED_AT_ONCE);
    let gate = TakesInTurn {
        late,
        seen: Seen::nothing(),
    };
    let left = left_by(
        rt,
        alloc,
        &["render", "--tiles", "2x1"],
        scene.bytes(),
        &gate,
    );
    left.finish.status == 0 && left.image.bytes() == due && is_chosen(&left.finish.kept, &gate)
}

// The client that comes late, and the image that is due.
const CHOICES: [(u8, &[u8]); 2] = [
    (1, b"P6\n2 1\n255\n\x40\x00\x80\x80\x00\x40"),
    (0, b"P6\n2 1\n255\n\x80\x00\x40\x40\x00\x80"),
];

#[test]
fn the_gate_chooses_whom_each_tile_takes_first(rt: HostRuntime) {
    for (late, due) in &CHOICES {
        assert!(rt; chooses(rt, rt.alloc(), *late, *due));
    }
}

// Whether a run ends in which each client waits at its first step for the other one's.
fn meet<R>(rt: R, alloc: Global) -> bool
where
    R: Abort + Threads + Wait + Copy + Send + Sync + Drop,
{
    let scene = packed(rt, alloc, SIDE_BY_SIDE);
    let gate = Meets {
        seen: Seen::nothing(),
    };
    let left = left_by(
        rt,
        alloc,
        &["render", "--tiles", "2x1"],
        scene.bytes(),
        &gate,
    );
    let whole = match &left.finish.kept {
        Some(kept) => gate.seen.is_whole(kept),
        None => false,
    };
    whole
        && left.finish.status == 0
        && left.image.bytes() == b"P6\n2 1\n255\n\xff\x00\x00\x00\xff\x00".as_slice()
}

#[test]
fn both_clients_run_at_once(rt: HostRuntime) {
    assert!(rt; meet(rt, rt.alloc()));
}

// Holds the tile at its first step until the client has come to this turn twice, so that it was refused there.
#[derive(Drop)]
struct HoldsTile {
    depth: u64,
    refused: AtomicU64,
    is_let_go: AtomicBool,
    is_past: AtomicBool,
    gave_up: AtomicBool,
}

impl HoldsTile {
    fn new(depth: u64) -> HoldsTile {
        HoldsTile {
            depth,
            refused: AtomicU64::new(0),
            is_let_go: AtomicBool::new(false),
            is_past: AtomicBool::new(false),
            gave_up: AtomicBool::new(false),
        }
    }

    // The client comes to a turn.
    fn note(&self, turn: u64) {
        if turn == self.depth {
            self.refused.fetch_add(1, Ordering::SeqCst);
        }
        if turn > self.depth && !self.is_let_go.load(Ordering::SeqCst) {
            self.is_past.store(true, Ordering::SeqCst);
        }
    }

    // Holds the tile.
    fn hold(&self) {
        for _ in 0..PATIENCE {
            if self.refused.load(Ordering::SeqCst) > 1 {
                self.is_let_go.store(true, Ordering::SeqCst);
                return;
            }
            thread::yield_now();
        }
        self.gave_up.store(true, Ordering::SeqCst);
    }
}

impl Gate for HoldsTile {
    fn pass(&self, who: Actor, turn: u64) {
        match who {
            Actor::Client(_) => self.note(turn),
            Actor::Tile(_) if turn == 0 => self.hold(),
            _ => {}
        }
    }
}

// Whether a client sends just so many acts to a tile that takes none.
fn is_so_deep<R>(rt: R, alloc: Global, word: &str, depth: u64) -> bool
where
    R: Abort + Threads + Wait + Copy + Send + Sync + Drop,
{
    let scene = packed(rt, alloc, EIGHTEEN_CLEARS);
    let gate = HoldsTile::new(depth);
    let left = left_by(
        rt,
        alloc,
        &["render", "--depth", word],
        scene.bytes(),
        &gate,
    );
    left.finish.status == 0
        && !gate.gave_up.load(Ordering::SeqCst)
        && !gate.is_past.load(Ordering::SeqCst)
}

const DEPTHS: [(&str, u64); 3] = [("1", 1), ("3", 3), ("16", 16)];

#[test]
fn lanes_are_as_deep_as_the_words_say(rt: HostRuntime) {
    for (word, depth) in &DEPTHS {
        assert!(rt; is_so_deep(rt, rt.alloc(), *word, *depth));
    }
}
