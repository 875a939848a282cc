//! Every parcel of the worked scenes, to bytes and back.
ghost use Rattle.std.specs.Prelude.{◌≡◌, ◌<◌, length};
ghost use Rattle.rc_base.specs.Formats.Within.{IsWithin};
ghost use Rattle.rc_base.specs.Cluster.Tiles.{tile_count};
ghost use Rattle.client_issue.specs.Cores.{layout_of};

use bounds_bucket::layout;
use client_issue::ClientCore;
use parcel_bytes::{Packed, decode_parcel, encode_parcel, is_packable};
use rc_base::cluster::ClientMoved;
use rc_base::lane::Inlet;
use rc_base::plain_lane::PlainLane;
use rc_base::scene::Scene;
use rc_base::sync::Request;
use scene_file::{read_scene, write_scene};
use scene_text::parse_scene;
use std::alloc::Global;
use std::process::Abort;
use test_scenes::BLENDED_IN_TURN;

// A client writes a shared texture, and behind a barrier another one draws its second texel over eight tiles by two.
const SHARED_BEHIND_A_BARRIER: &[u8] = b"scene 1 8 2
shared 2 1
barrier 2
client
SharedImage 1 0 0 2 1 ff0000ff00ff00ff
Barrier 1
Swap
client
Barrier 1
BindTexture 1 1
Enable 5
TexEnv 1
TexCoord -1 0
Begin 0
Vertex -65536 -65536 0 65536
Vertex 196608 -65536 0 65536
Vertex -65536 196608 0 65536
End
Swap
";

// A Clear examines no image; the first draw samples the green texel, and the second one finds nothing pending.
const LAZY_TEXTURE: &[u8] = b"scene 1 1 1
client
TexImage 1 1 1 00ff00ff
Clear 1
Enable 5
Begin 0
Vertex -65536 -65536 0 65536
Vertex 196608 -65536 0 65536
Vertex -65536 196608 0 65536
End
Begin 0
Vertex -65536 -65536 0 65536
Vertex 196608 -65536 0 65536
Vertex -65536 196608 0 65536
End
Swap
";

// A picture that is cleared to red: a Clear with a set, Swap, End.
const CLEARED: &[u8] = b"scene 1 2 2
client
ClearColor 255 0 0 255
Clear 1
Swap
";

// Whether the bytes give the parcel, and the parcel these bytes.
fn returns(alloc: Global, packed: &Packed) -> bool {
    let Ok(read) = packed.parcel() else {
        return false;
    };
    match decode_parcel(alloc, packed.bytes()) {
        Ok(decoded) => {
            if decoded != read {
                return false;
            }
        }
        Err(_) => return false,
    }
    if !is_packable(&read) {
        return false;
    }
    match encode_parcel(alloc, &read) {
        Ok(again) => again.bytes() == packed.bytes(),
        Err(_) => false,
    }
}

// A client with a lane to its one tile, how many parcels were taken of it, and whether each of them returned.
#[derive(Drop)]
struct Sent {
    core: ClientCore,
    tiles: Vec<PlainLane<Packed>>,
    requests: PlainLane<Request>,
    parcels: u32,
    whole: bool,
}

impl Sent {
    // Takes what a step sent.
    fn take(&mut self, alloc: Global)
        ensures core { self.new.core ≡ self.old.core }
        ensures lanes { length self.new.tiles.items ≡ length self.old.tiles.items }
    {
        let _ = self.requests.pop();
        let Some(lane) = self.tiles.get_mut(0) else {
            return;
        };
        let Some(packed) = lane.pop() else {
            return;
        };
        self.parcels = self.parcels.saturating_add(1);
        self.whole &= returns(alloc, &packed);
    }

    // A step, and what it sent is taken. Whether the client goes on.
    fn step(&mut self, alloc: Global) -> bool
        requires { length self.old.tiles.items ≡ tile_count (layout_of self.old.core) }
        ensures { length self.new.tiles.items ≡ tile_count (layout_of self.new.core) }
    {
        let moved = self.core.step(&mut self.tiles, &mut self.requests);
        self.take(alloc);
        match moved {
            Ok(moved) => moved != ClientMoved::Ended,
            Err(_) => false,
        }
    }

    // Steps to the client's end.
    fn go(&mut self, alloc: Global)
        requires { length self.old.tiles.items ≡ tile_count (layout_of self.old.core) }
    {
        for _ in 0..100 {
            if !self.step(alloc) {
                break;
            }
        }
    }
}

// The scene that a text spells.
fn scene_of(rt: &impl Abort, alloc: Global, text: &[u8]) -> Scene
    ensures { IsWithin result }
{
    let told = parse_scene(alloc, text).expect(rt, "a text");
    let bytes = write_scene(alloc, &told).expect(rt, "memory");
    read_scene(alloc, bytes.as_slice()).expect(rt, "a scene")
}

// How many parcels a client sends to one tile, all of which return.
fn parcels_of(rt: &impl Abort, alloc: Global, scene: &Scene, client: u8) -> u32
    requires within { IsWithin scene.now }
    requires client { client < length scene.now.streams }
{
    let cut = layout(scene.decl.width, scene.decl.height, 1, 1, 1).expect(rt, "a layout");
    let tiles = vec![in alloc; PlainLane::new(alloc, 1).expect(rt, "memory")];
    let mut sent = Sent {
        core: ClientCore::new(alloc, scene, client, &cut).expect(rt, "memory"),
        tiles: tiles.expect(rt, "memory"),
        requests: PlainLane::new(alloc, 1).expect(rt, "memory"),
        parcels: 0,
        whole: true,
    };
    sent.go(alloc);
    assert!(rt; sent.whole);
    sent.parcels
}

// Of all clients of a scene.
fn all_parcels(rt: &impl Abort, alloc: Global, text: &[u8]) -> u32 {
    let scene = scene_of(rt, alloc, text);
    assert!(rt; scene.streams.len() <= 8);
    let mut parcels: u32 = 0;
    for client in 0..scene.streams.len() as u8 {
        parcels = parcels.saturating_add(parcels_of(rt, alloc, &scene, client));
    }
    parcels
}

#[test]
fn each_parcel_of_a_worked_scene_returns_from_its_bytes(rt: HostRuntime) {
    assert!(rt; all_parcels(&rt, rt.alloc(), CLEARED) == 3);
    assert!(rt; all_parcels(&rt, rt.alloc(), BLENDED_IN_TURN) == 10);
    assert!(rt; all_parcels(&rt, rt.alloc(), SHARED_BEHIND_A_BARRIER) == 8);
    assert!(rt; all_parcels(&rt, rt.alloc(), LAZY_TEXTURE) == 5);
}
