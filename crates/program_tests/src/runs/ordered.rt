//! Ordered scenes by three patterns: each has one image, that of the serial renderer, whatever the tiles, the depth and the schedule.
ghost use Rattle.std.specs.Prelude.{◌<◌};

use super::{Host, run_on};
use std::alloc::Global;
use test_scenes::BLENDED_AT_ONCE;

// How a scene orders the commands of its clients.
#[derive(Clone, Copy)]
enum Pattern {
    // In each round the clients blend in bands of their own, which are others in the next round; a barrier of all stands between the rounds.
    Bands,
    // A texture goes round: each client waits for its unit, draws with the texture and writes it anew, and gives the next client its unit.
    Texture,
    // In each frame the clients blend in bands of their own, which are others in the next frame; the swaps alone stand between the frames.
    Frames,
}

// A pattern, with so many clients and rounds.
type Row = (Pattern, u32, u32);

const BANDS: [Row; 10] = [
    (Pattern::Bands, 2, 1),
    (Pattern::Bands, 2, 2),
    (Pattern::Bands, 2, 5),
    (Pattern::Bands, 3, 2),
    (Pattern::Bands, 3, 3),
    (Pattern::Bands, 4, 3),
    (Pattern::Bands, 5, 2),
    (Pattern::Bands, 6, 4),
    (Pattern::Bands, 7, 2),
    (Pattern::Bands, 8, 3),
];

const TEXTURES: [Row; 10] = [
    (Pattern::Texture, 2, 1),
    (Pattern::Texture, 2, 2),
    (Pattern::Texture, 2, 4),
    (Pattern::Texture, 3, 1),
    (Pattern::Texture, 3, 3),
    (Pattern::Texture, 4, 2),
    (Pattern::Texture, 5, 1),
    (Pattern::Texture, 6, 2),
    (Pattern::Texture, 7, 1),
    (Pattern::Texture, 8, 2),
];

const FRAMES: [Row; 10] = [
    (Pattern::Frames, 2, 1),
    (Pattern::Frames, 2, 2),
    (Pattern::Frames, 2, 4),
    (Pattern::Frames, 3, 2),
    (Pattern::Frames, 3, 3),
    (Pattern::Frames, 4, 2),
    (Pattern::Frames, 5, 3),
    (Pattern::Frames, 6, 2),
    (Pattern::Frames, 7, 2),
    (Pattern::Frames, 8, 3),
];

// Tiles and a depth to run a scene with.
const RUNS: [(&str, &str); 4] = [("1x1", "8"), ("2x1", "1"), ("3x2", "3"), ("8x4", "16")];

// Whether the scene of so many clients is of version 2.
fn is_of_version_2(clients: u32) -> bool {
    clients % 2 == 1
}

fn add(rt: &impl Host, text: &mut Vec<u8>, line: &str) {
    text.extend_from_slice(line.as_bytes()).expect(rt, "memory");
}

// A triangle over the whole viewport. In a scene of version 2 it has a corner behind the eye, and two pieces that meet across the viewport.
fn add_triangle(rt: &impl Host, text: &mut Vec<u8>, clients: u32) {
    add(
        rt,
        text,
        "Begin 0\nVertex -65536 -65536 0 65536\nVertex 196608 -65536 0 65536\n",
    );
    if is_of_version_2(clients) {
        add(rt, text, "Vertex 65536 327680 0 -65536\nEnd\n");
    } else {
        add(rt, text, "Vertex -65536 196608 0 65536\nEnd\n");
    }
}

// A line of a word and numbers.
fn add_line(rt: &impl Host, alloc: Global, text: &mut Vec<u8>, word: &str, numbers: &[u32]) {
    add(rt, text, word);
    for number in numbers {
        let number = format!(in alloc; " {number}").expect(rt, "memory");
        add(rt, text, number.as_str());
    }
    add(rt, text, "\n");
}

// A client's colour in a round, half transparent.
fn add_color(rt: &impl Host, alloc: Global, text: &mut Vec<u8>, client: u32, round: u32) {
    let red = client.wrapping_mul(31) % 256;
    let green = round.wrapping_mul(53) % 256;
    let blue = client.wrapping_add(round).wrapping_mul(71) % 256;
    add_line(rt, alloc, text, "Color", &[red, green, blue, 128]);
}

// Two columns of pixels, which are a client's in a round.
fn add_band(
    rt: &impl Host,
    alloc: Global,
    text: &mut Vec<u8>,
    clients: u32,
    client: u32,
    round: u32,
)
    requires { 0 < clients }
{
    let left = client.wrapping_add(round) % clients % 8 * 2;
    add_line(rt, alloc, text, "Scissor", &[left, 0, 2, 8]);
    add_color(rt, alloc, text, client, round);
    add_triangle(rt, text, clients);
}

// A client that blends in a band in each round, and ends the round with this operation.
fn add_painter(
    rt: &impl Host,
    alloc: Global,
    text: &mut Vec<u8>,
    row: Row,
    client: u32,
    between: &str,
)
    requires { 0 < row.1 }
{
    let (_, clients, rounds) = row;
    add(rt, text, "client\nEnable 3\nBlendFunc 6 7\nEnable 0\n");
    for round in 0..rounds {
        add_band(rt, alloc, text, clients, client, round);
        add(rt, text, between);
    }
}

// A write of the texture, of one texel with two digits that change.
fn add_write(rt: &impl Host, alloc: Global, text: &mut Vec<u8>, texel: u32) {
    let line = format!(in alloc; "SharedImage 1 0 0 1 1 {texel}ff{texel}c0\n").expect(rt, "memory");
    add(rt, text, line.as_str());
}

// A client that waits in each round for its unit, blends with the texture over the window, writes it, and gives the next client its unit.
fn add_relay(rt: &impl Host, alloc: Global, text: &mut Vec<u8>, row: Row, client: u32)
    requires { 0 < row.1 }
{
    let (_, clients, rounds) = row;
    add(
        rt,
        text,
        "client\nEnable 3\nBlendFunc 6 7\nEnable 5\nBindTexture 1 1\nTexEnv 0\n",
    );
    let own = client.wrapping_add(1);
    let next = own % clients;
    for round in 0..rounds {
        add_line(rt, alloc, text, "SemP", &[own]);
        add_color(rt, alloc, text, client, round);
        add_triangle(rt, text, clients);
        let texel = client.wrapping_mul(29).wrapping_add(round) % 90;
        add_write(rt, alloc, text, texel.wrapping_add(10));
        add_line(rt, alloc, text, "SemV", &[next.wrapping_add(1)]);
    }
}

// The text of a scene, in a window of 16 by 8.
fn scene_of(rt: &impl Host, alloc: Global, row: Row) -> Vec<u8>
    requires { 0 < row.1 }
{
    let (pattern, clients, _) = row;
    let mut text = Vec::new(alloc);
    if is_of_version_2(clients) {
        add(rt, &mut text, "scene 2 16 8\n");
    } else {
        add(rt, &mut text, "scene 1 16 8\n");
    }
    match pattern {
        Pattern::Bands => {
            add_line(rt, alloc, &mut text, "barrier", &[clients]);
            for client in 0..clients {
                add_painter(rt, alloc, &mut text, row, client, "Barrier 1\n");
                add(rt, &mut text, "Swap\n");
            }
        }
        Pattern::Texture => {
            add(rt, &mut text, "shared 1 1\nsemaphore 1\n");
            for _ in 1..clients {
                add(rt, &mut text, "semaphore 0\n");
            }
            for client in 0..clients {
                add_relay(rt, alloc, &mut text, row, client);
                add(rt, &mut text, "Swap\n");
            }
        }
        Pattern::Frames => {
            for client in 0..clients {
                add_painter(rt, alloc, &mut text, row, client, "Swap\n");
            }
        }
    }
    text
}

// Whether a run of the scene's bytes is whole, and shows this image.
fn shows(rt: &impl Host, alloc: Global, job: &[&str], bytes: &[u8], image: &[u8]) -> bool {
    let left = run_on(rt, alloc, job, bytes);
    left.status == 0 && left.image.bytes() == image
}

// Whether both clusters show it, on these tiles with lanes of this depth.
fn show(
    rt: &impl Host,
    alloc: Global,
    (tiles, depth): (&str, &str),
    bytes: &[u8],
    image: &[u8],
) -> bool {
    let render = ["render", "--tiles", tiles, "--depth", depth];
    let simulate = [
        "simulate", "--seed", depth, "--tiles", tiles, "--depth", depth,
    ];
    shows(rt, alloc, &render, bytes, image) && shows(rt, alloc, &simulate, bytes, image)
}

// Whether they show it on several tiles with lanes of several depths.
fn all_show(rt: &impl Host, alloc: Global, bytes: &[u8], image: &[u8]) -> bool {
    for run in &RUNS {
        if !show(rt, alloc, *run, bytes, image) {
            return false;
        }
    }
    true
}

// Whether the scene is drawn alike by the serial renderer, by clusters of several tiles and depths, and on several schedules.
fn is_one_image(rt: &impl Host, alloc: Global, text: &[u8]) -> bool {
    let packed = run_on(rt, alloc, &["pack"], text);
    let bytes = packed.image.bytes();
    let serial = run_on(rt, alloc, &["serial"], bytes);
    let image = serial.image.bytes();
    serial.status == 0 && !image.is_empty() && all_show(rt, alloc, bytes, image)
}

// Whether the scene of a pattern is.
fn is_one(rt: &impl Host, alloc: Global, row: &Row) -> bool {
    if row.1 == 0 {
        return false;
    }
    let text = scene_of(rt, alloc, *row);
    is_one_image(rt, alloc, text.as_slice())
}

#[test]
fn bands_between_barriers_have_one_image(rt: HostRuntime) {
    for row in &BANDS {
        assert!(rt; is_one(&rt, rt.alloc(), row));
    }
}

#[test]
fn a_texture_passed_on_by_semaphores_has_one_image(rt: HostRuntime) {
    for row in &TEXTURES {
        assert!(rt; is_one(&rt, rt.alloc(), row));
    }
}

#[test]
fn bands_between_swaps_have_one_image(rt: HostRuntime) {
    for row in &FRAMES {
        assert!(rt; is_one(&rt, rt.alloc(), row));
    }
}

// A client draws with a texture that another one writes, and nothing says whether before or behind that.
const WRITTEN_AT_ONCE: &[u8] = b"scene 1 1 1
shared 1 1
client
SharedImage 1 0 0 1 1 ff0000ff
Swap
client
BindTexture 1 1
Enable 5
TexEnv 1
Begin 0
Vertex -65536 -65536 0 65536
Vertex 196608 -65536 0 65536
Vertex -65536 196608 0 65536
End
Swap
";

// Two clients clear the window, and a barrier stands before both and not between them.
const CLEARED_BEHIND_A_BARRIER: &[u8] = b"scene 1 1 1
barrier 2
client
ClearColor 255 0 0 255
Barrier 1
Clear 1
Swap
client
ClearColor 0 0 255 255
Barrier 1
Clear 1
Swap
";

// Whether a seed's run of the scene's bytes is whole, and shows another image than this.
fn differs(rt: &impl Host, alloc: Global, bytes: &[u8], image: &[u8], seed: u32) -> bool {
    let seed = format!(in alloc; "{seed}").expect(rt, "memory");
    let left = run_on(rt, alloc, &["simulate", "--seed", seed.as_str()], bytes);
    left.status == 0 && left.image.bytes() != image
}

// How many of forty seeds give another image than the serial renderer.
fn different(rt: &impl Host, alloc: Global, text: &[u8]) -> u32 {
    let packed = run_on(rt, alloc, &["pack"], text);
    let bytes = packed.image.bytes();
    let serial = run_on(rt, alloc, &["serial"], bytes);
    let mut count: u32 = 0;
    for seed in 0..40u32 {
        if differs(rt, alloc, bytes, serial.image.bytes(), seed) {
            count = count.saturating_add(1);
        }
    }
    count
}

const NOT_ORDERED: [&[u8]; 3] = [BLENDED_AT_ONCE, WRITTEN_AT_ONCE, CLEARED_BEHIND_A_BARRIER];

#[test]
fn scenes_that_are_not_ordered_have_two_images(rt: HostRuntime) {
    for text in &NOT_ORDERED {
        assert!(rt; different(&rt, rt.alloc(), *text) > 0);
    }
}
