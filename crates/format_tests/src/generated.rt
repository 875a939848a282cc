use rc_base::{Command, Rgba, Scene};
use scene_file::{generate, next_state};
use std::alloc::Global;

/// The scene of seed 7 with 1, 4 or 1024 rounds.
fn scene_of(alloc: Global, size: u32) -> Option<Scene> {
    let size = size.clamp(1, 4096);
    generate(alloc, 7, size).ok()
}

fn counts(scene: &Scene) -> [usize; 8] {
    let mut counts = [0; 8];
    for (count, stream) in counts.iter_mut().zip(scene.streams.as_slice()) {
        *count = stream.len();
    }
    counts
}

/// Whether a client's stream has these commands behind so many others.
fn has(scene: &Scene, client: usize, place: usize, commands: &[Command]) -> bool {
    let Some(stream) = scene.streams.as_slice().get(client) else {
        return false;
    };
    match stream.as_slice().get(place..) {
        Some(rest) => rest.starts_with(commands),
        None => false,
    }
}

fn vertex(x: i32, y: i32) -> Command {
    Command::Vertex {
        pos: [x, y, 0, 65_536],
    }
}

#[test]
fn seed_seven_begins_with_red_40(rt: HostRuntime) {
    assert!(rt; next_state(7) == 9_098_160_460_397_411_210);
    let scene = scene_of(rt.alloc(), 1).expect(&rt, "memory");
    assert!(rt; counts(&scene) == [12; 8]);
    assert!(rt;
        has(
            &scene,
            0,
            0,
            &[
                Command::Enable { capability: 3 },
                Command::BlendFunc {
                    source: 6,
                    destination: 7
                },
                Command::Scissor {
                    area: [0, 0, 256, 32]
                },
                Command::Enable { capability: 0 },
                Command::Color(Rgba {
                    r: 40,
                    g: 26,
                    b: 90,
                    a: 183
                }),
                Command::Begin { mode: 0 },
                vertex(-52_913, 28_545),
                vertex(9_036, -36_281),
                vertex(14_180, 43_250),
                Command::End,
                Command::Barrier { name: 1 },
                Command::Swap,
            ]
        )
    );
}

#[test]
fn fourth_round_is_of_one_client(rt: HostRuntime) {
    let scene = scene_of(rt.alloc(), 4).expect(&rt, "memory");
    assert!(rt; counts(&scene) == [36, 29, 29, 29, 29, 29, 29, 29]);
    assert!(rt;
        has(
            &scene,
            0,
            27,
            &[
                Command::Disable { capability: 0 },
                Command::Color(Rgba {
                    r: 120,
                    g: 101,
                    b: 19,
                    a: 37
                }),
                Command::Begin { mode: 0 },
                vertex(31_265, 32_515),
            ]
        )
    );
    assert!(rt;
        has(
            &scene,
            7,
            27,
            &[Command::Barrier { name: 1 }, Command::Swap]
        )
    );
}

#[test]
fn usual_size_has_as_many_commands_in_each_stream(rt: HostRuntime) {
    let scene = scene_of(rt.alloc(), 1024).expect(&rt, "memory");
    assert!(rt; counts(&scene) == [6628; 8]);
}
