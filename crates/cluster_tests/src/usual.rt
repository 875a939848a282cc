//! A usual scene is within every limit: four clients, twenty frames, in each a strip of 5,002 vertices for each client.
use bounds_bucket::layout;
use rc_base::command::{Command, Commands, Rgba};
use rc_base::out_of_memory::OutOfMemory;
use rc_base::scene::{Counts, Decl, Scene, Sizes, Streams, Units};
use rc_base::window::Layout;
use scene_file::check_limits;
use std::alloc::Global;
use std::process::Abort;

const VERTICES: u16 = 5_002;

fn push_vertex(stream: &mut Commands, i: u16) -> Result<(), OutOfMemory> {
    stream.push(Command::Color(Rgba {
        r: (i % 256) as u8,
        g: 0,
        b: 0,
        a: 255,
    }))?;
    stream.push(Command::Vertex {
        pos: [i32::from(i), 0, 0, 65_536],
    })?;
    Ok(())
}

// A strip, a barrier of all clients, and a swap.
fn push_frame(stream: &mut Commands) -> Result<(), OutOfMemory> {
    stream.push(Command::Begin { mode: 1 })?;
    for i in 0..VERTICES {
        push_vertex(stream, i)?;
    }
    stream.push(Command::End)?;
    stream.push(Command::Barrier { name: 1 })?;
    stream.push(Command::Swap)?;
    Ok(())
}

fn stream(alloc: Global) -> Result<Commands, OutOfMemory> {
    let mut stream = Commands::new(alloc);
    for _ in 0..20u8 {
        push_frame(&mut stream)?;
    }
    Ok(stream)
}

fn usual(alloc: Global) -> Result<Scene, OutOfMemory> {
    let mut streams = Streams::new(alloc);
    for _ in 0..4u8 {
        streams.push(stream(alloc)?)?;
    }
    Ok(Scene {
        decl: Decl {
            version: 1,
            width: 1024,
            height: 768,
            shared: Sizes::new(alloc),
            barriers: Counts::from_slice(alloc, &[4])?,
            semaphores: Units::new(alloc),
        },
        streams,
    })
}

fn commands_in(scene: &Scene) -> usize {
    let mut count: usize = 0;
    for stream in scene.streams.as_slice() {
        count = count.saturating_add(stream.len());
    }
    count
}

const CUT: Layout = Layout {
    width: 1024,
    height: 768,
    columns: 4,
    rows: 3,
};

fn is_within(rt: &impl Abort, alloc: Global) -> bool {
    let scene = usual(alloc).expect(rt, "memory");
    commands_in(&scene) == 800_640
        && check_limits(&scene) == Ok(())
        && layout(scene.decl.width, scene.decl.height, 4, 3, 16) == Ok(CUT)
}

#[test]
fn a_usual_scene_is_within_the_limits(rt: HostRuntime) {
    assert!(rt; is_within(&rt, rt.alloc()));
}
