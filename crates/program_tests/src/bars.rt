//! A picture made in code: bars of given heights, drawn by the cluster on threads, as an image on the sink that the caller gives.
//!
//! `draw` makes the commands of two clients, the ground and the bars, who meet at a barrier; looks whether the scene is within the limits; and hands its
//! bytes to the call that does all that the program of this repository does.
use rc_base::command::{Command, Commands, Rgba};
use rc_base::gate::OpenGate;
use rc_base::in_memory::{MemSink, QuietSink, QuietSource};
use rc_base::items::Items;
use rc_base::out_of_memory::OutOfMemory;
use rc_base::outside::Sink;
use rc_base::scene::{Counts, Decl, Limit, Scene, Streams};
use render_core::run;
use scene_file::{check_limits, write_scene};
use std::alloc::Global;
use std::sync::Wait;
use std::thread::Threads;
use thiserror::Error;

/// One in 16.16 fixed point. The window goes from -1 to 1 both ways.
const ONE: i32 = 65536;

/// Of the window's width, 2, each bar has a quarter, with a gap behind it.
const STEP: i32 = ONE / 2;

/// How wide it is without the gap.
const BAR: i32 = ONE / 4;

/// The words of the job, as the program reads them.
const JOB: [&str; 3] = ["render", "--tiles", "4x2"];

/// Why there is no picture, in one line.
#[derive(Clone, Copy, Debug, Error)]
enum Refusal {
    #[error("{0}")]
    Limit(#[from] Limit),
    #[error("{0}")]
    Memory(#[from] OutOfMemory),
}

fn corner(stream: &mut Commands, x: i32, y: i32) -> Result<(), OutOfMemory> {
    stream.push(Command::Vertex {
        pos: [x, y, 0, ONE],
    })?;
    Ok(())
}

// A rectangle of so many quarters of the window's height that stands on the lower edge: a strip of two triangles.
fn bar(stream: &mut Commands, left: i32, height: u8) -> Result<(), OutOfMemory> {
    let right = left.saturating_add(BAR);
    let top = i32::from(height) * (ONE / 2) - ONE;
    stream.push(Command::Color(Rgba {
        r: 240,
        g: 180,
        b: 60,
        a: 255,
    }))?;
    stream.push(Command::Begin { mode: 1 })?;
    corner(stream, left, -ONE)?;
    corner(stream, right, -ONE)?;
    corner(stream, left, top)?;
    corner(stream, right, top)?;
    stream.push(Command::End)?;
    Ok(())
}

// The client that clears the window.
fn ground(alloc: Global) -> Result<Commands, OutOfMemory> {
    let mut stream = Commands::new(alloc);
    stream.push(Command::ClearColor(Rgba {
        r: 24,
        g: 28,
        b: 60,
        a: 255,
    }))?;
    stream.push(Command::Clear { mask: 1 })?;
    stream.push(Command::Barrier { name: 1 })?;
    stream.push(Command::Swap)?;
    Ok(stream)
}

// The client that draws the bars, once the window was cleared.
fn bars(alloc: Global, heights: &[u8]) -> Result<Commands, OutOfMemory> {
    let mut stream = Commands::new(alloc);
    stream.push(Command::Barrier { name: 1 })?;
    let mut left = -ONE;
    for height in heights {
        bar(&mut stream, left, *height)?;
        left = left.saturating_add(STEP);
    }
    stream.push(Command::Swap)?;
    Ok(stream)
}

fn scene_of(alloc: Global, heights: &[u8]) -> Result<Scene, OutOfMemory> {
    let mut streams = Streams::new(alloc);
    streams.push(ground(alloc)?)?;
    streams.push(bars(alloc, heights)?)?;
    let mut barriers = Counts::new(alloc);
    barriers.push(2)?;
    Ok(Scene {
        decl: Decl {
            version: 1,
            width: 8,
            height: 4,
            shared: Items::new(alloc),
            barriers,
            semaphores: Items::new(alloc),
        },
        streams,
    })
}

// The scene's bytes, to be read as a file would be.
fn source_of(alloc: Global, heights: &[u8]) -> Result<QuietSource, Refusal> {
    let scene = scene_of(alloc, heights)?;
    check_limits(&scene)?;
    let bytes = write_scene(alloc, &scene)?;
    Ok(QuietSource::new(alloc, bytes.as_slice(), 4096)?)
}

fn words(alloc: Global) -> Result<Vec<String>, OutOfMemory> {
    let mut words = Vec::new(alloc);
    for word in JOB {
        words.push(String::from_str(alloc, word)?)?;
    }
    Ok(words)
}

/// Draws bars of these heights. What the status says of image and notes are the clauses of `run`.
fn draw<K: Sink, N: Sink, R>(
    rt: R,
    alloc: Global,
    heights: &[u8],
    image: &mut K,
    notes: &mut N,
) -> Result<u8, Refusal>
where
    R: Threads + Wait + Copy + Send + Sync + Drop,
{
    let words = words(alloc)?;
    let mut source = source_of(alloc, heights)?;
    let finish = run(
        rt,
        alloc,
        words.as_slice(),
        &mut source,
        image,
        notes,
        &OpenGate,
    );
    Ok(finish.status)
}

// The picture of bars of 3, 1, 4 and 1.
const PICTURE: &[u8] = b"P6\n8 4\n255\n\
\x18\x1c\x3c\x18\x1c\x3c\x18\x1c\x3c\x18\x1c\x3c\xf0\xb4\x3c\x18\x1c\x3c\x18\x1c\x3c\x18\x1c\x3c\
\xf0\xb4\x3c\x18\x1c\x3c\x18\x1c\x3c\x18\x1c\x3c\xf0\xb4\x3c\x18\x1c\x3c\x18\x1c\x3c\x18\x1c\x3c\
\xf0\xb4\x3c\x18\x1c\x3c\x18\x1c\x3c\x18\x1c\x3c\xf0\xb4\x3c\x18\x1c\x3c\x18\x1c\x3c\x18\x1c\x3c\
\xf0\xb4\x3c\x18\x1c\x3c\xf0\xb4\x3c\x18\x1c\x3c\xf0\xb4\x3c\x18\x1c\x3c\xf0\xb4\x3c\x18\x1c\x3c";

#[test]
fn bars_are_drawn(rt: HostRuntime) {
    let mut image = MemSink::new(rt.alloc(), 4096, &[]).expect(&rt, "memory");
    let status = draw(
        rt,
        rt.alloc(),
        &[3, 1, 4, 1],
        &mut image,
        &mut QuietSink::new(),
    );
    assert!(rt; matches!(status, Ok(0)));
    assert!(rt; image.bytes() == PICTURE);
}
