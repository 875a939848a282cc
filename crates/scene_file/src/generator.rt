//! The scene of a seed: eight clients that draw triangles in bands of their own, or one at a time, and meet after each round.
ghost use Rattle.std.specs.Prelude.{◌≡◌, ◌+◌, ◌*◌, ◌%◌, ◌<◌, ◌≤◌, ◌==◌, [], ◌∷◌, ◌++◌, map, IfOk, OnOk};
ghost use Rattle.std.specs.List.{range_with_len};
ghost use Rattle.rc_base.specs.declared.command.Command.TheVariants as cmd;
ghost use Rattle.rc_base.specs.Formats.Within.{IsWithin};
ghost use Rattle.scene_file.specs.Generator.{next_state, drawn_state, draw_of, is_lone, lone_client, coordinate_of, generated_vertex, generated_triangle, generated_scene};
ghost use Rattle.scene_file.specs.Generated.{color_from, drawing_from, state_behind, opening_of, streams_at, ended};

use rc_base::{Command, Commands, Counts, Decl, OutOfMemory, Rgba, Scene, Sizes, Streams, Units};
use std::alloc::Global;

const CLIENTS: u32 = 8;

/// The state after one more draw: a linear congruence modulo 2^64.
pub fn next_state(state: u64) -> u64
    ensures { result ≡ next_state state }
{
    state
        .wrapping_mul(6_364_136_223_846_793_005)
        .wrapping_add(1_442_695_040_888_963_407)
}

/// The draws from a state on.
#[derive(Debug, Drop)]
struct Draws {
    state: u64,
}

impl Draws {
    // The high 24 bits of the next state.
    #[tactic(auto, unfolding(crate::specs::Generator::drawn_state, crate::specs::Generator::draw_of))]
    fn draw(&mut self) -> u32
        ensures draw { result ≡ draw_of self.old.state 0 }
        ensures state { self.new.state ≡ drawn_state self.old.state 1 }
    {
        self.state = next_state(self.state);
        (self.state >> 40) as u32
    }

    fn channel(&mut self) -> u8
        ensures channel { result ≡ draw_of self.old.state 0 % 256 }
        ensures state { self.new.state ≡ drawn_state self.old.state 1 }
    {
        (self.draw() % 256) as u8
    }

    fn color(&mut self) -> Rgba
        ensures color { result ≡ color_from self.old.state }
        ensures state { self.new.state ≡ drawn_state self.old.state 4 }
    {
        let r = self.channel();
        let g = self.channel();
        let b = self.channel();
        let a = self.channel();
        Rgba { r, g, b, a }
    }

    // From -1 to 1 in 16.16 fixed point.
    fn coordinate(&mut self) -> i32
        ensures coordinate { result ≡ coordinate_of self.old.state 0 }
        ensures state { self.new.state ≡ drawn_state self.old.state 1 }
    {
        (self.draw() % 131_073) as i32 - 65_536
    }

    fn vertex(&mut self) -> Command
        ensures vertex { result ≡ generated_vertex self.old.state 0 }
        ensures state { self.new.state ≡ drawn_state self.old.state 2 }
    {
        let x = self.coordinate();
        let y = self.coordinate();
        Command::Vertex {
            pos: [x, y, 0, 65_536],
        }
    }
}

fn add_triangle(stream: &mut Commands, draws: &mut Draws) -> Result<(), OutOfMemory>
    ensures stream { OnOk result (stream.new ≡ stream.old ++ generated_triangle draws.old.state 0) }
    ensures draws { OnOk result (draws.new.state ≡ drawn_state draws.old.state 10) }
{
    let color = draws.color();
    let first = draws.vertex();
    let second = draws.vertex();
    let third = draws.vertex();
    stream.push(Command::Color(color))?;
    stream.push(Command::Begin { mode: 0 })?;
    stream.push(first)?;
    stream.push(second)?;
    stream.push(third)?;
    stream.push(Command::End)?;
    Ok(())
}

fn is_lone(round: u32) -> bool
    ensures { result ≡ is_lone round }
{
    round % 4 == 3
}

fn draws_alone(round: u32, client: u32) -> bool
    ensures { result ≡ (lone_client round == client) }
{
    round / 4 % CLIENTS == client
}

// A triangle in the client's own band, or in a lone round over the whole window.
fn add_drawing(
    stream: &mut Commands,
    draws: &mut Draws,
    round: u32,
    client: u32,
) -> Result<(), OutOfMemory>
    ensures stream { OnOk result (stream.new ≡ stream.old ++ drawing_from draws.old.state round client) }
    ensures draws { OnOk result (draws.new.state ≡ state_behind draws.old.state round client) }
{
    if !is_lone(round) {
        stream.push(Command::Enable { capability: 0 })?;
        add_triangle(stream, draws)
    } else if draws_alone(round, client) {
        stream.push(Command::Disable { capability: 0 })?;
        add_triangle(stream, draws)
    } else {
        Ok(())
    }
}

// A client's turn in a round: it may draw, and then meets the others.
fn add_turn(
    stream: &mut Commands,
    draws: &mut Draws,
    round: u32,
    client: u32,
) -> Result<(), OutOfMemory>
    ensures stream { OnOk result (stream.new
        ≡ stream.old ++ (drawing_from draws.old.state round client ++ cmd.Barrier 1 ∷ [])) }
    ensures draws { OnOk result (draws.new.state ≡ state_behind draws.old.state round client) }
{
    add_drawing(stream, draws, round, client)?;
    stream.push(Command::Barrier { name: 1 })?;
    Ok(())
}

fn opening(alloc: Global, client: u32) -> Result<Commands, OutOfMemory>
    requires { client < 8 }
    ensures { IfOk result (λ stream. stream ≡ opening_of client) }
{
    let mut stream = Commands::new(alloc);
    stream.push(Command::Enable { capability: 3 })?;
    stream.push(Command::BlendFunc {
        source: 6,
        destination: 7,
    })?;
    stream.push(Command::Scissor {
        area: [0, 32 * client as i32, 256, 32],
    })?;
    Ok(stream)
}

fn openings(alloc: Global) -> Result<Vec<Commands>, OutOfMemory>
    ensures { IfOk result (λ streams. streams.items ≡ map opening_of (range_with_len 0 8)) }
{
    let mut streams = Vec::new(alloc);
    for client in 0..CLIENTS {
        let stream = opening(alloc, client)?;
        streams.push(stream)?;
    }
    Ok(streams)
}

// The streams before their Swaps. The clients take turns, so each draw is made once.
fn drawn_streams(alloc: Global, seed: u64, size: u32) -> Result<Vec<Commands>, OutOfMemory>
    requires { size ≤ 4096 }
    ensures { IfOk result (λ streams. streams.items ≡ streams_at seed (8 * size)) }
{
    let mut streams = openings(alloc)?;
    let mut draws = Draws { state: seed };
    for turn in 0..CLIENTS * size {
        let client = turn % CLIENTS;
        let stream = &mut streams[client as usize];
        add_turn(stream, &mut draws, turn / CLIENTS, client)?;
    }
    Ok(streams)
}

fn ended_streams(alloc: Global, streams: Vec<Commands>) -> Result<Streams, OutOfMemory>
    ensures { IfOk result (λ all. all ≡ map ended streams.items) }
{
    let mut all = Streams::new(alloc);
    for mut stream in streams {
        stream.push(Command::Swap)?;
        all.push(stream)?;
    }
    Ok(all)
}

/// The scene of a seed with so many rounds, in a window of 256 by 256. In a round each of the eight clients draws a triangle in its own band of
/// 32 rows, or in each fourth round one client alone over the whole window, and then all meet at a barrier. Positions and colours come from a
/// linear congruential generator.
pub fn generate(alloc: Global, seed: u64, size: u32) -> Result<Scene, OutOfMemory>
    requires least { 1 ≤ size }
    requires most { size ≤ 4096 }
    ensures exact { IfOk result (λ scene. scene ≡ generated_scene seed size) }
    ensures within { IfOk result (λ scene. IsWithin scene) }
{
    let drawn = drawn_streams(alloc, seed, size)?;
    let streams = ended_streams(alloc, drawn)?;
    let shared = Sizes::new(alloc);
    let barriers = Counts::from_slice(alloc, &[8])?;
    let semaphores = Units::new(alloc);
    let decl = Decl {
        version: 1,
        width: 256,
        height: 256,
        shared,
        barriers,
        semaphores,
    };
    Ok(Scene { decl, streams })
}
