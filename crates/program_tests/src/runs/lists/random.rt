//! Scenes with call lists that are drawn from a seed, each against the scene of version 2 that it stands for.
ghost use Rattle.std.specs.Prelude.{◌<◌};

use super::replaced::{Meaning, meaning_of};
use super::spelled::{FULL, Step, spelled};
use super::{JOBS, is_alike};
use crate::runs::{Host, run_on, run_text};
use scene_file::next_state;
use std::alloc::Global;

// The jobs whose image no schedule decides.
const ALONE: [&[&str]; 5] = [
    &["simulate", "--seed", "3"],
    &["serial"],
    &["check"],
    &["race"],
    &["last"],
];

// The numbers of a seed.
#[derive(Drop)]
struct Numbers {
    state: u64,
}

impl Numbers {
    fn below(&mut self, bound: u64) -> u64
        requires { 0 < bound }
        ensures { result < bound }
    {
        self.state = next_state(self.state);
        (self.state >> 33) % bound
    }
}

const PLAIN: [Step; 8] = [
    FULL,
    Step::Plain("Color 255 0 0 255"),
    Step::Plain("Color 0 0 255 128"),
    Step::Plain("Enable 0\nScissor 1 0 1 2"),
    Step::Plain("Disable 0"),
    Step::Plain("Enable 3\nBlendFunc 1 1"),
    Step::Plain("Clear 1"),
    Step::Plain("Begin 0"),
];

fn drawn_step(numbers: &mut Numbers, may_call: bool) -> Step {
    let kind = numbers.below(16);
    let name = numbers.below(4) as u8;
    let plain = PLAIN[numbers.below(8) as usize];
    match kind {
        0 | 1 | 2 => Step::New(name),
        3 | 4 | 5 => Step::End,
        6 => Step::Call(65),
        7 | 8 | 9 if may_call => Step::Call(name),
        _ => plain,
    }
}

// Forty steps, and then calls of all lists and a frame. Between one end of a list and the next stand at most two calls, so that no list means too much.
fn drawn_stream(rt: &impl Host, alloc: Global, numbers: &mut Numbers) -> Vec<Step> {
    let mut steps = Vec::new(alloc);
    let mut calls: u32 = 0;
    for _ in 0..40u32 {
        let step = drawn_step(numbers, calls < 2);
        match step {
            Step::Call(_) => calls = calls.saturating_add(1),
            Step::End => calls = 0,
            Step::New(_) | Step::Plain(_) => {}
        }
        steps.push(step).expect(rt, "memory");
    }
    let last = [
        Step::End,
        Step::Call(1),
        Step::Call(2),
        Step::Call(3),
        Step::Plain("Swap"),
    ];
    steps.extend_from_slice(&last).expect(rt, "memory");
    steps
}

// A job leaves of the scene's bytes what it leaves of its meaning.
fn is_meant(rt: &impl Host, alloc: Global, job: &[&str], bytes: &[u8], meaning: &Meaning) -> bool {
    let left = run_on(rt, alloc, job, bytes);
    let other = run_text(rt, alloc, job, meaning.text.as_slice());
    is_alike(&left, &other, meaning.refused.as_slice())
}

// How many of these jobs leave of the scene of these streams what they leave of its meaning.
fn alike(rt: &impl Host, alloc: Global, streams: &[&[Step]], jobs: &[&[&str]]) -> u32 {
    let meaning = meaning_of(rt, alloc, streams);
    let bytes = spelled(rt, alloc, "2 2", streams);
    let mut count: u32 = 0;
    for job in jobs {
        if is_meant(rt, alloc, *job, bytes.as_slice(), &meaning) {
            count = count.saturating_add(1);
        }
    }
    count
}

// How many of the six jobs draw what the lists of a seed's client mean.
fn alike_by_one(rt: &impl Host, alloc: Global, seed: u64) -> u32 {
    let mut numbers = Numbers { state: seed };
    let steps = drawn_stream(rt, alloc, &mut numbers);
    alike(rt, alloc, &[steps.as_slice()], &JOBS)
}

// Scenes of one client, by each of the six jobs.
#[test]
fn one_client_draws_what_its_lists_mean(rt: HostRuntime) {
    for seed in 0..8u64 {
        assert!(rt; alike_by_one(&rt, rt.alloc(), seed) == 6);
    }
}

fn both<'a>(first: &'a [Step], second: &'a [Step]) -> [&'a [Step]; 2] {
    [first, second]
}

// How many of the five jobs draw what the lists of a seed's two clients mean.
fn alike_by_two(rt: &impl Host, alloc: Global, seed: u64) -> u32 {
    let mut numbers = Numbers { state: seed };
    let first = drawn_stream(rt, alloc, &mut numbers);
    let second = drawn_stream(rt, alloc, &mut numbers);
    let streams = both(first.as_slice(), second.as_slice());
    alike(rt, alloc, &streams, &ALONE)
}

// Scenes of two clients, which nothing orders: threads may draw them in another order each time.
#[test]
fn two_clients_draw_what_their_lists_mean(rt: HostRuntime) {
    for seed in 8..20u64 {
        assert!(rt; alike_by_two(&rt, rt.alloc(), seed) == 5);
    }
}
