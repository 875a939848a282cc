//! Lines that are taken with their values, lines that are refused, and the jobs that they name.
use super::runs::{Host, words};
use command_line::{CommandLine, JobName, Settings, command_line};
use render_core::job::{Cluster, Job, job_of};
use std::alloc::Global;

const DEFAULTS: Settings = Settings {
    columns: 1,
    rows: 1,
    depth: 8,
    order: false,
    seed: 0,
    size: 0,
};

fn line_of(rt: &impl Host, alloc: Global, line: &[&str]) -> Option<CommandLine> {
    let words = words(rt, alloc, line);
    command_line(alloc, words.as_slice()).expect(rt, "memory")
}

fn job_by(rt: &impl Host, alloc: Global, line: &[&str]) -> Option<Job> {
    let words = words(rt, alloc, line);
    job_of(alloc, words.as_slice()).expect(rt, "memory")
}

const TAKEN: [(&[&str], JobName, Settings); 12] = [
    (&["render"], JobName::Render, DEFAULTS),
    (&["serial"], JobName::Serial, DEFAULTS),
    (&["check"], JobName::Check, DEFAULTS),
    (&["race"], JobName::Race, DEFAULTS),
    (&["last"], JobName::Last, DEFAULTS),
    (&["pack"], JobName::Pack, DEFAULTS),
    (&["unpack"], JobName::Unpack, DEFAULTS),
    (
        &["render", "--tiles", "4x3"],
        JobName::Render,
        Settings {
            columns: 4,
            rows: 3,
            ..DEFAULTS
        },
    ),
    (
        &["render", "--order", "--depth", "0"],
        JobName::Render,
        Settings {
            order: true,
            depth: 0,
            ..DEFAULTS
        },
    ),
    (
        &["simulate", "--seed", "18446744073709551615"],
        JobName::Simulate,
        Settings {
            seed: 18446744073709551615,
            ..DEFAULTS
        },
    ),
    (
        &[
            "simulate", "--depth", "2", "--tiles", "0x10", "--seed", "7", "--order",
        ],
        JobName::Simulate,
        Settings {
            columns: 0,
            rows: 10,
            depth: 2,
            order: true,
            seed: 7,
            size: 0,
        },
    ),
    (
        &["gen", "--size", "12", "--seed", "3"],
        JobName::Gen,
        Settings {
            seed: 3,
            size: 12,
            ..DEFAULTS
        },
    ),
];

#[test]
fn lines_are_taken(rt: HostRuntime) {
    for (words, job, settings) in &TAKEN {
        let line = CommandLine {
            job: *job,
            settings: *settings,
        };
        assert!(rt; line_of(&rt, rt.alloc(), *words) == Some(line));
    }
}

const REFUSED: [&[&str]; 30] = [
    &[],
    &[""],
    &["rende"],
    &["Render"],
    &["--order", "render"],
    &["render", ""],
    &["render", "render"],
    &["render", "--"],
    &["render", "-h"],
    &["render", "--help"],
    &["render", "--ord"],
    &["render", "--depth=8"],
    &["render", "--depth"],
    &["render", "--depth", "--order"],
    &["render", "--depth", "08"],
    &["render", "--depth", "+8"],
    &["render", "--depth", "18446744073709551616"],
    &["render", "--depth", "8", "8"],
    &["render", "--order", "--order"],
    &["render", "--depth", "8", "--depth", "8"],
    &["render", "--tiles", "4X4"],
    &["render", "--tiles", "4x"],
    &["render", "--tiles", "4x4x4"],
    &["render", "--tiles", "04x1"],
    &["render", "--seed", "1"],
    &["serial", "--order"],
    &["race", "--order"],
    &["simulate"],
    &["simulate", "--seed", "1", "--size", "1"],
    &["gen", "--seed", "1"],
];

#[test]
fn other_words_are_refused(rt: HostRuntime) {
    for words in &REFUSED {
        assert!(rt; line_of(&rt, rt.alloc(), *words) == None);
    }
}

const CLUSTER: Cluster = Cluster {
    columns: 1,
    rows: 1,
    depth: 8,
    orders: false,
};

const JOBS: [(&[&str], Option<Job>); 6] = [
    (&["serial"], Some(Job::Serial)),
    (
        &["render", "--tiles", "4x3", "--order", "--depth", "2"],
        Some(Job::Render(Cluster {
            columns: 4,
            rows: 3,
            depth: 2,
            orders: true,
        })),
    ),
    (
        &["simulate", "--seed", "7"],
        Some(Job::Simulate {
            seed: 7,
            cluster: CLUSTER,
        }),
    ),
    (
        &["demo", "--size", "12", "--seed", "3"],
        Some(Job::Demo {
            seed: 3,
            size: 12,
            cluster: CLUSTER,
        }),
    ),
    (&["gen", "--seed", "3"], None),
    (&["cull", "serial"], None),
];

#[test]
fn words_name_jobs(rt: HostRuntime) {
    for (words, job) in &JOBS {
        assert!(rt; job_by(&rt, rt.alloc(), *words) == *job);
    }
}
