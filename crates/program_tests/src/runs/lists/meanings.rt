//! Scenes with call lists by the six jobs, each against the scene of version 2 that it stands for.
use super::cases::{CLEARED, Case, DRAWN, RACING, WAITING};
use super::spelled::spelled;
use super::{JOBS, is_alike};
use crate::runs::{Host, run_on, run_text};
use std::alloc::Global;

// A job ends with this status, and leaves of the scene what it leaves of its meaning.
fn has_its_meaning(rt: &impl Host, alloc: Global, case: &Case, job: &[&str], status: u8) -> bool {
    let bytes = spelled(rt, alloc, case.declared, case.streams);
    let left = run_on(rt, alloc, job, bytes.as_slice());
    let other = run_text(rt, alloc, job, case.meaning);
    left.status == status && is_alike(&left, &other, case.refused.as_bytes())
}

// Each of the six jobs leaves of the scene what it leaves of its meaning.
fn is_its_meaning(rt: &impl Host, alloc: Global, case: &Case) -> bool {
    for i in 0..6 {
        if !has_its_meaning(rt, alloc, case, JOBS[i], case.statuses[i]) {
            return false;
        }
    }
    true
}

const CASES: [&Case; 4] = [&DRAWN, &RACING, &WAITING, &CLEARED];

#[test]
fn each_job_leaves_what_it_leaves_of_the_meaning(rt: HostRuntime) {
    for case in &CASES {
        assert!(rt; is_its_meaning(&rt, rt.alloc(), *case));
    }
}
