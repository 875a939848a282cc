//! The program: its words are its arguments, standard input the source, standard output the image, standard error the notes.
#![tactic(auto)]

use render_main::{Exit, run_process};
use std::env;
use std::io::{Stderr, Stdin, Stdout};

fn main(rt: HostRuntime) -> Exit<Stdin, Stdout, Stderr> {
    let args = env::args(&rt);
    run_process(rt, rt.alloc(), args, rt.stdin(), rt.stdout(), rt.stderr())
}
