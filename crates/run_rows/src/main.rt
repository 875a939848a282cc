//! Rows of words, what they are given and what they leave: a table on standard input. Each row is run, and told in a line on standard output.
//!
//! The words are run on ends in memory by the calls that carry out the program's: `run_filtered`, with a member for each filter that they begin with, and,
//! where they begin with none, `run` too. The status is 0 where each run left what its row says, 1 where one didn't, and 2 where the table is none.
#![tactic(auto)]

mod contents;
mod refusal;
mod row;
mod table;
mod tell;
mod trial;
mod verdict;

use rc_base::standard::StdSource;
use rc_base::transfer::read_all;
use refusal::Refusal;
use std::process::ExitCode;
use tell::{Tally, tell_table};

fn main(rt: HostRuntime) -> ExitCode {
    let mut source = StdSource::new(rt.stdin());
    let told = match read_all(rt.alloc(), &mut source) {
        Ok(table) => tell_table(&rt, rt.alloc(), table.as_slice()),
        Err(_) => Err(Refusal::Unread),
    };
    match told {
        Ok(Tally { right, wrong }) => {
            if println!(rt; "{right} runs as wanted, {wrong} not").is_err() || wrong > 0 {
                return ExitCode::FAILURE;
            }
            ExitCode::SUCCESS
        }
        Err(refusal) => {
            let _ = println!(rt; "run_rows: {refusal}");
            ExitCode::from(2)
        }
    }
}
