//! A member of another's making, which writes down the commands that it is given.
use rc_base::command::{Command, Commands};
use spu_chain::{CullSpu, DropSpu, Spu, SpuRule, has_room, run_chain};
use std::alloc::Global;
use std::cell::Cell;
use std::process::Abort;
use std::rc::Rc;

// A member that culls. What it was given stands in the cell, a digit for each command, the last one last.
#[derive(Drop)]
struct Noting {
    given: Rc<Cell<u64>>,
    cull: CullSpu,
}

fn digit(command: &Command) -> u64 {
    match command {
        Command::Begin { .. } => 1,
        Command::End => 2,
        Command::Swap => 3,
        Command::Disable { capability: 4 } => 4,
        Command::Enable { capability: 4 } => 5,
        _ => 9,
    }
}

impl Spu for Noting {
    ghost use Rattle.spu_chain.specs.declared.rule.SpuRule.TheVariants.{Cull};

    ghost meaning = { λ s. Cull };

    fn rule(&self) -> SpuRule {
        SpuRule::Cull
    }

    fn pass(&mut self, command: Command) -> Option<Command> {
        let before = self.given.get();
        self.given
            .set(before.wrapping_mul(10).wrapping_add(digit(&command)));
        self.cull.pass(command)
    }
}

// Adds a member that notes in this cell.
fn add_noting(
    rt: &impl Abort,
    alloc: Global,
    chain: &mut Vec<Box<dyn Spu>>,
    given: &Rc<Cell<u64>>,
) {
    let given = given.clone().expect(rt, "memory");
    let member = Noting {
        given,
        cull: CullSpu,
    };
    chain
        .push(Box::new(alloc, member).expect(rt, "memory"))
        .expect(rt, "memory");
}

// Adds a member that drops each Swap.
fn add_dropping(rt: &impl Abort, alloc: Global, chain: &mut Vec<Box<dyn Spu>>) {
    chain
        .push(Box::new(alloc, DropSpu::new(0x24)).expect(rt, "memory"))
        .expect(rt, "memory");
}

const GIVEN: [Command; 5] = [
    Command::Swap,
    Command::Begin { mode: 0 },
    Command::Disable { capability: 4 },
    Command::End,
    Command::Swap,
];

fn commands(rt: &impl Abort, alloc: Global) -> Commands {
    let mut list = Commands::new(alloc);
    for command in &GIVEN {
        list.push(command.clone().expect(rt, "memory"))
            .expect(rt, "memory");
    }
    list
}

// How many commands come out, where the chain has room for all.
fn passed(rt: &impl Abort, alloc: Global, chain: &mut Vec<Box<dyn Spu>>) -> Option<usize> {
    let commands = commands(rt, alloc);
    if !has_room(chain, commands.len()) {
        return None;
    }
    let given = run_chain(alloc, chain, commands).expect(rt, "memory");
    Some(given.len())
}

fn cell(rt: &impl Abort, alloc: Global) -> Rc<Cell<u64>> {
    Rc::new(alloc, Cell::new(0u64)).expect(rt, "memory")
}

// How many commands come out of a chain of one that notes, one that drops each Swap, and another one that notes; and what the two note.
fn noted(rt: &impl Abort, alloc: Global) -> (Option<usize>, u64, u64) {
    let first = cell(rt, alloc);
    let second = cell(rt, alloc);
    let mut chain: Vec<Box<dyn Spu>> = Vec::new(alloc);
    add_noting(rt, alloc, &mut chain, &first);
    add_dropping(rt, alloc, &mut chain);
    add_noting(rt, alloc, &mut chain, &second);
    let count = passed(rt, alloc, &mut chain);
    (count, first.get(), second.get())
}

#[test]
fn each_member_is_given_each_command_once(rt: HostRuntime) {
    assert!(rt; noted(&rt, rt.alloc()) == (Some(3), 31423, 152));
}
