//! Call lists by hand: what a stream gives and costs, which of its list commands are refused, and where its costs pass their limit.
use call_lists::{ExpandFault, expand, expand_all};
use rc_base::cluster::FaultList;
use rc_base::command::{Command, Rgba, Texels};
use rc_base::list_command::{ListCommand, ListCommands, ListStreams};
use rc_base::state::Fault;
use std::alloc::Global;
use std::process::Abort;

/// A command of a stream: one of the three of lists, a clear colour of one shade, a picture of 256 by 256, or a swap.
#[derive(Clone, Copy)]
enum Step {
    New(u8),
    End,
    Call(u8),
    Shade(u8),
    Picture,
    Swap,
}

use Step::{Call, End, New, Picture, Shade, Swap};

fn picture(rt: &impl Abort, alloc: Global) -> Command {
    let mut texels = Texels::new(alloc);
    let row = [7; 1024];
    for _ in 0..256 {
        texels
            .extend_from_slice(row.as_slice())
            .expect(rt, "memory");
    }
    Command::TexImage {
        name: 1,
        w: 256,
        h: 256,
        texels,
    }
}

fn shade(n: u8) -> Command {
    Command::ClearColor(Rgba {
        r: n,
        g: n,
        b: n,
        a: 255,
    })
}

fn command_of(rt: &impl Abort, alloc: Global, step: Step) -> ListCommand {
    match step {
        New(name) => ListCommand::NewList(name),
        End => ListCommand::EndList,
        Call(name) => ListCommand::CallList(name),
        Shade(n) => ListCommand::Plain(shade(n)),
        Picture => ListCommand::Plain(picture(rt, alloc)),
        Swap => ListCommand::Plain(Command::Swap),
    }
}

fn stream_of(rt: &impl Abort, alloc: Global, steps: &[Step]) -> ListCommands {
    let mut stream = ListCommands::new(alloc);
    for step in steps {
        stream
            .push(command_of(rt, alloc, *step))
            .expect(rt, "memory");
    }
    stream
}

fn is_step(command: &Command, step: Step) -> bool {
    match step {
        Shade(n) => *command == shade(n),
        Swap => *command == Command::Swap,
        _ => false,
    }
}

fn are_steps(commands: &[Command], steps: &[Step]) -> bool {
    if commands.len() != steps.len() {
        return false;
    }
    for i in 0..commands.len() {
        if !is_step(&commands[i], steps[i]) {
            return false;
        }
    }
    true
}

fn are_noted(found: &FaultList, faults: &[(u32, Fault)]) -> bool {
    let found = found.as_slice();
    if found.len() != faults.len() {
        return false;
    }
    for i in 0..found.len() {
        if found[i].0 != faults[i].0 || found[i].1 != faults[i].1 {
            return false;
        }
    }
    true
}

/// Whether the stream gives these commands, notes these faults and costs so much.
fn means(
    rt: &impl Abort,
    alloc: Global,
    steps: &[Step],
    given: &[Step],
    faults: &[(u32, Fault)],
    cost: u64,
) -> bool {
    let stream = stream_of(rt, alloc, steps);
    if stream.len() > 1000 {
        return false;
    }
    match expand(alloc, &stream, 0) {
        Ok(x) => {
            x.spent == cost
                && x.count == given.len() as u64
                && are_steps(x.commands.as_slice(), given)
                && are_noted(&x.faults, faults)
        }
        Err(_) => false,
    }
}

#[test]
fn a_list_that_calls_itself_is_given_eight_times(rt: HostRuntime) {
    let steps = [New(1), Shade(9), Call(1), End, Call(1), Swap];
    let nine = Shade(9);
    let given = [nine, nine, nine, nine, nine, nine, nine, nine, Swap];
    // 2 + 1 + 2 + 8 * (5 + 2) + 1
    assert!(rt; means(&rt, rt.alloc(), &steps, &given, &[], 62));
}

#[test]
fn a_list_is_called_as_it_stands(rt: HostRuntime) {
    // it is made anew after its first call
    let steps = [
        New(1),
        Shade(1),
        End,
        Call(1),
        New(1),
        Shade(2),
        End,
        Call(1),
    ];
    assert!(rt; means(&rt, rt.alloc(), &steps, &[Shade(1), Shade(2)], &[], 20));
    // it calls one that is made later
    let steps = [
        New(1),
        Call(2),
        End,
        Call(1),
        New(2),
        Shade(3),
        End,
        Call(1),
    ];
    assert!(rt; means(&rt, rt.alloc(), &steps, &[Shade(3)], &[], 19));
    // its name is called while it is recorded anew, and so it calls itself
    let steps = [
        New(1),
        Shade(1),
        End,
        New(1),
        Call(1),
        Shade(2),
        End,
        Call(1),
    ];
    let two = Shade(2);
    assert!(rt;
        means(
            &rt,
            rt.alloc(),
            &steps,
            &[two, two, two, two, two, two, two, two],
            &[],
            64
        )
    );
    // the stream ends before it is made
    let steps = [Shade(1), New(1), Shade(2), Call(1)];
    assert!(rt; means(&rt, rt.alloc(), &steps, &[Shade(1)], &[], 7));
}

#[test]
fn refused_list_commands_are_noted(rt: HostRuntime) {
    let operation = Fault::InvalidOperation;
    let value = Fault::InvalidValue;
    assert!(rt;
        means(
            &rt,
            rt.alloc(),
            &[End, New(65), Call(2), Swap],
            &[Swap],
            &[(0, operation), (1, value)],
            6
        )
    );
    // in a recording each NewList is refused, whatever its name, and a refused call isn't recorded
    let steps = [New(1), New(0), Call(65), New(2), End, End];
    let faults = [(1, operation), (2, value), (3, operation), (5, operation)];
    assert!(rt; means(&rt, rt.alloc(), &steps, &[], &faults, 4));
    // names are 1 to 64
    let steps = [
        New(0),
        New(64),
        Shade(4),
        End,
        Call(64),
        Call(0),
        Call(65),
        Call(200),
        New(200),
    ];
    let faults = [(0, value), (5, value), (6, value), (7, value), (8, value)];
    assert!(rt; means(&rt, rt.alloc(), &steps, &[Shade(4)], &faults, 20));
}

/// A list of one picture and so many calls of it, which cost 3 and 262,152 each.
fn pictures(rt: &impl Abort, alloc: Global, calls: u32) -> ListCommands {
    let mut stream = stream_of(rt, alloc, &[New(1), Picture, End]);
    for _ in 0..calls {
        stream.push(ListCommand::CallList(1)).expect(rt, "memory");
    }
    stream
}

/// The sum with which the costs of a stream pass their limit, or none.
fn sum_beyond(alloc: Global, stream: &ListCommands, spent: u64) -> Option<u64> {
    if stream.len() > 1000 || spent > 67_108_864 {
        return None;
    }
    match expand(alloc, stream, spent) {
        Err(ExpandFault::TooLong { spent }) => Some(spent),
        _ => None,
    }
}

#[test]
fn costs_pass_their_limit_at_a_command(rt: HostRuntime) {
    let alloc = rt.alloc();
    // 2 + 1 + 255 * 262,152 + 2 + 262,150
    assert!(rt; sum_beyond(alloc, &pictures(&rt, alloc, 257), 0) == Some(67_110_915));
    let swap = stream_of(&rt, alloc, &[Swap]);
    assert!(rt; sum_beyond(alloc, &swap, 67_108_863) == None);
    assert!(rt; sum_beyond(alloc, &swap, 67_108_864) == Some(67_108_865));
}

/// The sum with which the costs of two clients pass their limit, or where they don't the sum of all.
fn told_of_two(
    rt: &impl Abort,
    alloc: Global,
    first: ListCommands,
    second: ListCommands,
) -> Option<u64> {
    if first.len() > 1000 || second.len() > 1000 {
        return None;
    }
    let mut streams = ListStreams::new(alloc);
    streams.push(first).expect(rt, "memory");
    streams.push(second).expect(rt, "memory");
    match expand_all(alloc, &streams) {
        Ok(x) => Some(x.spent),
        Err(ExpandFault::TooLong { spent }) => Some(spent),
        Err(ExpandFault::OutOfMemory) => None,
    }
}

#[test]
fn costs_go_from_one_client_to_the_next(rt: HostRuntime) {
    let alloc = rt.alloc();
    let list = pictures(&rt, alloc, 1);
    let call = stream_of(&rt, alloc, &[Call(1), Swap]);
    // the second client's list 1 doesn't exist
    assert!(rt; told_of_two(&rt, alloc, list, call) == Some(262_158));
    let half = pictures(&rt, alloc, 128);
    let other = pictures(&rt, alloc, 128);
    // 3 + 128 * 262,152 + 3 + 127 * 262,152 + 2 + 262,150
    assert!(rt; told_of_two(&rt, alloc, half, other) == Some(67_110_918));
}
