//! A grid of lanes, used and closed, and two lists of ends.

use rc_base::lane::{Inlet, Outlet};
use std::alloc::Global;
use std::process::Abort;
use std::sync::Wait;
use tile_queues::{Grid, LaneIn, LaneOut, close_all, close_list, join_list, lane, lane_grid};

type Item = (usize, usize);

// Sends each receiver the sender's number and its own.
fn send_each<R: Wait>(row: &mut [LaneIn<Item, R>], sender: usize) -> bool {
    let mut right = true;
    for (receiver, end) in row.iter_mut().enumerate() {
        right &= end.push((sender, receiver)) == Ok(());
    }
    right
}

// Whether a receiver takes what each sender sent it.
fn take_each<R: Wait>(column: &mut [LaneOut<Item, R>], receiver: usize) -> bool {
    let mut right = true;
    for (sender, end) in column.iter_mut().enumerate() {
        right &= end.pop() == Some((sender, receiver));
    }
    right
}

// Whether each receiver of a new grid takes what each sender sent it.
fn joins_each_to_each<R: Wait + Copy + Abort>(
    rt: R,
    alloc: Global,
    senders: usize,
    receivers: usize,
) -> bool {
    let Grid { mut ins, mut outs } = lane_grid(rt, alloc, 1, senders, receivers).expect(
        &rt, "memory",
    );
    let mut right = ins.len() == senders && outs.len() == receivers;
    for (sender, row) in ins.iter_mut().enumerate() {
        right &= row.len() == receivers && send_each(row, sender);
    }
    for (receiver, column) in outs.iter_mut().enumerate() {
        right &= column.len() == senders && take_each(column, receiver);
    }
    right
}

#[test]
fn a_grid_joins_each_sender_to_each_receiver(rt: HostRuntime) {
    assert!(rt; joins_each_to_each(rt, rt.alloc(), 3, 2));
    assert!(rt; joins_each_to_each(rt, rt.alloc(), 1, 4));
}

// Whether no receiver has an end left where a new grid was closed.
fn closes_each<R: Copy + Abort>(rt: R, alloc: Global, senders: usize, receivers: usize) -> bool {
    let Grid { ins, mut outs } = lane_grid::<Item, R>(rt, alloc, 1, senders, receivers).expect(
        &rt, "memory",
    );
    close_all(ins, &mut outs);
    outs.iter().all(|column| column.is_empty())
}

// Whether none is left where one lane was closed as two lists.
fn closes_one<R: Copy + Abort>(rt: R, alloc: Global) -> bool {
    let (sender, receiver) = lane::<Item, R>(rt, alloc, 1).expect(&rt, "memory");
    let mut ins = Vec::new(alloc);
    let mut outs = Vec::new(alloc);
    ins.push(sender).expect(&rt, "memory");
    outs.push(receiver).expect(&rt, "memory");
    close_list(ins, &mut outs);
    outs.is_empty()
}

#[test]
fn each_lane_is_closed(rt: HostRuntime) {
    assert!(rt; closes_each(rt, rt.alloc(), 3, 2));
    assert!(rt; closes_one(rt, rt.alloc()));
}

// Whether what was sent comes out where one lane was joined as two lists.
fn joins_one<R: Wait + Copy + Abort>(rt: R, alloc: Global) -> bool {
    let (mut sender, receiver) = lane::<Item, R>(rt, alloc, 1).expect(&rt, "memory");
    let _sent = sender.push((5, 6));
    let mut ins = Vec::new(alloc);
    let mut outs = Vec::new(alloc);
    ins.push(sender).expect(&rt, "memory");
    outs.push(receiver).expect(&rt, "memory");
    let room = Vec::with_capacity(alloc, 1).expect(&rt, "memory");
    let mut rests = join_list(ins, outs, room);
    rests.len() == 1 && rests[0].pop() == Some((5, 6)) && rests[0].pop() == None
}

#[test]
fn a_joined_lane_gives_what_is_left(rt: HostRuntime) {
    assert!(rt; joins_one(rt, rt.alloc()));
}
