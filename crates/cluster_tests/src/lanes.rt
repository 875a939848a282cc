//! Lanes by hand, filled and drained, and between two threads.
ghost use Rattle.std.specs.Prelude.{◌≤◌};

use rc_base::lane::{Inlet, Outlet};
use std::alloc::Global;
use std::process::Abort;
use std::sync::Wait;
use std::thread;
use std::thread::Threads;
use tile_queues::{LaneIn, LaneOut, Rest, close, lane};

#[test]
fn a_lane_of_one_place_refuses_a_second_item(rt: HostRuntime) {
    let (mut sender, mut receiver) = lane(rt, rt.alloc(), 1).expect(&rt, "memory");
    assert!(rt; sender.push(5u32) == Ok(()));
    assert!(rt; sender.push(6) == Err(6));
    assert!(rt; receiver.pop() == Some(5));
    assert!(rt; receiver.pop() == None);
    assert!(rt; sender.push(7) == Ok(()));
    assert!(rt; sender.refusals() == 1 && receiver.refusals() == 1);
    let mut rest = close(sender, receiver);
    assert!(rt; rest.next() == Some(7));
    assert!(rt; rest.next() == None);
}

// Whether an inlet gives these numbers, and then nothing any more.
fn gives<I: Inlet<u32>>(inlet: &mut I, numbers: &[u32]) -> bool {
    let mut right = true;
    for number in numbers {
        right &= inlet.pop() == Some(*number);
    }
    right && inlet.pop() == None && inlet.pop() == None
}

// The lane of two ends by which three numbers were sent and one was taken.
fn two_left<R: Wait + Abort + Copy>(rt: R, alloc: Global) -> Rest<u32, R> {
    let (mut sender, mut receiver) = lane(rt, alloc, 3).expect(&rt, "memory");
    let _one = sender.push(1);
    let _two = sender.push(2);
    let _three = sender.push(3);
    let _taken = receiver.pop();
    close(sender, receiver)
}

#[test]
fn a_closed_lane_is_an_inlet_that_gives_what_is_left(rt: HostRuntime) {
    let mut rest = two_left(rt, rt.alloc());
    assert!(rt; rest.refusals() == 0);
    assert!(rt; gives(&mut rest, &[2, 3]));
    assert!(rt; rest.refusals() == 2);
    assert!(rt; rest.next() == None);
    assert!(rt; rest.refusals() == 2);
}

// Whether an empty lane takes so many numbers and no more, and gives them in order and no more. It looks full, and empty, exactly where it is.
fn holds<R: Wait>(sender: &mut LaneIn<u32, R>, receiver: &mut LaneOut<u32, R>, depth: u32) -> bool {
    let mut right = true;
    for i in 0..depth {
        right &= !sender.is_full() && receiver.is_empty() == (i == 0);
        right &= sender.push(i) == Ok(());
    }
    right &= sender.is_full() && sender.push(depth) == Err(depth);
    for i in 0..depth {
        right &= !receiver.is_empty() && sender.is_full() == (i == 0);
        right &= receiver.pop() == Some(i);
    }
    right && receiver.is_empty() && receiver.pop() == None
}

// Whether a lane of this depth does so twice.
fn is_so_deep<R: Wait + Abort + Copy>(rt: R, alloc: Global, depth: u32) -> bool
    requires { (1 ≤ depth) × (depth ≤ 16) }
{
    let (mut sender, mut receiver) = lane(rt, alloc, depth as usize).expect(&rt, "memory");
    holds(&mut sender, &mut receiver, depth) && holds(&mut sender, &mut receiver, depth)
}

#[test]
fn a_lane_holds_as_many_items_as_it_is_deep(rt: HostRuntime) {
    assert!(rt; is_so_deep(rt, rt.alloc(), 1));
    assert!(rt; is_so_deep(rt, rt.alloc(), 2));
    assert!(rt; is_so_deep(rt, rt.alloc(), 16));
}

// Sends the first numbers.
fn send<R: Wait + Copy>(rt: &R, sender: LaneIn<u32, R>, count: u32) {
    let mut sender = sender;
    let mut next = 0;
    for _ in rt.forever() {
        if next >= count {
            break;
        }
        match sender.push(next) {
            Ok(()) => next += 1,
            Err(_) => thread::yield_now(),
        }
    }
}

// Takes so many numbers. Whether they are the first ones, in order.
fn take<R: Wait + Copy>(rt: &R, receiver: LaneOut<u32, R>, count: u32) -> bool {
    let mut receiver = receiver;
    let mut in_order = true;
    let mut next = 0;
    for _ in rt.forever() {
        if next >= count {
            break;
        }
        match receiver.pop() {
            Some(number) => {
                in_order &= number == next;
                next += 1;
            }
            None => thread::yield_now(),
        }
    }
    in_order && receiver.pop() == None
}

// Whether the first numbers go in order from one thread to another through a lane of this depth.
fn are_handed_over<R: Threads + Wait + Abort + Copy + Send + Sync>(
    rt: R,
    alloc: Global,
    depth: usize,
    count: u32,
) -> bool
    requires { (1 ≤ depth) × (depth ≤ 16) }
{
    let (sender, receiver) = lane(rt, alloc, depth).expect(&rt, "memory");
    let (_, in_order) = thread::join(
        &rt,
        move || send(&rt, sender, count),
        move || take(&rt, receiver, count),
    );
    in_order
}

#[test]
fn two_threads_hand_over_numbers_in_order(rt: HostRuntime) {
    assert!(rt; are_handed_over(rt, rt.alloc(), 1, 100_000));
    assert!(rt; are_handed_over(rt, rt.alloc(), 16, 100_000));
}
