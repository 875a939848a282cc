//! Whole texts, and calls that fail: none is made behind the one that decides.
use rc_base::in_memory::{MemSink, MemSource};
use rc_base::outside::Failed;
use rc_base::scene::Limit;
use rc_base::transfer::{ReadAllFault, WriteFault, read_all, write_all};

#[test]
fn nothing_is_taken_after_the_end(rt: HostRuntime) {
    let mut source = MemSource::new(rt.alloc(), b"abc", 4, &[3]).expect(&rt, "memory");
    let read = read_all(rt.alloc(), &mut source).expect(&rt, "memory");
    assert!(rt; read.as_slice() == b"abc".as_slice());
}

#[test]
fn a_text_is_one_put_where_the_sink_takes_it_whole(rt: HostRuntime) {
    let mut sink = MemSink::new(rt.alloc(), 64, &[2]).expect(&rt, "memory");
    assert!(rt; write_all(&mut sink, b"rc: usage\n") == Ok(()));
    assert!(rt; write_all(&mut sink, b"rc: ") == Err(WriteFault { done: 0 }));
    assert!(rt; sink.bytes() == b"rc: usage\n".as_slice());
}

#[test]
fn a_fault_at_the_first_take_leaves_all_bytes(rt: HostRuntime) {
    let mut source = MemSource::new(rt.alloc(), b"abc", 4, &[1]).expect(&rt, "memory");
    assert!(rt; read_all(rt.alloc(), &mut source) == Err(ReadAllFault::ReadFault));
    let rest = read_all(rt.alloc(), &mut source).expect(&rt, "memory");
    assert!(rt; rest.as_slice() == b"abc".as_slice());
}

#[test]
fn a_fault_at_the_third_put_leaves_eight_bytes(rt: HostRuntime) {
    let mut sink = MemSink::new(rt.alloc(), 4, &[3]).expect(&rt, "memory");
    assert!(rt; write_all(&mut sink, b"P6\n1 1\n255\nrgb") == Err(WriteFault { done: 8 }));
    assert!(rt; sink.bytes() == b"P6\n1 1\n2".as_slice());
    assert!(rt; write_all(&mut sink, b"55\nrgb") == Ok(()));
    assert!(rt; sink.bytes() == b"P6\n1 1\n255\nrgb".as_slice());
}

#[test]
fn faults_are_shown(rt: HostRuntime) {
    let write = format!(in rt.alloc(); "{}", WriteFault { done: 8 }).expect(&rt, "memory");
    assert!(rt; write.as_str() == "write fault after 8 bytes");
    let long = format!(in rt.alloc(); "{}", ReadAllFault::TooLong { seen: 33_554_433 }).expect(
        &rt, "memory",
    );
    assert!(rt; long.as_str() == "more than 33554432 bytes");
    let limit = format!(in rt.alloc(); "{}: {}", Failed, Limit { what: 4, value: 9 }).expect(
        &rt, "memory",
    );
    assert!(rt; limit.as_str() == "the call failed: 9 is outside the range of quantity 4");
}
