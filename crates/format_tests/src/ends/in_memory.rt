//! Ends in memory.
use rc_base::in_memory::{QuietSink, QuietSource};
use rc_base::outside::{Sink, Source};

#[test]
fn the_quiet_ends_never_fail(rt: HostRuntime) {
    let mut source = QuietSource::new(rt.alloc(), b"abc", 2).expect(&rt, "memory");
    let mut into = [b'.'; 4];
    assert!(rt; source.take(&mut into) == Ok(2));
    assert!(rt; into == *b"ab..");
    assert!(rt; source.take(&mut into) == Ok(1));
    assert!(rt; into == *b"cb..");
    assert!(rt; source.take(&mut into) == Ok(0));
    let mut sink = QuietSink::new();
    assert!(rt; sink.put(b"abc") == Ok(3));
}
