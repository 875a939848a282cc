//! Readers and writers of std as ends.
use rc_base::standard::{StdSink, StdSource};
use rc_base::transfer::{read_all, write_all};

#[test]
fn a_slice_is_read(rt: HostRuntime) {
    let bytes: &[u8] = b"RCS1";
    let mut source = StdSource::new(bytes);
    let read = read_all(rt.alloc(), &mut source).expect(&rt, "memory");
    assert!(rt; read.as_slice() == b"RCS1".as_slice());
}

#[test]
fn a_vector_is_written(rt: HostRuntime) {
    let mut held = Vec::new(rt.alloc());
    let mut sink = StdSink::new(&mut held);
    assert!(rt; write_all(&mut sink, b"rc: ") == Ok(()));
    assert!(rt; write_all(&mut sink, b"usage\n") == Ok(()));
    assert!(rt; held.as_slice() == b"rc: usage\n".as_slice());
}
