//! Parcels by hand: every act and every kind of value byte for byte, and the first fault of bytes that spell no parcel.
use cmd_pack::{Packed, ParcelFault, decode_parcel, encode_parcel, is_packable};
use rc_base::command::{Mat4, Part, Rgba, Texels};
use rc_base::state::{Act, Block, ElementSet, ElementValue, Parcel, Sets, Vertex, Vertices};
use rc_base::sync::SyncOp;
use std::alloc::Global;

// The first parcel of a picture that is cleared to red: at place 1, with the clear colour, and a Clear of the colour.
const RED_CLEAR: &[u8] = b"\x01\x00\x00\x00\x01\x11\xff\x00\x00\xff\x01\x01";

// Acts without sets, at place 258.
const DRAW: &[u8] = b"\x02\x01\x00\x00\x00\x00\x01\x01\x00\
        \x01\x00\x00\x00\xff\xff\xff\xff\x00\x00\x01\x00\x00\x00\x00\x80\
        \x01\x02\x03\x04\
        \x04\x03\x02\x01\xfe\xff\xff\xff";

// The same of a scene of version 2.
const CUT_DRAW: &[u8] = b"\x02\x01\x00\x00\x00\x00\x11\x01\x00\
        \x01\x00\x00\x00\xff\xff\xff\xff\x00\x00\x01\x00\x00\x00\x00\x80\
        \x01\x02\x03\x04\
        \x04\x03\x02\x01\xfe\xff\xff\xff";

const CLEAR: &[u8] = b"\x02\x01\x00\x00\x00\x01\x03";

const SHARED: &[u8] =
    b"\x02\x01\x00\x00\x00\x02\x03\x01\x00\x02\x01\x01\x00\x01\x00\x14\x15\x16\x17";

const BARRIER: &[u8] = b"\x02\x01\x00\x00\x00\x03\x00\x01";

const SEM_P: &[u8] = b"\x02\x01\x00\x00\x00\x03\x01\x02";

const SEM_V: &[u8] = b"\x02\x01\x00\x00\x00\x03\x02\x03";

const SWAP: &[u8] = b"\x02\x01\x00\x00\x00\x03\x03\x00";

const END: &[u8] = b"\x02\x01\x00\x00\x00\x04";

// Parcels of one set and a Clear, at place 1.
const MATRIX: &[u8] = b"\x01\x00\x00\x00\x01\x00\
        \x01\x00\x00\x00\x02\x00\x00\x00\x03\x00\x00\x00\x04\x00\x00\x00\
        \x05\x00\x00\x00\x06\x00\x00\x00\x07\x00\x00\x00\x08\x00\x00\x00\
        \x09\x00\x00\x00\x0a\x00\x00\x00\x0b\x00\x00\x00\x0c\x00\x00\x00\
        \x0d\x00\x00\x00\x0e\x00\x00\x00\x0f\x00\x00\x00\x10\x00\x00\x00\
        \x01\x01";

const RANGE: &[u8] = b"\x01\x00\x00\x00\x01\x03\x00\x00\x00\x00\x00\x00\x01\x00\x01\x01";

const OFF: &[u8] = b"\x01\x00\x00\x00\x01\x04\x00\x01\x01";

const AREA: &[u8] = b"\x01\x00\x00\x00\x01\x05\
        \xff\xff\xff\xff\x05\x00\x00\x00\x06\x00\x00\x00\x07\x00\x00\x00\
        \x01\x01";

const CODE: &[u8] = b"\x01\x00\x00\x00\x01\x0c\x07\x01\x01";

const ON: &[u8] = b"\x01\x00\x00\x00\x01\x0d\x01\x01\x01";

const PAIR: &[u8] = b"\x01\x00\x00\x00\x01\x0f\x06\x07\x01\x01";

const MASK: &[u8] = b"\x01\x00\x00\x00\x01\x10\x01\x00\x00\x01\x01\x01";

const DEPTH: &[u8] = b"\x01\x00\x00\x00\x01\x12\x00\x80\x00\x00\x01\x01";

const MODE: &[u8] = b"\x01\x00\x00\x00\x01\x15\x01\x00\x01\x01\x01";

const IMAGE: &[u8] = b"\x01\x00\x00\x00\x01\x55\
        \x04\x03\x02\x01\x02\x00\x01\x00\x0a\x0b\x0c\x0d\x0e\x0f\x10\x11\
        \x01\x01";

// Whether the packed parcel gives the parcel back, and is an End where it is.
fn is_unpacked(packed: &Packed, parcel: &Parcel) -> bool {
    if packed.is_end() != (parcel.act == Act::End) || packed.set_count() != parcel.sets.len() {
        return false;
    }
    match packed.parcel() {
        Ok(read) => read == *parcel,
        Err(_) => false,
    }
}

// Whether the bytes are read as the parcel.
fn is_decoded(alloc: Global, parcel: &Parcel, bytes: &[u8]) -> bool {
    match decode_parcel(alloc, bytes) {
        Ok(read) => read == *parcel,
        Err(_) => false,
    }
}

// Whether the parcel is packed as these bytes.
fn is_packed(alloc: Global, parcel: &Parcel, bytes: &[u8]) -> bool {
    if !is_packable(parcel) {
        return false;
    }
    match encode_parcel(alloc, parcel) {
        Ok(packed) => packed.bytes() == bytes && is_unpacked(&packed, parcel),
        Err(_) => false,
    }
}

// Whether the parcel is packed as these bytes, and these bytes are read as the parcel.
fn is_spelled(alloc: Global, parcel: &Parcel, bytes: &[u8]) -> bool {
    is_packed(alloc, parcel, bytes) && is_decoded(alloc, parcel, bytes)
}

fn is_act_spelled(alloc: Global, act: Act, bytes: &[u8]) -> bool {
    let parcel = Parcel {
        place: 258,
        sets: Sets::new(alloc),
        act,
    };
    is_spelled(alloc, &parcel, bytes)
}

fn is_set_spelled(alloc: Global, element: u8, value: ElementValue, bytes: &[u8]) -> bool {
    let mut sets = Sets::new(alloc);
    if sets.push(ElementSet { element, value }).is_err() {
        return false;
    }
    let parcel = Parcel {
        place: 1,
        sets,
        act: Act::Clear(1),
    };
    is_spelled(alloc, &parcel, bytes)
}

// The fault of the bytes, if they have one.
fn fault_of(alloc: Global, bytes: &[u8]) -> Option<ParcelFault> {
    match decode_parcel(alloc, bytes) {
        Ok(_) => None,
        Err(fault) => Some(fault),
    }
}

#[test]
fn the_first_parcel_of_a_red_clear_has_twelve_bytes(rt: HostRuntime) {
    let red = ElementValue::Color(Rgba {
        r: 255,
        g: 0,
        b: 0,
        a: 255,
    });
    assert!(rt; is_set_spelled(rt.alloc(), 17, red, RED_CLEAR));
    assert!(rt; fault_of(rt.alloc(), &RED_CLEAR[..11]) == Some(ParcelFault::Truncated { at: 11 }));
}

fn is_draw_spelled(alloc: Global, mode: u8, bytes: &[u8]) -> bool {
    let vertex = Vertex {
        pos: [1, -1, 65536, -2147483648],
        color: Rgba {
            r: 1,
            g: 2,
            b: 3,
            a: 4,
        },
        s: 0x01020304,
        t: -2,
    };
    match Vertices::from_slice(alloc, &[vertex]) {
        Ok(vertices) => is_act_spelled(alloc, Act::Draw(Block { mode, vertices }), bytes),
        Err(_) => false,
    }
}

fn is_part_spelled(alloc: Global) -> bool {
    match Texels::from_slice(alloc, &[20, 21, 22, 23]) {
        Ok(texels) => {
            let part = Part {
                name: 3,
                x: 1,
                y: 258,
                w: 1,
                h: 1,
                texels,
            };
            is_act_spelled(alloc, Act::Shared(part), SHARED)
        }
        Err(_) => false,
    }
}

#[test]
fn each_act_is_spelled_and_read(rt: HostRuntime) {
    assert!(rt; is_draw_spelled(rt.alloc(), 1, DRAW));
    assert!(rt; is_draw_spelled(rt.alloc(), 17, CUT_DRAW));
    assert!(rt; is_act_spelled(rt.alloc(), Act::Clear(3), CLEAR));
    assert!(rt; is_part_spelled(rt.alloc()));
    assert!(rt; is_act_spelled(rt.alloc(), Act::Sync(SyncOp::Barrier(1)), BARRIER));
    assert!(rt; is_act_spelled(rt.alloc(), Act::Sync(SyncOp::SemP(2)), SEM_P));
    assert!(rt; is_act_spelled(rt.alloc(), Act::Sync(SyncOp::SemV(3)), SEM_V));
    assert!(rt; is_act_spelled(rt.alloc(), Act::Sync(SyncOp::Swap), SWAP));
    assert!(rt; is_act_spelled(rt.alloc(), Act::End, END));
}

fn is_image_spelled(alloc: Global) -> bool {
    match Texels::from_slice(alloc, &[10, 11, 12, 13, 14, 15, 16, 17]) {
        Ok(texels) => {
            let image = ElementValue::Image {
                edit: 0x01020304,
                w: 2,
                h: 1,
                texels,
            };
            is_set_spelled(alloc, 85, image, IMAGE)
        }
        Err(_) => false,
    }
}

fn is_matrix_spelled(alloc: Global) -> bool {
    let m = [1, 2, 3, 4, 5, 6, 7, 8, 9, 10, 11, 12, 13, 14, 15, 16];
    is_set_spelled(alloc, 0, ElementValue::Matrix(Mat4 { m }), MATRIX)
}

#[test]
fn each_kind_of_value_is_spelled_and_read(rt: HostRuntime) {
    assert!(rt; is_matrix_spelled(rt.alloc()));
    assert!(rt; is_set_spelled(rt.alloc(), 3, ElementValue::Range([0, 65536]), RANGE));
    assert!(rt; is_set_spelled(rt.alloc(), 4, ElementValue::Flag(false), OFF));
    assert!(rt; is_set_spelled(rt.alloc(), 5, ElementValue::Area([-1, 5, 6, 7]), AREA));
    assert!(rt; is_set_spelled(rt.alloc(), 12, ElementValue::Code(7), CODE));
    assert!(rt; is_set_spelled(rt.alloc(), 13, ElementValue::Flag(true), ON));
    assert!(rt; is_set_spelled(rt.alloc(), 15, ElementValue::Pair([6, 7]), PAIR));
    assert!(rt;
        is_set_spelled(
            rt.alloc(),
            16,
            ElementValue::Mask([true, false, false, true]),
            MASK
        )
    );
    assert!(rt; is_set_spelled(rt.alloc(), 18, ElementValue::Depth(32768), DEPTH));
    assert!(rt; is_set_spelled(rt.alloc(), 21, ElementValue::Mode([1, 0, 1]), MODE));
    assert!(rt; is_image_spelled(rt.alloc()));
}

const FAULTY: [(&[u8], ParcelFault); 10] = [
    (&[], ParcelFault::Truncated { at: 0 }),
    (&[1, 0, 0], ParcelFault::Truncated { at: 3 }),
    (&[1, 0, 0, 0, 1, 21, 9, 9], ParcelFault::Truncated { at: 8 }),
    (&[1, 0, 0, 0, 1, 86], ParcelFault::UnknownTag { at: 5 }),
    (&[1, 0, 0, 0, 1, 4, 2], ParcelFault::UnknownTag { at: 6 }),
    (
        &[1, 0, 0, 0, 1, 16, 1, 0, 2],
        ParcelFault::UnknownTag { at: 8 },
    ),
    (&[1, 0, 0, 0, 0, 5], ParcelFault::UnknownTag { at: 5 }),
    (&[1, 0, 0, 0, 0, 3, 4], ParcelFault::UnknownTag { at: 6 }),
    (&[1, 0, 0, 0, 0, 3, 3, 1], ParcelFault::UnknownTag { at: 7 }),
    (&[1, 0, 0, 0, 0, 4, 0], ParcelFault::Trailing { at: 6 }),
];

#[test]
fn the_first_fault_of_a_parcel_is_told(rt: HostRuntime) {
    for (bytes, fault) in &FAULTY {
        assert!(rt; fault_of(rt.alloc(), *bytes) == Some(*fault));
    }
}

// Whether the answer on the bytes is right: a parcel that is packed as them, or a fault at the place where it is first met.
fn is_answered(alloc: Global, bytes: &[u8]) -> bool {
    match decode_parcel(alloc, bytes) {
        Ok(parcel) => is_packed(alloc, &parcel, bytes),
        Err(ParcelFault::Truncated { at }) => at == bytes.len(),
        Err(ParcelFault::UnknownTag { at }) => {
            at < bytes.len() && fault_of(alloc, &bytes[..at]) == Some(ParcelFault::Truncated { at })
        }
        Err(ParcelFault::Trailing { at }) => {
            at < bytes.len() && fault_of(alloc, &bytes[..at]) == None
        }
        Err(ParcelFault::OutOfMemory) => false,
    }
}

// Whether each value of the byte at this place is answered.
fn are_values_answered(alloc: Global, bytes: &[u8], place: usize) -> bool {
    let Ok(mut changed) = Vec::from_slice(alloc, bytes) else {
        return false;
    };
    for value in 0..=255 {
        if place < changed.len() {
            changed[place] = value;
        }
        if !is_answered(alloc, changed.as_slice()) {
            return false;
        }
    }
    true
}

const PARCELS: [&[u8]; 10] = [
    RED_CLEAR, DRAW, SHARED, BARRIER, SWAP, END, MATRIX, MASK, MODE, IMAGE,
];

#[test]
fn each_changed_byte_is_a_fault_or_another_parcel(rt: HostRuntime) {
    for bytes in &PARCELS {
        for place in 0..bytes.len() {
            assert!(rt; are_values_answered(rt.alloc(), *bytes, place));
        }
    }
}
