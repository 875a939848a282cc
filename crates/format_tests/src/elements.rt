//! Values of each kind, and shared textures with sides and without.
use element_table::{IDENTITY, ValueKind, has_kind, has_sides};
use rc_base::command::{Rgba, Texels};
use rc_base::scene::{Counts, Decl, Sizes, Units};
use rc_base::state::ElementValue;
use std::alloc::Global;
use std::process::Abort;

const KINDS: [ValueKind; 11] = [
    ValueKind::Matrix,
    ValueKind::Area,
    ValueKind::Range,
    ValueKind::Flag,
    ValueKind::Code,
    ValueKind::Pair,
    ValueKind::Mask,
    ValueKind::Color,
    ValueKind::Depth,
    ValueKind::Mode,
    ValueKind::Image,
];

// A value of the kind of this number.
fn value(alloc: Global, number: usize) -> ElementValue {
    match number {
        0 => ElementValue::Matrix(IDENTITY),
        1 => ElementValue::Area([0; 4]),
        2 => ElementValue::Range([0; 2]),
        3 => ElementValue::Flag(true),
        4 => ElementValue::Code(1),
        5 => ElementValue::Pair([0; 2]),
        6 => ElementValue::Mask([true; 4]),
        7 => ElementValue::Color(Rgba {
            r: 0,
            g: 0,
            b: 0,
            a: 0,
        }),
        8 => ElementValue::Depth(0),
        9 => ElementValue::Mode([0; 3]),
        _ => ElementValue::Image {
            edit: 0,
            w: 0,
            h: 0,
            texels: Texels::new(alloc),
        },
    }
}

// The number of the last kind that a value of the kind of this number has, and how many it has.
fn kinds_of(alloc: Global, number: usize) -> (usize, usize) {
    let value = value(alloc, number);
    let mut last = 0;
    let mut count: usize = 0;
    for k in 0..11usize {
        if has_kind(&value, KINDS[k]) {
            last = k;
            count = count.saturating_add(1);
        }
    }
    (last, count)
}

// A scene with three shared textures, of which the first one alone has sides.
fn decl(rt: &impl Abort, alloc: Global) -> Decl {
    let shared = Sizes::from_slice(alloc, &[[1, 1], [0, 1], [1, 0]]).expect(rt, "memory");
    Decl {
        version: 1,
        width: 2,
        height: 1,
        shared,
        barriers: Counts::new(alloc),
        semaphores: Units::new(alloc),
    }
}

const SIDES: [(u8, bool); 5] = [(0, false), (1, true), (2, false), (3, false), (4, false)];

// How many names have sides as they should.
fn right_sides(rt: &impl Abort, alloc: Global) -> u32 {
    let decl = decl(rt, alloc);
    let mut count: u32 = 0;
    for (name, has) in &SIDES {
        if has_sides(&decl, *name) == *has {
            count = count.saturating_add(1);
        }
    }
    count
}

#[test]
fn values_and_textures_are_told_apart(rt: HostRuntime) {
    for number in 0..11usize {
        assert!(rt; kinds_of(rt.alloc(), number) == (number, 1));
    }
    assert!(rt; right_sides(&rt, rt.alloc()) == 5);
}
