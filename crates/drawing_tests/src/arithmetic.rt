//! Values computed by hand.
ghost use Rattle.std.specs.Prelude.{◌≡◌};

use fixed_math::{Interval, apply, centre_of, delta, edge, floor_div, quotient, row_over, widen};
use rc_base::command::{Mat4, Rgba};
use rc_base::window::WindowVertex;

// A number, what it is divided by, and the quotient.
const QUOTIENTS: [(i128, i128, i128); 5] = [
    (7, 2, 3),
    (-7, 2, -4),
    (-8, 2, -4),
    (-1, 65536, -1),
    (0, 5, 0),
];

#[test]
fn quotients_round_down(rt: HostRuntime) {
    for row in &QUOTIENTS {
        let (n, d, want) = *row;
        if d > 0 {
            assert!(rt; floor_div(n, d) == want);
        }
    }
}

// Twice x, x added to y with half of it taken away, and the rest as it is.
#[test]
fn a_matrix_is_applied_by_columns(rt: HostRuntime) {
    let m = Mat4 {
        m: [
            131072, 65536, 0, 0, 0, 32768, 0, 0, 0, 0, 65536, 0, 0, 0, 0, 65536,
        ],
    };
    let v = apply(&m, widen(&[3, -7, 5, 65536]));
    assert!(rt; v[0] == 6);
    assert!(rt; v[1] == -1);
    assert!(rt; v[2] == 5);
    assert!(rt; v[3] == 65536);
}

#[test]
fn a_point_on_the_left_of_an_edge_is_above_0(rt: HostRuntime) {
    let color = Rgba {
        r: 0,
        g: 0,
        b: 0,
        a: 0,
    };
    let a = WindowVertex {
        x: 32,
        y: 0,
        z: 0,
        color,
        s: 0,
        t: 0,
    };
    let b = WindowVertex {
        x: 0,
        y: 32,
        z: 0,
        color,
        s: 0,
        t: 0,
    };
    assert!(rt; delta(b.y, a.y) == 32);
    assert!(rt; centre_of(-1) == -8);
    assert!(rt; edge(&a, &b, 8, 8) == 512);
    assert!(rt; edge(&a, &b, 24, 8) == 0);
    assert!(rt; edge(&b, &a, 8, 8) == -512);
}

fn between(lo: i128, hi: i128) -> Interval
    ensures lo { result.lo ≡ lo }
    ensures hi { result.hi ≡ hi }
{
    Interval { lo, hi }
}

#[test]
fn the_identity_gives_intervals_back(rt: HostRuntime) {
    let identity = Mat4 {
        m: [
            65536, 0, 0, 0, 0, 65536, 0, 0, 0, 0, 65536, 0, 0, 0, 0, 65536,
        ],
    };
    let b = [
        between(-3, 5),
        between(7, 7),
        between(-65536, -1),
        between(0, 65536),
    ];
    assert!(rt; row_over(&identity, 0, &b) == b[0]);
    assert!(rt; row_over(&identity, 1, &b) == b[1]);
    assert!(rt; row_over(&identity, 2, &b) == b[2]);
    assert!(rt; row_over(&identity, 3, &b) == b[3]);
}

// Half of x taken from y: the ends change places.
#[test]
fn a_negative_entry_exchanges_the_ends(rt: HostRuntime) {
    let m = Mat4 {
        m: [
            65536, -32768, 0, 0, 0, 65536, 0, 0, 0, 0, 65536, 0, 0, 0, 0, 65536,
        ],
    };
    let b = [
        between(-3, 5),
        between(10, 20),
        between(0, 0),
        between(0, 0),
    ];
    assert!(rt; row_over(&m, 1, &b) == between(7, 21));
}

#[test]
fn quotients_of_intervals_round_down(rt: HostRuntime) {
    assert!(rt; quotient(between(-7, 7), between(2, 3)) == between(-4, 3));
    assert!(rt; quotient(between(-7, -4), between(2, 3)) == between(-4, -2));
    assert!(rt; quotient(between(4, 7), between(2, 3)) == between(1, 3));
}
