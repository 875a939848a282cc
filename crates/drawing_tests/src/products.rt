//! Products of matrices, by hand.
use fixed_math::multiply;
use rc_base::command::Mat4;

fn diagonal(d: i32) -> Mat4 {
    Mat4 {
        m: [d, 0, 0, 0, 0, d, 0, 0, 0, 0, d, 0, 0, 0, 0, d],
    }
}

// The entries of two diagonal matrices, and those of their product.
const PRODUCTS: [(i32, i32, Option<i32>); 7] = [
    (131_072, 131_072, Some(262_144)),
    (2_147_483_647, 65_536, Some(2_147_483_647)),
    (1_073_741_824, 131_072, None),
    (1_073_741_823, 131_072, Some(2_147_483_646)),
    (-1_073_741_824, 131_072, Some(-2_147_483_648)),
    (-1_073_741_825, 131_072, None),
    (-1, 1, Some(-1)),
];

#[test]
fn products_at_the_bounds_of_32_bits(rt: HostRuntime) {
    for row in &PRODUCTS {
        let (a, b, want) = *row;
        assert!(rt; multiply(&diagonal(a), &diagonal(b)) == want.map(diagonal));
    }
}

// Twice as wide after 3 to the right goes 6 to the right; the other way round it goes 3.
#[test]
fn the_right_matrix_comes_first(rt: HostRuntime) {
    let mut wide = diagonal(65_536);
    wide.m[0] = 131_072;
    let mut moved = diagonal(65_536);
    moved.m[12] = 196_608;
    let mut far = wide;
    far.m[12] = 393_216;
    assert!(rt; multiply(&wide, &moved) == Some(far));
    far.m[12] = 196_608;
    assert!(rt; multiply(&moved, &wide) == Some(far));
}
