//! Parts at each border of an image, and texels at the ends of the coordinates' range, by hand.
use rc_base::command::{Part, Texels};
use rc_base::out_of_memory::OutOfMemory;
use rc_base::scene::Sizes;
use std::alloc::Global;
use textures::{PrivateSet, SharedSet, Texture};

// 3 by 2 texels, numbered from 1.
const NUMBERED: [u8; 24] = [
    1, 1, 1, 1, 2, 2, 2, 2, 3, 3, 3, 3, 4, 4, 4, 4, 5, 5, 5, 5, 6, 6, 6, 6,
];

// The first byte of each of six texels.
fn firsts(bytes: &[u8]) -> [u8; 6] {
    let at = |k: usize| -> u8 { bytes.get(4 * k).copied().unwrap_or(0) };
    [at(0), at(1), at(2), at(3), at(4), at(5)]
}

// Texture 64 with the numbered image, after two texels were written side by side, then one over the other, then none.
#[tactic(auto, unfolding(rc_base::specs::Pictures::with_part))]
fn private_after(alloc: Global) -> Result<[u8; 6], OutOfMemory> {
    let image = Texels::from_slice(alloc, &NUMBERED)?;
    let two = Texels::from_slice(alloc, &[7, 7, 7, 7, 8, 8, 8, 8])?;
    let none = Texels::new(alloc);
    let mut set = PrivateSet::new(alloc)?;
    set.set(64, 3, 2, &image)?;
    set.set_part(64, 1, 1, 2, 1, &two);
    set.set_part(64, 0, 0, 1, 2, &two);
    set.set_part(64, 3, 2, 0, 0, &none);
    Ok(firsts(set.get(64).texels().unwrap_or(&[])))
}

// The second of two blank textures, after its last texel was written.
fn shared_after(alloc: Global) -> Result<[u8; 6], OutOfMemory> {
    let sizes = Sizes::from_slice(alloc, &[[1, 1], [3, 2]])?;
    let mut set = SharedSet::new(alloc, &sizes)?;
    let part = Part {
        name: 2,
        x: 2,
        y: 1,
        w: 1,
        h: 1,
        texels: Texels::from_slice(alloc, &[9, 9, 9, 9])?,
    };
    set.write(&part);
    Ok(firsts(set.get(2).texels().unwrap_or(&[])))
}

// A blank texture, and then with the numbered image in its place.
fn put_over_blank(alloc: Global) -> Result<([u8; 6], [u8; 6]), OutOfMemory> {
    let mut texture = Texture::blank(alloc, [3, 2])?;
    let blank = firsts(texture.texels().unwrap_or(&[1]));
    texture.put_image(3, 2, Texels::from_slice(alloc, &NUMBERED)?);
    Ok((blank, firsts(texture.texels().unwrap_or(&[]))))
}

#[test]
fn parts_are_written_row_by_row(rt: HostRuntime) {
    assert!(rt; private_after(rt.alloc()) == Ok([7, 2, 3, 8, 7, 8]));
    assert!(rt; shared_after(rt.alloc()) == Ok([0, 0, 0, 0, 0, 9]));
    assert!(rt; put_over_blank(rt.alloc()) == Ok(([0; 6], [1, 2, 3, 4, 5, 6])));
    let set = PrivateSet::new(rt.alloc()).expect(&rt, "memory");
    for name in 1..65_u8 {
        assert!(rt; set.get(name).sides().is_none());
    }
}

const LEAST: i32 = -2_147_483_648;

const MOST: i32 = 2_147_483_647;

// The texel of row 0 and of each column, by a coordinate: its column by REPEAT and by CLAMP, for a picture three texels wide.
const COLUMNS: [(i32, u8, u8); 10] = [
    (LEAST, 0, 0),
    (LEAST + 1, 0, 0),
    (-65_537, 2, 0),
    (-65_536, 0, 0),
    (-1, 2, 0),
    (0, 0, 0),
    (21_845, 0, 0),
    (21_846, 1, 1),
    (65_536, 0, 2),
    (MOST, 2, 2),
];

// The same for its two rows.
const ROWS: [(i32, u8, u8); 7] = [
    (LEAST, 0, 0),
    (-65_537, 1, 0),
    (-1, 1, 0),
    (32_767, 0, 0),
    (32_768, 1, 1),
    (65_536, 0, 1),
    (MOST, 1, 1),
];

// 3 by 2 texels whose red is the column and whose green is the row.
fn placed(alloc: Global) -> Result<Texture, OutOfMemory> {
    let bytes: [u8; 24] = [
        0, 0, 7, 8, 1, 0, 7, 8, 2, 0, 7, 8, 0, 1, 7, 8, 1, 1, 7, 8, 2, 1, 7, 8,
    ];
    let texels = Texels::from_slice(alloc, &bytes)?;
    let mut texture = Texture::empty(alloc);
    texture.set_image(3, 2, &texels)?;
    Ok(texture)
}

// Column, row, blue and alpha of the texel at a coordinate, where the texture has one.
fn texel(texture: &Texture, s: i32, t: i32, wrap_s: u8, wrap_t: u8) -> Option<(u8, u8, u8, u8)> {
    let sampler = texture.sampler(wrap_s, wrap_t)?;
    let color = sampler.nearest(s, t);
    Some((color.r, color.g, color.b, color.a))
}

#[test]
fn coordinates_wrap_over_all_their_range(rt: HostRuntime) {
    let texture = placed(rt.alloc()).expect(&rt, "memory");
    for (s, repeated, clamped) in COLUMNS {
        assert!(rt; texel(&texture, s, 0, 0, 0) == Some((repeated, 0, 7, 8)));
        assert!(rt; texel(&texture, s, 0, 1, 0) == Some((clamped, 0, 7, 8)));
    }
    for (t, repeated, clamped) in ROWS {
        assert!(rt; texel(&texture, 0, t, 0, 0) == Some((0, repeated, 7, 8)));
        assert!(rt; texel(&texture, 0, t, 0, 1) == Some((0, clamped, 7, 8)));
    }
    assert!(rt; texel(&Texture::empty(rt.alloc()), 0, 0, 0, 0) == None);
}
