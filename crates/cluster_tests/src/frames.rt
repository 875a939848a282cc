//! Frames that are put together from lanes of parts, by hand.
use assembler::Assembler;
use rc_base::cluster::TilePart;
use rc_base::command::Rgba;
use rc_base::image::Image;
use rc_base::lane::Outlet;
use rc_base::out_of_memory::OutOfMemory;
use rc_base::plain_lane::PlainLane;
use rc_base::window::{Layout, Pixel, Pixels};
use std::alloc::Global;
use std::process::Abort;

// Two columns of two pixels, one row of one.
const WINDOW: Layout = Layout {
    width: 4,
    height: 1,
    columns: 2,
    rows: 1,
};

fn lanes(alloc: Global) -> Result<[PlainLane<TilePart>; 2], OutOfMemory> {
    Ok([PlainLane::new(alloc, 2)?, PlainLane::new(alloc, 2)?])
}

// A part of so many pixels of one colour.
fn plain_part(alloc: Global, tile: u8, frame: u8, count: usize) -> Result<TilePart, OutOfMemory> {
    let color = Rgba {
        r: tile,
        g: frame,
        b: 9,
        a: 255,
    };
    let mut pixels = Vec::new(alloc);
    pixels.resize(count, Pixel { color, depth: 7 })?;
    Ok(TilePart {
        tile,
        frame: u32::from(frame),
        pixels: Pixels::from_vec(pixels),
    })
}

fn send(lane: &mut PlainLane<TilePart>, alloc: Global, tile: u8, frame: u8, count: usize) -> bool {
    match plain_part(alloc, tile, frame, count) {
        Ok(part) => lane.push(part).is_ok(),
        Err(OutOfMemory) => false,
    }
}

const RGB: [u8; 12] = [0, 1, 9, 0, 1, 9, 1, 1, 9, 1, 1, 9];

// Whether there is an image of the window with these bytes.
fn shows(image: Option<&Image>, rgb: &[u8]) -> bool {
    match image {
        Some(image) => image.width == 4 && image.height == 1 && image.rgb.as_slice() == rgb,
        None => false,
    }
}

// Parts of the second tile come first, for two frames; the first tile's part of the second frame has no pixel.
fn are_in_turn(rt: &impl Abort, alloc: Global) -> bool {
    let mut assembler = Assembler::new(alloc, &WINDOW).expect(rt, "memory");
    let mut lanes = lanes(alloc).expect(rt, "memory");
    send(&mut lanes[1], alloc, 1, 1, 2)
        && send(&mut lanes[1], alloc, 1, 2, 2)
        && assembler.next_frame(&mut lanes).is_none()
        && send(&mut lanes[0], alloc, 0, 1, 2)
        && shows(assembler.next_frame(&mut lanes), &RGB)
        && !assembler.is_short()
        && send(&mut lanes[0], alloc, 0, 2, 0)
        && assembler.next_frame(&mut lanes).is_none()
        && assembler.is_short()
        && shows(Some(assembler.image()), &RGB)
        && send(&mut lanes[0], alloc, 0, 3, 2)
        && send(&mut lanes[1], alloc, 1, 3, 2)
        && assembler.next_frame(&mut lanes).is_none()
}

#[test]
fn images_are_of_the_parts_in_turn(rt: HostRuntime) {
    assert!(rt; are_in_turn(&rt, rt.alloc()));
}
