//! Images as texts, by hand.
use ppm_out::{PpmFault, image_text, read_ppm};
use rc_base::command::Bytes;
use rc_base::image::Image;
use std::alloc::Global;
use std::process::Abort;
use test_scenes::RED_FRAME;

// Whether the red frame is read as its pixels.
fn is_read(rt: &impl Abort, alloc: Global) -> bool {
    let (image, len) = read_ppm(alloc, RED_FRAME).expect(rt, "memory");
    len == 23 && image.width == 2 && image.height == 2 && image.rgb.as_slice() == &RED_FRAME[11..]
}

// Whether its pixels are written as the red frame.
fn is_written(rt: &impl Abort, alloc: Global) -> bool {
    let red = Image {
        width: 2,
        height: 2,
        rgb: Bytes::from_slice(alloc, &RED_FRAME[11..]).expect(rt, "memory"),
    };
    let text = image_text(alloc, &red).expect(rt, "memory");
    text.as_slice() == RED_FRAME
}

#[test]
fn an_image_is_read_again(rt: HostRuntime) {
    assert!(rt; is_read(&rt, rt.alloc()) && is_written(&rt, rt.alloc()));
}

// Where bytes stop being the front of an image.
fn front(alloc: Global, bytes: &[u8]) -> Option<usize> {
    match read_ppm(alloc, bytes) {
        Err(PpmFault::NotPpm { at }) => Some(at),
        _ => None,
    }
}

const FRONTS: [(&[u8], usize); 5] = [
    (b"Q6\n2 2\n255\n", 0),
    (b"P6\n02 2\n255\n", 3),
    (b"P6\n2 2049\n255\n", 8),
    (b"P6 2 2 255 \n", 12),
    (b"", 0),
];

#[test]
fn the_longest_front_of_an_image_is_told(rt: HostRuntime) {
    assert!(rt; front(rt.alloc(), &RED_FRAME[..22]) == Some(22));
    for (bytes, at) in &FRONTS {
        assert!(rt; front(rt.alloc(), *bytes) == Some(*at));
    }
}
