//! Layers, and putting them together.
ghost use Rattle.std.specs.Prelude.{◌≡◌, ℕ, length};
ghost use Rattle.rc_base.specs.Drawing.Nearer.{nearer};
ghost use Rattle.sort_last.specs.Layers.{pixel_in, composite_of, AreNearer};

use draw_device::nearer_of;
use rc_base::command::Rgba;
use rc_base::window::{Pixel, Pixels};

/// What one client draws of a frame, or several clients put together: the window's pixels, row by row from the lowest, each row from the left.
///
/// In a layer of a frame each depth is at most 16777215, and 16777215 only where nothing was drawn: there the colour is 0, 0, 0, 0. The law on the layer
/// without pixels asks this of a layer; `composite` doesn't.
#[derive(Drop)]
pub struct Layer {
    pub pixels: Pixels,
}

// A pixel where nothing was drawn.
const BLANK: Pixel = Pixel {
    color: Rgba {
        r: 0,
        g: 0,
        b: 0,
        a: 0,
    },
    depth: 16_777_215,
};

// The pixel at a place; where there is none, a blank one.
fn pixel_at(pixels: &[Pixel], place: usize) -> Pixel
    ensures { result ≡ pixel_in pixels.now place }
{
    match pixels.get(place) {
        Some(pixel) => *pixel,
        None => BLANK,
    }
}

// Each pixel becomes the nearer one of itself and of that behind it.
fn put_behind(front: &mut Vec<Pixel>, behind: &[Pixel])
    ensures size { length front.new.items ≡ length front.old.items }
    ensures each { AreNearer (length front.old.items) front.old.items behind.now front.new.items }
{
    for place in 0..front.len() {
        front[place] = nearer_of(front[place], pixel_at(behind, place));
    }
}

// Each pixel becomes the nearer one of that before it and of itself.
fn put_before(behind: &mut Vec<Pixel>, front: &[Pixel])
    ensures size { length behind.new.items ≡ length behind.old.items }
    ensures each { AreNearer (length behind.old.items) front.now behind.old.items behind.new.items }
{
    for place in 0..behind.len() {
        behind[place] = nearer_of(pixel_at(front, place), behind[place]);
    }
}

/// Two layers put together, in the longer one's room: each pixel is b's where that is nearer, else a's. A pixel that one list lacks counts as blank.
///
/// It takes no memory. Sort-last rendering puts what its renderers drew together so (Molnar, Cox, Ellsworth and Fuchs, 1994).
pub fn composite(a: Layer, b: Layer) -> Layer
    ensures layer { result.pixels ≡ composite_of a.pixels b.pixels }
    ensures pixels { (k : ℕ)
        → pixel_in result.pixels k ≡ nearer (pixel_in a.pixels k) (pixel_in b.pixels k) }
{
    let mut first = a.pixels.into_vec();
    let mut second = b.pixels.into_vec();
    if second.len() <= first.len() {
        put_behind(&mut first, second.as_slice());
        Layer {
            pixels: Pixels::from_vec(first),
        }
    } else {
        put_before(&mut second, first.as_slice());
        Layer {
            pixels: Pixels::from_vec(second),
        }
    }
}
