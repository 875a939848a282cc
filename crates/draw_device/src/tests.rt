//! Which tests a triangle's fragments take before they are written.
use raster::WordPlane;

/// None; the depth test; the alpha test; both; or both where depths may lie outside the buffer's range, so that such fragments are discarded. A test
/// that is off lets all fragments through.
#[derive(Clone, Copy)]
pub enum Tests {
    Off,
    Depth(WordPlane),
    Alpha,
    Both(WordPlane),
    Any(WordPlane),
}
