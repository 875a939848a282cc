//! How a block's colours are written over the stored ones.
use fragment_ops::Factor;

/// As they are; blended by SRC_ALPHA and ONE_MINUS_SRC_ALPHA, by ONE and ONE, or by any two factors, with all channels written; by the colour mask, as
/// they are; or by the colour mask after blending by two factors.
#[derive(Clone, Copy)]
pub enum Write {
    Plain,
    Over,
    Sum,
    Blended(Factor, Factor),
    Masked,
    Both(Factor, Factor),
}
