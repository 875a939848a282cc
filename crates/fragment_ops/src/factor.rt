//! The factors of blending by their names.

/// What a channel is multiplied with where it is blended: nothing, all, or the fragment's or the stored colour or alpha, or what those leave of 255.
#[derive(Clone, Copy)]
pub enum Factor {
    Zero,
    One,
    SrcColor,
    OneMinusSrcColor,
    DstColor,
    OneMinusDstColor,
    SrcAlpha,
    OneMinusSrcAlpha,
    DstAlpha,
    OneMinusDstAlpha,
}
