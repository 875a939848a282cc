//! What is settled of a triangle whose pixels are drawn one by one.
use rc_base::command::Rgba;

/// The one colour of all its fragments after the texture stage, where it was found; and where no alpha test is taken, whether colours are laid over
/// the stored ones or written as they are, if one of the two is so.
#[derive(Clone, Copy)]
pub struct Shading {
    pub flat: Option<Rgba>,
    pub over: Option<bool>,
}
