//! Which element of a context a command sets.
ghost use Rattle.std.specs.Prelude.{◌≡◌, ◌<◌, IfSome};
ghost use Rattle.rc_base.specs.Contexts.Elements.{element_count, marks};
ghost use Rattle.gl_context.specs.Arguments.{HasName};

use element_table::{capability_element, image_element, matrix_element};
use rc_base::command::Command;

/// The element that the command sets when it is accepted, by the matrix mode before it.
pub fn marks(command: &Command, mode: u8) -> Option<u8>
    requires { HasName command.now }
    ensures element { result ≡ marks command.now mode }
    ensures bound { IfSome result (λ e. e < element_count) }
{
    match command {
        Command::Enable { capability } | Command::Disable { capability } => {
            Some(capability_element(*capability))
        }
        Command::LoadIdentity
        | Command::LoadMatrix(_)
        | Command::MultMatrix(_)
        | Command::PopMatrix => Some(matrix_element(mode)),
        Command::Viewport { .. } => Some(2),
        Command::DepthRange { .. } => Some(3),
        Command::Scissor { .. } => Some(5),
        Command::AlphaFunc { .. } => Some(10),
        Command::DepthFunc { .. } => Some(12),
        Command::DepthMask { .. } => Some(13),
        Command::BlendFunc { .. } => Some(15),
        Command::ColorMask { .. } => Some(16),
        Command::ClearColor(_) => Some(17),
        Command::ClearDepth { .. } => Some(18),
        Command::CullFace { .. } => Some(7),
        Command::FrontFace { .. } => Some(8),
        Command::BindTexture { .. } => Some(20),
        Command::TexEnv { .. } | Command::TexWrap { .. } => Some(21),
        Command::TexImage { name, .. } => Some(image_element(*name)),
        Command::TexPart(part) => Some(image_element(part.name)),
        _ => None,
    }
}
