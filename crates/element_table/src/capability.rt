//! The elements that capabilities, matrix modes and private textures mean.
ghost use Rattle.std.specs.Prelude.{◌≡◌, ◌<◌, ◌≤◌};
ghost use Rattle.rc_base.specs.Contexts.Context.{private_count};
ghost use Rattle.rc_base.specs.Contexts.Elements.{capability_element, matrix_element, image_element, scalar_count};
ghost use Rattle.rc_base.specs.Contexts.Issue.{with_capability};
ghost use Rattle.rc_base.specs.Formats.Commands.{has_codes};
ghost use Rattle.rc_base.specs.declared.command.Command.TheVariants as cmd;

use crate::kind::SCALAR_COUNT;
use crate::setting::set_flag;
use rc_base::state::State;

/// Whether a number is the code of a capability.
pub fn is_capability(capability: u8) -> bool
    ensures { result ≡ has_codes (cmd.Enable capability) }
{
    capability < 6
}

/// The element of a capability: SCISSOR (0), ALPHA (1), DEPTH (2), BLEND (3), CULL (4), TEXTURE (5).
pub fn capability_element(capability: u8) -> u8
    ensures { result ≡ capability_element capability }
{
    match capability {
        0 => 4,
        1 => 9,
        2 => 11,
        3 => 14,
        4 => 6,
        _ => 19,
    }
}

/// The matrix of the stack that is meant: modelview (0) or projection (1).
pub fn matrix_element(mode: u8) -> u8
    ensures { result ≡ matrix_element mode }
{
    if mode == 0 { 0 } else { 1 }
}

/// The image of a private texture, by the texture's name from 1.
pub fn image_element(name: u8) -> u8
    requires { name ≤ private_count }
    ensures { result ≡ image_element name }
{
    SCALAR_COUNT - 1 + name
}

/// The private texture whose image an element is, by the texture's name from 1.
pub fn image_name(element: u8) -> u8
    requires { scalar_count ≤ element }
    ensures name { image_element result ≡ element }
    ensures low { 0 < result }
{
    element - (SCALAR_COUNT - 1)
}

/// Turns a capability on or off, by its element's flag.
pub fn set_capability(state: &mut State, capability: u8, on: bool)
    ensures { state.new ≡ with_capability state.old capability on }
{
    set_flag(state, capability_element(capability), on);
}
