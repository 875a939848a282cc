//! What the numbers of a command may be, and which commands have a picture.
ghost use Rattle.std.specs.Prelude.{◌≡◌, ◌≤◌, length};
ghost use Rattle.rc_base.specs.Formats.Commands.{ranges_of, has_picture, picture_area};

use rc_base::command::{NumberRange, Opcode};

/// The range of each number of a command, in their order. There are 16 at the most.
pub fn ranges_of(opcode: Opcode) -> &'static [NumberRange]
    ensures { result.now ≡ ranges_of opcode }
{
    match opcode {
        Opcode::End
        | Opcode::LoadIdentity
        | Opcode::PushMatrix
        | Opcode::PopMatrix
        | Opcode::Swap => &[],
        Opcode::AlphaFunc | Opcode::BlendFunc | Opcode::BindTexture | Opcode::TexWrap => {
            &[NumberRange::Byte; 2]
        }
        Opcode::Color | Opcode::ColorMask | Opcode::ClearColor => &[NumberRange::Byte; 4],
        Opcode::ClearDepth => &[NumberRange::Word],
        Opcode::TexCoord | Opcode::DepthRange => &[NumberRange::Word; 2],
        Opcode::Vertex | Opcode::Viewport | Opcode::Scissor => &[NumberRange::Word; 4],
        Opcode::LoadMatrix | Opcode::MultMatrix => &[NumberRange::Word; 16],
        Opcode::TexImage => &[NumberRange::Byte, NumberRange::Half, NumberRange::Half],
        Opcode::TexPart | Opcode::SharedImage => &[
            NumberRange::Byte,
            NumberRange::Half,
            NumberRange::Half,
            NumberRange::Half,
            NumberRange::Half,
        ],
        _ => &[NumberRange::Byte],
    }
}

/// The last two numbers of such a command are the sides of a picture, and its texels follow them.
pub fn has_picture(opcode: Opcode) -> bool
    ensures { result ≡ has_picture opcode }
{
    matches!(
        opcode,
        Opcode::TexImage | Opcode::TexPart | Opcode::SharedImage
    )
}

/// Width times height of a picture: the last two of its command's numbers.
pub fn picture_area(numbers: &[i32]) -> u64
    requires { 2 ≤ length numbers.now }
    ensures { result ≡ picture_area numbers.now }
{
    let w = numbers[numbers.len() - 2].unsigned_abs();
    let h = numbers[numbers.len() - 1].unsigned_abs();
    u64::from(w) * u64::from(h)
}
