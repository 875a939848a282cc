//! A command from the numbers and the texels that it has.
ghost use Rattle.std.specs.Prelude.{◌≡◌, ◌∷◌, ◌<◌, [], pos, map, length, true, false};
ghost use Rattle.rc_base.specs.Numbers.{entry};
ghost use Rattle.rc_base.specs.Formats.Commands.{ranges_of, has_picture, is_in_range, command_parts, parts_of};
ghost use Rattle.command_table.specs.Ranges.{AreIn, color_numbers, color_ranges, part_numbers, part_ranges};

use rc_base::command::{Command, Mat4, NumberRange, Opcode, Part, Rgba, Texels};

/// Number i, which a byte holds.
pub fn byte_at(numbers: &[i32], i: usize) -> u8
    requires inside { i < length numbers.now }
    requires range { is_in_range NumberRange.Byte (entry numbers.now i) ≡ true }
    ensures { pos result ≡ entry numbers.now i }
{
    numbers[i] as u8
}

/// Number i, which 16 bits hold.
pub fn half_at(numbers: &[i32], i: usize) -> u16
    requires inside { i < length numbers.now }
    requires range { is_in_range NumberRange.Half (entry numbers.now i) ≡ true }
    ensures { pos result ≡ entry numbers.now i }
{
    numbers[i] as u16
}

fn color_of(numbers: &[i32]) -> Rgba
    requires { AreIn color_ranges numbers.now }
    ensures { color_numbers result ≡ numbers.now }
{
    Rgba {
        r: byte_at(numbers, 0),
        g: byte_at(numbers, 1),
        b: byte_at(numbers, 2),
        a: byte_at(numbers, 3),
    }
}

fn flags_of(numbers: &[i32]) -> [u8; 4]
    requires { AreIn color_ranges numbers.now }
    ensures { map pos result ≡ numbers.now }
{
    [
        byte_at(numbers, 0),
        byte_at(numbers, 1),
        byte_at(numbers, 2),
        byte_at(numbers, 3),
    ]
}

fn four_words(numbers: &[i32]) -> [i32; 4]
    requires { length numbers.now ≡ 4 }
    ensures { result ≡ numbers.now }
{
    [numbers[0], numbers[1], numbers[2], numbers[3]]
}

fn matrix_of(numbers: &[i32]) -> Mat4
    requires { length numbers.now ≡ 16 }
    ensures { result.m ≡ numbers.now }
{
    let mut m = [0; 16];
    m.copy_from_slice(numbers);
    Mat4 { m }
}

fn texture_part(numbers: &[i32], texels: Texels) -> Part
    requires { AreIn part_ranges numbers.now }
    ensures numbers { part_numbers result ≡ numbers.now }
    ensures texels { result.texels ≡ texels }
{
    Part {
        name: byte_at(numbers, 0),
        x: half_at(numbers, 1),
        y: half_at(numbers, 2),
        w: half_at(numbers, 3),
        h: half_at(numbers, 4),
        texels,
    }
}

/// The command of an opcode with these numbers and texels. It is inlined: a caller that knows the opcode has its case alone.
#[inline(always)]
pub fn command_of(opcode: Opcode, numbers: &[i32], texels: Texels) -> Command
    requires numbers { AreIn (ranges_of opcode) numbers.now }
    requires texels { has_picture opcode ≡ false → texels ≡ [] }
    ensures { parts_of result ≡ command_parts opcode numbers.now texels }
{
    match opcode {
        Opcode::Begin => Command::Begin {
            mode: byte_at(numbers, 0),
        },
        Opcode::End => Command::End,
        Opcode::Vertex => Command::Vertex {
            pos: four_words(numbers),
        },
        Opcode::Color => Command::Color(color_of(numbers)),
        Opcode::TexCoord => Command::TexCoord {
            s: numbers[0],
            t: numbers[1],
        },
        Opcode::Enable => Command::Enable {
            capability: byte_at(numbers, 0),
        },
        Opcode::Disable => Command::Disable {
            capability: byte_at(numbers, 0),
        },
        Opcode::MatrixMode => Command::MatrixMode {
            mode: byte_at(numbers, 0),
        },
        Opcode::LoadIdentity => Command::LoadIdentity,
        Opcode::LoadMatrix => Command::LoadMatrix(matrix_of(numbers)),
        Opcode::MultMatrix => Command::MultMatrix(matrix_of(numbers)),
        Opcode::PushMatrix => Command::PushMatrix,
        Opcode::PopMatrix => Command::PopMatrix,
        Opcode::Viewport => Command::Viewport {
            area: four_words(numbers),
        },
        Opcode::DepthRange => Command::DepthRange {
            near: numbers[0],
            far: numbers[1],
        },
        Opcode::Scissor => Command::Scissor {
            area: four_words(numbers),
        },
        Opcode::AlphaFunc => Command::AlphaFunc {
            function: byte_at(numbers, 0),
            reference: byte_at(numbers, 1),
        },
        Opcode::DepthFunc => Command::DepthFunc {
            function: byte_at(numbers, 0),
        },
        Opcode::DepthMask => Command::DepthMask {
            flag: byte_at(numbers, 0),
        },
        Opcode::BlendFunc => Command::BlendFunc {
            source: byte_at(numbers, 0),
            destination: byte_at(numbers, 1),
        },
        Opcode::ColorMask => Command::ColorMask {
            flags: flags_of(numbers),
        },
        Opcode::ClearColor => Command::ClearColor(color_of(numbers)),
        Opcode::ClearDepth => Command::ClearDepth { depth: numbers[0] },
        Opcode::Clear => Command::Clear {
            mask: byte_at(numbers, 0),
        },
        Opcode::CullFace => Command::CullFace {
            face: byte_at(numbers, 0),
        },
        Opcode::FrontFace => Command::FrontFace {
            direction: byte_at(numbers, 0),
        },
        Opcode::BindTexture => Command::BindTexture {
            kind: byte_at(numbers, 0),
            name: byte_at(numbers, 1),
        },
        Opcode::TexEnv => Command::TexEnv {
            environment: byte_at(numbers, 0),
        },
        Opcode::TexWrap => Command::TexWrap {
            s: byte_at(numbers, 0),
            t: byte_at(numbers, 1),
        },
        Opcode::TexImage => Command::TexImage {
            name: byte_at(numbers, 0),
            w: half_at(numbers, 1),
            h: half_at(numbers, 2),
            texels,
        },
        Opcode::TexPart => Command::TexPart(texture_part(numbers, texels)),
        Opcode::SharedImage => Command::SharedImage(texture_part(numbers, texels)),
        Opcode::Barrier => Command::Barrier {
            name: byte_at(numbers, 0),
        },
        Opcode::SemP => Command::SemP {
            name: byte_at(numbers, 0),
        },
        Opcode::SemV => Command::SemV {
            name: byte_at(numbers, 0),
        },
        Opcode::Swap => Command::Swap,
    }
}
