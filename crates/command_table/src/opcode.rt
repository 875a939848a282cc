//! The opcodes: the one list of them, the bytes and the names that stand for them, and the opcode of a command.
ghost use Rattle.std.specs.Prelude.{◌≡◌};
ghost use Rattle.rc_base.specs.Formats.Commands.{table_row, opcodes, opcode_number, opcode_of};
ghost use Rattle.command_table.specs.Opcodes.{opcode_of_byte, has_name, opcode_of_name};
ghost use Rattle.std.specs.List.{find};

use rc_base::command::{Command, Opcode};

/// All opcodes, in the order of their bytes, which run from 1.
pub const OPCODES: [Opcode; 36] = [
    Opcode::Begin,
    Opcode::End,
    Opcode::Vertex,
    Opcode::Color,
    Opcode::TexCoord,
    Opcode::Enable,
    Opcode::Disable,
    Opcode::MatrixMode,
    Opcode::LoadIdentity,
    Opcode::LoadMatrix,
    Opcode::MultMatrix,
    Opcode::PushMatrix,
    Opcode::PopMatrix,
    Opcode::Viewport,
    Opcode::DepthRange,
    Opcode::Scissor,
    Opcode::AlphaFunc,
    Opcode::DepthFunc,
    Opcode::DepthMask,
    Opcode::BlendFunc,
    Opcode::ColorMask,
    Opcode::ClearColor,
    Opcode::ClearDepth,
    Opcode::Clear,
    Opcode::CullFace,
    Opcode::FrontFace,
    Opcode::BindTexture,
    Opcode::TexEnv,
    Opcode::TexWrap,
    Opcode::TexImage,
    Opcode::TexPart,
    Opcode::SharedImage,
    Opcode::Barrier,
    Opcode::SemP,
    Opcode::SemV,
    Opcode::Swap,
];

// The same, at one place in memory.
static TABLE: [Opcode; 36] = OPCODES;

/// The byte that stands for an opcode.
pub fn opcode_byte(opcode: Opcode) -> u8
    ensures { result ≡ opcode_number opcode }
{
    opcode as u8
}

/// The opcode that a byte stands for.
pub fn opcode_from(byte: u8) -> Option<Opcode>
    ensures { result ≡ opcode_of_byte byte }
{
    if byte == 0 || byte > 36 {
        return None;
    }
    Some(TABLE[byte as usize - 1])
}

/// The name of an opcode in a text.
pub fn name_of(opcode: Opcode) -> &'static [u8]
    ensures { result.now ≡ (table_row opcode).name }
{
    match opcode {
        Opcode::Begin => b"Begin",
        Opcode::End => b"End",
        Opcode::Vertex => b"Vertex",
        Opcode::Color => b"Color",
        Opcode::TexCoord => b"TexCoord",
        Opcode::Enable => b"Enable",
        Opcode::Disable => b"Disable",
        Opcode::MatrixMode => b"MatrixMode",
        Opcode::LoadIdentity => b"LoadIdentity",
        Opcode::LoadMatrix => b"LoadMatrix",
        Opcode::MultMatrix => b"MultMatrix",
        Opcode::PushMatrix => b"PushMatrix",
        Opcode::PopMatrix => b"PopMatrix",
        Opcode::Viewport => b"Viewport",
        Opcode::DepthRange => b"DepthRange",
        Opcode::Scissor => b"Scissor",
        Opcode::AlphaFunc => b"AlphaFunc",
        Opcode::DepthFunc => b"DepthFunc",
        Opcode::DepthMask => b"DepthMask",
        Opcode::BlendFunc => b"BlendFunc",
        Opcode::ColorMask => b"ColorMask",
        Opcode::ClearColor => b"ClearColor",
        Opcode::ClearDepth => b"ClearDepth",
        Opcode::Clear => b"Clear",
        Opcode::CullFace => b"CullFace",
        Opcode::FrontFace => b"FrontFace",
        Opcode::BindTexture => b"BindTexture",
        Opcode::TexEnv => b"TexEnv",
        Opcode::TexWrap => b"TexWrap",
        Opcode::TexImage => b"TexImage",
        Opcode::TexPart => b"TexPart",
        Opcode::SharedImage => b"SharedImage",
        Opcode::Barrier => b"Barrier",
        Opcode::SemP => b"SemP",
        Opcode::SemV => b"SemV",
        Opcode::Swap => b"Swap",
    }
}

// The first of the opcodes that has a name.
#[tactic(auto, using(crate::proofs::Search::find_here, crate::proofs::Search::find_later))]
fn find_named(opcodes: &[Opcode], name: &[u8]) -> Option<Opcode>
    ensures { result ≡ find (has_name name.now) opcodes.now }
{
    for opcode in opcodes {
        if name_of(*opcode) == name {
            return Some(*opcode);
        }
    }
    None
}

/// The opcode that a name in a text stands for.
#[tactic(auto, unfolding(crate::specs::Opcodes::opcode_of_name))]
pub fn opcode_named(name: &[u8]) -> Option<Opcode>
    ensures { result ≡ opcode_of_name name.now }
{
    find_named(&OPCODES, name)
}

/// The opcode of a command.
pub fn opcode_of(command: &Command) -> Opcode
    ensures opcode { result ≡ opcode_of command.now }
{
    match command {
        Command::Begin { .. } => Opcode::Begin,
        Command::End => Opcode::End,
        Command::Vertex { .. } => Opcode::Vertex,
        Command::Color(_) => Opcode::Color,
        Command::TexCoord { .. } => Opcode::TexCoord,
        Command::Enable { .. } => Opcode::Enable,
        Command::Disable { .. } => Opcode::Disable,
        Command::MatrixMode { .. } => Opcode::MatrixMode,
        Command::LoadIdentity => Opcode::LoadIdentity,
        Command::LoadMatrix(_) => Opcode::LoadMatrix,
        Command::MultMatrix(_) => Opcode::MultMatrix,
        Command::PushMatrix => Opcode::PushMatrix,
        Command::PopMatrix => Opcode::PopMatrix,
        Command::Viewport { .. } => Opcode::Viewport,
        Command::DepthRange { .. } => Opcode::DepthRange,
        Command::Scissor { .. } => Opcode::Scissor,
        Command::AlphaFunc { .. } => Opcode::AlphaFunc,
        Command::DepthFunc { .. } => Opcode::DepthFunc,
        Command::DepthMask { .. } => Opcode::DepthMask,
        Command::BlendFunc { .. } => Opcode::BlendFunc,
        Command::ColorMask { .. } => Opcode::ColorMask,
        Command::ClearColor(_) => Opcode::ClearColor,
        Command::ClearDepth { .. } => Opcode::ClearDepth,
        Command::Clear { .. } => Opcode::Clear,
        Command::CullFace { .. } => Opcode::CullFace,
        Command::FrontFace { .. } => Opcode::FrontFace,
        Command::BindTexture { .. } => Opcode::BindTexture,
        Command::TexEnv { .. } => Opcode::TexEnv,
        Command::TexWrap { .. } => Opcode::TexWrap,
        Command::TexImage { .. } => Opcode::TexImage,
        Command::TexPart(_) => Opcode::TexPart,
        Command::SharedImage(_) => Opcode::SharedImage,
        Command::Barrier { .. } => Opcode::Barrier,
        Command::SemP { .. } => Opcode::SemP,
        Command::SemV { .. } => Opcode::SemV,
        Command::Swap => Opcode::Swap,
    }
}
