//! How many bytes the payload of a command has.
ghost use Rattle.std.specs.Prelude.{◌≡◌, ◌≤◌, ◌<◌, ◌^◌, ◌+◌, length};
ghost use Rattle.std.specs.List.{flat_map};
ghost use Rattle.rc_base.specs.Formats.Spelling.{word, payload};
ghost use Rattle.call_lists.specs.Expansion.{cost_of};

use rc_base::command::Command;
use rc_base::list_command::ListCommand;

fn bytes_size(bytes: &[u8]) -> u64
    ensures size { result ≡ length bytes.now }
    ensures fits { result < 2 ^ 63 }
{
    bytes.len() as u64
}

fn words_size(words: &[i32]) -> u64
    requires { length words.now ≤ 16 }
    ensures size { result ≡ length (flat_map word words.now) }
    ensures fits { result ≤ 64 }
{
    4 * words.len() as u64
}

/// How many bytes the payload of a command has.
#[inline(always)]
pub(crate) fn payload_size(command: &Command) -> u64
    ensures size { result ≡ length (payload command.now) }
    ensures fits { result < 2 ^ 63 + 10 }
{
    match command {
        Command::End
        | Command::LoadIdentity
        | Command::PushMatrix
        | Command::PopMatrix
        | Command::Swap => 0,
        Command::Begin { .. }
        | Command::Enable { .. }
        | Command::Disable { .. }
        | Command::MatrixMode { .. }
        | Command::DepthFunc { .. }
        | Command::DepthMask { .. }
        | Command::Clear { .. }
        | Command::CullFace { .. }
        | Command::FrontFace { .. }
        | Command::TexEnv { .. }
        | Command::Barrier { .. }
        | Command::SemP { .. }
        | Command::SemV { .. } => 1,
        Command::AlphaFunc { .. }
        | Command::BlendFunc { .. }
        | Command::BindTexture { .. }
        | Command::TexWrap { .. } => 2,
        Command::Color(_) | Command::ClearColor(_) | Command::ClearDepth { .. } => 4,
        Command::ColorMask { flags } => bytes_size(flags),
        Command::TexCoord { .. } | Command::DepthRange { .. } => 8,
        Command::Vertex { pos } => words_size(pos),
        Command::Viewport { area } | Command::Scissor { area } => words_size(area),
        Command::LoadMatrix(matrix) | Command::MultMatrix(matrix) => words_size(&matrix.m),
        Command::TexImage { texels, .. } => 5 + bytes_size(texels.as_slice()),
        Command::TexPart(part) | Command::SharedImage(part) => 9
            + bytes_size(part.texels.as_slice()),
    }
}

/// What a command costs where it is met: one, and one for each byte of its payload.
pub fn cost_of(command: &ListCommand) -> u64
    ensures cost { result ≡ cost_of command.now }
    ensures fits { result < 2 ^ 63 + 11 }
{
    match command {
        ListCommand::Plain(plain) => 1 + payload_size(plain),
        ListCommand::EndList => 1,
        ListCommand::NewList(_) | ListCommand::CallList(_) => 2,
    }
}
