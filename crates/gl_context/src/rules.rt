//! The rules that need no context.
ghost use Rattle.std.specs.Prelude.{◌≡◌, nat_lt, Some, None, if◌then◌else◌};
ghost use Rattle.rc_base.specs.Formats.Commands.{has_codes, table_row, opcode_of};
ghost use Rattle.rc_base.specs.Contexts.Faults.{may_stand_in, is_viewport, vertex_most};
ghost use Rattle.rc_base.specs.declared.state.Fault.TheVariants.{InvalidValue};

use element_table::{are_codes, is_capability, is_code};
use rc_base::command::Command;
use rc_base::state::{BLEND_FACTORS, Fault};

/// Whether a command may stand where a block is open, or where none is.
pub fn may_stand_in(command: &Command, open_block: bool) -> bool
    ensures { result ≡ may_stand_in (table_row (opcode_of command.now)).placement open_block }
{
    match command {
        Command::Vertex { .. } | Command::End => open_block,
        Command::Color(_) | Command::TexCoord { .. } => true,
        _ => !open_block,
    }
}

/// Whether each argument that has codes has one of them.
#[inline(always)]
pub fn has_codes(command: &Command) -> bool
    ensures { result ≡ has_codes command.now }
{
    match command {
        Command::Begin { mode } => is_code(*mode, 3),
        Command::Enable { capability } => is_capability(*capability),
        Command::Disable { capability } => is_capability(*capability),
        Command::MatrixMode { mode } => is_code(*mode, 2),
        Command::AlphaFunc { function, .. } => is_code(*function, 8),
        Command::DepthFunc { function } => is_code(*function, 8),
        Command::BlendFunc {
            source,
            destination,
        } => are_codes(*source, *destination, BLEND_FACTORS),
        Command::CullFace { face } => is_code(*face, 3),
        Command::FrontFace { direction } => is_code(*direction, 2),
        Command::BindTexture { kind, .. } => is_code(*kind, 2),
        Command::TexEnv { environment } => is_code(*environment, 2),
        Command::TexWrap { s, t } => are_codes(*s, *t, 2),
        _ => true,
    }
}

/// Whether the corner of a viewport has 16 bits and its sides are 0 to 2048.
pub fn is_viewport(area: &[i32; 4]) -> bool
    ensures { result ≡ is_viewport area.now }
{
    (-32768 <= area[0] && area[0] <= 32767 && (-32768 <= area[1] && area[1] <= 32767))
        && (0 <= area[2] && area[2] <= 2048 && (0 <= area[3] && area[3] <= 2048))
}

/// Whether a block of so many vertices has room for one more.
pub fn has_vertex_room(count: usize) -> bool
    ensures { result ≡ nat_lt count vertex_most }
{
    count < 16_383
}

/// The fault of a vertex in an open block of so many.
pub fn vertex_fault(count: usize) -> Option<Fault>
    ensures { result ≡ (if nat_lt count vertex_most then None else Some InvalidValue) }
{
    if has_vertex_room(count) {
        None
    } else {
        Some(Fault::InvalidValue)
    }
}
