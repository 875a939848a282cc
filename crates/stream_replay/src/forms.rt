//! The forms of commands.
ghost use Rattle.std.specs.Prelude.{◌≡◌};
ghost use Rattle.stream_replay.specs.Forms.{IsWholeForm};

use command_store::CommandForm;
use rc_base::command::Command;

/// The form of a command, which has all of one that stands in blocks.
#[inline(always)]
pub(crate) fn form_of(command: &Command) -> CommandForm<'_>
    ensures { IsWholeForm result command.now }
{
    match command {
        Command::Begin { mode } => CommandForm::Begin(mode),
        Command::End => CommandForm::End,
        Command::Vertex { pos } => CommandForm::Vertex(pos),
        Command::Color(color) => CommandForm::Color(color),
        Command::TexCoord { s, t } => CommandForm::TexCoord { s, t },
        _ => CommandForm::Other(command),
    }
}
