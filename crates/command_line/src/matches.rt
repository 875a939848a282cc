//! The options of a line as `clap` reads them.
ghost use Rattle.std.specs.Prelude.{◌≡◌, IfOk, IfErr, map, string_bytes};
ghost use Rattle.clap.specs.Words.{app_of};
ghost use Rattle.command_line.specs.App.{line_app};
ghost use Rattle.command_line.specs.Texts.{ForSettings, HasTexts, IsLack};

use clap::{Arg, ArgAction, ArgMatches, Command, Error};
use std::alloc::{AllocError, Global};

// A command of the options of every job, none of which it must have.
fn option_command<'a>(alloc: Global) -> Result<Command<'a>, AllocError>
    ensures { IfOk result (λ c. app_of c ≡ line_app) }
{
    Command::new(alloc, "rc")
        .no_binary_name(true)
        .disable_help_flag(true)
        .arg(Arg::new(alloc, "tiles").long("tiles"))?
        .arg(Arg::new(alloc, "depth").long("depth"))?
        .arg(Arg::new(alloc, "seed").long("seed"))?
        .arg(Arg::new(alloc, "size").long("size"))?
        .arg(
            Arg::new(alloc, "order")
                .long("order")
                .action(ArgAction::SetTrue),
        )
}

/// The texts of the values that the words give to options. On the words of a line's options it fails for want of memory alone.
pub(crate) fn option_matches<'a>(
    alloc: Global,
    words: &'a [String],
) -> Result<ArgMatches<'a>, Error>
    ensures ok { ForSettings (map string_bytes words.entry.now)
        (λ ss. IfOk result (λ m. HasTexts m ss)) }
    ensures err { ForSettings (map string_bytes words.entry.now) (λ ss. IfErr result IsLack) }
{
    option_command(alloc)?.try_get_matches_from(words)
}
