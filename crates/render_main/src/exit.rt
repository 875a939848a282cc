//! How the program ends.
ghost use Rattle.std.specs.Prelude.{◌≡◌};
ghost use Rattle.std.specs.Process.{exit_status};

use rc_base::standard::{StdSink, StdSource};
use std::io::{Eprint, Read, Write};
use std::marker::Model;
use std::process::{ExitCode, Termination};

/// The status with which the program ends, and its source, its image and its notes as its run left them. As the result of `main` it ends the process with
/// that status.
#[derive(Drop)]
pub struct Exit<I: Read, O: Write, E: Write> {
    pub(crate) status: u8,
    pub(crate) source: StdSource<I>,
    pub(crate) image: StdSink<O>,
    pub(crate) notes: StdSink<E>,
}

impl<I: Read, O: Write, E: Write> Model for Exit<I, O, E> {
    ghost use Rattle.render_main.specs.Exits.{ExitModel};

    ghost Value = { ExitModel };

    ghost view = { λ s. record { status = s.status; source = s.source; image = s.image; notes = s.notes } };
}

impl<I: Read + Drop, O: Write + Drop, E: Write + Drop> Termination for Exit<I, O, E> {
    /// The status of the run.
    fn report<R: Eprint>(self, _rt: &R) -> ExitCode
        ensures { exit_status result ≡ self.status }
    {
        ExitCode::from(self.status)
    }
}
