//! What the device draws blocks with.
ghost use Rattle.std.specs.Prelude.{◌≡◌};
ghost use Rattle.draw_device.specs.Prepared.{IsPreparedFor};

use draw_device::{Device, Prepared};
use rc_base::state::State;

/// What is settled for the blocks of a state, and the client whose state that is, where it is known: so a run of blocks of one client is drawn with what
/// was settled at its first.
#[derive(Clone, Copy)]
pub(crate) struct Brush {
    pub(crate) of: Option<u8>,
    pub(crate) prepared: Prepared,
}

impl Brush {
    ghost use Rattle.std.specs.Prelude.{◌≡◌, true, Some, None};
    ghost use Rattle.draw_device.specs.Prepared.{IsPreparedFor};

    /// Of no client.
    pub(crate) fn new(state: &State, device: &Device) -> Brush
        ensures { result.of ≡ None }
    {
        Brush {
            of: None,
            prepared: device.prepare(state),
        }
    }

    fn is_of(&self, client: u8) -> bool
        ensures { result ≡ true → self.now.of ≡ Some client }
    {
        match self.of {
            Some(of) => of == client,
            None => false,
        }
    }

    /// Settles what there is to settle for a client's state, unless that was done.
    #[inline(always)]
    pub(crate) fn settle(&mut self, client: u8, state: &State, device: &Device)
        requires known { self.old.of ≡ Some client → IsPreparedFor state.now device.now.rect self.old.prepared }
        ensures of { self.new.of ≡ Some client }
        ensures prepared { IsPreparedFor state.now device.now.rect self.new.prepared }
    {
        if self.is_of(client) {
            return;
        }
        *self = Brush {
            of: Some(client),
            prepared: device.prepare(state),
        };
    }

    /// Before a command that may set a client's state: then nothing is known of it.
    pub(crate) fn forget(&mut self)
        ensures { self.new.of ≡ None }
    {
        self.of = None;
    }
}
