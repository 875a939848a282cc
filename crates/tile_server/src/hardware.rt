//! The state that a tile's device draws with.
ghost use Rattle.std.specs.Prelude.{◌≡◌, [], true, false, None};
ghost use Rattle.draw_device.specs.Prepared.{IsPreparedFor, IsPreparedFor-prop};

use context_switch::switch;
use draw_device::{LazyDevice, Prepared};
use rc_base::state::{Sets, State};
use rc_base::window::Rect;

/// The state, the client whose state it is where that is known, and what is settled for it in the device's rectangle. So a run of blocks of one client
/// is drawn without a switch.
#[derive(Drop)]
pub struct Hardware {
    pub state: State,
    pub of: Option<u8>,
    pub rect: Rect,
    pub prepared: Prepared,
    pub ghost settled: { IsPreparedFor state rect prepared } by { IsPreparedFor-prop state rect prepared },
}

// Whose the state is still, where sets are told or not.
fn known_still(of: Option<u8>, told: bool) -> Option<u8>
    ensures told { told ≡ true → result ≡ None }
    ensures untold { told ≡ false → result ≡ of }
{
    if told {
        return None;
    }
    of
}

/// Whether there are sets.
#[tactic(auto, using(crate::proofs::Switches::no_sets))]
pub(crate) fn are_told(sets: &Sets) -> bool
    ensures { result ≡ false → sets.now ≡ [] }
{
    if sets.is_empty() {
        return false;
    }
    true
}

impl Hardware {
    ghost use Rattle.std.specs.Prelude.{◌≡◌, true, false, Some, None};

    /// Of no client.
    pub(crate) fn new(state: State, device: &LazyDevice) -> Hardware
        ensures of { result.of ≡ None }
        ensures rect { result.rect ≡ device.now.rect }
    {
        Hardware {
            state,
            of: None,
            rect: device.rect(),
            prepared: device.prepare(&state),
        }
    }

    fn is_of(&self, client: u8) -> bool
        ensures { result ≡ true → self.now.of ≡ Some client }
    {
        match self.of {
            Some(of) => of == client,
            None => false,
        }
    }

    /// Before what is kept of a client is told sets: then the state is no client's any more.
    pub(crate) fn expect(&mut self, told: bool)
        ensures rect { self.new.rect ≡ self.old.rect }
        ensures state { self.new.state ≡ self.old.state }
        ensures told { told ≡ true → self.new.of ≡ None }
        ensures untold { told ≡ false → self.new.of ≡ self.old.of }
    {
        self.of = known_still(self.of, told);
    }

    /// Makes the state the client's, unless it is known to be.
    pub(crate) fn settle(&mut self, client: u8, state: &State, device: &LazyDevice)
        requires rect { self.old.rect ≡ device.now.rect }
        requires known { self.old.of ≡ Some client → self.old.state ≡ state.now }
        ensures rect { self.new.rect ≡ self.old.rect }
        ensures of { self.new.of ≡ Some client }
        ensures state { self.new.state ≡ state.now }
    {
        if self.is_of(client) {
            return;
        }
        switch(&mut self.state, state);
        self.prepared = device.prepare(&self.state);
        self.of = Some(client);
    }
}
