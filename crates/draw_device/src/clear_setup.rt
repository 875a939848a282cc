//! What the rows of a Clear are cleared with.
ghost use Rattle.std.proofs.Props.{props};
ghost use Rattle.fragment_ops.specs.Clearings.{IsClearing};

use fragment_ops::Clearing;
use rc_base::state::State;

/// A state, the mask of a Clear, and what is settled of them for all rows.
#[derive(Drop)]
pub struct ClearSetup<'a> {
    pub state: &'a State,
    pub mask: u8,
    pub clearing: Clearing,
    pub ghost settled: { IsClearing state.now mask clearing } by { Prim.hlevel props },
}
