//! The blend factors of a state.
ghost use Rattle.std.proofs.Props.{props};
ghost use Rattle.fragment_ops.specs.Blends.{IsBlending};

use fragment_ops::Factor;
use rc_base::state::State;

/// The factors of the source and of the stored colour, with which the state blends.
#[derive(Drop)]
pub struct Blending<'a> {
    pub state: &'a State,
    pub first: Factor,
    pub second: Factor,
    pub ghost kind: { IsBlending state.now first second } by { Prim.hlevel props },
}
