//! What a tile does: its items, and what each makes of its progress and its board.
//!
//! The definitions in `specs/` stand above those of `order_model` on how far a tile is and what it keeps (`Progress`, `Board`, `StandsFor`). The laws
//! above them stand in `laws`. There is no code here: the tile itself is built over these definitions.
#![tactic(auto)]

pub mod laws;
