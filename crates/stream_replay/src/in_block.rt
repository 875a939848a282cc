//! What becomes of a command of a block.
use rc_base::state::Block;

/// What becomes of a command that is issued where it is one of a block, and else left alone.
#[derive(Drop)]
pub enum InBlock {
    /// It was issued, and does nothing beyond its context.
    Quiet,
    /// It was issued, and draws this block.
    Draws(Block),
    /// It is left alone, as all commands but those of blocks are, and a Begin or an End that breaks a rule.
    Left,
}
