//! The commands of blocks, issued without a `Command` that holds them.
ghost use Rattle.std.specs.Prelude.{◌≡◌, ℕ, is_none, IsTrue, IsFalse, IfNone, IfSome, OnOk, OnErr};
ghost use Rattle.rc_base.specs.Contexts.Faults.{fault_of};
ghost use Rattle.rc_base.specs.Contexts.Issue.{issued, effect_of};
ghost use Rattle.rc_base.specs.declared.command.Command.TheVariants as cmd;
ghost use Rattle.rc_base.specs.declared.state.Effect.TheVariants as eff;

use crate::context::{Context, block_mode};
use rc_base::command::Rgba;
use rc_base::out_of_memory::OutOfMemory;
use rc_base::state::{Block, Vertices};

// How many kinds of blocks there are.
const KINDS: u8 = 3;

impl Context {
    /// Issues a Vertex, as `issue` does. Where memory is wanting, nothing is changed.
    #[inline(always)]
    #[tactic(auto, unfolding(rc_base::specs::Contexts::Issue::issued))]
    pub fn vertex(&mut self, place: u32, pos: [i32; 4]) -> Result<(), OutOfMemory>
        ensures ok { OnOk result (self.new ≡ issued self.old place (cmd.Vertex pos)) }
        ensures err { OnErr result (self.new ≡ self.old) }
    {
        match self.vertex_fault(pos) {
            Some(fault) => self.refuse(place, fault),
            None => self.add_vertex(pos),
        }
    }

    /// Issues a Color, as `issue` does at any place.
    #[inline(always)]
    #[tactic(auto, unfolding(rc_base::specs::Contexts::Issue::issued))]
    pub fn color(&mut self, color: Rgba)
        ensures { (place : ℕ) → self.new ≡ issued self.old place (cmd.Color color) }
    {
        self.set_color(color);
    }

    /// Issues a TexCoord, as `issue` does at any place.
    #[inline(always)]
    #[tactic(auto, unfolding(rc_base::specs::Contexts::Issue::issued))]
    pub fn tex_coord(&mut self, s: i32, t: i32)
        ensures { (place : ℕ) → self.new ≡ issued self.old place (cmd.TexCoord s t) }
    {
        self.set_coordinate(&s, &t);
    }

    /// Issues a Begin, as `issue` does at any place, where it breaks no rule; otherwise nothing is done. Whether it was issued.
    #[tactic(auto, unfolding(rc_base::specs::Contexts::Issue::issued))]
    pub fn begin(&mut self, mode: u8) -> bool
        ensures exact { result ≡ is_none (fault_of self.old (cmd.Begin mode)) }
        ensures issued { IsTrue result → (place : ℕ) → self.new ≡ issued self.old place (cmd.Begin mode) }
        ensures left { IsFalse result → self.new ≡ self.old }
    {
        if self.block.is_some() || mode >= KINDS {
            return false;
        }
        let block = self.empty_block(block_mode(self.version, mode));
        self.block = Some(block);
        true
    }

    /// Issues an End, as `issue` does at any place, and gives the block that it draws, where one is open; otherwise nothing is done.
    #[tactic(auto, unfolding(rc_base::specs::Contexts::Issue::issued, rc_base::specs::Contexts::Issue::effect_of))]
    pub fn end(&mut self) -> Option<Block>
        ensures block { result ≡ self.old.block }
        ensures effect { IfSome result (λ b. effect_of self.old cmd.End ≡ eff.Block b) }
        ensures issued { IfSome result (λ _. (place : ℕ) → self.new ≡ issued self.old place cmd.End) }
        ensures left { IfNone result (self.new ≡ self.old) }
    {
        match self.block.take() {
            Some(block) => Some(block.into_block()),
            None => None,
        }
    }

    /// Takes back the vertices of a block that is done with, so that the next block has their room.
    pub fn take_vertices(&mut self, vertices: Vertices)
        ensures { self.new ≡ self.old }
    {
        self.room = vertices.into_vec();
    }
}
